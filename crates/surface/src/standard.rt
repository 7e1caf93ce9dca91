//! The laws of the definitions.

use aes_planes::laws;

/// Calls each law.
pub fn every_law() {
    laws::field_inverse();
    laws::sbox_inverse();
    laws::mix_inverse();
    laws::shift_four();
    laws::inverse_ciphers();
    laws::equivalent_inverse();
}

//! AES with keys of 16, 24 and 32 bytes (FIPS 197): the types that encrypt and decrypt, the single
//! rounds, and the key expansion.
#![tactic(auto)]

ghost use Rattle.std.specs.Prelude.{◌≡◌, false};

pub mod expansion;
mod fixsliced;
pub mod hazmat;
mod names;

pub use fixsliced::{Fixsliced, FixslicedAes};
pub use names::{
    Aes128, Aes128Dec, Aes128Enc, Aes192, Aes192Dec, Aes192Enc, Aes256, Aes256Dec, Aes256Enc,
};

/// A block of sixteen bytes. The byte of row `r` and column `c` is at place `r + 4 * c` (FIPS 197,
/// 3.4).
pub type Block = [u8; 16];

/// Returns whether AES instructions of the processor are used. This library never uses them.
pub fn hardware_accelerated() -> bool
    ensures { result ≡ false }
{
    false
}

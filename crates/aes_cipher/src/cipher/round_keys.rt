//! The round keys of a block cipher.

ghost use Rattle.std.specs.Prelude.{◌≡◌, ℕ, ◌≤◌, List, length};
ghost use Rattle.aes_planes.specs.Fips197 as fips;

use aes_planes::laws;

/// A type whose values hold round keys. Contracts see a value's round keys as a list in the
/// standard's order.
pub trait RoundKeysUser {
    /// The round keys of a value.
    ghost round_keys: { Self → List (List ℕ) };

    /// No effect; states that the value's round keys are two blocks or more.
    fn round_keys_are_blocks(&self)
        ensures { fips.AreRoundKeys (round_keys self.now) };

    /// No effect; states that Cipher and InvCipher under the value's round keys undo each other
    /// (FIPS 197, 5.3).
    final fn ciphers_undo_each_other(&self)
        ensures inv_after { (b : List ℕ) → fips.IsBlock b
            → fips.inv_cipher_with (round_keys self.now)
            (fips.cipher_with (round_keys self.now) b) ≡ b }
        ensures inv_before { (b : List ℕ) → fips.IsBlock b → fips.cipher_with (round_keys self.now)
            (fips.inv_cipher_with (round_keys self.now) b) ≡ b }
    {
        laws::inverse_ciphers_with();
        self.round_keys_are_blocks();
    }

    /// A value has two round keys or more.
    ghost two_round_keys: { (cipher : Self) → 2 ≤ length (round_keys cipher) };
}

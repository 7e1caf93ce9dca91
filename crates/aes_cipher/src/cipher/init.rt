//! Making a value from a key.

ghost use Rattle.std.specs.Prelude.{◌≡◌, ◌≢◌, ◌↔◌, ℕ, List, length, IsErr, IfOk};
ghost use Rattle.aes_planes.specs.Fips197 as fips;

use super::errors::InvalidLength;
use super::round_keys::RoundKeysUser;
use super::sizes::KeySizeUser;

/// A type whose values are made from a key. Contracts can name the key of a value.
pub trait KeyInit: KeySizeUser + RoundKeysUser {
    /// The bytes of the key that a value was made from.
    ghost own_key: { Self → List ℕ };

    /// Makes a value from a key.
    fn new(key: &Self::Key) -> Self
        ensures { own_key result ≡ Self.key_bytes key.now };

    /// Makes a value from a key given as a slice.
    ///
    /// # Errors
    ///
    /// `InvalidLength` exactly if the slice's length is not KEY_SIZE.
    fn new_from_slice(key: &[u8]) -> Result<Self, InvalidLength>
        ensures refusal { IsErr result ↔ (length key.now ≢ Self.KEY_SIZE) }
        ensures made { IfOk result (λ made. own_key made ≡ key.now) };

    /// No effect; states that the value's key has KEY_SIZE bytes.
    fn key_has_its_size(&self)
        ensures sized { length (own_key self.now) ≡ Self.KEY_SIZE }
        ensures bytes { fips.IsBytes (own_key self.now) };

    /// The round keys of a value are the expansion of its key (FIPS 197, 5.2).
    ghost expanded: { (cipher : Self) → Self.round_keys cipher
        ≡ fips.key_expansion (own_key cipher) };
}

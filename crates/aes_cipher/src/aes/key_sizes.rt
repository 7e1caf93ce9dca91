//! The sizes of keys: AES-128, AES-192 and AES-256.

ghost use Rattle.std.specs.Prelude.{◌≡◌, ◌↔◌, ℕ, List, length, IsTrue};
ghost use Rattle.std.proofs.Common.{inl, inr, refl};
ghost use Rattle.aes_cipher.specs.KeySizes.{IsKeySize};

/// Returns whether keys have this many bytes: 16, 24 or 32.
pub fn is_key_size(bytes: usize) -> bool
    ensures { IsTrue result ↔ IsKeySize bytes }
{
    bytes == 16 || bytes == 24 || bytes == 32
}

/// A size of keys.
pub trait KeySize {
    /// A key, as an array of SIZE bytes.
    type Key;

    /// The bytes of a key.
    ghost bytes: { Self.Key → List ℕ };

    /// How many bytes a key has.
    ghost SIZE: { ℕ };

    /// How many bytes a key has.
    const SIZE: usize;

    /// The name of the type that encrypts and decrypts; those of one direction begin with it.
    const NAME: &'static str;

    /// A key has 16, 24 or 32 bytes.
    ghost is_size: { IsKeySize SIZE };

    /// Lends the bytes of a key.
    fn as_slice(key: &Self::Key) -> &[u8]
        ensures same { result.now ≡ bytes key.now }
        ensures sized { length result.now ≡ SIZE };
}

/// AES-128: keys of 16 bytes.
pub struct Bits128;

/// AES-192: keys of 24 bytes.
pub struct Bits192;

/// AES-256: keys of 32 bytes.
pub struct Bits256;

impl KeySize for Bits128 {
    type Key = [u8; 16];

    ghost bytes = { λ key. key };

    ghost SIZE = { 16 };

    const SIZE: usize = 16;

    const NAME: &'static str = "Aes128";

    ghost is_size = { inl refl };

    #[inline(always)]
    fn as_slice(key: &[u8; 16]) -> &[u8] {
        key
    }
}

impl KeySize for Bits192 {
    type Key = [u8; 24];

    ghost bytes = { λ key. key };

    ghost SIZE = { 24 };

    const SIZE: usize = 24;

    const NAME: &'static str = "Aes192";

    ghost is_size = { inr (inl refl) };

    #[inline(always)]
    fn as_slice(key: &[u8; 24]) -> &[u8] {
        key
    }
}

impl KeySize for Bits256 {
    type Key = [u8; 32];

    ghost bytes = { λ key. key };

    ghost SIZE = { 32 };

    const SIZE: usize = 32;

    const NAME: &'static str = "Aes256";

    ghost is_size = { inr (inr refl) };

    #[inline(always)]
    fn as_slice(key: &[u8; 32]) -> &[u8] {
        key
    }
}

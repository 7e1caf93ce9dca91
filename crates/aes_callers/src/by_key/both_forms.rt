//! The nine names of `aes_hybrid`, in both forms, and its types with words of either width.

ghost use Rattle.std.specs.Prelude.{◌≡◌};
ghost use Rattle.aes_planes.specs.Fips197 as fips;

use super::{both_ways, decrypting, encrypting};
use aes_cipher::aes::{AesCipher, Bits128, Bits192, Bits256, BothWays, KeySize};
use aes_cipher::cipher::{Block, Decrypt, Encrypt};
use aes_hybrid::widths::{Width, Width128};
use aes_hybrid::{BothWaysKeys, EncryptionKeys};

/// Returns a value of the type for both directions, for a size of keys and a width of words, and a
/// block encrypted and decrypted. What the types consist of is proved here once for all sizes and
/// both widths.
pub fn of_both<K: KeySize, W: Width>(
    key: &K::Key,
    block: &Block,
) -> (AesCipher<BothWaysKeys<K, W>, BothWays>, Block, Block)
    ensures value { result.0 ≡ K.bytes key.now }
    ensures encrypted { result.1 ≡ fips.cipher (K.bytes key.now) block.now }
    ensures decrypted { result.2 ≡ fips.inv_cipher (K.bytes key.now) block.now }
{
    both_ways(key, block)
}

/// Returns a value of the type that encrypts, and a block encrypted.
pub fn of_enc<K: KeySize, W: Width>(
    key: &K::Key,
    block: &Block,
) -> (AesCipher<EncryptionKeys<K, W>, Encrypt>, Block)
    ensures value { result.0 ≡ K.bytes key.now }
    ensures encrypted { result.1 ≡ fips.cipher (K.bytes key.now) block.now }
{
    encrypting(key, block)
}

/// Returns a value of the type that decrypts, and a block decrypted.
pub fn of_dec<K: KeySize, W: Width>(
    key: &K::Key,
    block: &Block,
) -> (AesCipher<BothWaysKeys<K, W>, Decrypt>, Block)
    ensures value { result.0 ≡ K.bytes key.now }
    ensures decrypted { result.1 ≡ fips.inv_cipher (K.bytes key.now) block.now }
{
    decrypting(key, block)
}

/// Returns the `Aes128` of a key of 16 bytes, and a block encrypted and decrypted under that key.
pub fn aes_128(key: &[u8; 16], block: &Block) -> (aes_hybrid::Aes128, Block, Block)
    ensures value { result.0 ≡ key.now }
    ensures encrypted { result.1 ≡ fips.cipher key.now block.now }
    ensures decrypted { result.2 ≡ fips.inv_cipher key.now block.now }
{
    of_both::<Bits128, Width128>(key, block)
}

/// Returns the `Aes128Enc` of a key of 16 bytes, and a block encrypted under that key.
pub fn aes_128_enc(key: &[u8; 16], block: &Block) -> (aes_hybrid::Aes128Enc, Block)
    ensures value { result.0 ≡ key.now }
    ensures encrypted { result.1 ≡ fips.cipher key.now block.now }
{
    of_enc::<Bits128, Width128>(key, block)
}

/// Returns the `Aes128Dec` of a key of 16 bytes, and a block decrypted under that key.
pub fn aes_128_dec(key: &[u8; 16], block: &Block) -> (aes_hybrid::Aes128Dec, Block)
    ensures value { result.0 ≡ key.now }
    ensures decrypted { result.1 ≡ fips.inv_cipher key.now block.now }
{
    of_dec::<Bits128, Width128>(key, block)
}

/// Returns the `Aes192` of a key of 24 bytes, and a block encrypted and decrypted under that key.
pub fn aes_192(key: &[u8; 24], block: &Block) -> (aes_hybrid::Aes192, Block, Block)
    ensures value { result.0 ≡ key.now }
    ensures encrypted { result.1 ≡ fips.cipher key.now block.now }
    ensures decrypted { result.2 ≡ fips.inv_cipher key.now block.now }
{
    of_both::<Bits192, Width128>(key, block)
}

/// Returns the `Aes192Enc` of a key of 24 bytes, and a block encrypted under that key.
pub fn aes_192_enc(key: &[u8; 24], block: &Block) -> (aes_hybrid::Aes192Enc, Block)
    ensures value { result.0 ≡ key.now }
    ensures encrypted { result.1 ≡ fips.cipher key.now block.now }
{
    of_enc::<Bits192, Width128>(key, block)
}

/// Returns the `Aes192Dec` of a key of 24 bytes, and a block decrypted under that key.
pub fn aes_192_dec(key: &[u8; 24], block: &Block) -> (aes_hybrid::Aes192Dec, Block)
    ensures value { result.0 ≡ key.now }
    ensures decrypted { result.1 ≡ fips.inv_cipher key.now block.now }
{
    of_dec::<Bits192, Width128>(key, block)
}

/// Returns the `Aes256` of a key of 32 bytes, and a block encrypted and decrypted under that key.
pub fn aes_256(key: &[u8; 32], block: &Block) -> (aes_hybrid::Aes256, Block, Block)
    ensures value { result.0 ≡ key.now }
    ensures encrypted { result.1 ≡ fips.cipher key.now block.now }
    ensures decrypted { result.2 ≡ fips.inv_cipher key.now block.now }
{
    of_both::<Bits256, Width128>(key, block)
}

/// Returns the `Aes256Enc` of a key of 32 bytes, and a block encrypted under that key.
pub fn aes_256_enc(key: &[u8; 32], block: &Block) -> (aes_hybrid::Aes256Enc, Block)
    ensures value { result.0 ≡ key.now }
    ensures encrypted { result.1 ≡ fips.cipher key.now block.now }
{
    of_enc::<Bits256, Width128>(key, block)
}

/// Returns the `Aes256Dec` of a key of 32 bytes, and a block decrypted under that key.
pub fn aes_256_dec(key: &[u8; 32], block: &Block) -> (aes_hybrid::Aes256Dec, Block)
    ensures value { result.0 ≡ key.now }
    ensures decrypted { result.1 ≡ fips.inv_cipher key.now block.now }
{
    of_dec::<Bits256, Width128>(key, block)
}

//! The nine names of `aes`, on bit planes.

ghost use Rattle.std.specs.Prelude.{◌≡◌};
ghost use Rattle.aes_planes.specs.Fips197 as fips;

use super::{both_ways, decrypting, encrypting};
use aes::Fixsliced;
use aes_cipher::aes::{AesCipher, Bits128, Bits192, Bits256, BothWays, KeySize};
use aes_cipher::cipher::{Block, Decrypt, Encrypt};

// The three types, with the size of the key as a parameter: what they consist of is proved once
// for all sizes.

fn of_both<K: KeySize>(
    key: &K::Key,
    block: &Block,
) -> (AesCipher<Fixsliced<K>, BothWays>, Block, Block)
    ensures value { result.0 ≡ K.bytes key.now }
    ensures encrypted { result.1 ≡ fips.cipher (K.bytes key.now) block.now }
    ensures decrypted { result.2 ≡ fips.inv_cipher (K.bytes key.now) block.now }
{
    both_ways(key, block)
}

fn of_enc<K: KeySize>(key: &K::Key, block: &Block) -> (AesCipher<Fixsliced<K>, Encrypt>, Block)
    ensures value { result.0 ≡ K.bytes key.now }
    ensures encrypted { result.1 ≡ fips.cipher (K.bytes key.now) block.now }
{
    encrypting(key, block)
}

fn of_dec<K: KeySize>(key: &K::Key, block: &Block) -> (AesCipher<Fixsliced<K>, Decrypt>, Block)
    ensures value { result.0 ≡ K.bytes key.now }
    ensures decrypted { result.1 ≡ fips.inv_cipher (K.bytes key.now) block.now }
{
    decrypting(key, block)
}

/// Returns the `Aes128` of a key of 16 bytes, and a block encrypted and decrypted under that key.
pub fn aes_128(key: &[u8; 16], block: &Block) -> (aes::Aes128, Block, Block)
    ensures value { result.0 ≡ key.now }
    ensures encrypted { result.1 ≡ fips.cipher key.now block.now }
    ensures decrypted { result.2 ≡ fips.inv_cipher key.now block.now }
{
    of_both::<Bits128>(key, block)
}

/// Returns the `Aes128Enc` of a key of 16 bytes, and a block encrypted under that key.
pub fn aes_128_enc(key: &[u8; 16], block: &Block) -> (aes::Aes128Enc, Block)
    ensures value { result.0 ≡ key.now }
    ensures encrypted { result.1 ≡ fips.cipher key.now block.now }
{
    of_enc::<Bits128>(key, block)
}

/// Returns the `Aes128Dec` of a key of 16 bytes, and a block decrypted under that key.
pub fn aes_128_dec(key: &[u8; 16], block: &Block) -> (aes::Aes128Dec, Block)
    ensures value { result.0 ≡ key.now }
    ensures decrypted { result.1 ≡ fips.inv_cipher key.now block.now }
{
    of_dec::<Bits128>(key, block)
}

/// Returns the `Aes192` of a key of 24 bytes, and a block encrypted and decrypted under that key.
pub fn aes_192(key: &[u8; 24], block: &Block) -> (aes::Aes192, Block, Block)
    ensures value { result.0 ≡ key.now }
    ensures encrypted { result.1 ≡ fips.cipher key.now block.now }
    ensures decrypted { result.2 ≡ fips.inv_cipher key.now block.now }
{
    of_both::<Bits192>(key, block)
}

/// Returns the `Aes192Enc` of a key of 24 bytes, and a block encrypted under that key.
pub fn aes_192_enc(key: &[u8; 24], block: &Block) -> (aes::Aes192Enc, Block)
    ensures value { result.0 ≡ key.now }
    ensures encrypted { result.1 ≡ fips.cipher key.now block.now }
{
    of_enc::<Bits192>(key, block)
}

/// Returns the `Aes192Dec` of a key of 24 bytes, and a block decrypted under that key.
pub fn aes_192_dec(key: &[u8; 24], block: &Block) -> (aes::Aes192Dec, Block)
    ensures value { result.0 ≡ key.now }
    ensures decrypted { result.1 ≡ fips.inv_cipher key.now block.now }
{
    of_dec::<Bits192>(key, block)
}

/// Returns the `Aes256` of a key of 32 bytes, and a block encrypted and decrypted under that key.
pub fn aes_256(key: &[u8; 32], block: &Block) -> (aes::Aes256, Block, Block)
    ensures value { result.0 ≡ key.now }
    ensures encrypted { result.1 ≡ fips.cipher key.now block.now }
    ensures decrypted { result.2 ≡ fips.inv_cipher key.now block.now }
{
    of_both::<Bits256>(key, block)
}

/// Returns the `Aes256Enc` of a key of 32 bytes, and a block encrypted under that key.
pub fn aes_256_enc(key: &[u8; 32], block: &Block) -> (aes::Aes256Enc, Block)
    ensures value { result.0 ≡ key.now }
    ensures encrypted { result.1 ≡ fips.cipher key.now block.now }
{
    of_enc::<Bits256>(key, block)
}

/// Returns the `Aes256Dec` of a key of 32 bytes, and a block decrypted under that key.
pub fn aes_256_dec(key: &[u8; 32], block: &Block) -> (aes::Aes256Dec, Block)
    ensures value { result.0 ≡ key.now }
    ensures decrypted { result.1 ≡ fips.inv_cipher key.now block.now }
{
    of_dec::<Bits256>(key, block)
}

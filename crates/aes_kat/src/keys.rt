//! Keys of the three sizes, and the ciphers under them.
ghost use Rattle.aes_planes.specs.Each.{Each};
ghost use Rattle.aes_planes.specs.Fips197 as fips;
ghost use Rattle.aes_kat.specs.Private.Keys.{key_bytes};

use aes::{Block, FixslicedAes};
use aes_cipher::aes::{Bits128, Bits192, Bits256, KeySize};
use aes_cipher::cipher::{BlockCipherDecrypt, BlockCipherEncrypt, Decrypt, Encrypt, KeyInit};

// A key, by how many bits it has.
#[derive(Clone, Copy)]
pub(crate) enum Key {
    Bits128([u8; 16]),
    Bits192([u8; 24]),
    Bits256([u8; 32]),
}

impl Key {
    // Encrypts each block.
    pub(crate) fn encrypt(&self, blocks: &mut [Block])
        ensures { Each (fips.cipher (key_bytes self.now)) blocks.old blocks.new }
    {
        match self {
            Key::Bits128(key) => encrypt_sized::<Bits128>(key, blocks),
            Key::Bits192(key) => encrypt_sized::<Bits192>(key, blocks),
            Key::Bits256(key) => encrypt_sized::<Bits256>(key, blocks),
        }
    }

    // Decrypts each block.
    pub(crate) fn decrypt(&self, blocks: &mut [Block])
        ensures { Each (fips.inv_cipher (key_bytes self.now)) blocks.old blocks.new }
    {
        match self {
            Key::Bits128(key) => decrypt_sized::<Bits128>(key, blocks),
            Key::Bits192(key) => decrypt_sized::<Bits192>(key, blocks),
            Key::Bits256(key) => decrypt_sized::<Bits256>(key, blocks),
        }
    }
}

// Encrypts each block by the library's type for a size. With the size as a parameter, the type is
// proved to be a cipher once for all sizes.
fn encrypt_sized<K: KeySize>(key: &K::Key, blocks: &mut [Block])
    ensures { Each (fips.cipher (K.bytes key.now)) blocks.old blocks.new }
{
    FixslicedAes::<K, Encrypt>::new(key).encrypt_blocks(blocks);
}

// Decrypts each block by the library's type for a size.
fn decrypt_sized<K: KeySize>(key: &K::Key, blocks: &mut [Block])
    ensures { Each (fips.inv_cipher (K.bytes key.now)) blocks.old blocks.new }
{
    FixslicedAes::<K, Decrypt>::new(key).decrypt_blocks(blocks);
}

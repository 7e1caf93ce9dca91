//! Shows what each of the nine names of each crate means: makes the value of a key that is an
//! array, and processes a block under that key.

ghost use Rattle.std.specs.Prelude.{◌≡◌};
ghost use Rattle.aes_planes.specs.Fips197 as fips;

use aes_cipher::aes::{AesCipher, BothWays, Decrypts, Encrypts, KeySize};
use aes_cipher::cipher::{
    Block, BlockCipherDecrypt, BlockCipherEncrypt, Decrypt, Encrypt, KeyInit,
};

pub mod both_forms;
pub mod planes;

// Makes the value of a key for both directions. Returns it, and a block encrypted and decrypted.
fn both_ways<S: Encrypts + Decrypts>(
    key: &<S::Size as KeySize>::Key,
    block: &Block,
) -> (AesCipher<S, BothWays>, Block, Block)
    ensures value { result.0 ≡ S.Size.bytes key.now }
    ensures encrypted { result.1 ≡ fips.cipher (S.Size.bytes key.now) block.now }
    ensures decrypted { result.2 ≡ fips.inv_cipher (S.Size.bytes key.now) block.now }
{
    let cipher = AesCipher::<S, BothWays>::new(key);
    let mut encrypted = *block;
    cipher.encrypt_block(&mut encrypted);
    let mut decrypted = *block;
    cipher.decrypt_block(&mut decrypted);
    (cipher, encrypted, decrypted)
}

// Makes the value of a key that only encrypts. Returns it, and a block encrypted.
fn encrypting<S: Encrypts>(
    key: &<S::Size as KeySize>::Key,
    block: &Block,
) -> (AesCipher<S, Encrypt>, Block)
    ensures value { result.0 ≡ S.Size.bytes key.now }
    ensures encrypted { result.1 ≡ fips.cipher (S.Size.bytes key.now) block.now }
{
    let cipher = AesCipher::<S, Encrypt>::new(key);
    let mut encrypted = *block;
    cipher.encrypt_block(&mut encrypted);
    (cipher, encrypted)
}

// Makes the value of a key that only decrypts. Returns it, and a block decrypted.
fn decrypting<S: Decrypts>(
    key: &<S::Size as KeySize>::Key,
    block: &Block,
) -> (AesCipher<S, Decrypt>, Block)
    ensures value { result.0 ≡ S.Size.bytes key.now }
    ensures decrypted { result.1 ≡ fips.inv_cipher (S.Size.bytes key.now) block.now }
{
    let cipher = AesCipher::<S, Decrypt>::new(key);
    let mut decrypted = *block;
    cipher.decrypt_block(&mut decrypted);
    (cipher, decrypted)
}

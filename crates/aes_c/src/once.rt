//! Calls that take a key and keep none of it.

ghost use Rattle.std.specs.Prelude.{◌≡◌, ◌≢◌, ◌↔◌, ◌+◌, ◌-◌, ◌^◌, ◌<◌, ◌≤◌, length};
ghost use Rattle.aes_planes.specs.Each.{Each};
ghost use Rattle.aes_planes.specs.Fips197 as fips;
ghost use Rattle.aes_cipher.specs.KeySizes.{IsKeySize};
ghost use Rattle.aes_ctr.specs.CounterMode.{keystream_byte, plus_stream};

use crate::blocks::fotsgure_aes_decrypt_blocks;
use crate::form::{Aes, KeptKey, cipher_of};
use crate::kept::fotsgure_aes_set_key;
use crate::status::{DONE, KEY_LENGTH, KEYSTREAM_END};
use crate::stream::Ctr;
use aes_cipher::aes::is_key_size;
use aes_cipher::cipher::{Block, BlockCipherEncrypt};
use aes_cipher::zeroize::MustWipe;
use aes_ctr::add_keystream;

/// Encrypts each block in place under a key (Cipher, FIPS 197, 5.1). Returns `DONE` exactly if the
/// key has 16, 24 or 32 bytes, else `KEY_LENGTH`.
#[unsafe(no_mangle)]
pub extern "C" fn fotsgure_aes_encrypt_blocks_with(key: &[u8], blocks: &mut [Block]) -> u32
    ensures done { result ≡ DONE ↔ IsKeySize (length key.now) }
    ensures refused { result ≢ DONE → result ≡ KEY_LENGTH }
    ensures blocks { result ≡ DONE → Each (fips.cipher key.now) blocks.old blocks.new }
    ensures untouched { result ≢ DONE → blocks.new ≡ blocks.old }
{
    if !is_key_size(key.len()) {
        return KEY_LENGTH;
    }
    let mut kept = MustWipe::<KeptKey>::zeroed();
    kept.value_mut().set(key);
    cipher_of(kept.value()).encrypt_blocks(blocks);
    kept.wipe();
    DONE
}

/// Decrypts each block in place under a key (InvCipher, FIPS 197, 5.3). Returns `DONE` exactly if
/// the key has 16, 24 or 32 bytes, else `KEY_LENGTH`.
#[unsafe(no_mangle)]
pub extern "C" fn fotsgure_aes_decrypt_blocks_with(key: &[u8], blocks: &mut [Block]) -> u32
    ensures done { result ≡ DONE ↔ IsKeySize (length key.now) }
    ensures refused { result ≢ DONE → result ≡ KEY_LENGTH }
    ensures blocks { result ≡ DONE → Each (fips.inv_cipher key.now) blocks.old blocks.new }
    ensures untouched { result ≢ DONE → blocks.new ≡ blocks.old }
{
    let mut kept = MustWipe::<Aes>::zeroed();
    if fotsgure_aes_set_key(kept.value_mut(), key) != DONE {
        return KEY_LENGTH;
    }
    let status = fotsgure_aes_decrypt_blocks(kept.value(), blocks);
    kept.wipe();
    status
}

/// Adds to each byte the keystream's byte at its place and moves the position on. It does what
/// `fotsgure_aes_add_keystream` does, but under a key that is passed as bytes. Returns `KEY_LENGTH`
/// exactly if the key doesn't have 16, 24 or 32 bytes, and else `KEYSTREAM_END` or `DONE`.
#[unsafe(no_mangle)]
pub extern "C" fn fotsgure_aes_add_keystream_with(
    key: &[u8],
    ctr: &mut Ctr,
    bytes: &mut [u8],
) -> u32
    ensures done { result ≡ DONE ↔ IsKeySize (length key.now)
        × (ctr.old.position + length bytes.old ≤ 2 ^ 64 - 1) }
    ensures ended { result ≡ KEYSTREAM_END
        ↔ IsKeySize (length key.now) × (2 ^ 64 - 1 < ctr.old.position + length bytes.old) }
    ensures refused { result ≢ DONE → result ≢ KEYSTREAM_END → result ≡ KEY_LENGTH }
    ensures bytes { result ≡ DONE → bytes.new
        ≡ plus_stream (keystream_byte (fips.key_expansion key.now) ctr.old.iv)
        ctr.old.position bytes.old }
    ensures moved { result ≡ DONE → ctr.new.position ≡ ctr.old.position + length bytes.old }
    ensures iv { ctr.new.iv ≡ ctr.old.iv }
    ensures unmoved { result ≢ DONE → ctr.new.position ≡ ctr.old.position }
    ensures untouched { result ≢ DONE → bytes.new ≡ bytes.old }
{
    if !is_key_size(key.len()) {
        return KEY_LENGTH;
    }
    if bytes.len() as u64 > u64::MAX - ctr.position {
        return KEYSTREAM_END;
    }
    let mut kept = MustWipe::<KeptKey>::zeroed();
    kept.value_mut().set(key);
    add_keystream(&cipher_of(kept.value()), &ctr.iv, ctr.position, bytes);
    ctr.position += bytes.len() as u64;
    kept.wipe();
    DONE
}

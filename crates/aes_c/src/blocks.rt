//! Blocks, encrypted and decrypted under the key of a struct.

ghost use Rattle.std.specs.Prelude.{◌≡◌, ◌≢◌, ◌↔◌, length};
ghost use Rattle.aes_planes.specs.Each.{Each};
ghost use Rattle.aes_planes.specs.Fips197 as fips;
ghost use Rattle.aes_c.specs.Form.{key_in, HoldsKey, IsMade};

use crate::form::{Aes, cipher_of, inverse_cipher_of};
use crate::status::{DONE, NO_KEY, UNEQUAL_COUNTS};
use aes_cipher::cipher::{Block, BlockCipherDecrypt, BlockCipherEncrypt};

/// Encrypts each block in place (Cipher, FIPS 197, 5.1). Returns `DONE` exactly if the struct holds
/// a key, else `NO_KEY`.
#[unsafe(no_mangle)]
pub extern "C" fn fotsgure_aes_encrypt_blocks(aes: &Aes, blocks: &mut [Block]) -> u32
    requires made { IsMade aes.now }
    ensures done { result ≡ DONE ↔ HoldsKey aes.now.key }
    ensures refused { result ≢ DONE → result ≡ NO_KEY }
    ensures blocks { result ≡ DONE → Each (fips.cipher (key_in aes.now.key)) blocks.old blocks.new }
    ensures untouched { result ≢ DONE → blocks.new ≡ blocks.old }
{
    if !aes.key.holds_key() {
        return NO_KEY;
    }
    cipher_of(&aes.key).encrypt_blocks(blocks);
    DONE
}

/// Decrypts each block in place (InvCipher, FIPS 197, 5.3). Returns `DONE` exactly if the struct
/// holds a key, else `NO_KEY`.
#[unsafe(no_mangle)]
pub extern "C" fn fotsgure_aes_decrypt_blocks(aes: &Aes, blocks: &mut [Block]) -> u32
    requires made { IsMade aes.now }
    ensures done { result ≡ DONE ↔ HoldsKey aes.now.key }
    ensures refused { result ≢ DONE → result ≡ NO_KEY }
    ensures blocks { result ≡ DONE → Each (fips.inv_cipher (key_in aes.now.key)) blocks.old blocks.new }
    ensures untouched { result ≢ DONE → blocks.new ≡ blocks.old }
{
    if !aes.key.holds_key() {
        return NO_KEY;
    }
    inverse_cipher_of(aes).decrypt_blocks(blocks);
    DONE
}

/// Encrypts each block of one buffer into another (Cipher, FIPS 197, 5.1). Returns `UNEQUAL_COUNTS`
/// exactly if they differ in length, and else what `fotsgure_aes_encrypt_blocks` returns.
#[unsafe(no_mangle)]
pub extern "C" fn fotsgure_aes_encrypt_blocks_to(
    aes: &Aes,
    input: &[Block],
    output: &mut [Block],
) -> u32
    requires made { IsMade aes.now }
    ensures unequal { result ≡ UNEQUAL_COUNTS ↔ (length input.now ≢ length output.old) }
    ensures done { result ≡ DONE ↔ HoldsKey aes.now.key
        × (length input.now ≡ length output.old) }
    ensures refused { result ≢ DONE → result ≢ UNEQUAL_COUNTS → result ≡ NO_KEY }
    ensures blocks { result ≡ DONE → Each (fips.cipher (key_in aes.now.key)) input.now output.new }
    ensures untouched { result ≢ DONE → output.new ≡ output.old }
{
    if input.len() != output.len() {
        return UNEQUAL_COUNTS;
    }
    if !aes.key.holds_key() {
        return NO_KEY;
    }
    output.copy_from_slice(input);
    cipher_of(&aes.key).encrypt_blocks(output);
    DONE
}

/// Decrypts each block of one buffer into another (InvCipher, FIPS 197, 5.3). Returns
/// `UNEQUAL_COUNTS` exactly if they differ in length, and else what `fotsgure_aes_decrypt_blocks`
/// returns.
#[unsafe(no_mangle)]
pub extern "C" fn fotsgure_aes_decrypt_blocks_to(
    aes: &Aes,
    input: &[Block],
    output: &mut [Block],
) -> u32
    requires made { IsMade aes.now }
    ensures unequal { result ≡ UNEQUAL_COUNTS ↔ (length input.now ≢ length output.old) }
    ensures done { result ≡ DONE ↔ HoldsKey aes.now.key
        × (length input.now ≡ length output.old) }
    ensures refused { result ≢ DONE → result ≢ UNEQUAL_COUNTS → result ≡ NO_KEY }
    ensures blocks { result ≡ DONE → Each (fips.inv_cipher (key_in aes.now.key)) input.now output.new }
    ensures untouched { result ≢ DONE → output.new ≡ output.old }
{
    if input.len() != output.len() {
        return UNEQUAL_COUNTS;
    }
    if !aes.key.holds_key() {
        return NO_KEY;
    }
    output.copy_from_slice(input);
    inverse_cipher_of(aes).decrypt_blocks(output);
    DONE
}

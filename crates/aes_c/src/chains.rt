//! Cipher block chaining under the key of a struct.

ghost use Rattle.std.specs.Prelude.{◌≡◌, ◌≢◌, ◌↔◌};
ghost use Rattle.cbc.specs.Cbc.{chained, last_of, unchained};
ghost use Rattle.aes_c.specs.Form.{round_keys_in, HoldsKey, IsMade};

use crate::form::{Aes, cipher_of, inverse_cipher_of};
use crate::status::{DONE, NO_KEY};
use aes_cipher::cipher::Block;
use cbc::Cbc;

/// Encrypts the next blocks of a chain in place (SP 800-38A, 6.2). Returns `DONE` exactly if the
/// struct holds a key, else `NO_KEY`.
#[unsafe(no_mangle)]
pub extern "C" fn fotsgure_aes_cbc_encrypt(aes: &Aes, cbc: &mut Cbc, blocks: &mut [Block]) -> u32
    requires made { IsMade aes.now }
    ensures done { result ≡ DONE ↔ HoldsKey aes.now.key }
    ensures refused { result ≢ DONE → result ≡ NO_KEY }
    ensures blocks { result ≡ DONE → blocks.new
        ≡ chained (round_keys_in aes.now.key) cbc.old.previous blocks.old }
    ensures previous { result ≡ DONE → cbc.new.previous ≡ last_of cbc.old.previous blocks.new }
    ensures untouched { result ≢ DONE → blocks.new ≡ blocks.old }
    ensures unmoved { result ≢ DONE → cbc.new.previous ≡ cbc.old.previous }
{
    if !aes.key.holds_key() {
        return NO_KEY;
    }
    cbc.encrypt_blocks(&cipher_of(&aes.key), blocks);
    DONE
}

/// Decrypts the next blocks of a chain in place (SP 800-38A, 6.2). Returns `DONE` exactly if the
/// struct holds a key, else `NO_KEY`.
#[unsafe(no_mangle)]
pub extern "C" fn fotsgure_aes_cbc_decrypt(aes: &Aes, cbc: &mut Cbc, blocks: &mut [Block]) -> u32
    requires made { IsMade aes.now }
    ensures done { result ≡ DONE ↔ HoldsKey aes.now.key }
    ensures refused { result ≢ DONE → result ≡ NO_KEY }
    ensures blocks { result ≡ DONE → blocks.new
        ≡ unchained (round_keys_in aes.now.key) cbc.old.previous blocks.old }
    ensures previous { result ≡ DONE → cbc.new.previous ≡ last_of cbc.old.previous blocks.old }
    ensures untouched { result ≢ DONE → blocks.new ≡ blocks.old }
    ensures unmoved { result ≢ DONE → cbc.new.previous ≡ cbc.old.previous }
{
    if !aes.key.holds_key() {
        return NO_KEY;
    }
    cbc.decrypt_blocks(&inverse_cipher_of(aes), blocks);
    DONE
}

//! Sets and wipes the key in the struct that a caller keeps.

ghost use Rattle.std.specs.Prelude.{◌≡◌, ◌≢◌, ◌↔◌, length};
ghost use Rattle.aes_cipher.specs.KeySizes.{IsKeySize};
ghost use Rattle.aes_c.specs.Form.{key_in, no_key, HoldsKey, IsMade, IsZeroAfter};

use crate::form::Aes;
use crate::status::{DONE, KEY_LENGTH};
use aes_cipher::aes::is_key_size;
use aes_cipher::zeroize::Zeroize;

/// Expands a key into the struct (KeyExpansion, FIPS 197, 5.2). Returns `DONE` exactly if the key
/// has 16, 24 or 32 bytes. Otherwise it returns `KEY_LENGTH`, and the struct then holds no key. In
/// both cases nothing is left of what the struct held before. After `DONE` the struct has the round
/// keys of the new key, and zeros after them.
#[unsafe(no_mangle)]
pub extern "C" fn fotsgure_aes_set_key(aes: &mut Aes, key: &[u8]) -> u32
    ensures done { result ≡ DONE ↔ IsKeySize (length key.now) }
    ensures refused { result ≢ DONE → result ≡ KEY_LENGTH }
    ensures made { IsMade aes.new }
    ensures key { result ≡ DONE → key_in aes.new.key ≡ key.now }
    ensures length { result ≡ DONE → aes.new.key.length ≡ length key.now }
    ensures after { result ≡ DONE → IsZeroAfter aes.new }
    ensures none { result ≢ DONE → aes.new ≡ no_key }
{
    // Nothing of the struct is read, since it may be uninitialized. No compiler can remove the
    // zeros here: the caller owns the struct, and can read what the call leaves in it.
    if !is_key_size(key.len()) {
        *aes = Aes::zero();
        return KEY_LENGTH;
    }
    aes.set(key);
    DONE
}

/// Returns how many bytes the key has, or 0 if the struct holds no key.
#[unsafe(no_mangle)]
pub extern "C" fn fotsgure_aes_key_length(aes: &Aes) -> usize
    ensures key { HoldsKey aes.now.key → result ≡ aes.now.key.length }
    ensures none { ¬ HoldsKey aes.now.key → result ≡ 0 }
{
    aes.key.key_length()
}

/// Overwrites the struct with zeros. It then holds no key.
#[unsafe(no_mangle)]
pub extern "C" fn fotsgure_aes_wipe(aes: &mut Aes)
    ensures made { IsMade aes.new }
    ensures none { aes.new ≡ no_key }
{
    // A wipe reads what it overwrites, and the struct may be uninitialized. Therefore zeros are
    // written first.
    *aes = Zeroize::zero();
    aes.zeroize();
}

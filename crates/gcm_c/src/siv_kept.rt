//! The struct of AES-GCM-SIV that a caller keeps: a key as its stored round keys.

ghost use Rattle.std.specs.Prelude.{◌≡◌, ◌≢◌, ◌↔◌, length, true};
ghost use Rattle.gcm_siv.specs.GcmSiv.{IsSivKeySize};
ghost use Rattle.gcm_c.specs.Form.{key_in, no_key, IsZeroAfter};
ghost use Rattle.gcm_c.specs.Siv.{IsSivMade};

use crate::form::KeptKey;
use crate::status::{DONE, KEY_LENGTH};
use aes_cipher::zeroize::Zeroize;

/// A key of AES-GCM-SIV that the caller owns: `struct fotsgure_gcm_siv`. Its blocks are as secret
/// as the key. It has 16 or 32 bytes.
pub type Siv = KeptKey;

/// Returns whether a key of AES-GCM-SIV has this many bytes: 16 or 32.
pub(crate) fn is_siv_key_size(bytes: usize) -> bool
    ensures { result ≡ true ↔ IsSivKeySize bytes }
{
    bytes == 16 || bytes == 32
}

/// Expands a key of AES-GCM-SIV into the struct (KeyExpansion, FIPS 197, 5.2). Returns `DONE`
/// exactly if the key has 16 or 32 bytes. Otherwise it returns `KEY_LENGTH`, and the struct then
/// holds no key. In both cases nothing is left of what the struct held before.
#[unsafe(no_mangle)]
pub extern "C" fn fotsgure_gcm_siv_set_key(siv: &mut Siv, key: &[u8]) -> u32
    ensures done { result ≡ DONE ↔ IsSivKeySize (length key.now) }
    ensures refused { result ≢ DONE → result ≡ KEY_LENGTH }
    ensures made { IsSivMade siv.new }
    ensures key { result ≡ DONE → key_in siv.new ≡ key.now }
    ensures length { result ≡ DONE → siv.new.length ≡ length key.now }
    ensures after { result ≡ DONE → IsZeroAfter siv.new }
    ensures none { result ≢ DONE → siv.new ≡ no_key }
{
    // As in `fotsgure_gcm_set_key`, nothing of the struct is read, and no compiler can remove zeros.
    if !is_siv_key_size(key.len()) {
        *siv = Siv::zero();
        return KEY_LENGTH;
    }
    siv.set(key);
    DONE
}

/// Overwrites the struct with zeros. It then holds no key.
#[unsafe(no_mangle)]
pub extern "C" fn fotsgure_gcm_siv_wipe(siv: &mut Siv)
    ensures made { IsSivMade siv.new }
    ensures none { siv.new ≡ no_key }
{
    // As in `fotsgure_gcm_wipe`, zeros are written first.
    *siv = Zeroize::zero();
    siv.zeroize();
}

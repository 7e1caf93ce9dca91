//! A message in one call.

ghost use Rattle.std.specs.Prelude.{◌≡◌, ◌≢◌, ◌↔◌, length};
ghost use Rattle.gcm.specs.Gcm as nist;
ghost use Rattle.gcm.specs.Gcm.{IsHashedLength, IsTextLength, IsTooLong};
ghost use Rattle.gcm_c.specs.Form.{HoldsKey};
ghost use Rattle.gcm_c.specs.Kept.{round_keys_in, IsMade, IsNonceLength};

use crate::kept::{Gcm, holds_key, mode_of};
use crate::status::{DONE, NO_KEY, NONCE_LENGTH, REFUSED, TAG_LENGTH, TOO_LONG};
use gcm::{LONGEST_HASHED, LONGEST_TEXT};

/// Returns the status that refuses these lengths or this struct, or `DONE`.
pub(crate) fn refusal(gcm: &Gcm, nonce: usize, additional: usize, text: usize) -> u32
    ensures nonce_length { result ≡ NONCE_LENGTH ↔ ¬ IsNonceLength nonce }
    ensures too_long { result ≡ TOO_LONG ↔ IsNonceLength nonce × IsTooLong additional text }
    ensures done { result ≡ DONE ↔ IsNonceLength nonce
        × (IsHashedLength additional × (IsTextLength text
        × HoldsKey gcm.now.key)) }
    ensures refused { result ≢ DONE → result ≢ NONCE_LENGTH → result ≢ TOO_LONG → result ≡ NO_KEY }
{
    if nonce == 0 || nonce as u64 > LONGEST_HASHED {
        return NONCE_LENGTH;
    }
    if text as u64 > LONGEST_TEXT || additional as u64 > LONGEST_HASHED {
        return TOO_LONG;
    }
    if !holds_key(gcm) {
        return NO_KEY;
    }
    DONE
}

/// Encrypts a text in place under a nonce and writes the tag of the text and of the additional data
/// (SP 800-38D, 7.1). Returns `NONCE_LENGTH`, `TOO_LONG` or `NO_KEY`, the first of them that
/// applies, and else `DONE`.
#[unsafe(no_mangle)]
pub extern "C" fn fotsgure_gcm_seal(
    gcm: &Gcm,
    nonce: &[u8],
    additional: &[u8],
    text: &mut [u8],
    tag: &mut [u8; 16],
) -> u32
    requires made { IsMade gcm.now }
    ensures nonce_length { result ≡ NONCE_LENGTH ↔ ¬ IsNonceLength (length nonce.now) }
    ensures too_long { result ≡ TOO_LONG
        ↔ IsNonceLength (length nonce.now) × IsTooLong (length additional.now) (length text.old) }
    ensures done { result ≡ DONE ↔ IsNonceLength (length nonce.now)
        × (IsHashedLength (length additional.now)
        × (IsTextLength (length text.old) × HoldsKey gcm.now.key)) }
    ensures refused { result ≢ DONE → result ≢ NONCE_LENGTH → result ≢ TOO_LONG → result ≡ NO_KEY }
    ensures encrypted { result ≡ DONE → text.new
        ≡ nist.text (round_keys_in gcm.now) nonce.now text.old }
    ensures tag { result ≡ DONE
        → tag.new ≡ nist.tag (round_keys_in gcm.now) nonce.now additional.now text.new }
    ensures untouched { result ≢ DONE → text.new ≡ text.old }
    ensures untouched_tag { result ≢ DONE → tag.new ≡ tag.old }
{
    let status = refusal(gcm, nonce.len(), additional.len(), text.len());
    if status != DONE {
        return status;
    }
    let mode = mode_of(gcm);
    *tag = mode.seal(nonce, additional, text);
    DONE
}

/// Decrypts a text in place if the tag is right (SP 800-38D, 7.2). The tag is compared before
/// anything is decrypted, and without an early exit. Returns `TAG_LENGTH`, `NONCE_LENGTH`,
/// `TOO_LONG`, `NO_KEY` or `REFUSED`, the first of them that applies, and else `DONE`.
#[unsafe(no_mangle)]
pub extern "C" fn fotsgure_gcm_open(
    gcm: &Gcm,
    nonce: &[u8],
    additional: &[u8],
    text: &mut [u8],
    tag: &[u8],
) -> u32
    requires made { IsMade gcm.now }
    ensures tag_length { result ≡ TAG_LENGTH ↔ (length tag.now ≢ 16) }
    ensures nonce_length { result ≡ NONCE_LENGTH ↔ (length tag.now ≡ 16)
        × ¬ IsNonceLength (length nonce.now) }
    ensures too_long { result ≡ TOO_LONG ↔ (length tag.now ≡ 16) × (IsNonceLength (length nonce.now)
        × IsTooLong (length additional.now) (length text.old)) }
    ensures no_key { result ≡ NO_KEY ↔ (length tag.now ≡ 16) × (IsNonceLength (length nonce.now)
        × (IsHashedLength (length additional.now)
        × (IsTextLength (length text.old) × ¬ HoldsKey gcm.now.key))) }
    ensures done { result ≡ DONE ↔ (length tag.now ≡ 16) × (IsNonceLength (length nonce.now)
        × (IsHashedLength (length additional.now)
        × (IsTextLength (length text.old) × (HoldsKey gcm.now.key
        × (tag.now ≡ nist.tag (round_keys_in gcm.now) nonce.now additional.now text.old))))) }
    ensures refused { result ≢ DONE → result ≢ TAG_LENGTH → result ≢ NONCE_LENGTH
        → result ≢ TOO_LONG
        → result ≢ NO_KEY → result ≡ REFUSED }
    ensures decrypted { result ≡ DONE → text.new
        ≡ nist.text (round_keys_in gcm.now) nonce.now text.old }
    ensures untouched { result ≢ DONE → text.new ≡ text.old }
{
    if tag.len() != 16 {
        return TAG_LENGTH;
    }
    let status = refusal(gcm, nonce.len(), additional.len(), text.len());
    if status != DONE {
        return status;
    }
    let mut claimed = [0; 16];
    claimed.copy_from_slice(tag);
    let mode = mode_of(gcm);
    match mode.decrypt(nonce, additional, text, &claimed) {
        Ok(()) => DONE,
        Err(_) => REFUSED,
    }
}

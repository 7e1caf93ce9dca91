//! Messages under the key of a struct: CCM.

ghost use Rattle.std.specs.Prelude.{◌≡◌, ◌≢◌, ◌↔◌, ◌%◌, ◌^◌, ◌<◌, ◌≤◌, length};
ghost use Rattle.ccm.specs.Ccm as nist;
ghost use Rattle.ccm.specs.Ccm.{Fits, IsNonceLength, IsTagLength};
ghost use Rattle.aes_c.specs.Form.{round_keys_in, HoldsKey, IsMade};

use crate::form::{Aes, cipher_of};
use crate::status::{DONE, NO_KEY, NONCE_LENGTH, REFUSED, TAG_LENGTH, TOO_LONG};
use aes_cipher::zeroize::wipe_stack;
use ccm::{InvalidMessage, NotDecrypted, decrypt, encrypt};

// The most bytes of stack that a call needs to encrypt or decrypt a message. The call leaves values
// of the chain there, blocks of the keystream, and the right tag of a message that is refused.
const MESSAGE_STACK: usize = 1024;

// Returns the status of lengths that no message has.
fn status_of(invalid: InvalidMessage) -> u32
    ensures tag_length { result ≡ TAG_LENGTH ↔ (invalid ≡ InvalidMessage.TagLength) }
    ensures nonce_length { result ≡ NONCE_LENGTH ↔ (invalid ≡ InvalidMessage.NonceLength) }
    ensures too_long { result ≡ TOO_LONG ↔ (invalid ≡ InvalidMessage.TooLong) }
    ensures refused { result ≢ TAG_LENGTH → result ≢ NONCE_LENGTH → result ≡ TOO_LONG }
{
    match invalid {
        InvalidMessage::TagLength => TAG_LENGTH,
        InvalidMessage::NonceLength => NONCE_LENGTH,
        InvalidMessage::TooLong => TOO_LONG,
    }
}

/// Encrypts a text in place under a nonce, and writes the tag of the text and of the additional
/// data (CCM, SP 800-38C, 6.1). Returns `NO_KEY`, `TAG_LENGTH`, `NONCE_LENGTH` or `TOO_LONG`, the
/// first of them that applies, and else `DONE`.
#[unsafe(no_mangle)]
pub extern "C" fn fotsgure_aes_ccm_seal(
    aes: &Aes,
    nonce: &[u8],
    additional: &[u8],
    text: &mut [u8],
    tag: &mut [u8],
) -> u32
    requires made { IsMade aes.now }
    ensures no_key { result ≡ NO_KEY ↔ ¬ HoldsKey aes.now.key }
    ensures tag_length { result ≡ TAG_LENGTH ↔ HoldsKey aes.now.key × ¬ IsTagLength (length tag.old) }
    ensures nonce_length { result ≡ NONCE_LENGTH ↔ HoldsKey aes.now.key
        × (IsTagLength (length tag.old) × ¬ IsNonceLength (length nonce.now)) }
    ensures done { result ≡ DONE ↔ HoldsKey aes.now.key × (IsTagLength (length tag.old)
        × (IsNonceLength (length nonce.now) × Fits (length nonce.now) (length text.old))) }
    ensures refused { result ≢ DONE → result ≢ NO_KEY → result ≢ TAG_LENGTH
        → result ≢ NONCE_LENGTH → result ≡ TOO_LONG }
    ensures encrypted { result ≡ DONE
        → text.new ≡ nist.text (round_keys_in aes.now.key) nonce.now text.old }
    ensures tag { result ≡ DONE → tag.new ≡ nist.tag (round_keys_in aes.now.key) nonce.now
        (length tag.old) additional.now text.old }
    ensures untouched { result ≢ DONE → text.new ≡ text.old }
    ensures untouched_tag { result ≢ DONE → tag.new ≡ tag.old }
{
    if !aes.key.holds_key() {
        return NO_KEY;
    }
    let result = encrypt(&cipher_of(&aes.key), nonce, additional, text, tag);
    wipe_stack::<MESSAGE_STACK>();
    match result {
        Ok(()) => DONE,
        Err(invalid) => status_of(invalid),
    }
}

/// Decrypts a text in place if the tag is right (CCM, SP 800-38C, 6.2). A text that is refused is
/// encrypted again, so that it is unchanged. Returns `NO_KEY`, `TAG_LENGTH`, `NONCE_LENGTH`,
/// `TOO_LONG` or `REFUSED`, the first of them that applies, and else `DONE`.
#[unsafe(no_mangle)]
pub extern "C" fn fotsgure_aes_ccm_open(
    aes: &Aes,
    nonce: &[u8],
    additional: &[u8],
    text: &mut [u8],
    tag: &[u8],
) -> u32
    requires made { IsMade aes.now }
    ensures no_key { result ≡ NO_KEY ↔ ¬ HoldsKey aes.now.key }
    ensures tag_length { result ≡ TAG_LENGTH ↔ HoldsKey aes.now.key × ¬ IsTagLength (length tag.now) }
    ensures nonce_length { result ≡ NONCE_LENGTH ↔ HoldsKey aes.now.key
        × (IsTagLength (length tag.now) × ¬ IsNonceLength (length nonce.now)) }
    ensures too_long { result ≡ TOO_LONG ↔ HoldsKey aes.now.key × (IsTagLength (length tag.now)
        × (IsNonceLength (length nonce.now) × ¬ Fits (length nonce.now) (length text.old))) }
    ensures done { result ≡ DONE ↔ HoldsKey aes.now.key × (IsTagLength (length tag.now)
        × (IsNonceLength (length nonce.now) × (Fits (length nonce.now) (length text.old)
        × (tag.now ≡ nist.tag (round_keys_in aes.now.key) nonce.now (length tag.now) additional.now
        (nist.text (round_keys_in aes.now.key) nonce.now text.old))))) }
    ensures refused { result ≢ DONE → result ≢ NO_KEY → result ≢ TAG_LENGTH
        → result ≢ NONCE_LENGTH → result ≢ TOO_LONG → result ≡ REFUSED }
    ensures decrypted { result ≡ DONE
        → text.new ≡ nist.text (round_keys_in aes.now.key) nonce.now text.old }
    ensures untouched { result ≢ DONE → text.new ≡ text.old }
{
    if !aes.key.holds_key() {
        return NO_KEY;
    }
    let result = decrypt(&cipher_of(&aes.key), nonce, additional, text, tag);
    wipe_stack::<MESSAGE_STACK>();
    match result {
        Ok(()) => DONE,
        Err(NotDecrypted::Invalid(invalid)) => status_of(invalid),
        Err(NotDecrypted::Refused) => REFUSED,
    }
}

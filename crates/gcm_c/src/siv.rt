//! AES-GCM-SIV in place, and room for the key of a message.

ghost use Rattle.std.specs.Prelude.{◌≡◌, ◌≢◌, ◌↔◌, length};
ghost use Rattle.gcm_siv.specs.GcmSiv as rfc;
ghost use Rattle.gcm_siv.specs.GcmSiv.{IsAuthentic, IsSivKeySize};
ghost use Rattle.gcm_c.specs.Form.{key_in, no_key, IsKept};
ghost use Rattle.gcm_c.specs.Siv.{HoldsSivKey, IsSivMade, IsSivLength, IsSivTooLong};

use crate::form::{BuildCipher, KeptKey, LongRoom, ShortRoom, cipher_of};
use crate::siv_kept::{Siv, is_siv_key_size};
use crate::status::{DONE, NO_KEY, REFUSED, TOO_LONG};
use aes_cipher::cipher::{Block, BlockCipherEncrypt};
use aes_cipher::zeroize::Zeroize;
use gcm_siv::{LONGEST, MessageKey, add_keystream, open_message, seal_message};

/// Returns the status that refuses these lengths or this struct, or `DONE`.
pub(crate) fn siv_refusal(siv: &Siv, additional: usize, text: usize) -> u32
    ensures too_long { result ≡ TOO_LONG ↔ IsSivTooLong additional text }
    ensures done { result ≡ DONE ↔ IsSivLength additional
        × (IsSivLength text × HoldsSivKey siv.now) }
    ensures refused { result ≢ DONE → result ≢ TOO_LONG → result ≡ NO_KEY }
{
    if additional as u64 > LONGEST || text as u64 > LONGEST {
        return TOO_LONG;
    }
    if !is_siv_key_size(siv.length as usize) {
        return NO_KEY;
    }
    DONE
}

// Room for the key of a message, in the form of this build.
#[derive(Drop)]
struct MessageRoom {
    kept: KeptKey,
}

impl Zeroize for MessageRoom {
    ghost ZERO = { record { kept = no_key } };

    #[inline(always)]
    fn zero() -> MessageRoom {
        MessageRoom {
            kept: KeptKey::zero(),
        }
    }

    #[inline(always)]
    fn zeroize(&mut self) {
        self.kept.zeroize();
    }
}

impl MessageKey for MessageRoom {
    type ShortRoom = ShortRoom;

    type LongRoom = LongRoom;

    ghost IsAllowed = { IsSivKeySize };

    ghost IsSet = { λ room. IsKept room.kept × HoldsSivKey room.kept };

    ghost own_key = { λ room. key_in room.kept };

    #[inline(always)]
    fn set(&mut self, key: &[u8]) {
        self.kept.set(key);
    }

    #[inline(always)]
    fn encrypt_block(&self, block: &mut Block) {
        cipher_of(&self.kept).encrypt_block(block);
    }

    #[inline(always)]
    fn add_keystream(&self, start: &Block, bytes: &mut [u8]) {
        add_keystream(&cipher_of(&self.kept), start, bytes);
    }
}

/// Encrypts a text in place and writes the tag of the text and of the additional data (RFC 8452,
/// 4). Returns `TOO_LONG` or `NO_KEY`, the first of them that applies, and else `DONE`.
#[unsafe(no_mangle)]
pub extern "C" fn fotsgure_gcm_siv_seal(
    siv: &Siv,
    nonce: &[u8; 12],
    additional: &[u8],
    text: &mut [u8],
    tag: &mut [u8; 16],
) -> u32
    requires made { IsSivMade siv.now }
    ensures too_long { result ≡ TOO_LONG ↔ IsSivTooLong (length additional.now) (length text.old) }
    ensures done { result ≡ DONE ↔ IsSivLength (length additional.now)
        × (IsSivLength (length text.old) × HoldsSivKey siv.now) }
    ensures refused { result ≢ DONE → result ≢ TOO_LONG → result ≡ NO_KEY }
    ensures tag { result ≡ DONE
        → tag.new ≡ rfc.tag (key_in siv.now) nonce.now additional.now text.old }
    ensures encrypted { result ≡ DONE → text.new
        ≡ rfc.text (key_in siv.now) nonce.now tag.new text.old }
    ensures untouched { result ≢ DONE → text.new ≡ text.old }
    ensures untouched_tag { result ≢ DONE → tag.new ≡ tag.old }
{
    let status = siv_refusal(siv, additional.len(), text.len());
    if status != DONE {
        return status;
    }
    *tag = seal_message::<BuildCipher<'_>, MessageRoom>(
        &cipher_of(siv),
        siv.length as usize,
        nonce,
        additional,
        text,
    );
    DONE
}

/// Decrypts a text in place if the tag is right (RFC 8452, 5). A text that is refused is encrypted
/// again. Returns `TOO_LONG`, `NO_KEY` or `REFUSED`, the first of them that applies, and else
/// `DONE`.
#[unsafe(no_mangle)]
pub extern "C" fn fotsgure_gcm_siv_open(
    siv: &Siv,
    nonce: &[u8; 12],
    additional: &[u8],
    text: &mut [u8],
    tag: &[u8; 16],
) -> u32
    requires made { IsSivMade siv.now }
    ensures too_long { result ≡ TOO_LONG ↔ IsSivTooLong (length additional.now) (length text.old) }
    ensures no_key { result ≡ NO_KEY ↔ IsSivLength (length additional.now)
        × (IsSivLength (length text.old) × ¬ HoldsSivKey siv.now) }
    ensures done { result ≡ DONE ↔ IsSivLength (length additional.now) × (IsSivLength (length text.old)
        × (HoldsSivKey siv.now
        × IsAuthentic (key_in siv.now) nonce.now additional.now tag.now text.old)) }
    ensures refused { result ≢ DONE → result ≢ TOO_LONG → result ≢ NO_KEY → result ≡ REFUSED }
    ensures decrypted { result ≡ DONE → text.new
        ≡ rfc.text (key_in siv.now) nonce.now tag.now text.old }
    ensures untouched { result ≢ DONE → text.new ≡ text.old }
{
    let status = siv_refusal(siv, additional.len(), text.len());
    if status != DONE {
        return status;
    }
    let is_right = open_message::<BuildCipher<'_>, MessageRoom>(
        &cipher_of(siv),
        siv.length as usize,
        nonce,
        additional,
        text,
        tag,
    );
    if is_right { DONE } else { REFUSED }
}

//! Statuses and the version by number, and lengths at their limits, as contracts. With them the
//! prover refuses a mistake in a constant or a definition. The last three calls say what a text is
//! encrypted to under the bytes of a key. The others have no effect.

ghost use Rattle.std.specs.Prelude.{◌≡◌, ◌↔◌, ◌⊎◌, ℕ, ◌*◌, ◌^◌, ◌<◌, ◌≤◌, [], length};
ghost use Rattle.aes_planes.specs.Fips197 as fips;
ghost use Rattle.aes_cipher.specs.KeySizes.{IsKeySize};
ghost use Rattle.gcm.specs.Gcm as nist;
ghost use Rattle.gcm.specs.Gcm.{IsHashedLength, IsTextLength, IsTooLong};
ghost use Rattle.gcm_siv.specs.GcmSiv as rfc;
ghost use Rattle.gcm.specs.Pieces.{no_message};
ghost use Rattle.gcm_c.specs.Form.{no_key, no_room, HoldsKey};
ghost use Rattle.gcm_c.specs.Kept.{no_gcm, round_keys_in, IsMade, IsNonceLength};
ghost use Rattle.gcm_c.specs.Siv.{IsSivLength, IsSivTooLong};

use crate::VERSION;
use crate::form::{Aes, GhashRoom, KeptKey};
use crate::kept::{Gcm, fotsgure_gcm_set_key, fotsgure_gcm_set_key_of};
use crate::pieces::{
    fotsgure_gcm_begin, fotsgure_gcm_decrypt_unverified, fotsgure_gcm_finish_unverified,
};
use crate::siv::fotsgure_gcm_siv_seal;
use crate::siv_kept::{Siv, fotsgure_gcm_siv_set_key};
use crate::status::{
    DONE, KEY_LENGTH, NO_KEY, NONCE_LENGTH, NONCES_END, OUT_OF_TURN, REFUSED, TAG_LENGTH, TOO_LONG,
    UNEQUAL_LENGTHS,
};
use crate::whole::fotsgure_gcm_seal;
use aes_cipher::aes::is_key_size;
use gcm::{Counter, Message};

/// The numbers that the header gives to statuses and to the version.
pub fn numbers_of_the_header()
    ensures done { DONE ≡ 0 }
    ensures key_length { KEY_LENGTH ≡ 1 }
    ensures no_key { NO_KEY ≡ 2 }
    ensures nonce_length { NONCE_LENGTH ≡ 3 }
    ensures tag_length { TAG_LENGTH ≡ 4 }
    ensures too_long { TOO_LONG ≡ 5 }
    ensures refused { REFUSED ≡ 6 }
    ensures nonces_end { NONCES_END ≡ 7 }
    ensures out_of_turn { OUT_OF_TURN ≡ 8 }
    ensures unequal_lengths { UNEQUAL_LENGTHS ≡ 10 }
    ensures version { VERSION ≡ 400 }
{}

// How many bytes the structs have by the header, with nothing between their fields.
const _: () = prove!(size_of::<Gcm>() == size_of::<KeptKey>() + size_of::<GhashRoom>());

const _: () = prove!(size_of::<Counter>() == 12);

const _: () = prove!(size_of::<Message>() == 80);

/// The lengths of nonces of GCM (SP 800-38D, 5.2.1.1), and of texts and additional data of
/// AES-GCM-SIV (RFC 8452, 4).
pub fn length_rules()
    ensures nonce { (n : ℕ) → IsNonceLength n ↔ (1 ≤ 8 * n) × (8 * n < 2 ^ 64) }
    ensures siv { (n : ℕ) → IsSivLength n ↔ (n ≤ 2 ^ 36) }
    ensures siv_too_long { (additional text : ℕ) → IsSivTooLong additional text
        ↔ ((2 ^ 36 < additional) ⊎ (2 ^ 36 < text)) }
{}

/// What a wipe leaves: no key, and nothing of what tags are made with (`form::no_room_example`).
pub fn no_gcm_examples()
    ensures length { no_gcm.key.length ≡ 0 }
    ensures key { no_gcm.key ≡ no_key }
    ensures multiples { no_gcm.multiples ≡ no_room }
{}

/// Keeps a key, and encrypts a text in place under it and a nonce. Returns `KEY_LENGTH`,
/// `NONCE_LENGTH` or `TOO_LONG`, the first of them that applies, and else `DONE`.
pub fn set_key_and_seal(
    gcm: &mut Gcm,
    key: &[u8],
    nonce: &[u8],
    additional: &[u8],
    text: &mut [u8],
    tag: &mut [u8; 16],
) -> u32
    ensures key_length { result ≡ KEY_LENGTH ↔ ¬ IsKeySize (length key.now) }
    ensures nonce_length { result ≡ NONCE_LENGTH ↔ IsKeySize (length key.now)
        × ¬ IsNonceLength (length nonce.now) }
    ensures too_long { result ≡ TOO_LONG ↔ IsKeySize (length key.now)
        × (IsNonceLength (length nonce.now)
        × IsTooLong (length additional.now) (length text.old)) }
    ensures done { result ≡ DONE ↔ IsKeySize (length key.now) × (IsNonceLength (length nonce.now)
        × (IsHashedLength (length additional.now) × IsTextLength (length text.old))) }
    ensures encrypted { result ≡ DONE → text.new
        ≡ nist.text (fips.key_expansion key.now) nonce.now text.old }
    ensures tag { result ≡ DONE
        → tag.new ≡ nist.tag (fips.key_expansion key.now) nonce.now additional.now text.new }
{
    let kept = fotsgure_gcm_set_key(gcm, key);
    if kept != DONE {
        return kept;
    }
    fotsgure_gcm_seal(gcm, nonce, additional, text, tag)
}

/// Keeps a key in a struct of the library of blocks, copies it, and encrypts a text in place under
/// it and a nonce. Returns `KEY_LENGTH`, `NONCE_LENGTH` or `TOO_LONG`, the first of them that
/// applies, and else `DONE`.
pub fn set_key_of_and_seal(
    aes: &mut Aes,
    gcm: &mut Gcm,
    key: &[u8],
    nonce: &[u8],
    additional: &[u8],
    text: &mut [u8],
    tag: &mut [u8; 16],
) -> u32
    ensures key_length { result ≡ KEY_LENGTH ↔ ¬ IsKeySize (length key.now) }
    ensures done { result ≡ DONE ↔ IsKeySize (length key.now) × (IsNonceLength (length nonce.now)
        × (IsHashedLength (length additional.now) × IsTextLength (length text.old))) }
    ensures encrypted { result ≡ DONE → text.new
        ≡ nist.text (fips.key_expansion key.now) nonce.now text.old }
    ensures tag { result ≡ DONE
        → tag.new ≡ nist.tag (fips.key_expansion key.now) nonce.now additional.now text.new }
{
    if !is_key_size(key.len()) {
        return KEY_LENGTH;
    }
    aes.set(key);
    fotsgure_gcm_set_key_of(gcm, aes);
    fotsgure_gcm_seal(gcm, nonce, additional, text, tag)
}

/// Keeps a key of AES-GCM-SIV, and encrypts a text in place under it and a nonce. Returns
/// `KEY_LENGTH` or `TOO_LONG`, the first of them that applies, and else `DONE`.
pub fn siv_set_key_and_seal(
    siv: &mut Siv,
    key: &[u8],
    nonce: &[u8; 12],
    additional: &[u8],
    text: &mut [u8],
    tag: &mut [u8; 16],
) -> u32
    ensures key_length { result ≡ KEY_LENGTH ↔ ¬ rfc.IsSivKeySize (length key.now) }
    ensures too_long { result ≡ TOO_LONG ↔ rfc.IsSivKeySize (length key.now)
        × IsSivTooLong (length additional.now) (length text.old) }
    ensures done { result ≡ DONE ↔ rfc.IsSivKeySize (length key.now)
        × (IsSivLength (length additional.now) × IsSivLength (length text.old)) }
    ensures tag { result ≡ DONE → tag.new ≡ rfc.tag key.now nonce.now additional.now text.old }
    ensures encrypted { result ≡ DONE → text.new ≡ rfc.text key.now nonce.now tag.new text.old }
{
    let kept = fotsgure_gcm_siv_set_key(siv, key);
    if kept != DONE {
        return kept;
    }
    fotsgure_gcm_siv_seal(siv, nonce, additional, text, tag)
}

/// Decrypts a text in one piece, and writes its right tag for a caller that compares it. Returns
/// `DONE`, or the status of the first call that is refused.
pub fn decrypt_and_write_the_right_tag(
    gcm: &Gcm,
    message: &mut Message,
    nonce: &[u8; 12],
    text: &mut [u8],
    tag: &mut [u8; 16],
) -> u32
    requires made { IsMade gcm.now }
    requires key { HoldsKey gcm.now.key }
    ensures decrypted { result ≡ DONE
        → text.new ≡ nist.text (round_keys_in gcm.now) nonce.now text.old }
    ensures tag { result ≡ DONE
        → tag.new ≡ nist.tag (round_keys_in gcm.now) nonce.now [] text.old }
    ensures over { result ≡ DONE → message.new ≡ no_message }
{
    fotsgure_gcm_begin(gcm, message, nonce);
    let decrypted = fotsgure_gcm_decrypt_unverified(gcm, message, text);
    if decrypted != DONE {
        return decrypted;
    }
    fotsgure_gcm_finish_unverified(gcm, message, tag)
}

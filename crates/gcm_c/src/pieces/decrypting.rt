//! Messages in pieces, decrypted once their tag is found right.

ghost use Rattle.std.specs.Prelude.{◌≡◌, ◌≢◌, ◌↔◌, ◌+◌, ◌≤◌, ℕ, List, [], ◌++◌};
ghost use Rattle.std.specs.Prelude.{length};
ghost use Rattle.gcm.specs.Gcm as nist;
ghost use Rattle.gcm.specs.Gcm.{HasFixedLength, IsTextLength};
ghost use Rattle.gcm.specs.declared.message_state.Phase.{Phase};
ghost use Rattle.gcm_c.specs.Form.{HoldsKey};
ghost use Rattle.gcm_c.specs.Kept.{round_keys_in, IsMade};
ghost use Rattle.gcm.specs.Pieces.{IsInText, IsPhaseRefused, IsPhaseAllowed, IsVerifying, IsDecrypting};
ghost use Rattle.gcm.specs.Pieces.{no_message, phase_of};

use super::status_of;
use crate::kept::{Gcm, holds_key, mode_of};
use crate::status::{DONE, NO_KEY, OUT_OF_TURN, REFUSED, TAG_LENGTH, TOO_LONG};
use gcm::{Message, NotAccepted, is_short_tag};

// Returns the status of a tag that isn't accepted.
fn status_of_refusal(error: NotAccepted) -> u32
    ensures out_of_turn { result ≡ OUT_OF_TURN ↔ (error ≡ NotAccepted.OutOfTurn) }
    ensures refused { result ≢ OUT_OF_TURN → result ≡ REFUSED }
{
    match error {
        NotAccepted::OutOfTurn => OUT_OF_TURN,
        NotAccepted::Refused => REFUSED,
    }
}

/// Takes a piece of a cipher text whose tag is to be compared. Returns `NO_KEY`, `OUT_OF_TURN` or
/// `TOO_LONG`, the first of them that applies, and else `DONE`.
#[unsafe(no_mangle)]
pub extern "C" fn fotsgure_gcm_verify(gcm: &Gcm, message: &mut Message, text: &[u8]) -> u32
    requires made { IsMade gcm.now }
    ensures no_key { result ≡ NO_KEY ↔ ¬ HoldsKey gcm.now.key }
    ensures out_of_turn { result ≡ OUT_OF_TURN ↔ HoldsKey gcm.now.key
        × IsPhaseRefused Phase.Verifying message.old }
    ensures done { result ≡ DONE ↔ HoldsKey gcm.now.key
        × (IsPhaseAllowed Phase.Verifying message.old
        × IsTextLength (message.old.text + length text.now)) }
    ensures refused { result ≢ DONE → result ≢ NO_KEY → result ≢ OUT_OF_TURN → result ≡ TOO_LONG }
    ensures added { let w = round_keys_in gcm.now in
        result ≡ DONE → (iv a c : List ℕ) → IsVerifying w iv a c message.old
        → IsInText Phase.Verifying w iv a (c ++ text.now) message.new }
    ensures untouched { result ≢ DONE → message.new ≡ message.old }
{
    if !holds_key(gcm) {
        return NO_KEY;
    }
    let mode = mode_of(gcm);
    match mode.verify_piece(message, text) {
        Ok(()) => DONE,
        Err(error) => status_of(error),
    }
}

/// Compares the tag of what has come, without an early exit. If it is right, the cipher text may
/// come once more. Returns `TAG_LENGTH`, `NO_KEY`, `OUT_OF_TURN` or `REFUSED`, the first of them
/// that applies, and else `DONE`.
#[unsafe(no_mangle)]
pub extern "C" fn fotsgure_gcm_accept(gcm: &Gcm, message: &mut Message, tag: &[u8]) -> u32
    requires made { IsMade gcm.now }
    ensures tag_length { result ≡ TAG_LENGTH ↔ (length tag.now ≢ 16) }
    ensures no_key { result ≡ NO_KEY ↔ (length tag.now ≡ 16) × ¬ HoldsKey gcm.now.key }
    ensures out_of_turn { result ≡ OUT_OF_TURN ↔ (length tag.now ≡ 16)
        × (HoldsKey gcm.now.key
        × IsPhaseRefused Phase.Verifying message.old) }
    ensures accepted { let w = round_keys_in gcm.now in
        length tag.now ≡ 16 → HoldsKey gcm.now.key → (iv a c : List ℕ)
        → IsVerifying w iv a c message.old
        → result ≡ DONE ↔ (tag.now ≡ nist.tag w iv a c) }
    ensures refused { result ≢ DONE → result ≢ TAG_LENGTH → result ≢ NO_KEY → result ≢ OUT_OF_TURN
        → result ≡ REFUSED }
    ensures decrypting { let w = round_keys_in gcm.now in
        result ≡ DONE → (iv a c : List ℕ) → IsVerifying w iv a c message.old
        → IsDecrypting w iv (length c) [] message.new }
    ensures phase { result ≡ DONE → phase_of message.new.phase ≡ Phase.Decrypting }
    ensures text { result ≡ DONE → message.new.text ≡ message.old.text }
    ensures untouched { result ≢ DONE → message.new ≡ message.old }
{
    if tag.len() != 16 {
        return TAG_LENGTH;
    }
    if !holds_key(gcm) {
        return NO_KEY;
    }
    let mode = mode_of(gcm);
    let mut claimed = [0; 16];
    claimed.copy_from_slice(tag);
    match mode.accept(message, &claimed) {
        Ok(()) => DONE,
        Err(error) => status_of_refusal(error),
    }
}

/// Compares a tag of fewer than 16 bytes, as `fotsgure_gcm_accept` compares one of 16.
/// `fixed_length` is the length of all tags under the key, and is fixed with the key (SP 800-38D,
/// 5.2.1.2). Returns `TAG_LENGTH` if it isn't 4, 8 or 12 to 15, or if the tag has another length.
/// Otherwise it returns `NO_KEY`, `OUT_OF_TURN` or `REFUSED`, the first of them that applies, and
/// else `DONE`.
#[unsafe(no_mangle)]
pub extern "C" fn fotsgure_gcm_accept_short(
    gcm: &Gcm,
    message: &mut Message,
    fixed_length: usize,
    tag: &[u8],
) -> u32
    requires made { IsMade gcm.now }
    ensures tag_length { result ≡ TAG_LENGTH ↔ ¬ HasFixedLength fixed_length tag.now }
    ensures no_key { result ≡ NO_KEY ↔ HasFixedLength fixed_length tag.now
        × ¬ HoldsKey gcm.now.key }
    ensures out_of_turn { result ≡ OUT_OF_TURN ↔ HasFixedLength fixed_length tag.now
        × (HoldsKey gcm.now.key
        × IsPhaseRefused Phase.Verifying message.old) }
    ensures accepted { let w = round_keys_in gcm.now in
        HasFixedLength fixed_length tag.now → HoldsKey gcm.now.key
        → (iv a c : List ℕ) → IsVerifying w iv a c message.old
        → result ≡ DONE ↔ (tag.now ≡ nist.short_tag (length tag.now) w iv a c) }
    ensures refused { result ≢ DONE → result ≢ TAG_LENGTH → result ≢ NO_KEY → result ≢ OUT_OF_TURN
        → result ≡ REFUSED }
    ensures decrypting { let w = round_keys_in gcm.now in
        result ≡ DONE → (iv a c : List ℕ) → IsVerifying w iv a c message.old
        → IsDecrypting w iv (length c) [] message.new }
    ensures phase { result ≡ DONE → phase_of message.new.phase ≡ Phase.Decrypting }
    ensures text { result ≡ DONE → message.new.text ≡ message.old.text }
    ensures untouched { result ≢ DONE → message.new ≡ message.old }
{
    if !is_short_tag(fixed_length, tag) {
        return TAG_LENGTH;
    }
    if !holds_key(gcm) {
        return NO_KEY;
    }
    let mode = mode_of(gcm);
    match mode.accept_short(message, fixed_length, tag) {
        Ok(()) => DONE,
        Err(error) => status_of_refusal(error),
    }
}

/// Decrypts in place a piece of the cipher text whose tag was right, from its beginning on. Returns
/// `NO_KEY`, `OUT_OF_TURN` or `TOO_LONG`, the first of them that applies, and else `DONE`.
#[unsafe(no_mangle)]
pub extern "C" fn fotsgure_gcm_decrypt(gcm: &Gcm, message: &mut Message, text: &mut [u8]) -> u32
    requires made { IsMade gcm.now }
    ensures no_key { result ≡ NO_KEY ↔ ¬ HoldsKey gcm.now.key }
    ensures out_of_turn { result ≡ OUT_OF_TURN ↔ HoldsKey gcm.now.key
        × (phase_of message.old.phase ≢ Phase.Decrypting) }
    ensures done { result ≡ DONE ↔ HoldsKey gcm.now.key
        × ((phase_of message.old.phase ≡ Phase.Decrypting)
        × ((message.old.decrypted + length text.old ≤ message.old.text)
        × IsTextLength (message.old.decrypted + length text.old))) }
    ensures refused { result ≢ DONE → result ≢ NO_KEY → result ≢ OUT_OF_TURN → result ≡ TOO_LONG }
    ensures decrypted { let w = round_keys_in gcm.now in
        result ≡ DONE → (n : ℕ) (iv c : List ℕ) → IsDecrypting w iv n c message.old
        → nist.text w iv c ++ text.new ≡ nist.text w iv (c ++ text.old) }
    ensures added { let w = round_keys_in gcm.now in
        result ≡ DONE → (n : ℕ) (iv c : List ℕ) → IsDecrypting w iv n c message.old
        → IsDecrypting w iv n (c ++ text.old) message.new }
    ensures phase { result ≡ DONE → phase_of message.new.phase ≡ Phase.Decrypting }
    ensures text { result ≡ DONE → message.new.text ≡ message.old.text }
    ensures counted { result ≡ DONE → message.new.decrypted
        ≡ message.old.decrypted + length text.old }
    ensures untouched { result ≢ DONE → message.new ≡ message.old }
    ensures untouched_text { result ≢ DONE → text.new ≡ text.old }
{
    if !holds_key(gcm) {
        return NO_KEY;
    }
    let mode = mode_of(gcm);
    match mode.decrypt_piece(message, text) {
        Ok(()) => DONE,
        Err(error) => status_of(error),
    }
}

/// Takes a piece of a cipher text whose tag is to be compared, and decrypts it in place at once.
/// What it gives out is not authenticated. Returns `NO_KEY`, `OUT_OF_TURN` or `TOO_LONG`, the first
/// of them that applies, and else `DONE`.
#[unsafe(no_mangle)]
pub extern "C" fn fotsgure_gcm_decrypt_unverified(
    gcm: &Gcm,
    message: &mut Message,
    text: &mut [u8],
) -> u32
    requires made { IsMade gcm.now }
    ensures no_key { result ≡ NO_KEY ↔ ¬ HoldsKey gcm.now.key }
    ensures out_of_turn { result ≡ OUT_OF_TURN ↔ HoldsKey gcm.now.key
        × IsPhaseRefused Phase.Verifying message.old }
    ensures done { result ≡ DONE ↔ HoldsKey gcm.now.key
        × (IsPhaseAllowed Phase.Verifying message.old
        × IsTextLength (message.old.text + length text.old)) }
    ensures refused { result ≢ DONE → result ≢ NO_KEY → result ≢ OUT_OF_TURN → result ≡ TOO_LONG }
    ensures decrypted { let w = round_keys_in gcm.now in
        result ≡ DONE → (iv a c : List ℕ) → IsVerifying w iv a c message.old
        → nist.text w iv c ++ text.new ≡ nist.text w iv (c ++ text.old) }
    ensures added { let w = round_keys_in gcm.now in
        result ≡ DONE → (iv a c : List ℕ) → IsVerifying w iv a c message.old
        → IsInText Phase.Verifying w iv a (c ++ text.old) message.new }
    ensures untouched { result ≢ DONE → message.new ≡ message.old }
    ensures untouched_text { result ≢ DONE → text.new ≡ text.old }
{
    if !holds_key(gcm) {
        return NO_KEY;
    }
    let mode = mode_of(gcm);
    match mode.decrypt_unverified_piece(message, text) {
        Ok(()) => DONE,
        Err(error) => status_of(error),
    }
}

/// Ends a message whose tag was to be compared, writes its right tag, and wipes what is kept of it.
/// Whoever learns that tag while the text isn't authenticated has forged a message. Returns
/// `NO_KEY` or `OUT_OF_TURN`, the first of them that applies, and else `DONE`.
#[unsafe(no_mangle)]
pub extern "C" fn fotsgure_gcm_finish_unverified(
    gcm: &Gcm,
    message: &mut Message,
    tag: &mut [u8; 16],
) -> u32
    requires made { IsMade gcm.now }
    ensures no_key { result ≡ NO_KEY ↔ ¬ HoldsKey gcm.now.key }
    ensures out_of_turn { result ≡ OUT_OF_TURN ↔ HoldsKey gcm.now.key
        × IsPhaseRefused Phase.Verifying message.old }
    ensures refused { result ≢ DONE → result ≢ NO_KEY → result ≡ OUT_OF_TURN }
    ensures tag { let w = round_keys_in gcm.now in
        result ≡ DONE → (iv a c : List ℕ) → IsVerifying w iv a c message.old
        → tag.new ≡ nist.tag w iv a c }
    ensures over { result ≡ DONE → message.new ≡ no_message }
    ensures untouched { result ≢ DONE → message.new ≡ message.old }
    ensures untouched_tag { result ≢ DONE → tag.new ≡ tag.old }
{
    if !holds_key(gcm) {
        return NO_KEY;
    }
    let mode = mode_of(gcm);
    match mode.finish_unverified(message, tag) {
        Ok(()) => DONE,
        Err(_) => OUT_OF_TURN,
    }
}

//! Messages in pieces, encrypted.

ghost use Rattle.std.specs.Prelude.{◌≡◌, ◌≢◌, ◌↔◌, ◌+◌, ℕ, List, ◌++◌};
ghost use Rattle.std.specs.Prelude.{length};
ghost use Rattle.gcm.specs.Gcm as nist;
ghost use Rattle.gcm.specs.Gcm.{IsTextLength};
ghost use Rattle.gcm.specs.declared.message_state.Phase.{Phase};
ghost use Rattle.gcm_c.specs.Form.{HoldsKey};
ghost use Rattle.gcm_c.specs.Kept.{round_keys_in, IsMade};
ghost use Rattle.gcm.specs.Pieces.{IsInText, IsEncrypting, IsPhaseRefused, IsPhaseAllowed, no_message};

use super::status_of;
use crate::kept::{Gcm, holds_key, mode_of};
use crate::status::{DONE, NO_KEY, OUT_OF_TURN, TOO_LONG};
use gcm::Message;

/// Encrypts a piece of the text in place. Returns `NO_KEY`, `OUT_OF_TURN` or `TOO_LONG`, the first
/// of them that applies, and else `DONE`.
#[unsafe(no_mangle)]
pub extern "C" fn fotsgure_gcm_encrypt(gcm: &Gcm, message: &mut Message, text: &mut [u8]) -> u32
    requires made { IsMade gcm.now }
    ensures no_key { result ≡ NO_KEY ↔ ¬ HoldsKey gcm.now.key }
    ensures out_of_turn { result ≡ OUT_OF_TURN ↔ HoldsKey gcm.now.key
        × IsPhaseRefused Phase.Encrypting message.old }
    ensures done { result ≡ DONE ↔ HoldsKey gcm.now.key
        × (IsPhaseAllowed Phase.Encrypting message.old
        × IsTextLength (message.old.text + length text.old)) }
    ensures refused { result ≢ DONE → result ≢ NO_KEY → result ≢ OUT_OF_TURN → result ≡ TOO_LONG }
    ensures encrypted { let w = round_keys_in gcm.now in
        result ≡ DONE → (iv a p c : List ℕ) → IsEncrypting w iv a c message.old
        → c ≡ nist.text w iv p
        → c ++ text.new ≡ nist.text w iv (p ++ text.old) }
    ensures added { let w = round_keys_in gcm.now in
        result ≡ DONE → (iv a c : List ℕ) → IsEncrypting w iv a c message.old
        → IsInText Phase.Encrypting w iv a (c ++ text.new) message.new }
    ensures untouched { result ≢ DONE → message.new ≡ message.old }
    ensures untouched_text { result ≢ DONE → text.new ≡ text.old }
{
    if !holds_key(gcm) {
        return NO_KEY;
    }
    let mode = mode_of(gcm);
    match mode.encrypt_piece(message, text) {
        Ok(()) => DONE,
        Err(error) => status_of(error),
    }
}

/// Ends a message that was encrypted, writes its tag, and wipes what is kept of it. Returns
/// `NO_KEY` or `OUT_OF_TURN`, the first of them that applies, and else `DONE`.
#[unsafe(no_mangle)]
pub extern "C" fn fotsgure_gcm_finish(gcm: &Gcm, message: &mut Message, tag: &mut [u8; 16]) -> u32
    requires made { IsMade gcm.now }
    ensures no_key { result ≡ NO_KEY ↔ ¬ HoldsKey gcm.now.key }
    ensures out_of_turn { result ≡ OUT_OF_TURN ↔ HoldsKey gcm.now.key
        × IsPhaseRefused Phase.Encrypting message.old }
    ensures refused { result ≢ DONE → result ≢ NO_KEY → result ≡ OUT_OF_TURN }
    ensures tag { let w = round_keys_in gcm.now in
        result ≡ DONE → (iv a c : List ℕ) → IsEncrypting w iv a c message.old
        → tag.new ≡ nist.tag w iv a c }
    ensures over { result ≡ DONE → message.new ≡ no_message }
    ensures untouched { result ≢ DONE → message.new ≡ message.old }
    ensures untouched_tag { result ≢ DONE → tag.new ≡ tag.old }
{
    if !holds_key(gcm) {
        return NO_KEY;
    }
    let mode = mode_of(gcm);
    match mode.finish(message) {
        Ok(made) => {
            *tag = made;
            DONE
        }
        Err(_) => OUT_OF_TURN,
    }
}

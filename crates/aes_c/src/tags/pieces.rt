//! Tags of messages that come in pieces: CMAC.

ghost use Rattle.std.specs.Prelude.{◌≡◌, ◌≢◌, ◌↔◌, ◌≤◌, ◌++◌, ℕ, List, [], length, take};
ghost use Rattle.cmac.specs.Cmac as nist;
ghost use Rattle.cmac.specs.Pieces.{no_message, HasBegun, IsBegun};
ghost use Rattle.aes_c.specs.Form.{round_keys_in, HoldsKey, IsMade};
ghost use Rattle.aes_c.specs.Lengths.{IsCmacLength};

use super::{TAG_STACK, is_tag_length};
use crate::form::{Aes, cipher_of};
use crate::status::{DONE, NO_KEY, OUT_OF_TURN, REFUSED, TAG_LENGTH};
use aes_cipher::cipher::Block;
use aes_cipher::zeroize::{Zeroize, wipe_stack};
use cmac::{Message as CmacMessage, NotAccepted};

/// Begins a message whose tag is made. The struct may be uninitialized: nothing of it is read, and
/// nothing is left of what it held. Returns `DONE` exactly if the struct of the key holds one, else
/// `NO_KEY`.
#[unsafe(no_mangle)]
pub extern "C" fn fotsgure_aes_cmac_begin(aes: &Aes, message: &mut CmacMessage) -> u32
    requires made { IsMade aes.now }
    ensures done { result ≡ DONE ↔ HoldsKey aes.now.key }
    ensures refused { result ≢ DONE → result ≡ NO_KEY }
    ensures begun { result ≡ DONE → IsBegun (round_keys_in aes.now.key) [] message.new }
    ensures untouched { result ≢ DONE → message.new ≡ message.old }
{
    if !aes.key.holds_key() {
        return NO_KEY;
    }
    message.begin();
    DONE
}

/// Takes a piece of a message. Returns `NO_KEY` or `OUT_OF_TURN`, the first of them that applies,
/// and else `DONE`.
#[unsafe(no_mangle)]
pub extern "C" fn fotsgure_aes_cmac_update(
    aes: &Aes,
    message: &mut CmacMessage,
    bytes: &[u8],
) -> u32
    requires made { IsMade aes.now }
    ensures no_key { result ≡ NO_KEY ↔ ¬ HoldsKey aes.now.key }
    ensures out_of_turn { result ≡ OUT_OF_TURN ↔ HoldsKey aes.now.key × ¬ HasBegun message.old }
    ensures refused { result ≢ DONE → result ≢ NO_KEY → result ≡ OUT_OF_TURN }
    ensures begun { result ≡ DONE → HasBegun message.new }
    ensures added { let w = round_keys_in aes.now.key in
        result ≡ DONE → (s : List ℕ) → IsBegun w s message.old
        → IsBegun w (s ++ bytes.now) message.new }
    ensures untouched { result ≢ DONE → message.new ≡ message.old }
{
    if !aes.key.holds_key() {
        return NO_KEY;
    }
    let result = message.update(&cipher_of(&aes.key), bytes);
    wipe_stack::<TAG_STACK>();
    match result {
        Ok(()) => DONE,
        Err(_) => OUT_OF_TURN,
    }
}

/// Ends a message, writes its tag (CMAC, SP 800-38B, 6.2), and wipes what is kept of it. Returns
/// `NO_KEY` or `OUT_OF_TURN`, the first of them that applies, and else `DONE`.
#[unsafe(no_mangle)]
pub extern "C" fn fotsgure_aes_cmac_finish(
    aes: &Aes,
    message: &mut CmacMessage,
    output: &mut Block,
) -> u32
    requires made { IsMade aes.now }
    ensures no_key { result ≡ NO_KEY ↔ ¬ HoldsKey aes.now.key }
    ensures out_of_turn { result ≡ OUT_OF_TURN ↔ HoldsKey aes.now.key × ¬ HasBegun message.old }
    ensures refused { result ≢ DONE → result ≢ NO_KEY → result ≡ OUT_OF_TURN }
    ensures tag { let w = round_keys_in aes.now.key in
        result ≡ DONE → (s : List ℕ) → IsBegun w s message.old → output.new ≡ nist.cmac w s }
    ensures over { result ≡ DONE → message.new ≡ no_message }
    ensures untouched { result ≢ DONE → message.new ≡ message.old }
    ensures untouched_tag { result ≢ DONE → output.new ≡ output.old }
{
    if !aes.key.holds_key() {
        return NO_KEY;
    }
    let result = message.finish(&cipher_of(&aes.key));
    wipe_stack::<TAG_STACK>();
    match result {
        Ok(tag) => {
            *output = tag;
            DONE
        }
        Err(_) => OUT_OF_TURN,
    }
}

/// Compares a tag, or the first bytes of one, with that of what has come, without an early exit (SP
/// 800-38B, 6.3). If it is right, the message is over, and what is kept of it is wiped. Returns
/// `NO_KEY`, `TAG_LENGTH`, `OUT_OF_TURN` or `REFUSED`, the first of them that applies, and else
/// `DONE`.
#[unsafe(no_mangle)]
pub extern "C" fn fotsgure_aes_cmac_accept(
    aes: &Aes,
    message: &mut CmacMessage,
    claimed: &[u8],
) -> u32
    requires made { IsMade aes.now }
    ensures no_key { result ≡ NO_KEY ↔ ¬ HoldsKey aes.now.key }
    ensures tag_length { result ≡ TAG_LENGTH
        ↔ HoldsKey aes.now.key × ¬ IsCmacLength (length claimed.now) }
    ensures out_of_turn { result ≡ OUT_OF_TURN ↔ HoldsKey aes.now.key
        × (IsCmacLength (length claimed.now) × ¬ HasBegun message.old) }
    ensures accepted { let w = round_keys_in aes.now.key in
        HoldsKey aes.now.key → IsCmacLength (length claimed.now)
        → (s : List ℕ) → IsBegun w s message.old
        → result ≡ DONE ↔ (claimed.now ≡ take (length claimed.now) (nist.cmac w s)) }
    ensures refused { result ≢ DONE → result ≢ NO_KEY → result ≢ TAG_LENGTH → result ≢ OUT_OF_TURN
        → result ≡ REFUSED }
    ensures over { result ≡ DONE → message.new ≡ no_message }
    ensures untouched { result ≢ DONE → message.new ≡ message.old }
{
    if !aes.key.holds_key() {
        return NO_KEY;
    }
    if !is_tag_length(claimed.len()) {
        return TAG_LENGTH;
    }
    let result = message.accept(&cipher_of(&aes.key), claimed);
    wipe_stack::<TAG_STACK>();
    match result {
        Ok(()) => DONE,
        Err(NotAccepted::OutOfTurn) => OUT_OF_TURN,
        Err(NotAccepted::Refused) => REFUSED,
    }
}

/// Overwrites the struct with zeros. It then has no message.
#[unsafe(no_mangle)]
pub extern "C" fn fotsgure_aes_cmac_wipe(message: &mut CmacMessage)
    ensures { message.new ≡ no_message }
{
    // A wipe reads what it overwrites, and the struct may be uninitialized. Therefore zeros are
    // written first.
    *message = Zeroize::zero();
    message.zeroize();
}

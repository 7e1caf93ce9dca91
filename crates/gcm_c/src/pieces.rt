//! A message that comes in pieces: its beginning and its additional data.

ghost use Rattle.std.specs.Prelude.{◌≡◌, ◌≢◌, ◌↔◌, ◌+◌, ℕ, List, [], ◌++◌};
ghost use Rattle.std.specs.Prelude.{length, replicate};
ghost use Rattle.gcm.specs.Gcm as nist;
ghost use Rattle.gcm.specs.Gcm.{IsHashedLength};
ghost use Rattle.gcm.specs.declared.message_state.Phase.{Phase};
ghost use Rattle.gcm_c.specs.Form.{HoldsKey};
ghost use Rattle.gcm_c.specs.Kept.{round_keys_in, IsMade, IsNonceLength};
ghost use Rattle.gcm.specs.Pieces.{IsBegun, no_message, phase_of};

mod decrypting;
mod encrypting;

use crate::kept::{Gcm, holds_key, mode_of};
use crate::status::{DONE, NO_KEY, NONCE_LENGTH, OUT_OF_TURN, TOO_LONG};
use aes_cipher::zeroize::Zeroize;
pub use decrypting::{
    fotsgure_gcm_accept, fotsgure_gcm_accept_short, fotsgure_gcm_decrypt,
    fotsgure_gcm_decrypt_unverified, fotsgure_gcm_finish_unverified, fotsgure_gcm_verify,
};
pub use encrypting::{fotsgure_gcm_encrypt, fotsgure_gcm_finish};
use gcm::{InvalidPiece, LONGEST_HASHED, Message};

/// Returns the status of a piece that isn't accepted.
pub(crate) fn status_of(error: InvalidPiece) -> u32
    ensures out_of_turn { result ≡ OUT_OF_TURN ↔ (error ≡ InvalidPiece.OutOfTurn) }
    ensures too_long { result ≡ TOO_LONG ↔ (error ≡ InvalidPiece.TooLong) }
    ensures refused { result ≢ OUT_OF_TURN → result ≡ TOO_LONG }
{
    match error {
        InvalidPiece::OutOfTurn => OUT_OF_TURN,
        InvalidPiece::TooLong => TOO_LONG,
    }
}

/// Begins a message under a nonce. The struct may be uninitialized: nothing of it is read, and
/// nothing is left of what it held. Returns `NONCE_LENGTH` or `NO_KEY`, the first of them that
/// applies, and else `DONE`.
#[unsafe(no_mangle)]
pub extern "C" fn fotsgure_gcm_begin(gcm: &Gcm, message: &mut Message, nonce: &[u8]) -> u32
    requires made { IsMade gcm.now }
    ensures nonce_length { result ≡ NONCE_LENGTH ↔ ¬ IsNonceLength (length nonce.now) }
    ensures done { result ≡ DONE ↔ IsNonceLength (length nonce.now) × HoldsKey gcm.now.key }
    ensures refused { result ≢ DONE → result ≢ NONCE_LENGTH → result ≡ NO_KEY }
    ensures begun { result ≡ DONE → IsBegun (round_keys_in gcm.now) nonce.now [] message.new }
    ensures clean { result ≡ DONE → (message.new.rest ≡ replicate 16 0)
        × (message.new.decrypted ≡ 0) }
    ensures untouched { result ≢ DONE → message.new ≡ message.old }
{
    if nonce.len() == 0 || nonce.len() as u64 > LONGEST_HASHED {
        return NONCE_LENGTH;
    }
    if !holds_key(gcm) {
        return NO_KEY;
    }
    let mode = mode_of(gcm);
    mode.start(message, nonce);
    DONE
}

/// Takes a piece of additional data. Returns `NO_KEY`, `OUT_OF_TURN` or `TOO_LONG`, the first of
/// them that applies, and else `DONE`.
#[unsafe(no_mangle)]
pub extern "C" fn fotsgure_gcm_additional(
    gcm: &Gcm,
    message: &mut Message,
    additional: &[u8],
) -> u32
    requires made { IsMade gcm.now }
    ensures no_key { result ≡ NO_KEY ↔ ¬ HoldsKey gcm.now.key }
    ensures out_of_turn { result ≡ OUT_OF_TURN ↔ HoldsKey gcm.now.key
        × (phase_of message.old.phase ≢ Phase.Additional) }
    ensures done { result ≡ DONE ↔ HoldsKey gcm.now.key
        × ((phase_of message.old.phase ≡ Phase.Additional)
        × IsHashedLength (message.old.additional + length additional.now)) }
    ensures refused { result ≢ DONE → result ≢ NO_KEY → result ≢ OUT_OF_TURN → result ≡ TOO_LONG }
    ensures added { let w = round_keys_in gcm.now in
        result ≡ DONE → (iv a : List ℕ) → IsBegun w iv a message.old
        → IsBegun w iv (a ++ additional.now) message.new }
    ensures untouched { result ≢ DONE → message.new ≡ message.old }
{
    if !holds_key(gcm) {
        return NO_KEY;
    }
    let mode = mode_of(gcm);
    match mode.additional_piece(message, additional) {
        Ok(()) => DONE,
        Err(error) => status_of(error),
    }
}

/// Overwrites the struct with zeros. It then has no message.
#[unsafe(no_mangle)]
pub extern "C" fn fotsgure_gcm_wipe_message(message: &mut Message)
    ensures { message.new ≡ no_message }
{
    // A wipe reads what it overwrites, and the struct may be uninitialized. Therefore zeros are
    // written first.
    *message = Zeroize::zero();
    message.zeroize();
}

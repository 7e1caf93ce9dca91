//! Nonces that the library counts and the caller keeps.

ghost use Rattle.std.specs.Prelude.{◌≡◌, ◌≢◌, ◌↔◌, ◌+◌, ◌-◌, ◌^◌, [], length, replicate};
ghost use Rattle.gcm_c.specs.Form.{HoldsKey};
ghost use Rattle.gcm.specs.Gcm as nist;
ghost use Rattle.gcm.specs.Gcm.{nonce_number, IsHashedLength, IsTextLength, IsTooLong};
ghost use Rattle.gcm.specs.Pieces.{IsBegun};
ghost use Rattle.gcm_c.specs.Kept.{round_keys_in, IsMade};

use crate::kept::{Gcm, holds_key, mode_of};
use crate::status::{DONE, NO_KEY, NONCES_END, TOO_LONG};
use crate::whole::fotsgure_gcm_seal;
use gcm::{Counter, Message};

/// Encrypts a text in place under the counter's next nonce, writes that nonce and the tag, and
/// moves the counter on by one (SP 800-38D, 7.1 and 8.2.1). Returns `NONCES_END`, `TOO_LONG` or
/// `NO_KEY`, the first of them that applies, and else `DONE`.
#[unsafe(no_mangle)]
pub extern "C" fn fotsgure_gcm_seal_next(
    gcm: &Gcm,
    counter: &mut Counter,
    nonce: &mut [u8; 12],
    additional: &[u8],
    text: &mut [u8],
    tag: &mut [u8; 16],
) -> u32
    requires made { IsMade gcm.now }
    ensures ended { result ≡ NONCES_END ↔ (nonce_number counter.old.next ≡ 2 ^ 96 - 1) }
    ensures too_long { result ≡ TOO_LONG ↔ (nonce_number counter.old.next ≢ 2 ^ 96 - 1)
        × IsTooLong (length additional.now) (length text.old) }
    ensures done { result ≡ DONE ↔ (nonce_number counter.old.next ≢ 2 ^ 96 - 1)
        × (IsHashedLength (length additional.now)
        × (IsTextLength (length text.old) × HoldsKey gcm.now.key)) }
    ensures refused { result ≢ DONE → result ≢ NONCES_END → result ≢ TOO_LONG → result ≡ NO_KEY }
    ensures nonce { result ≡ DONE → nonce.new ≡ counter.old.next }
    ensures encrypted { result ≡ DONE → text.new
        ≡ nist.text (round_keys_in gcm.now) counter.old.next text.old }
    ensures tag { result ≡ DONE
        → tag.new ≡ nist.tag (round_keys_in gcm.now) counter.old.next additional.now text.new }
    ensures counted { result ≡ DONE → nonce_number counter.new.next
        ≡ nonce_number counter.old.next + 1 }
    ensures uncounted { result ≢ DONE → counter.new.next ≡ counter.old.next }
    ensures untouched { result ≢ DONE → text.new ≡ text.old }
    ensures untouched_nonce { result ≢ DONE → nonce.new ≡ nonce.old }
    ensures untouched_tag { result ≢ DONE → tag.new ≡ tag.old }
{
    if counter.is_over() {
        return NONCES_END;
    }
    let status = fotsgure_gcm_seal(gcm, &counter.next, additional, text, tag);
    if status == DONE {
        *nonce = counter.take();
    }
    status
}

/// Begins a message under the counter's next nonce, writes that nonce, and moves the counter on by
/// one (SP 800-38D, 8.2.1). The struct of the message may be uninitialized: nothing of it is read,
/// and nothing is left of what it held. Returns `NONCES_END` or `NO_KEY`, the first of them that
/// applies, and else `DONE`.
#[unsafe(no_mangle)]
pub extern "C" fn fotsgure_gcm_begin_next(
    gcm: &Gcm,
    message: &mut Message,
    counter: &mut Counter,
    nonce: &mut [u8; 12],
) -> u32
    requires made { IsMade gcm.now }
    ensures ended { result ≡ NONCES_END ↔ (nonce_number counter.old.next ≡ 2 ^ 96 - 1) }
    ensures done { result ≡ DONE ↔ (nonce_number counter.old.next ≢ 2 ^ 96 - 1)
        × HoldsKey gcm.now.key }
    ensures refused { result ≢ DONE → result ≢ NONCES_END → result ≡ NO_KEY }
    ensures nonce { result ≡ DONE → nonce.new ≡ counter.old.next }
    ensures begun { result ≡ DONE
        → IsBegun (round_keys_in gcm.now) counter.old.next [] message.new }
    ensures clean { result ≡ DONE → (message.new.rest ≡ replicate 16 0)
        × (message.new.decrypted ≡ 0) }
    ensures counted { result ≡ DONE → nonce_number counter.new.next
        ≡ nonce_number counter.old.next + 1 }
    ensures uncounted { result ≢ DONE → counter.new.next ≡ counter.old.next }
    ensures untouched { result ≢ DONE → message.new ≡ message.old }
    ensures untouched_nonce { result ≢ DONE → nonce.new ≡ nonce.old }
{
    if counter.is_over() {
        return NONCES_END;
    }
    if !holds_key(gcm) {
        return NO_KEY;
    }
    let mode = mode_of(gcm);
    *nonce = mode.begin_next(message, counter);
    DONE
}

//! Messages in pieces. The result is that of the whole message, however the pieces are cut.

ghost use Rattle.std.specs.Prelude.{◌≡◌, ◌≢◌, ◌↔◌, ◌⊎◌, ◌+◌, ◌-◌, ◌/◌, ◌%◌, ◌^◌, ◌<◌, ℕ, List, []};
ghost use Rattle.std.specs.Prelude.{◌++◌, length, replicate, IsErr, IsErrOf, IsTrue, OnOk, OnErr};
ghost use Rattle.aes_cipher.specs.Blocks.{padded};
ghost use Rattle.gcm.specs.Gcm as nist;
ghost use Rattle.gcm.specs.Gcm.{nonce_number, IsHashedLength, IsTextLength, IsTooMuchHashed};
ghost use Rattle.gcm.specs.Gcm.{IsTooMuchText};
ghost use Rattle.gcm.specs.Pieces.{hashed_padded, IsBegun, IsInText, IsAt, IsPhaseRefused, IsPhaseAllowed};
ghost use Rattle.gcm.specs.Pieces.{no_message, phase_of};
ghost use Rattle.gcm.specs.declared.message_state.Phase.{Phase};

mod decrypting;
mod encrypting;

use crate::counter::Counter;
use crate::errors::{InvalidMessage, InvalidPiece, OutOfTurn};
use crate::hash_room::{HashRoom, hash_on, hash_piece};
use crate::lengths::{LONGEST_HASHED, LONGEST_TEXT};
use crate::message_state::{Message, Phase, number_of_phase, phase_of};
use crate::mode::{BorrowedGcm, HASH_STACK};
use crate::tags::{add_masked, hash_lengths, put_mask};
use aes_cipher::blocks::{block_of_number, number_of_block};
use aes_cipher::cipher::{Block, BlockCipherEncrypt};
use aes_cipher::zeroize::{Zeroize, wipe_stack};

// Returns whether text of a phase may come: the message is in that phase, or additional data may
// still come.
fn may_enter(message: &Message, phase: Phase) -> bool
    ensures { IsTrue result ↔ IsPhaseAllowed phase message.now }
{
    let now = phase_of(message.phase);
    now == Phase::Additional || now == phase
}

// How many bytes there are of a block that isn't whole yet, of additional data or of text.
fn rest_length(message: &Message) -> usize
    ensures inside { result < 16 }
    ensures additional { phase_of message.now.phase ≡ Phase.Additional
        → result ≡ message.now.additional % 16 }
    ensures text { phase_of message.now.phase ≢ Phase.Additional → result ≡ message.now.text % 16 }
{
    if phase_of(message.phase) == Phase::Additional {
        (message.additional % 16) as usize
    } else {
        (message.text % 16) as usize
    }
}

// Wipes the stack after J_0 was written. A nonce of another length than 12 bytes is hashed, and
// then J_0 is secret.
#[inline(always)]
fn wipe_stack_after(nonce: &[u8]) {
    if nonce.len() != 12 {
        wipe_stack::<HASH_STACK>();
    }
}

impl<'a, C: BlockCipherEncrypt, R: HashRoom> BorrowedGcm<'a, C, R> {
    /// Begins a message. Never use a nonce twice under a key. A nonce has any length; 12 bytes are
    /// advised. Nothing is left of a message that was there before.
    ///
    /// # Errors
    ///
    /// `EmptyNonce` exactly if the nonce has no bytes, `TooLong` exactly if it has 2^61 or more.
    /// The message is then unchanged.
    pub fn begin(&self, message: &mut Message, nonce: &[u8]) -> Result<(), InvalidMessage>
        ensures empty { IsErrOf result InvalidMessage.EmptyNonce ↔ (length nonce.now ≡ 0) }
        ensures refusal { IsErr result ↔ ((length nonce.now ≡ 0)
            ⊎ IsTooMuchHashed (length nonce.now)) }
        ensures begun { OnOk result (IsBegun self.now nonce.now [] message.new) }
        ensures clean { OnOk result ((message.new.rest ≡ replicate 16 0)
            × (message.new.decrypted ≡ 0)) }
        ensures untouched { OnErr result (message.new ≡ message.old) }
    {
        if nonce.len() == 0 {
            return Err(InvalidMessage::EmptyNonce);
        }
        if nonce.len() as u64 > LONGEST_HASHED {
            return Err(InvalidMessage::TooLong);
        }
        self.start(message, nonce);
        Ok(())
    }

    /// Begins a message as `begin`, where the caller knows that the length of the nonce is allowed.
    pub fn start(&self, message: &mut Message, nonce: &[u8])
        requires some { 0 < length nonce.now }
        requires nonce { IsHashedLength (length nonce.now) }
        ensures begun { IsBegun self.now nonce.now [] message.new }
        ensures clean { (message.new.rest ≡ replicate 16 0) × (message.new.decrypted ≡ 0) }
    {
        self.put_pre_counter(nonce, &mut message.first);
        message.phase = number_of_phase(Phase::Additional);
        message.value = block_of_number(0);
        message.rest = [0; 16];
        message.additional = 0;
        message.text = 0;
        message.decrypted = 0;
        wipe_stack_after(nonce);
    }

    /// Begins a message under the counter's next nonce, which it returns, and moves the counter on
    /// by one (8.2.1). First ask `is_over` whether a nonce is left. Nothing is left of a message
    /// that was there before.
    pub fn begin_next(&self, message: &mut Message, counter: &mut Counter) -> [u8; 12]
        requires { nonce_number counter.old.next ≢ 2 ^ 96 - 1 }
        ensures nonce { result ≡ counter.old.next }
        ensures begun { IsBegun self.now counter.old.next [] message.new }
        ensures clean { (message.new.rest ≡ replicate 16 0) × (message.new.decrypted ≡ 0) }
        ensures counted { nonce_number counter.new.next ≡ nonce_number counter.old.next + 1 }
    {
        let nonce = counter.take();
        self.start(message, &nonce);
        nonce
    }

    /// Takes a piece of additional data, of any size. All additional data come before the text.
    ///
    /// # Errors
    ///
    /// `OutOfTurn` exactly if no message has begun or text has come. Else `TooLong` exactly if
    /// there would be 2^61 bytes of additional data or more. The message is then unchanged.
    pub fn additional_piece(&self, message: &mut Message, bytes: &[u8]) -> Result<(), InvalidPiece>
        ensures out_of_turn { IsErrOf result InvalidPiece.OutOfTurn ↔
            (phase_of message.old.phase ≢ Phase.Additional) }
        ensures refusal { IsErr result ↔ ((phase_of message.old.phase ≢ Phase.Additional)
            ⊎ IsTooMuchHashed (message.old.additional + length bytes.now)) }
        ensures added { OnOk result ((iv a : List ℕ) → IsBegun self.now iv a message.old
            → IsBegun self.now iv (a ++ bytes.now) message.new) }
        ensures untouched { OnErr result (message.new ≡ message.old) }
    {
        if phase_of(message.phase) != Phase::Additional {
            return Err(InvalidPiece::OutOfTurn);
        }
        if message.additional.saturating_add(bytes.len() as u64) > LONGEST_HASHED {
            return Err(InvalidPiece::TooLong);
        }
        let rest_length = (message.additional % 16) as usize;
        hash_piece(
            &self.room,
            &mut message.value,
            &mut message.rest,
            rest_length,
            bytes,
        );
        wipe_stack::<HASH_STACK>();
        message.additional += bytes.len() as u64;
        Ok(())
    }

    // Moves the message on to a phase, unless it is out of turn or `more` bytes are too many. This
    // is a call of its own: GHASH's value after the additional data is then only below the caller's
    // frame, and is wiped there.
    #[inline(never)]
    fn enter_phase(
        &self,
        message: &mut Message,
        phase: Phase,
        more: usize,
    ) -> Result<(), InvalidPiece>
        requires { phase ≢ Phase.Additional }
        ensures out_of_turn { IsErrOf result InvalidPiece.OutOfTurn
            ↔ IsPhaseRefused phase message.old }
        ensures refusal { IsErr result ↔
            (IsPhaseRefused phase message.old
            ⊎ IsTooMuchText (message.old.text + more)) }
        ensures turned { OnOk result ((iv a c : List ℕ) → IsAt phase self.now iv a c message.old
            → IsInText phase self.now iv a c message.new) }
        ensures phase { OnOk result (phase_of message.new.phase ≡ phase) }
        ensures text { message.new.text ≡ message.old.text }
        ensures untouched { OnErr result (message.new ≡ message.old) }
    {
        if !may_enter(message, phase) {
            return Err(InvalidPiece::OutOfTurn);
        }
        if message.text.saturating_add(more as u64) > LONGEST_TEXT {
            return Err(InvalidPiece::TooLong);
        }
        if phase_of(message.phase) == Phase::Additional {
            let value = self.hash_so_far(message);
            message.value = block_of_number(value);
            message.phase = number_of_phase(phase);
        }
        Ok(())
    }

    // Returns the value of GHASH after what has come and zeros that fill its last block. Never
    // inlined, since H would then be left in a frame that no wipe reaches.
    #[inline(never)]
    fn hash_so_far(&self, message: &Message) -> u128
        ensures additional { (iv a : List ℕ) → IsBegun self.now iv a message.now
            → result ≡ hashed_padded (nist.hash_subkey self.now) a }
        ensures text { (phase : Phase) (iv a c : List ℕ) → phase ≢ Phase.Additional
            → IsInText phase self.now iv a c message.now
            → result ≡ nist.hashed (nist.hash_subkey self.now)
            (hashed_padded (nist.hash_subkey self.now) a) (padded c)
            (length (padded c) / 16) }
    {
        let rest_length = rest_length(message);
        let before = number_of_block(&message.value);
        hash_on(&self.room, before, &message.rest[..rest_length])
    }

    // Takes more of a cipher text into GHASH.
    fn hash_text(&self, message: &mut Message, text: &[u8])
        requires phase { phase_of message.old.phase ≢ Phase.Additional }
        requires short { IsTextLength (message.old.text + length text.now) }
        ensures { (phase : Phase) (iv a c : List ℕ) → IsInText phase self.now iv a c message.old
            → IsInText phase self.now iv a (c ++ text.now) message.new }
    {
        let rest_length = (message.text % 16) as usize;
        hash_piece(
            &self.room,
            &mut message.value,
            &mut message.rest,
            rest_length,
            text,
        );
        message.text += text.len() as u64;
    }

    // Writes the tag of what has come so far (7.1, steps 4 to 6). This is a call of its own, so
    // that its stack can be wiped.
    #[inline(never)]
    fn put_tag_so_far(&self, message: &Message, tag: &mut Block)
        ensures { (phase : Phase) (iv a c : List ℕ) → phase ≢ Phase.Additional
            → IsAt phase self.now iv a c message.now → tag.new ≡ nist.tag self.now iv a c }
    {
        put_mask(&self.cipher, &message.first, tag);
        let value = self.hash_so_far(message);
        let additional = message.additional.min(LONGEST_HASHED);
        let text = message.text.min(LONGEST_TEXT);
        let value = hash_lengths(&self.room, value, additional, text);
        add_masked(value, tag);
    }

    // Ends a message whose text is of a phase, and writes its tag. Nothing is left of the message.
    fn end(&self, message: &mut Message, phase: Phase, tag: &mut Block) -> Result<(), OutOfTurn>
        requires { phase ≢ Phase.Additional }
        ensures out_of_turn { IsErr result ↔ IsPhaseRefused phase message.old }
        ensures tag { OnOk result ((iv a c : List ℕ) → IsAt phase self.now iv a c message.old
            → tag.new ≡ nist.tag self.now iv a c) }
        ensures over { OnOk result (message.new ≡ no_message) }
        ensures untouched { OnErr result (message.new ≡ message.old) }
        ensures untouched_tag { OnErr result (tag.new ≡ tag.old) }
    {
        if !may_enter(message, phase) {
            return Err(OutOfTurn);
        }
        self.put_tag_so_far(message, tag);
        wipe_stack::<HASH_STACK>();
        message.zeroize();
        Ok(())
    }
}

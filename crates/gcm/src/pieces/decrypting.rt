//! Messages in pieces whose tag is compared, and which are decrypted.

ghost use Rattle.std.specs.Prelude.{◌≡◌, ◌≢◌, ◌↔◌, ◌⊎◌, ◌+◌, ◌-◌, ◌<◌, ◌≤◌, ℕ, List, [], ◌++◌};
ghost use Rattle.std.specs.Prelude.{length, drop, IsOk, IsErr, IsErrOf, IsTrue, OnOk, OnErr};
ghost use Rattle.gcm.specs.Gcm as nist;
ghost use Rattle.gcm.specs.Gcm.{HasFixedLength, IsTooMuchText};
ghost use Rattle.gcm.specs.Pieces.{IsInText, IsAt, IsPhaseRefused, IsVerifying, IsDecrypting};
ghost use Rattle.gcm.specs.Pieces.{KeepsParts, no_message, phase_of};
ghost use Rattle.gcm.specs.declared.message_state.Phase.{Phase};

use super::may_enter;
use crate::errors::{InvalidPiece, NotAccepted, OutOfTurn};
use crate::gctr::{SecretBlock, add_gctr};
use crate::hash_room::HashRoom;
use crate::lengths::LONGEST_TEXT;
use crate::message_state::{Message, Phase, number_of_phase, phase_of};
use crate::mode::{BorrowedGcm, HASH_STACK, TEXT_STACK};
use crate::tags::{is_expected, is_short_tag};
use aes_cipher::cipher::{Block, BlockCipherEncrypt};
use aes_cipher::zeroize::wipe_stack;

// Writes a claimed tag of at most 16 bytes, and after it the bytes that the expected tag has
// there. The result is the expected tag exactly if the claimed one is its first bytes.
#[inline(always)]
fn put_claimed(tag: &[u8], expected: &Block, claimed: &mut Block)
    requires { length tag.now ≤ 16 }
    ensures { claimed.new ≡ tag.now ++ drop (length tag.now) expected.now }
{
    *claimed = *expected;
    claimed[..tag.len()].copy_from_slice(tag);
}

impl<'a, C: BlockCipherEncrypt, R: HashRoom> BorrowedGcm<'a, C, R> {
    /// Takes a piece of a cipher text whose tag is to be compared, of any size, and writes nothing
    /// to it.
    ///
    /// # Errors
    ///
    /// `OutOfTurn` exactly if no message has begun, or text has come that was encrypted or
    /// accepted. Else `TooLong` exactly if there would be more than 2^36 - 32 bytes of text. The
    /// message is then unchanged.
    pub fn verify_piece(&self, message: &mut Message, text: &[u8]) -> Result<(), InvalidPiece>
        ensures out_of_turn { IsErrOf result InvalidPiece.OutOfTurn
            ↔ IsPhaseRefused Phase.Verifying message.old }
        ensures refusal { IsErr result ↔ (IsPhaseRefused Phase.Verifying message.old
            ⊎ IsTooMuchText (message.old.text + length text.now)) }
        ensures added { OnOk result ((iv a c : List ℕ) → IsVerifying self.now iv a c message.old
            → IsInText Phase.Verifying self.now iv a (c ++ text.now) message.new) }
        ensures untouched { OnErr result (message.new ≡ message.old) }
    {
        self.enter_phase(message, Phase::Verifying, text.len())?;
        self.hash_text(message, text);
        wipe_stack::<HASH_STACK>();
        Ok(())
    }

    /// Compares a tag with that of the additional data and the cipher text that have come, without
    /// an early exit. If it is right, the cipher text may come once more, to be decrypted.
    ///
    /// # Errors
    ///
    /// `OutOfTurn` exactly if no message has begun, or text has come that was encrypted or
    /// accepted. Else `Refused` exactly if the tag is wrong. The message is then unchanged.
    pub fn accept(&self, message: &mut Message, tag: &Block) -> Result<(), NotAccepted>
        ensures out_of_turn { IsErrOf result NotAccepted.OutOfTurn
            ↔ IsPhaseRefused Phase.Verifying message.old }
        ensures accepted { (iv a c : List ℕ) → IsVerifying self.now iv a c message.old
            → IsOk result ↔ (tag.now ≡ nist.tag self.now iv a c) }
        ensures decrypting { OnOk result ((iv a c : List ℕ) → IsVerifying self.now iv a c message.old
            → IsDecrypting self.now iv (length c) [] message.new) }
        ensures phase { OnOk result (phase_of message.new.phase ≡ Phase.Decrypting) }
        ensures kept { OnOk result (KeepsParts message.old message.new) }
        ensures untouched { OnErr result (message.new ≡ message.old) }
    {
        if !may_enter(message, Phase::Verifying) {
            return Err(NotAccepted::OutOfTurn);
        }
        let is_right = self.is_tag_so_far(message, tag);
        wipe_stack::<TEXT_STACK>();
        if !is_right {
            return Err(NotAccepted::Refused);
        }
        message.phase = number_of_phase(Phase::Decrypting);
        message.decrypted = 0;
        Ok(())
    }

    /// Compares a tag of fewer than 16 bytes, as `accept` compares one of 16. All tags under a key
    /// have the same length. It is fixed with the key (5.2.1.2), and doesn't come with a message. A
    /// forged tag of n bytes is right with a chance of 1 in 256^n or more. A key may check only few
    /// tags of 4 or 8 bytes (appendix C).
    ///
    /// # Errors
    ///
    /// `OutOfTurn` exactly as `accept`. Else `Refused` exactly if the tag doesn't have this many
    /// bytes, if no tag may, or if the tag isn't the first bytes of that of 16. The message is then
    /// unchanged.
    pub fn accept_short(
        &self,
        message: &mut Message,
        fixed_length: usize,
        tag: &[u8],
    ) -> Result<(), NotAccepted>
        ensures out_of_turn { IsErrOf result NotAccepted.OutOfTurn
            ↔ IsPhaseRefused Phase.Verifying message.old }
        ensures accepted { (iv a c : List ℕ) → IsVerifying self.now iv a c message.old
            → IsOk result ↔ (HasFixedLength fixed_length tag.now
            × (tag.now ≡ nist.short_tag (length tag.now) self.now iv a c)) }
        ensures decrypting { OnOk result ((iv a c : List ℕ) → IsVerifying self.now iv a c message.old
            → IsDecrypting self.now iv (length c) [] message.new) }
        ensures phase { OnOk result (phase_of message.new.phase ≡ Phase.Decrypting) }
        ensures kept { OnOk result (KeepsParts message.old message.new) }
        ensures untouched { OnErr result (message.new ≡ message.old) }
    {
        if !may_enter(message, Phase::Verifying) {
            return Err(NotAccepted::OutOfTurn);
        }
        if !is_short_tag(fixed_length, tag) {
            return Err(NotAccepted::Refused);
        }
        let is_right = self.is_short_tag_so_far(message, tag);
        wipe_stack::<TEXT_STACK>();
        if !is_right {
            return Err(NotAccepted::Refused);
        }
        message.phase = number_of_phase(Phase::Decrypting);
        message.decrypted = 0;
        Ok(())
    }

    /// Decrypts a piece in place, of any size, of the cipher text whose tag was right. Pass the
    /// same cipher text once more, from its beginning. Nothing of a message is given out before its
    /// tag was found right.
    ///
    /// # Errors
    ///
    /// `OutOfTurn` exactly if no tag was accepted. Else `TooLong` exactly if there would be more
    /// text than was accepted, or more than 2^36 - 32 bytes. Message and text are then unchanged.
    pub fn decrypt_piece(&self, message: &mut Message, text: &mut [u8]) -> Result<(), InvalidPiece>
        ensures out_of_turn { IsErrOf result InvalidPiece.OutOfTurn ↔
            (phase_of message.old.phase ≢ Phase.Decrypting) }
        ensures refusal { IsErr result ↔ ((phase_of message.old.phase ≢ Phase.Decrypting)
            ⊎ ((message.old.text < message.old.decrypted + length text.old)
            ⊎ IsTooMuchText (message.old.decrypted + length text.old))) }
        ensures decrypted { OnOk result ((n : ℕ) (iv c : List ℕ)
            → IsDecrypting self.now iv n c message.old
            → nist.text self.now iv c ++ text.new ≡ nist.text self.now iv (c ++ text.old)) }
        ensures added { OnOk result ((n : ℕ) (iv c : List ℕ)
            → IsDecrypting self.now iv n c message.old
            → IsDecrypting self.now iv n (c ++ text.old) message.new) }
        ensures phase { OnOk result (phase_of message.new.phase ≡ Phase.Decrypting) }
        ensures kept { OnOk result (KeepsParts message.old message.new) }
        ensures counted { OnOk result (message.new.decrypted
            ≡ message.old.decrypted + length text.old) }
        ensures untouched { OnErr result (message.new ≡ message.old) }
        ensures untouched_text { OnErr result (text.new ≡ text.old) }
    {
        if phase_of(message.phase) != Phase::Decrypting {
            return Err(InvalidPiece::OutOfTurn);
        }
        if message.decrypted.saturating_add(text.len() as u64) > message.text.min(LONGEST_TEXT) {
            return Err(InvalidPiece::TooLong);
        }
        add_gctr(&self.cipher, &message.first, 16 + message.decrypted, text);
        message.decrypted += text.len() as u64;
        wipe_stack::<TEXT_STACK>();
        Ok(())
    }

    /// Takes a piece of a cipher text whose tag is to be compared, and decrypts it in place at
    /// once. **What it gives out isn't authenticated**: use none of it before `accept` has found
    /// the tag right, and forget it if the tag is wrong.
    ///
    /// # Errors
    ///
    /// Those of `verify_piece`; message and text are then unchanged.
    pub fn decrypt_unverified_piece(
        &self,
        message: &mut Message,
        text: &mut [u8],
    ) -> Result<(), InvalidPiece>
        ensures out_of_turn { IsErrOf result InvalidPiece.OutOfTurn
            ↔ IsPhaseRefused Phase.Verifying message.old }
        ensures refusal { IsErr result ↔ (IsPhaseRefused Phase.Verifying message.old
            ⊎ IsTooMuchText (message.old.text + length text.old)) }
        ensures decrypted { OnOk result ((iv a c : List ℕ) → IsVerifying self.now iv a c message.old
            → nist.text self.now iv c ++ text.new ≡ nist.text self.now iv (c ++ text.old)) }
        ensures added { OnOk result ((iv a c : List ℕ) → IsVerifying self.now iv a c message.old
            → IsInText Phase.Verifying self.now iv a (c ++ text.old) message.new) }
        ensures untouched { OnErr result (message.new ≡ message.old) }
        ensures untouched_text { OnErr result (text.new ≡ text.old) }
    {
        self.enter_phase(message, Phase::Verifying, text.len())?;
        let position = 16 + message.text;
        self.hash_text(message, text);
        add_gctr(&self.cipher, &message.first, position, text);
        wipe_stack::<TEXT_STACK>();
        Ok(())
    }

    /// Ends a message whose tag was to be compared, and writes its right tag. Nothing is left of
    /// the message. **Use this only where another program's interface leaves the comparison to
    /// you**, and `accept` otherwise: whoever learns the right tag of a text that isn't
    /// authenticated has forged a message. Compare the tag without an early exit. If the claimed
    /// tag is another, forget the right one and all that was decrypted.
    ///
    /// # Errors
    ///
    /// `OutOfTurn` exactly if no message has begun, or text has come that was encrypted or
    /// accepted; message and tag are then unchanged.
    pub fn finish_unverified(&self, message: &mut Message, tag: &mut Block) -> Result<(), OutOfTurn>
        ensures out_of_turn { IsErr result
            ↔ IsPhaseRefused Phase.Verifying message.old }
        ensures tag { OnOk result ((iv a c : List ℕ) → IsVerifying self.now iv a c message.old
            → tag.new ≡ nist.tag self.now iv a c) }
        ensures over { OnOk result (message.new ≡ no_message) }
        ensures untouched { OnErr result (message.new ≡ message.old) }
        ensures untouched_tag { OnErr result (tag.new ≡ tag.old) }
    {
        self.end(message, Phase::Verifying, tag)
    }

    // Whether a tag is that of what has come so far. This is a call of its own: its caller, which
    // then wipes the stack, has nothing of the right tag in a register.
    #[inline(never)]
    fn is_tag_so_far(&self, message: &Message, tag: &Block) -> bool
        ensures { (phase : Phase) (iv a c : List ℕ) → phase ≢ Phase.Additional
            → IsAt phase self.now iv a c message.now
            → IsTrue result ↔ (tag.now ≡ nist.tag self.now iv a c) }
    {
        let mut expected = SecretBlock::zeroed();
        self.put_tag_so_far(message, &mut expected.value_mut()[0]);
        let is_equal = is_expected(tag, &expected.value()[0]);
        expected.wipe();
        is_equal
    }

    // Whether a tag of at most 16 bytes is the first bytes of the tag of what has come so far. This
    // is a call of its own, as `is_tag_so_far`.
    #[inline(never)]
    fn is_short_tag_so_far(&self, message: &Message, tag: &[u8]) -> bool
        requires { length tag.now ≤ 16 }
        ensures { (phase : Phase) (iv a c : List ℕ) → phase ≢ Phase.Additional
            → IsAt phase self.now iv a c message.now
            → IsTrue result ↔ (tag.now ≡ nist.short_tag (length tag.now) self.now iv a c) }
    {
        let mut expected = SecretBlock::zeroed();
        let mut claimed = SecretBlock::zeroed();
        self.put_tag_so_far(message, &mut expected.value_mut()[0]);
        put_claimed(tag, &expected.value()[0], &mut claimed.value_mut()[0]);
        let is_equal = is_expected(&claimed.value()[0], &expected.value()[0]);
        expected.wipe();
        claimed.wipe();
        is_equal
    }
}

//! Messages in pieces that are encrypted.

ghost use Rattle.std.specs.Prelude.{◌≡◌, ◌↔◌, ◌⊎◌, ◌+◌, ℕ, List, ◌++◌, length};
ghost use Rattle.std.specs.Prelude.{IsErr, IsErrOf, IfOk, OnOk, OnErr};
ghost use Rattle.gcm.specs.Gcm as nist;
ghost use Rattle.gcm.specs.Gcm.{IsTooMuchText};
ghost use Rattle.gcm.specs.Pieces.{IsInText, IsEncrypting, IsPhaseRefused, no_message};
ghost use Rattle.gcm.specs.declared.message_state.Phase.{Phase};

use crate::errors::{InvalidPiece, OutOfTurn};
use crate::gctr::add_gctr;
use crate::hash_room::HashRoom;
use crate::message_state::{Message, Phase};
use crate::mode::{BorrowedGcm, TEXT_STACK};
use aes_cipher::cipher::{Block, BlockCipherEncrypt};
use aes_cipher::zeroize::wipe_stack;

impl<'a, C: BlockCipherEncrypt, R: HashRoom> BorrowedGcm<'a, C, R> {
    /// Encrypts a piece of the text in place, of any size.
    ///
    /// # Errors
    ///
    /// `OutOfTurn` exactly if no message has begun, or text has come that is to be decrypted. Else
    /// `TooLong` exactly if there would be more than 2^36 - 32 bytes of text. Message and text are
    /// then unchanged.
    pub fn encrypt_piece(&self, message: &mut Message, text: &mut [u8]) -> Result<(), InvalidPiece>
        ensures out_of_turn { IsErrOf result InvalidPiece.OutOfTurn
            ↔ IsPhaseRefused Phase.Encrypting message.old }
        ensures refusal { IsErr result ↔ (IsPhaseRefused Phase.Encrypting message.old
            ⊎ IsTooMuchText (message.old.text + length text.old)) }
        ensures encrypted { OnOk result ((iv a p c : List ℕ)
            → IsEncrypting self.now iv a c message.old
            → c ≡ nist.text self.now iv p → c ++ text.new ≡ nist.text self.now iv (p ++ text.old)) }
        ensures added { OnOk result ((iv a c : List ℕ) → IsEncrypting self.now iv a c message.old
            → IsInText Phase.Encrypting self.now iv a (c ++ text.new) message.new) }
        ensures untouched { OnErr result (message.new ≡ message.old) }
        ensures untouched_text { OnErr result (text.new ≡ text.old) }
    {
        self.enter_phase(message, Phase::Encrypting, text.len())?;
        add_gctr(&self.cipher, &message.first, 16 + message.text, text);
        self.hash_text(message, text);
        wipe_stack::<TEXT_STACK>();
        Ok(())
    }

    /// Ends a message that was encrypted, and returns its tag. Nothing is left of the message.
    ///
    /// # Errors
    ///
    /// `OutOfTurn` exactly if no message has begun, or text has come that is to be decrypted; the
    /// message is then unchanged.
    pub fn finish(&self, message: &mut Message) -> Result<Block, OutOfTurn>
        ensures out_of_turn { IsErr result
            ↔ IsPhaseRefused Phase.Encrypting message.old }
        ensures tag { IfOk result (λ tag. (iv a c : List ℕ)
            → IsEncrypting self.now iv a c message.old
            → tag ≡ nist.tag self.now iv a c) }
        ensures over { OnOk result (message.new ≡ no_message) }
        ensures untouched { OnErr result (message.new ≡ message.old) }
    {
        let mut tag = [0; 16];
        self.end(message, Phase::Encrypting, &mut tag)?;
        Ok(tag)
    }
}

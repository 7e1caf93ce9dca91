//! Messages in pieces. The tag is that of the whole message, however the pieces are cut.

ghost use Rattle.std.specs.Prelude.{◌≡◌, ◌↔◌, ℕ, List, [], ◌++◌, ◌≤◌, length, take};
ghost use Rattle.std.specs.Prelude.{IfOk, IsErr, IsErrOf, IsOk, IsTrue, OnErr, OnOk};
ghost use Rattle.cmac.specs.Cmac.{cmac};
ghost use Rattle.cmac.specs.Pieces.{no_message, HasBegun, IsBegun};

use crate::chain_in_pieces::ChainInPieces;
use crate::chaining::begins_with;
use crate::errors::{NotAccepted, OutOfTurn};
use crate::tags::tag_at_end;
use aes_cipher::cipher::{Block, BlockCipherEncrypt};
use aes_cipher::not_clone::NotClone;
use aes_cipher::zeroize::Zeroize;

/// A message in pieces, as C keeps it: `struct fotsgure_aes_cmac_message`. It is as secret as the
/// key.
#[repr(C)]
#[derive(Drop)]
pub struct Message {
    /// 1 if a message has begun and isn't over. Every other number stands for no message.
    pub begun: u64,
    /// The chain through what has come.
    pub chain: ChainInPieces,
}

impl NotClone for Message {}

impl Zeroize for Message {
    ghost ZERO = { no_message };

    fn zero() -> Message {
        Message {
            begun: 0,
            chain: Zeroize::zero(),
        }
    }

    #[inline(never)]
    fn zeroize(&mut self) {
        self.begun = 0;
        self.chain.zeroize();
    }
}

impl Message {
    /// Begins a message. Nothing is left of a message that was there before.
    pub fn begin(&mut self)
        ensures { (w : List (List ℕ)) → IsBegun w [] self.new }
    {
        self.chain = Zeroize::zero();
        self.begun = 1;
    }

    /// Takes a piece of the message, of any size.
    ///
    /// # Errors
    ///
    /// `OutOfTurn` exactly if no message has begun, or it is over; it is then unchanged.
    pub fn update<C: BlockCipherEncrypt>(
        &mut self,
        cipher: &C,
        bytes: &[u8],
    ) -> Result<(), OutOfTurn>
        ensures out_of_turn { IsErr result ↔ ¬ HasBegun self.old }
        ensures added { OnOk result ((s : List ℕ) → IsBegun (C.round_keys cipher.now) s self.old
            → IsBegun (C.round_keys cipher.now) (s ++ bytes.now) self.new) }
        ensures begun { OnOk result (HasBegun self.new) }
        ensures untouched { OnErr result (self.new ≡ self.old) }
    {
        if self.begun != 1 {
            return Err(OutOfTurn);
        }
        self.chain.extend(cipher, bytes);
        Ok(())
    }

    /// Ends the message, and returns its tag (SP 800-38B, 6.2), all 16 bytes of it. Nothing is left
    /// of the message.
    ///
    /// # Errors
    ///
    /// `OutOfTurn` exactly if no message has begun, or it is over; it is then unchanged.
    pub fn finish<C: BlockCipherEncrypt>(&mut self, cipher: &C) -> Result<Block, OutOfTurn>
        ensures out_of_turn { IsErr result ↔ ¬ HasBegun self.old }
        ensures tag { IfOk result (λ tag. (s : List ℕ) → IsBegun (C.round_keys cipher.now) s self.old
            → tag ≡ cmac (C.round_keys cipher.now) s) }
        ensures over { OnOk result (self.new ≡ no_message) }
        ensures untouched { OnErr result (self.new ≡ self.old) }
    {
        if self.begun != 1 {
            return Err(OutOfTurn);
        }
        let tag = self.tag_so_far(cipher);
        self.zeroize();
        Ok(tag)
    }

    /// Ends the message if these bytes, at most 16, are the first bytes of its tag (6.3). Compares
    /// without an early exit. An empty tag is accepted for every message, so first refuse tags that
    /// are too short. After `Ok` nothing is left of the message.
    ///
    /// # Errors
    ///
    /// `OutOfTurn` exactly if no message has begun, or it is over. Else `Refused` exactly if the tag
    /// is wrong. The message is then unchanged.
    pub fn accept<C: BlockCipherEncrypt>(
        &mut self,
        cipher: &C,
        claimed: &[u8],
    ) -> Result<(), NotAccepted>
        requires { length claimed.now ≤ 16 }
        ensures out_of_turn { IsErrOf result NotAccepted.OutOfTurn ↔ ¬ HasBegun self.old }
        ensures accepted { (s : List ℕ) → IsBegun (C.round_keys cipher.now) s self.old
            → IsOk result ↔ (claimed.now
            ≡ take (length claimed.now) (cmac (C.round_keys cipher.now) s)) }
        ensures over { OnOk result (self.new ≡ no_message) }
        ensures untouched { OnErr result (self.new ≡ self.old) }
    {
        if self.begun != 1 {
            return Err(NotAccepted::OutOfTurn);
        }
        if !self.is_tag_so_far(cipher, claimed) {
            return Err(NotAccepted::Refused);
        }
        self.zeroize();
        Ok(())
    }

    // Returns the tag of what has come so far.
    fn tag_so_far<C: BlockCipherEncrypt>(&self, cipher: &C) -> Block
        ensures { (s : List ℕ) → IsBegun (C.round_keys cipher.now) s self.now
            → result ≡ cmac (C.round_keys cipher.now) s }
    {
        let rest_length = self.chain.rest_length();
        tag_at_end(cipher, &self.chain.value, &self.chain.rest[..rest_length])
    }

    // Returns whether a tag is the first bytes of that of what has come so far.
    #[inline(never)]
    fn is_tag_so_far<C: BlockCipherEncrypt>(&self, cipher: &C, claimed: &[u8]) -> bool
        requires { length claimed.now ≤ 16 }
        ensures { (s : List ℕ) → IsBegun (C.round_keys cipher.now) s self.now
            → IsTrue result ↔ (claimed.now
            ≡ take (length claimed.now) (cmac (C.round_keys cipher.now) s)) }
    {
        begins_with(&self.tag_so_far(cipher), claimed)
    }
}

//! A message that comes in pieces, as it is kept between two calls.

ghost use Rattle.std.specs.Prelude.{◌≡◌};
ghost use Rattle.gcm.specs.Pieces.{phase_of};

use aes_cipher::cipher::Block;
use aes_cipher::not_clone::NotClone;
use aes_cipher::zeroize::{Zeroize, zeroize_elements};
use std::slice::from_mut;

/// Which phase a message is in.
#[derive(Debug, Clone, Copy, PartialEq, Eq)]
pub enum Phase {
    /// There is no message: none has begun, or it is over.
    NoMessage,
    /// Additional data may come, and after it text of either kind.
    Additional,
    /// Text that is to be encrypted may come.
    Encrypting,
    /// A cipher text whose tag is to be compared may come.
    Verifying,
    /// The tag was right: the cipher text may come once more, to be decrypted.
    Decrypting,
}

/// A message in pieces under a nonce, as C keeps it: `struct fotsgure_gcm_message`. Its blocks are
/// as secret as the key. Keep it in a `Wiped`, whose `zeroed` has no message.
#[repr(C)]
#[derive(Drop)]
pub struct Message {
    /// How many bytes of additional data have come.
    pub additional: u64,
    /// How many bytes of text have come.
    pub text: u64,
    /// How many bytes of a text whose tag was right have come once more.
    pub decrypted: u64,
    /// The number of what may come next, or 0 if there is no message.
    pub phase: u64,
    /// The first counter block, J_0 (7.1, step 2).
    pub first: Block,
    /// The value of GHASH after the whole blocks.
    pub value: Block,
    /// The bytes of a block that isn't whole yet, at its beginning.
    pub rest: Block,
}

impl NotClone for Message {}

impl Zeroize for Message {
    ghost use Rattle.gcm.specs.Pieces.{no_message};

    ghost ZERO = { no_message };

    fn zero() -> Message {
        Message {
            additional: 0,
            text: 0,
            decrypted: 0,
            phase: 0,
            first: [0; 16],
            value: [0; 16],
            rest: [0; 16],
        }
    }

    #[inline(never)]
    fn zeroize(&mut self) {
        self.additional = 0;
        self.text = 0;
        self.decrypted = 0;
        self.phase = 0;
        zeroize_elements(from_mut(&mut self.first));
        zeroize_elements(from_mut(&mut self.value));
        zeroize_elements(from_mut(&mut self.rest));
    }
}

/// Returns the phase of a number.
#[tactic(auto, unfolding(crate::specs::Pieces::phase_of))]
pub(crate) fn phase_of(number: u64) -> Phase
    ensures { result ≡ phase_of number }
{
    if number == 1 {
        Phase::Additional
    } else if number == 2 {
        Phase::Encrypting
    } else if number == 3 {
        Phase::Verifying
    } else if number == 4 {
        Phase::Decrypting
    } else {
        Phase::NoMessage
    }
}

/// Returns the number of a phase.
#[tactic(auto, unfolding(crate::specs::Pieces::phase_of))]
pub(crate) fn number_of_phase(phase: Phase) -> u64
    ensures { phase_of result ≡ phase }
{
    match phase {
        Phase::NoMessage => 0,
        Phase::Additional => 1,
        Phase::Encrypting => 2,
        Phase::Verifying => 3,
        Phase::Decrypting => 4,
    }
}

//! The words of narrow processors: eight words of 64 bits hold four blocks, and eight of 32 bits
//! hold two.

ghost use Rattle.std.specs.Prelude.{◌≡◌, ℕ, refl};
ghost use Rattle.std.proofs.Common.{arith};

use aes_cipher::cipher::{BatchOfFour, BatchSize};
use aes_planes::soft::word::{Batch, Word};

/// Two blocks, as many as eight words of 32 bits hold.
pub struct BatchOfTwo;

impl BatchSize for BatchOfTwo {
    ghost PAR_BLOCKS = { 2 };

    const PAR_BLOCKS: usize = 2;

    ghost at_least_one = { Prim.omega arith };
}

/// A word on which a narrow processor computes.
pub trait NarrowWord: Word {
    /// How many blocks eight words hold, as a type.
    type Par: BatchSize;

    /// The type for the number of blocks has the number of the word.
    ghost same_number: { Self.Par.PAR_BLOCKS ≡ Self.Blocks.LEN };
}

impl NarrowWord for u32 {
    type Par = BatchOfTwo;

    ghost same_number = { refl };
}

impl NarrowWord for u64 {
    type Par = BatchOfFour;

    ghost same_number = { refl };
}

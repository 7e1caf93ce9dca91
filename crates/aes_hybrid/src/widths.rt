//! How wide vectors and words are. The width is a type, since the processor decides which one is
//! quicker. The measured numbers of blocks, from which planes take less time, are here too.

ghost use Rattle.std.specs.Prelude.{◌≡◌, refl};

use aes_cipher::cipher::{BatchOfEight, BatchOfSixteen, BatchSize};
use aes_permute::lanes::Lanes;
use aes_planes::soft::word::{Batch, Word};
use aes_soft::soft::blocks::BatchWord;
use std::simd::prelude::*;

/// A width of vectors and words. Callers name one of the two below; contracts are the same for
/// both.
pub trait Width {
    /// The vectors on which few blocks are processed.
    type Vectors: Lanes;

    /// The words of the planes on which many blocks are processed.
    type PlaneWord: Word;

    /// How many blocks planes of `PlaneWord` hold, as a type.
    type Par: BatchSize;

    /// The number of blocks from which encryption takes less time on planes. Planes of the round
    /// keys have to be made first.
    const LEAST_TO_ENCRYPT: usize;

    /// The number of blocks from which decryption takes less time on planes.
    const LEAST_TO_DECRYPT: usize;

    /// The number of blocks from which a caller's closure gets a backend that has planes.
    const LEAST_FOR_CLOSURES: usize;

    /// The most blocks after whole batches that take less time by vector permutations than as one
    /// batch more.
    const MOST_AFTER_BATCHES: usize;

    /// The type for the number of blocks has the number of the word.
    ghost same_number: { Self.Par.PAR_BLOCKS ≡ Self.PlaneWord.Blocks.LEN };
}

/// Vectors and words of 128 bits: two blocks at a time by vector permutations, eight on planes. For
/// every processor.
pub struct Width128;

impl Width for Width128 {
    type Vectors = u8x16;

    type PlaneWord = BatchWord;

    type Par = BatchOfEight;

    const LEAST_TO_ENCRYPT: usize = 15;

    const LEAST_TO_DECRYPT: usize = 15;

    const LEAST_FOR_CLOSURES: usize = 8;

    const MOST_AFTER_BATCHES: usize = 5;

    ghost same_number = { refl };
}

/// Vectors and words of 256 bits: four blocks at a time by vector permutations, sixteen on planes.
/// For builds for processors that have vectors of that size. On other processors this width is
/// slower.
pub struct Width256;

impl Width for Width256 {
    type Vectors = u8x32;

    type PlaneWord = u8x32;

    type Par = BatchOfSixteen;

    const LEAST_TO_ENCRYPT: usize = 32;

    const LEAST_TO_DECRYPT: usize = 31;

    const LEAST_FOR_CLOSURES: usize = 29;

    const MOST_AFTER_BATCHES: usize = 12;

    ghost same_number = { refl };
}

//! What is tried on every word, written for any word. So the words are proved to be words once, and
//! not in every test.

use aes_planes::soft::word::Word;
use std::process::Abort;
use std::simd::prelude::*;

/// What is tried on a word.
pub trait WordTrial {
    /// Whether the word passes.
    fn passes<W: Word>(&self) -> bool;
}

/// Asserts that every word passes, from 16 bits to 256.
pub fn try_words<T: WordTrial>(rt: &impl Abort, trial: &T) {
    let passed = [
        trial.passes::<u16>(),
        trial.passes::<u32>(),
        trial.passes::<u64>(),
        trial.passes::<u128>(),
        trial.passes::<u8x32>(),
    ];
    assert!(rt; passed == [true; 5]);
}

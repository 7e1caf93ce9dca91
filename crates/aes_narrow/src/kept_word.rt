//! The word of a key that is kept. `tools/dist` also builds a copy of this crate that has u64 here.
//! In that copy `specs/KeptWord.antt` says what u64 holds. Nothing else names the word.

pub type KeptWord = u32;

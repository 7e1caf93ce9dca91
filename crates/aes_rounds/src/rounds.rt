//! The cipher and its inverse under any list of round keys, built from single rounds.

mod all_rounds;
mod encrypt;
mod expansion;
mod inverted_keys;
mod single_rounds;
mod with_inverse;

pub use encrypt::AesEnc;
pub use expansion::{expand_128, expand_192, expand_256};
pub use with_inverse::{Aes, AesDec, WithInverse};

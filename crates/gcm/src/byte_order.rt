//! In which order the bytes of a block write a number.

ghost use Rattle.std.specs.Prelude.{◌≡◌, ℕ, List};
ghost use Rattle.std.specs.Int.{w128, from_be_bytes};

use std::simd::prelude::*;

/// In which order sixteen bytes write a number of the field.
pub trait ByteOrder {
    /// The number that sixteen bytes write.
    ghost number: { List ℕ → ℕ };

    /// Returns the bytes that write the same number with the highest byte first.
    fn highest_first(block: u8x16) -> u8x16
        ensures { from_be_bytes w128 result ≡ number block };
}

/// GCM's order (SP 800-38D, 6.3): the highest byte is the first.
pub struct HighestFirst;

impl ByteOrder for HighestFirst {
    ghost number = { from_be_bytes w128 };

    #[inline(always)]
    fn highest_first(block: u8x16) -> u8x16 {
        block
    }
}

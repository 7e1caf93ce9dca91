//! Counter blocks, and how they are counted.

ghost use Rattle.std.specs.Prelude.{◌≡◌, ℕ, List, [], ◌+◌, ◌<◌, length, slice_index_or};
ghost use Rattle.aes_ctr.specs.CounterMode.{counter_block};

use aes_cipher::blocks::block_of_number;
use aes_cipher::cipher::Block;

/// An initial counter block, and how the blocks after it are counted.
pub trait CounterBlocks {
    /// Counter block j. The initial one is block 0.
    ghost block: { Self → ℕ → List ℕ };

    /// Writes counter blocks, from number `first` on.
    fn put(&self, first: u64, blocks: &mut [Block])
        ensures { (i : ℕ) → i < length blocks.old
            → slice_index_or blocks.new i [] ≡ block self.now (first + i) };
}

/// An initial counter block that is counted as a whole: a number with its highest byte first,
/// modulo 2^128 (SP 800-38A, B.1).
#[derive(Drop)]
pub struct WholeBlock {
    pub iv: Block,
}

impl CounterBlocks for WholeBlock {
    ghost block = { λ counters. counter_block counters.iv };

    #[tactic(auto, using(crate::proofs::Counters::counted))]
    #[inline(always)]
    fn put(&self, first: u64, blocks: &mut [Block]) {
        let mut counter = u128::from_be_bytes(self.iv).wrapping_add(first as u128);
        for i in 0..blocks.len() {
            blocks[i] = block_of_number(counter);
            counter = counter.wrapping_add(1);
        }
    }
}

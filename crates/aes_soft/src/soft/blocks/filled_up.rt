//! At most a batch of blocks, processed as a batch that copies of the first one fill up.

ghost use Rattle.std.specs.Prelude.{◌≡◌, ◌-◌, ◌≤◌, ◌++◌, [], get_or, length, replicate, take};
ghost use Rattle.aes_planes.specs.Each.{Each};
ghost use Rattle.aes_planes.specs.Fips197 as fips;
ghost use Rattle.aes_soft.specs.Stored.{key_of_planes, IsFullSchedule};

use crate::soft::ciphers::{Full, PlaneCipher, process_outlined};
use aes_planes::soft::sbox::Layers;
use aes_planes::soft::word::{Batch, Block, Word, every_slot};

// Returns the blocks of a slice, and after them copies of the first one. Only blocks that the
// caller gave are processed: in some modes, such as GCM, the encryption of a block of zeros is a
// secret. Blocks are copied one by one, up to a constant number. LLVM turns the copy of a slice
// into a call of `memcpy`, and loads of the blocks would have to wait for the stores of that call.
#[tactic(auto, using(crate::proofs::FilledUp::filled))]
#[inline(always)]
fn filled_up<B: Batch>(blocks: &[Block]) -> B
    requires some { 1 ≤ length blocks.now }
    requires at_most_one_batch { length blocks.now ≤ B.LEN }
    ensures { B.blocks result
        ≡ blocks.now ++ replicate (B.LEN - length blocks.now) (get_or blocks.now 0 []) }
{
    let mut batch = every_slot::<B>(&blocks[0]);
    'fill: for k in 0..B::LEN {
        if k == blocks.len() {
            return batch;
        }
        batch.set(k, blocks[k]);
    }
    batch
}

// Copies the first blocks of a batch to a slice, one by one as above.
#[tactic(auto, using(crate::proofs::FilledUp::all_copied))]
#[inline(always)]
fn copy_first<B: Batch>(batch: &B, blocks: &mut [Block])
    requires sized { length (B.blocks batch.now) ≡ B.LEN }
    requires at_most_one_batch { length blocks.old ≤ B.LEN }
    ensures { blocks.new ≡ take (length blocks.old) (B.blocks batch.now) }
{
    'copy: for k in 0..B::LEN {
        if k == blocks.len() {
            return;
        }
        blocks[k] = batch.get(k);
    }
}

/// Processes each of at most a batch of blocks in place, under stored round keys.
#[tactic(auto, using(crate::proofs::FilledUp::first_processed))]
#[inline(never)]
pub fn process_filled_up<D: PlaneCipher, W: Word>(words: &[W], blocks: &mut [Block])
    requires is_schedule { IsFullSchedule W.bits W.BLOCKS words.now }
    requires some { 1 ≤ length blocks.old }
    requires at_most_one_batch { length blocks.old ≤ W.Blocks.LEN }
    ensures { Each (D.processed (fips.key_expansion (key_of_planes W.bits W.BLOCKS words.now)))
        blocks.old blocks.new }
{
    let rounds = words.len() / 8 - 1;
    let input = filled_up::<W::Blocks>(blocks);
    let output = process_outlined::<W, Full, D>(words, rounds, &input, &mut Layers::new());
    copy_first(&output, blocks);
}

//! Blocks of a slice under stored round keys on planes, at most a batch at a time.

ghost use Rattle.std.specs.Prelude.{◌≤◌};
ghost use Rattle.aes_planes.specs.Each.{Each};
ghost use Rattle.aes_planes.specs.Fips197 as fips;
ghost use Rattle.aes_soft.specs.Stored.{key_of_planes, IsFullSchedule};

use aes_cipher::zeroize::wipe_stack;
use aes_planes::soft::word::{Batch, Block, Word};
use aes_soft::soft::PlaneCipher;
use aes_soft::soft::blocks::process_filled_up;

// The most bytes of stack of the work on blocks.
const BLOCKS_STACK: usize = 1024;

// Returns how many blocks come next: a batch, or all that are left.
#[inline(always)]
fn next_count<W: Word>(left: usize) -> usize
    requires { 1 ≤ left }
    ensures some { 1 ≤ result }
    ensures inside { result ≤ left }
    ensures at_most_one_batch { result ≤ W.Blocks.LEN }
{
    if left < W::Blocks::LEN {
        left
    } else {
        W::Blocks::LEN
    }
}

// Processes each block of a slice, batch by batch, and then the blocks after them. This is a call
// of its own, so that its stack can be wiped.
#[inline(never)]
fn process_all_batches<D: PlaneCipher, W: Word>(words: &[W], blocks: &mut [Block])
    requires is_schedule { IsFullSchedule W.bits W.BLOCKS words.now }
    ensures { Each (D.processed (fips.key_expansion (key_of_planes W.bits W.BLOCKS words.now)))
        blocks.old blocks.new }
{
    let mut done = 0;
    while done < blocks.len() {
        let count = next_count::<W>(blocks.len() - done);
        process_filled_up::<D, W>(words, &mut blocks[done..done + count]);
        done += count;
    }
}

/// Processes each block of a slice in place, under stored round keys. The stack that the work used
/// is wiped before the call returns.
#[inline(always)]
pub fn process_on_words<D: PlaneCipher, W: Word>(words: &[W], blocks: &mut [Block])
    requires is_schedule { IsFullSchedule W.bits W.BLOCKS words.now }
    ensures { Each (D.processed (fips.key_expansion (key_of_planes W.bits W.BLOCKS words.now)))
        blocks.old blocks.new }
{
    process_all_batches::<D, W>(words, blocks);
    wipe_stack::<BLOCKS_STACK>();
}

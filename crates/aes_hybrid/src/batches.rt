//! Blocks in batches on planes, under stored round keys. A batch has eight blocks, or sixteen on
//! words of 256 bits.

ghost use Rattle.aes_planes.specs.Each.{Each};
ghost use Rattle.aes_planes.specs.Fips197 as fips;
ghost use Rattle.aes_soft.specs.Stored as soft;
ghost use Rattle.aes_permute.specs.Keys.{key_of_lanes, IsCipherSchedule};

use crate::plane_keys::PlaneKeys;
use aes_cipher::zeroize::wipe_stack;
use aes_planes::soft::sbox::Layers;
use aes_planes::soft::word::{Batch, Block, Word};
use aes_soft::soft::PlaneCipher;
use aes_soft::soft::blocks::{process_batches_under, process_filled_up};

// The most bytes of stack of the work on batches, on the widest words.
const BATCHES_STACK: usize = 1792;

// Processes each block on words of round keys: whole batches, and then the blocks after them. This
// is a call of its own, so that its stack can be wiped.
#[inline(never)]
fn process_batches_and_rest<D: PlaneCipher, W: Word>(words: &[W], blocks: &mut [Block])
    requires is_schedule { soft.IsFullSchedule W.bits W.BLOCKS words.now }
    ensures { Each (D.processed (fips.key_expansion (soft.key_of_planes W.bits W.BLOCKS words.now)))
        blocks.old blocks.new }
{
    let whole = blocks.len() - blocks.len() % W::Blocks::LEN;
    process_batches_under::<W, D>(words, &mut blocks[..whole], &mut Layers::new());
    if whole < blocks.len() {
        process_filled_up::<D, W>(words, &mut blocks[whole..]);
    }
}

/// Processes each block in place on planes. The planes, and the stack that the work used, are wiped
/// before the call returns. Not inlined, so that few blocks need no large stack frame.
#[inline(never)]
pub(crate) fn process_on_planes<D: PlaneCipher, W: Word>(keys: &[Block], blocks: &mut [Block])
    requires keyed { IsCipherSchedule keys.now }
    ensures { Each (D.processed (fips.key_expansion (key_of_lanes keys.now)))
        blocks.old blocks.new }
{
    let mut planes = PlaneKeys::<W>::zeroed();
    planes.store(keys);
    process_batches_and_rest::<D, W>(planes.lend(keys.len()), blocks);
    planes.wipe();
    wipe_stack::<BATCHES_STACK>();
}

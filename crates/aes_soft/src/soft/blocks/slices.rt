//! Blocks in slices, processed in batches.
ghost use Rattle.std.specs.Prelude.{◌≡◌, ◌+◌, ◌*◌, ◌/◌, ◌%◌, length};
ghost use Rattle.aes_planes.specs.Each.{Each};
ghost use Rattle.aes_planes.specs.Fips197 as fips;
ghost use Rattle.aes_planes.specs.Words.{word_bits};
ghost use Rattle.aes_soft.specs.Batches.{layers_for};
ghost use Rattle.aes_soft.specs.Stored.{key_of_planes, rounds_of, IsFullSchedule};

use crate::soft::blocks::BatchWord;
use crate::soft::ciphers::{Full, PlaneCipher, process, process_outlined};
use crate::soft::full::store_widened_first;
use crate::soft::plane_room::PlaneRoom;
use aes_cipher::zeroize::{MustWipe, wipe_stack};
use aes_planes::soft::sbox::Layers;
use aes_planes::soft::word::{Batch, Block, Word};
use std::slice;

// Copies the blocks of a slice to a batch.
#[inline(always)]
pub(crate) fn batch_of<B: Batch>(blocks: &[Block]) -> B
    requires one_batch { length blocks.now ≡ B.LEN }
    ensures { B.blocks result ≡ blocks.now }
{
    let mut batch = B::zero();
    'fill: for k in 0..B::LEN {
        batch.set(k, blocks[k]);
    }
    batch
}

// Copies the blocks of a batch to a slice.
#[inline(always)]
pub(crate) fn put_batch<B: Batch>(batch: &B, blocks: &mut [Block])
    requires sized { length (B.blocks batch.now) ≡ B.LEN }
    requires one_batch { length blocks.old ≡ B.LEN }
    ensures { blocks.new ≡ B.blocks batch.now }
{
    'put: for k in 0..B::LEN {
        blocks[k] = batch.get(k);
    }
}

/// Processes each block of one batch in its place, under stored round keys in a slice of words.
#[inline(always)]
pub fn process_batch_under<W: Word, D: PlaneCipher>(
    words: &[W],
    blocks: &mut [Block],
    layers: &mut Layers,
)
    requires is_schedule { IsFullSchedule W.bits W.BLOCKS words.now }
    requires one_batch { length blocks.old ≡ W.Blocks.LEN }
    ensures blocks { Each
        (D.processed (fips.key_expansion (key_of_planes W.bits W.BLOCKS words.now)))
        blocks.old blocks.new }
    ensures layers { layers.new ≡ layers.old + rounds_of (length words.now) }
{
    let rounds = words.len() / 8 - 1;
    let input = batch_of::<W::Blocks>(blocks);
    let output = if W::Blocks::LEN == 1 {
        process_outlined::<W, Full, D>(words, rounds, &input, layers)
    } else {
        process::<W, Full, D>(words, rounds, &input, layers)
    };
    put_batch(&output, blocks);
}

/// Processes the blocks of a slice, batch by batch, under stored round keys in a slice of words.
#[inline(always)]
pub fn process_batches_under<W: Word, D: PlaneCipher>(
    words: &[W],
    blocks: &mut [Block],
    layers: &mut Layers,
)
    requires is_schedule { IsFullSchedule W.bits W.BLOCKS words.now }
    requires whole_batches { length blocks.old % W.Blocks.LEN ≡ 0 }
    ensures blocks { Each
        (D.processed (fips.key_expansion (key_of_planes W.bits W.BLOCKS words.now)))
        blocks.old blocks.new }
    ensures layers { layers.new
        ≡ layers.old + rounds_of (length words.now) * (length blocks.old / W.Blocks.LEN) }
{
    let size = W::Blocks::LEN;
    let mut done = 0;
    while done < blocks.len() {
        process_batch_under::<W, D>(words, &mut blocks[done..done + size], layers);
        done += size;
    }
}

// The most bytes of stack of the work on batches.
const BATCHES_STACK: usize = 1024;

// Processes whole batches in a call of its own, so that its stack can be wiped.
#[inline(never)]
fn process_batches_outlined<W: Word, D: PlaneCipher>(
    words: &[W],
    blocks: &mut [Block],
    layers: &mut Layers,
)
    requires is_schedule { IsFullSchedule W.bits W.BLOCKS words.now }
    requires whole_batches { length blocks.old % W.Blocks.LEN ≡ 0 }
    ensures blocks { Each
        (D.processed (fips.key_expansion (key_of_planes W.bits W.BLOCKS words.now)))
        blocks.old blocks.new }
    ensures layers { layers.new
        ≡ layers.old + rounds_of (length words.now) * (length blocks.old / W.Blocks.LEN) }
{
    process_batches_under::<W, D>(words, blocks, layers);
}

/// Processes each block of a slice in place, under stored round keys: whole batches first, then one
/// block after the other. The stack that the work used is wiped before the call returns.
#[inline(always)]
pub fn process_blocks_under<D: PlaneCipher>(
    round_keys: &[u16],
    blocks: &mut [Block],
    layers: &mut Layers,
)
    requires is_schedule { IsFullSchedule (word_bits 16) 1 round_keys.now }
    ensures blocks { let key = key_of_planes (word_bits 16) 1 round_keys.now in
        Each (D.processed (fips.key_expansion key)) blocks.old blocks.new }
    ensures layers { layers.new ≡ layers.old
        + layers_for (rounds_of (length round_keys.now)) (length blocks.old) }
{
    let whole = blocks.len() - blocks.len() % <BatchWord as Word>::Blocks::LEN;
    if whole > 0 {
        let mut room = MustWipe::<PlaneRoom<BatchWord>>::zeroed();
        store_widened_first(room.value_mut(), round_keys);
        let widened = &room.value()[..round_keys.len()];
        process_batches_outlined::<BatchWord, D>(widened, &mut blocks[..whole], layers);
        room.wipe();
    }
    process_batches_outlined::<u16, D>(round_keys, &mut blocks[whole..], layers);
    wipe_stack::<BATCHES_STACK>();
}

/// Processes the block in place, under stored round keys.
#[inline(always)]
pub fn process_block_under<D: PlaneCipher>(round_keys: &[u16], block: &mut Block)
    requires is_schedule { IsFullSchedule (word_bits 16) 1 round_keys.now }
    ensures { block.new
        ≡ D.processed (fips.key_expansion
        (key_of_planes (word_bits 16) 1 round_keys.now)) block.old }
{
    process_batch_under::<u16, D>(round_keys, slice::from_mut(block), &mut Layers::new());
}

//! Words and batches of blocks.

ghost use Rattle.std.specs.Prelude.{◌≤◌};

use aes_planes::soft::word::{Batch, Block, Blocks1, Blocks2, Blocks4, Blocks8, Word};

/// The numbers that a word has.
pub fn numbers<W: Word>() -> [u32; 5] {
    [W::BLOCKS, W::BITS, W::ROW_BITS, W::HALF_ROW, W::QUARTER_ROW]
}

/// What is computed of two words bit by bit.
pub fn gates<W: Word>(x: W, y: W) -> [W; 4] {
    [x.bit_and(y), x.bit_or(y), x.bit_xor(y), x.bit_not()]
}

/// A word shifted and rotated by a row and a column.
pub fn moved<W: Word>(x: W) -> [W; 3] {
    let distance: u32 = W::ror_distance(1, 1);
    [
        x.shift_left(distance),
        x.shift_right(distance),
        x.ror(distance),
    ]
}

/// Words that are made from numbers.
pub fn made<W: Word>() -> [W; 5] {
    [
        W::zero(),
        W::uniform_row(0xf),
        W::pack_rows(0, 1, 2, 3),
        W::byte_repeat(0x63),
        W::broadcast(0x8001),
    ]
}

/// Blocks packed and unpacked again.
pub fn unpacked<W: Word>(blocks: &W::Blocks) -> W::Blocks {
    let mut planes = [W::zero(); 8];
    W::bitslice(&mut planes, blocks);
    W::inv_bitslice(&planes)
}

/// A batch with one block put in its last slot, and that slot.
pub fn last_slot<B: Batch>(block: Block) -> Block
    requires { 1 ≤ B.LEN }
{
    let last: usize = B::LEN - 1;
    let mut blocks = B::zero();
    blocks.set(last, block);
    blocks.get(last)
}

// Calls each function above on a word.
fn each_call<W: Word>(block: Block) -> Block {
    let [first, ..] = made::<W>();
    let [negated, ..] = gates(first, first);
    let [shifted, ..] = moved(negated);
    let _ = shifted;
    let [blocks, ..] = numbers::<W>();
    let _ = blocks;
    let batch: W::Blocks = unpacked::<W>(&W::Blocks::zero());
    let _ = batch.get(0);
    last_slot::<W::Blocks>(block)
}

/// Calls them on every word, and on the batch of each.
pub fn on_every_word(block: Block) -> [Block; 8] {
    [
        each_call::<u16>(block),
        each_call::<u32>(block),
        each_call::<u64>(block),
        each_call::<u128>(block),
        last_slot::<Blocks1>(block),
        last_slot::<Blocks2>(block),
        last_slot::<Blocks4>(block),
        last_slot::<Blocks8>(block),
    ]
}

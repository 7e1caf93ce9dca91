//! Blocks processed under stored round keys: the blocks of a vector, of two vectors at once, and of
//! slices.

ghost use Rattle.std.specs.Prelude.{◌≡◌, ◌≤◌, ℕ, length};
ghost use Rattle.aes_planes.specs.Each.{Each};
ghost use Rattle.aes_planes.specs.Rounds.{all_rounds};
ghost use Rattle.aes_permute.specs.Stored.{round_keys_of};

use crate::lane_rounds::LaneRounds;
use crate::lanes::Lanes;
use aes_planes::soft::word::Block;
use std::simd::prelude::*;

// Processes the blocks of a vector.
#[inline(always)]
fn process_vector<D: LaneRounds, L: Lanes>(keys: &[Block], blocks: L) -> L
    requires two { 2 ≤ length keys.now }
    ensures { (i : ℕ) → L.block result i ≡ all_rounds D.step D.last_step
        (round_keys_of D.form keys.now) (L.block blocks i) }
{
    let last = keys.len() - 1;
    let first_key = L::repeated(keys[0]);
    let mut x = D::add_first_key(blocks, first_key);
    for i in 1..last {
        let key = L::repeated(keys[i]);
        x = D::round(x, key, i);
    }
    let last_key = L::repeated(keys[last]);
    D::last_round(x, last_key, last)
}

// Processes the blocks of two vectors, round by round. While one vector waits for a result, the
// processor works on the other.
#[inline(always)]
fn process_two_vectors<D: LaneRounds, L: Lanes>(keys: &[Block], one: L, other: L) -> (L, L)
    requires two { 2 ≤ length keys.now }
    ensures one { (i : ℕ) → L.block result.0 i ≡ all_rounds D.step D.last_step
        (round_keys_of D.form keys.now) (L.block one i) }
    ensures other { (i : ℕ) → L.block result.1 i ≡ all_rounds D.step D.last_step
        (round_keys_of D.form keys.now) (L.block other i) }
{
    let last = keys.len() - 1;
    let first_key = L::repeated(keys[0]);
    let mut x = D::add_first_key(one, first_key);
    let mut y = D::add_first_key(other, first_key);
    let zero = L::repeated([0; 16]);
    for i in 1..last {
        // The round key is read after both rounds. Before them, LLVM would keep it on the stack until
        // the second round ends, where nothing wipes it. A sum with zero costs nothing.
        let one_round = D::round(x, zero, i);
        let other_round = D::round(y, zero, i);
        let key = L::repeated(keys[i]);
        D::keys_may_come_later();
        one_round.blocks_have_16_bytes();
        other_round.blocks_have_16_bytes();
        key.blocks_have_16_bytes();
        x = one_round.sum(key);
        y = other_round.sum(key);
    }
    let last_key = L::repeated(keys[last]);
    let first = D::last_round(x, last_key, last);
    let second = D::last_round(y, last_key, last);
    (first, second)
}

/// Processes a block under stored round keys. Inlined, so that a block that depends on the one
/// before it, as in a chain, stays in a register.
#[inline(always)]
pub fn process_block<D: LaneRounds>(keys: &[Block], block: &mut Block)
    requires two { 2 ≤ length keys.now }
    ensures { block.new ≡ all_rounds D.step D.last_step (round_keys_of D.form keys.now) block.old }
{
    let processed = process_vector::<D, u8x16>(keys, u8x16::from_array(*block));
    *block = processed.to_array();
}

/// Processes each block of a slice under stored round keys: two vectors at once, then one, and then
/// one block.
pub fn process_on_lanes<D: LaneRounds, L: Lanes>(keys: &[Block], blocks: &mut [Block])
    requires two { 2 ≤ length keys.now }
    ensures { Each (all_rounds D.step D.last_step (round_keys_of D.form keys.now))
        blocks.old blocks.new }
{
    let size = L::BLOCKS;
    let count = blocks.len();
    let mut done = 0;
    'pairs: while count - done >= 2 * size {
        let one = L::load(blocks, done);
        let other = L::load(blocks, done + size);
        let (first, second) = process_two_vectors::<D, L>(keys, one, other);
        first.store(blocks, done);
        second.store(blocks, done + size);
        done += 2 * size;
    }
    'vectors: while count - done >= size {
        let one = L::load(blocks, done);
        let processed = process_vector::<D, L>(keys, one);
        processed.store(blocks, done);
        done += size;
    }
    'singles: while done < count {
        let one = u8x16::load(blocks, done);
        let processed = process_vector::<D, u8x16>(keys, one);
        processed.store(blocks, done);
        done += 1;
    }
}

//! Operations on blocks for modes of operation: sums, a comparison for tags, numbers and halves as
//! blocks.

ghost use Rattle.std.specs.Prelude.{◌≡◌, ◌↔◌, ℕ, ◌<◌, ◌^◌, List, ◌++◌, length, take, drop, IsTrue};
ghost use Rattle.std.specs.Int.{w128, to_be_bytes, from_be_bytes};
ghost use Rattle.aes_planes.specs.Fips197 as fips;

use crate::cipher::Block;
use aes_planes::laws;
use std::simd::prelude::*;

/// Returns the sum of two blocks, byte by byte modulo 2: their exclusive or (FIPS 197, 5.1.4).
#[tactic(auto, using(crate::proofs::BlockNumbers::blocks_summed))]
#[inline(always)]
pub fn sum_of_blocks(a: &Block, b: &Block) -> Block
    ensures { result ≡ fips.add_round_key a.now b.now }
{
    let sum = u8x16::from_array(*a) ^ u8x16::from_array(*b);
    sum.to_array()
}

/// Returns whether two blocks are equal. It always reads every byte, without an early exit at the
/// first difference, so it suits comparing tags.
#[inline(always)]
pub fn blocks_equal(a: &Block, b: &Block) -> bool
    ensures { IsTrue result ↔ (a.now ≡ b.now) }
{
    difference(a, b) == 0
}

// Returns the bitwise or of the differences of all bytes. Never inlined: a compiler that sees both
// the sum and a branch on whether it is 0 could make a branch for each byte. It returns a word,
// since a byte would leave more of the differences in the rest of its register.
#[inline(never)]
fn difference(a: &Block, b: &Block) -> u32
    ensures { (result ≡ 0) ↔ (a.now ≡ b.now) }
{
    let mut difference = 0u8;
    for i in 0..16 {
        difference |= a[i] ^ b[i];
    }
    difference as u32
}

/// Returns the number as a block, its highest byte first.
///
/// It uses the halves of the number as lanes, since LLVM makes fifty instructions of `to_be_bytes`.
#[tactic(auto, using(crate::proofs::BlockNumbers::bytes_of_halves))]
#[inline(always)]
pub fn block_of_number(number: u128) -> Block
    ensures block { result ≡ to_be_bytes w128 number }
    ensures back { from_be_bytes w128 result ≡ number }
{
    let low = (number % (1 << 64)) as u64;
    let high = (number >> 64) as u64;
    let bytes = u64x2::from_array([low, high]).to_le_bytes();
    bytes.reverse().to_array()
}

/// Returns the block as a number, its first byte the highest.
#[inline(always)]
pub fn number_of_block(block: &Block) -> u128
    ensures number { result ≡ from_be_bytes w128 block.now }
    ensures back { to_be_bytes w128 result ≡ block.now }
{
    numbers_as_blocks();
    laws::block_has_16_bytes(*block);
    u128::from_be_bytes(*block)
}

/// Returns the block that the two halves form, in this order.
#[inline(always)]
pub fn block_of_halves(first: &[u8; 8], second: &[u8; 8]) -> Block
    ensures { result ≡ first.now ++ second.now }
{
    let mut block = [0; 16];
    let (high, low) = block.split_at_mut(8);
    high.copy_from_slice(first);
    low.copy_from_slice(second);
    block
}

/// Returns the two halves of a block.
#[inline(always)]
pub fn halves_of_block(block: &Block) -> ([u8; 8], [u8; 8])
    ensures first { result.0 ≡ take 8 block.now }
    ensures second { result.1 ≡ drop 8 block.now }
    ensures back { result.0 ++ result.1 ≡ block.now }
{
    halves_and_blocks();
    let (high, low) = block.split_at(8);
    let mut first = [0; 8];
    let mut second = [0; 8];
    first.copy_from_slice(high);
    second.copy_from_slice(low);
    (first, second)
}

/// No effect; states that numbers below 2^128 and blocks correspond: converting there and back
/// changes neither.
pub fn numbers_as_blocks()
    ensures block { (number : ℕ) → fips.IsBlock (to_be_bytes w128 number) }
    ensures number { (number : ℕ) → number < 2 ^ 128
        → from_be_bytes w128 (to_be_bytes w128 number) ≡ number }
    ensures back { (block : List ℕ) → fips.IsBlock block
        → to_be_bytes w128 (from_be_bytes w128 block) ≡ block }
{}

/// No effect; states that two halves of eight bytes form a block, that the block splits into them
/// again, and that a block is its halves joined.
#[tactic(auto, using(crate::proofs::ByteBlocks::halves))]
pub fn halves_and_blocks()
    ensures block { (first second : List ℕ) → length first ≡ 8 → fips.IsBytes first →
        length second ≡ 8 → fips.IsBytes second → fips.IsBlock (first ++ second) }
    ensures first { (first second : List ℕ) → length first ≡ 8 → take 8 (first ++ second) ≡ first }
    ensures second { (first second : List ℕ) → length first ≡ 8
        → drop 8 (first ++ second) ≡ second }
    ensures back { (block : List ℕ) → take 8 block ++ drop 8 block ≡ block }
{}

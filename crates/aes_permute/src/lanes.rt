//! Vectors of one block or of two, and what the rounds do with them: the same with each block.

ghost use Rattle.std.specs.Prelude.{◌≡◌, ◌⊎◌, ◌+◌, ◌≤◌, ◌<◌, ℕ, List, [], map, length, get_or};
ghost use Rattle.std.specs.Prelude.{bit_xor};
ghost use Rattle.std.proofs.Common.{arith};
ghost use Rattle.std.specs.Simd.Lanes.{zip2};
ghost use Rattle.aes_planes.specs.Fips197 as fips;
ghost use Rattle.aes_permute.specs.Lookup.{looked, low_nibble, high_nibble, by_nibbles, AreIndices};
ghost use Rattle.aes_permute.specs.Vectors.{half, written};

use crate::halves::{joined, lower, twice, upper};
use aes_planes::laws::block_has_16_bytes;
use aes_planes::soft::word::Block;
use std::simd::prelude::*;

/// A vector of one block or of two. Each operation does the same with every block.
pub trait Lanes: Copy {
    /// The block at a place. From the last place on, it is the last block.
    ghost block: { Self → ℕ → List ℕ };

    /// How many blocks there are.
    ghost BLOCKS: { ℕ };

    /// How many blocks there are.
    const BLOCKS: usize;

    /// A vector has at least one block.
    ghost at_least_one: { 1 ≤ BLOCKS };

    /// A vector has at most two blocks.
    ghost at_most_two: { BLOCKS ≤ 2 };

    /// No effect; states that each block is one of the standard (FIPS 197, 3.4).
    fn blocks_have_16_bytes(self)
        ensures { (i : ℕ) → fips.IsBlock (block self i) };

    /// Returns a vector in which each block is this one.
    fn repeated(bytes: Block) -> Self
        ensures { (i : ℕ) → block result i ≡ bytes };

    /// Returns the entry of a table at each lane, and 0 at a lane from 128 on.
    fn lookup(self, table: [u8; 16]) -> Self
        requires are_indices { (i : ℕ) → AreIndices (block self i) }
        ensures { (i : ℕ) → block result i ≡ map (looked table) (block self i) };

    /// Returns the low nibble of each lane.
    fn low_nibbles(self) -> Self
        ensures { (i : ℕ) → block result i ≡ map low_nibble (block self i) };

    /// Returns the high nibble of each lane.
    fn high_nibbles(self) -> Self
        ensures { (i : ℕ) → block result i ≡ map high_nibble (block self i) };

    /// Returns the sums of the lanes of two vectors.
    fn sum(self, other: Self) -> Self
        ensures { (i : ℕ) → block result i ≡ zip2 bit_xor (block self i) (block other i) };

    /// Returns each block with its lanes from these places of it.
    fn permuted(self, places: [u8; 16]) -> Self
        requires are_indices { AreIndices places }
        ensures { (i : ℕ) → block result i ≡ map (looked (block self i)) places };

    /// Returns the blocks of a slice from a place on.
    fn load(blocks: &[Block], from: usize) -> Self
        requires inside { from + BLOCKS ≤ length blocks.now }
        ensures { (i : ℕ) → i < BLOCKS → block result i ≡ get_or blocks.now (from + i) [] };

    /// Writes the blocks to a slice from a place on.
    fn store(self, blocks: &mut [Block], from: usize)
        requires inside { from + BLOCKS ≤ length blocks.old }
        ensures { blocks.new ≡ written (block self) BLOCKS from blocks.old };
}

/// No effect; states how many blocks a vector has.
pub fn vector_has_one_block_or_two<L: Lanes>()
    ensures { (L.BLOCKS ≡ 1) ⊎ (L.BLOCKS ≡ 2) }
{}

impl Lanes for u8x16 {
    ghost block = { λ x i. x };

    ghost BLOCKS = { 1 };

    const BLOCKS: usize = 1;

    ghost at_least_one = { Prim.omega arith };

    ghost at_most_two = { Prim.omega arith };

    #[inline(always)]
    fn blocks_have_16_bytes(self) {
        // The type of the array tells the proof that there are bytes, and how many.
        let _ = self.to_array();
    }

    #[inline(always)]
    fn repeated(bytes: Block) -> u8x16 {
        u8x16::from_array(bytes)
    }

    #[inline(always)]
    fn lookup(self, table: [u8; 16]) -> u8x16 {
        u8x16::from_array(table).swizzle_dyn(self)
    }

    #[inline(always)]
    fn low_nibbles(self) -> u8x16 {
        self & u8x16::splat(0x0f)
    }

    #[inline(always)]
    fn high_nibbles(self) -> u8x16 {
        self >> u8x16::splat(4)
    }

    #[inline(always)]
    fn sum(self, other: u8x16) -> u8x16 {
        self ^ other
    }

    #[tactic(auto, using(crate::proofs::Lookups::looked_lanes, crate::proofs::Lookups::indices_ok))]
    #[inline(always)]
    fn permuted(self, places: [u8; 16]) -> u8x16 {
        self.swizzle_dyn(u8x16::from_array(places))
    }

    #[inline(always)]
    fn load(blocks: &[Block], from: usize) -> u8x16 {
        u8x16::from_array(blocks[from])
    }

    #[inline(always)]
    fn store(self, blocks: &mut [Block], from: usize) {
        blocks[from] = self.to_array();
    }
}

impl Lanes for u8x32 {
    ghost block = { half };

    ghost BLOCKS = { 2 };

    const BLOCKS: usize = 2;

    ghost at_least_one = { Prim.omega arith };

    ghost at_most_two = { Prim.omega arith };

    #[inline(always)]
    fn blocks_have_16_bytes(self) {
        // The type of the array tells the proof that there are bytes, and how many.
        let _ = self.to_array();
    }

    #[inline(always)]
    fn repeated(bytes: Block) -> u8x32 {
        twice(u8x16::from_array(bytes))
    }

    #[inline(always)]
    fn lookup(self, table: [u8; 16]) -> u8x32 {
        twice(u8x16::from_array(table)).swizzle_dyn_within::<16>(self)
    }

    #[inline(always)]
    fn low_nibbles(self) -> u8x32 {
        self & u8x32::splat(0x0f)
    }

    #[inline(always)]
    fn high_nibbles(self) -> u8x32 {
        self >> u8x32::splat(4)
    }

    #[inline(always)]
    fn sum(self, other: u8x32) -> u8x32 {
        self ^ other
    }

    #[inline(always)]
    fn permuted(self, places: [u8; 16]) -> u8x32 {
        self.swizzle_dyn_within::<16>(twice(u8x16::from_array(places)))
    }

    #[inline(always)]
    fn load(blocks: &[Block], from: usize) -> u8x32 {
        block_has_16_bytes(blocks[from]);
        block_has_16_bytes(blocks[from + 1]);
        joined(
            u8x16::from_array(blocks[from]),
            u8x16::from_array(blocks[from + 1]),
        )
    }

    #[inline(always)]
    fn store(self, blocks: &mut [Block], from: usize) {
        blocks[from] = lower(self).to_array();
        blocks[from + 1] = upper(self).to_array();
    }
}

/// Returns the sum of what two tables have for the two nibbles of each lane.
#[inline(always)]
pub fn looked_up_by_nibbles<L: Lanes>(x: L, low: [u8; 16], high: [u8; 16]) -> L
    ensures { (i : ℕ) → L.block result i ≡ map (by_nibbles low high) (L.block x i) }
{
    x.blocks_have_16_bytes();
    let by_low = x.low_nibbles().lookup(low);
    let by_high = x.high_nibbles().lookup(high);
    by_low.sum(by_high)
}

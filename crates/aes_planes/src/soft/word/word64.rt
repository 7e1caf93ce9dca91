//! A word of sixty-four bits. Eight such words hold four blocks.

ghost use Rattle.std.specs.Prelude.{◌≡◌, ℕ, ◌+◌, ◌-◌, ◌*◌, ◌/◌, ◌^◌, ◌<◌, ◌&&◌, ◌||◌, nat_le, []};
ghost use Rattle.std.specs.Prelude.{◌∷◌, slice_index};
ghost use Rattle.std.proofs.Common.{arith, rules};
ghost use Rattle.aes_planes.specs.Bits.{at, bit};
ghost use Rattle.aes_planes.specs.Private.BuiltLength.{built_shape};
ghost use Rattle.aes_planes.specs.Private.Packing.{row_byte};
ghost use Rattle.aes_planes.specs.Words.{word_bits};
ghost use Rattle.aes_planes.specs.Fips197 as fips;

use super::Word;
use super::batch::{Batch, Block, Blocks, Blocks4};
use super::rows::row_of_nibble;
use super::transpose::transpose;
use std::simd::prelude::*;

#[tactic(auto, using(crate::proofs::Words::Constants::word_calls))]
impl Word for u64 {
    ghost bits = { λ x. word_bits 64 x };

    ghost BLOCKS = { 4 };

    ghost BITS = { 64 };

    ghost ROW_BITS = { 16 };

    ghost HALF_ROW = { 8 };

    ghost QUARTER_ROW = { 4 };

    type Blocks = Blocks4;

    const BLOCKS: u32 = 4;

    const BITS: u32 = 64;

    const ROW_BITS: u32 = 16;

    const HALF_ROW: u32 = 8;

    const QUARTER_ROW: u32 = 4;

    #[inline(always)]
    fn bit_and(self, other: u64) -> u64 {
        self & other
    }

    #[inline(always)]
    fn bit_or(self, other: u64) -> u64 {
        self | other
    }

    #[inline(always)]
    fn bit_xor(self, other: u64) -> u64 {
        self ^ other
    }

    #[inline(always)]
    fn shift_left(self, n: u32) -> u64 {
        self << n
    }

    #[inline(always)]
    fn shift_right(self, n: u32) -> u64 {
        self >> n
    }

    #[inline(always)]
    fn ror(self, n: u32) -> u64 {
        self.rotate_right(n)
    }

    #[inline(always)]
    fn pack_rows(r0: u8, r1: u8, r2: u8, r3: u8) -> u64 {
        let x0 = row_of_nibble(r0, 4) as u64;
        let x1 = row_of_nibble(r1, 4) as u64;
        let x2 = row_of_nibble(r2, 4) as u64;
        let x3 = row_of_nibble(r3, 4) as u64;
        x0 | x1 << 16 | x2 << 32 | x3 << 48
    }

    #[inline(always)]
    fn byte_repeat(b: u8) -> u64 {
        b as u64 * 0x0101_0101_0101_0101
    }

    #[inline(always)]
    fn low_byte(self) -> u8 {
        (self % 256) as u8
    }

    #[inline(always)]
    fn broadcast(x: u16) -> u64 {
        each_four_times(x as u64)
    }

    #[inline(always)]
    fn bitslice(output: &mut [u64; 8], input: &Blocks4) {
        let [even0, odd0] = columns_apart(input.get(0));
        let [even1, odd1] = columns_apart(input.get(1));
        let [even2, odd2] = columns_apart(input.get(2));
        let [even3, odd3] = columns_apart(input.get(3));
        *output = transpose([even0, even1, even2, even3, odd0, odd1, odd2, odd3]);
    }

    #[inline(always)]
    fn inv_bitslice(input: &[u64; 8]) -> Blocks4 {
        let [even0, even1, even2, even3, odd0, odd1, odd2, odd3] = transpose(*input);
        let b0 = columns_together(even0, odd0);
        let b1 = columns_together(even1, odd1);
        let b2 = columns_together(even2, odd2);
        let b3 = columns_together(even3, odd3);
        Blocks {
            blocks: [b0, b1, b2, b3],
        }
    }

    ghost shape = { built_shape bit 4 _ (Prim.search rules) (Prim.search rules)
        (Prim.search rules) };

    ghost keys_fit = { Prim.omega arith };
}

// The even columns of a block, row by row, and the odd ones.
#[tactic(auto, using(std::proofs::Common::rules, crate::proofs::Words::Packing::apart_at))]
#[inline(always)]
fn columns_apart(block: Block) -> [u64; 2]
    ensures { (o : ℕ) → o < 2 → (j p : ℕ) → j < 8 → p < 8
        → bit (row_byte block (2 * j + o)) p ≡ at (word_bits 64 (slice_index result o))
        (8 * j + p) }
{
    let bytes = u8x16::from_array(block);
    let apart = bytes.swizzle([0, 8, 1, 9, 2, 10, 3, 11, 4, 12, 5, 13, 6, 14, 7, 15]);
    u64x2::from_le_bytes(apart).to_array()
}

// The block of these columns.
#[tactic(auto, using(crate::proofs::Words::Packing::together_at))]
#[inline(always)]
fn columns_together(even: u64, odd: u64) -> Block
    ensures typed { fips.IsBlock result }
    ensures bits { (o : ℕ) → o < 2 → (j p : ℕ) → j < 8 → p < 8
        → bit (row_byte result (2 * j + o)) p ≡ at (word_bits 64 (slice_index (even ∷ odd ∷ []) o))
        (8 * j + p) }
{
    let apart = u64x2::from_array([even, odd]).to_le_bytes();
    let bytes = apart.swizzle([0, 2, 4, 6, 8, 10, 12, 14, 1, 3, 5, 7, 9, 11, 13, 15]);
    bytes.to_array()
}

// The lowest sixteen bits, each four times. Halves are moved apart until each bit has four places,
// and then the bit fills these.
#[inline(always)]
fn each_four_times(x: u64) -> u64
    requires sixteen_bits { x < 2 ^ 16 }
    ensures { (i : ℕ) → i < 64 → bit result i ≡ bit x (i / 4) }
{
    let eights = drawn_apart(x, 24, 0x0000_00ff_0000_00ff);
    let fours = drawn_apart(eights, 12, 0x000f_000f_000f_000f);
    let twos = drawn_apart(fours, 6, 0x0303_0303_0303_0303);
    let ones = drawn_apart(twos, 3, 0x1111_1111_1111_1111);
    let twice = drawn_apart(ones, 1, 0x3333_3333_3333_3333);
    drawn_apart(twice, 2, 0xffff_ffff_ffff_ffff)
}

// Where the mask has a bit: the bit there or the one `shift` places below.
#[tactic(auto, using(crate::proofs::Words::Spread::drawn_bit))]
#[inline(always)]
fn drawn_apart(x: u64, shift: u32, mask: u64) -> u64
    requires below_bits { shift < 64 }
    ensures { (i : ℕ) → i < 64 → bit result i
        ≡ ((bit x i || (nat_le shift i && bit x (i - shift))) && bit mask i) }
{
    (x | x << shift) & mask
}

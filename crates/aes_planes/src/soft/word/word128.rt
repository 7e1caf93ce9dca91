//! A word of 128 bits. Eight such words hold eight blocks. The operations work on the bytes of a
//! word as lanes of a vector.

ghost use Rattle.std.specs.Prelude.{◌≡◌};
ghost use Rattle.std.proofs.Common.{arith, rules};
ghost use Rattle.aes_planes.specs.Bits.{bit};
ghost use Rattle.aes_planes.specs.Private.BuiltLength.{built_shape};
ghost use Rattle.aes_planes.specs.Words.{word_bits, lane_bits};

use super::Word;
use super::batch::{Batch, Block, Blocks, Blocks8};
use super::transpose::transpose;
use super::vector128::{
    by_columns, by_rows, lane_for_each_bit, lanes_of_block, packed_rows, rotate_right, shift_left,
    shift_right,
};
use std::simd::prelude::*;

// The lanes of a word, by its halves.
#[tactic(auto, using(crate::proofs::Words::LaneBits::digits_bits))]
#[inline(always)]
fn lanes(x: u128) -> u8x16
    ensures { lane_bits result ≡ word_bits 128 x }
{
    let low = (x % 0x1_0000_0000_0000_0000) as u64;
    let high = (x >> 64) as u64;
    u64x2::from_array([low, high]).to_le_bytes()
}

// The word of lanes, by its halves.
#[tactic(auto, using(crate::proofs::Words::LaneBits::number_bits))]
#[inline(always)]
fn word(x: u8x16) -> u128
    ensures { word_bits 128 result ≡ lane_bits x }
{
    let [low, high] = u64x2::from_le_bytes(x).to_array();
    (high as u128) << 64 | low as u128
}

#[tactic(auto, using(crate::proofs::Words::Spread::lane_calls))]
impl Word for u128 {
    ghost bits = { λ x. word_bits 128 x };

    ghost BLOCKS = { 8 };

    ghost BITS = { 128 };

    ghost ROW_BITS = { 32 };

    ghost HALF_ROW = { 16 };

    ghost QUARTER_ROW = { 8 };

    type Blocks = Blocks8;

    const BLOCKS: u32 = 8;

    const BITS: u32 = 128;

    const ROW_BITS: u32 = 32;

    const HALF_ROW: u32 = 16;

    const QUARTER_ROW: u32 = 8;

    #[inline(always)]
    fn bit_and(self, other: u128) -> u128 {
        word(lanes(self) & lanes(other))
    }

    #[inline(always)]
    fn bit_or(self, other: u128) -> u128 {
        word(lanes(self) | lanes(other))
    }

    #[inline(always)]
    fn bit_xor(self, other: u128) -> u128 {
        word(lanes(self) ^ lanes(other))
    }

    #[inline(always)]
    fn shift_left(self, n: u32) -> u128 {
        word(shift_left(lanes(self), n))
    }

    #[inline(always)]
    fn shift_right(self, n: u32) -> u128 {
        word(shift_right(lanes(self), n))
    }

    #[inline(always)]
    fn ror(self, n: u32) -> u128 {
        word(rotate_right(lanes(self), n))
    }

    #[inline(always)]
    fn pack_rows(r0: u8, r1: u8, r2: u8, r3: u8) -> u128 {
        word(packed_rows(r0, r1, r2, r3))
    }

    #[inline(always)]
    fn byte_repeat(b: u8) -> u128 {
        word(u8x16::splat(b))
    }

    #[inline(always)]
    fn broadcast(x: u16) -> u128 {
        word(lane_for_each_bit(x))
    }

    #[inline(always)]
    fn low_byte(self) -> u8 {
        (self % 256) as u8
    }

    #[inline(always)]
    fn bitslice(output: &mut [u128; 8], input: &Blocks8) {
        let rows = [
            by_rows(input.get(0)),
            by_rows(input.get(1)),
            by_rows(input.get(2)),
            by_rows(input.get(3)),
            by_rows(input.get(4)),
            by_rows(input.get(5)),
            by_rows(input.get(6)),
            by_rows(input.get(7)),
        ];
        let [p0, p1, p2, p3, p4, p5, p6, p7] = transpose(rows);
        *output = [
            word(p0),
            word(p1),
            word(p2),
            word(p3),
            word(p4),
            word(p5),
            word(p6),
            word(p7),
        ];
    }

    #[inline(always)]
    fn inv_bitslice(input: &[u128; 8]) -> Blocks8 {
        let [p0, p1, p2, p3, p4, p5, p6, p7] = *input;
        let planes = [
            lanes(p0),
            lanes(p1),
            lanes(p2),
            lanes(p3),
            lanes(p4),
            lanes(p5),
            lanes(p6),
            lanes(p7),
        ];
        let [r0, r1, r2, r3, r4, r5, r6, r7] = transpose(planes);
        Blocks {
            blocks: [
                by_columns(r0),
                by_columns(r1),
                by_columns(r2),
                by_columns(r3),
                by_columns(r4),
                by_columns(r5),
                by_columns(r6),
                by_columns(r7),
            ],
        }
    }

    #[inline(always)]
    fn in_every_slot(block: &Block) -> [u128; 8] {
        let [x0, x1, x2, x3, x4, x5, x6, x7] = lanes_of_block(block);
        [
            word(x0),
            word(x1),
            word(x2),
            word(x3),
            word(x4),
            word(x5),
            word(x6),
            word(x7),
        ]
    }

    ghost shape = { built_shape bit 8 _ (Prim.search rules) (Prim.search rules)
        (Prim.search rules) };

    ghost keys_fit = { Prim.omega arith };
}

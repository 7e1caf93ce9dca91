//! A word of 256 bits, for processors with vectors of 256 bits. Eight such words hold sixteen
//! blocks.

ghost use Rattle.std.specs.Prelude.{◌≡◌};
ghost use Rattle.std.proofs.Common.{arith, rules};
ghost use Rattle.aes_planes.specs.Words.{wide_bit, wide_bits};
ghost use Rattle.aes_planes.specs.Private.BuiltLength.{built_shape};

use super::batch::{Batch, Block, Blocks, Blocks16};
use super::transpose::transpose;
use super::vector128::lanes_of_block;
use super::{Word, vector128, vector256};
use std::simd::prelude::*;

#[tactic(auto, using(crate::proofs::Words::Wide::wide_operators))]
impl Word for u8x32 {
    ghost bits = { wide_bits };

    ghost BLOCKS = { 16 };

    ghost BITS = { 256 };

    ghost ROW_BITS = { 64 };

    ghost HALF_ROW = { 32 };

    ghost QUARTER_ROW = { 16 };

    type Blocks = Blocks16;

    const BLOCKS: u32 = 16;

    const BITS: u32 = 256;

    const ROW_BITS: u32 = 64;

    const HALF_ROW: u32 = 32;

    const QUARTER_ROW: u32 = 16;

    #[inline(always)]
    fn bit_and(self, other: u8x32) -> u8x32 {
        self & other
    }

    #[inline(always)]
    fn bit_or(self, other: u8x32) -> u8x32 {
        self | other
    }

    #[inline(always)]
    fn bit_xor(self, other: u8x32) -> u8x32 {
        self ^ other
    }

    #[tactic(auto, using(crate::proofs::Words::Wide::shift_left_calls))]
    #[inline(always)]
    fn shift_left(self, n: u32) -> u8x32 {
        let part = (n % 8) as u8;
        let whole = vector256::bytes_up(self, n / 8);
        if part == 0 {
            return whole;
        }
        let next = vector256::byte_up(whole);
        next >> u8x32::splat(8 - part) | whole << u8x32::splat(part)
    }

    #[tactic(auto, using(crate::proofs::Words::Wide::shift_right_calls))]
    #[inline(always)]
    fn shift_right(self, n: u32) -> u8x32 {
        let part = (n % 8) as u8;
        let whole = vector256::bytes_down(self, n / 8);
        if part == 0 {
            return whole;
        }
        let next = vector256::byte_down(whole);
        whole >> u8x32::splat(part) | next << u8x32::splat(8 - part)
    }

    #[tactic(auto, using(crate::proofs::Words::Wide::rotate_calls))]
    #[inline(always)]
    fn ror(self, n: u32) -> u8x32 {
        let part = (n % 8) as u8;
        let whole = vector256::rotate_bytes(self, n / 8);
        if part == 0 {
            return whole;
        }
        let next = vector256::rotate_byte(whole);
        whole >> u8x32::splat(part) | next << u8x32::splat(8 - part)
    }

    #[tactic(auto, using(crate::proofs::Words::Wide::twice_rows))]
    #[inline(always)]
    fn pack_rows(r0: u8, r1: u8, r2: u8, r3: u8) -> u8x32 {
        vector256::twice(vector128::packed_rows(r0, r1, r2, r3))
    }

    #[inline(always)]
    fn byte_repeat(b: u8) -> u8x32 {
        u8x32::splat(b)
    }

    #[inline(always)]
    fn low_byte(self) -> u8 {
        self.to_array()[0]
    }

    #[inline(always)]
    fn bitslice(output: &mut [u8x32; 8], input: &Blocks16) {
        let rows = [
            vector256::by_rows(input.get(0), input.get(8)),
            vector256::by_rows(input.get(1), input.get(9)),
            vector256::by_rows(input.get(2), input.get(10)),
            vector256::by_rows(input.get(3), input.get(11)),
            vector256::by_rows(input.get(4), input.get(12)),
            vector256::by_rows(input.get(5), input.get(13)),
            vector256::by_rows(input.get(6), input.get(14)),
            vector256::by_rows(input.get(7), input.get(15)),
        ];
        *output = transpose(rows);
    }

    #[inline(always)]
    fn inv_bitslice(input: &[u8x32; 8]) -> Blocks16 {
        let [r0, r1, r2, r3, r4, r5, r6, r7] = transpose(*input);
        Blocks {
            blocks: [
                vector256::low_block(r0),
                vector256::low_block(r1),
                vector256::low_block(r2),
                vector256::low_block(r3),
                vector256::low_block(r4),
                vector256::low_block(r5),
                vector256::low_block(r6),
                vector256::low_block(r7),
                vector256::high_block(r0),
                vector256::high_block(r1),
                vector256::high_block(r2),
                vector256::high_block(r3),
                vector256::high_block(r4),
                vector256::high_block(r5),
                vector256::high_block(r6),
                vector256::high_block(r7),
            ],
        }
    }

    #[inline(always)]
    fn in_every_slot(block: &Block) -> [u8x32; 8] {
        let [x0, x1, x2, x3, x4, x5, x6, x7] = lanes_of_block(block);
        [
            vector256::twice(x0),
            vector256::twice(x1),
            vector256::twice(x2),
            vector256::twice(x3),
            vector256::twice(x4),
            vector256::twice(x5),
            vector256::twice(x6),
            vector256::twice(x7),
        ]
    }

    ghost shape = { built_shape wide_bit 16 _ (Prim.search rules) (Prim.search rules)
        (Prim.search rules) };

    ghost keys_fit = { Prim.omega arith };
}

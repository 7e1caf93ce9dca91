//! A word of thirty-two bits. Eight such words hold two blocks.

ghost use Rattle.std.specs.Prelude.{◌≡◌, ℕ, ◌+◌, ◌*◌, ◌<◌, [], ◌∷◌, slice_index};
ghost use Rattle.std.proofs.Common.{arith, rules};
ghost use Rattle.aes_planes.specs.Bits.{at, bit};
ghost use Rattle.aes_planes.specs.Private.BuiltLength.{built_shape};
ghost use Rattle.aes_planes.specs.Private.Packing.{row_byte};
ghost use Rattle.aes_planes.specs.Words.{word_bits};

use super::Word;
use super::batch::{Batch, Block, Blocks, Blocks2};
use super::rows::row_of_nibble;
use super::transpose::transpose;

#[tactic(auto, using(crate::proofs::Words::Constants::word_calls))]
impl Word for u32 {
    ghost bits = { λ x. word_bits 32 x };

    ghost BLOCKS = { 2 };

    ghost BITS = { 32 };

    ghost ROW_BITS = { 8 };

    ghost HALF_ROW = { 4 };

    ghost QUARTER_ROW = { 2 };

    type Blocks = Blocks2;

    const BLOCKS: u32 = 2;

    const BITS: u32 = 32;

    const ROW_BITS: u32 = 8;

    const HALF_ROW: u32 = 4;

    const QUARTER_ROW: u32 = 2;

    #[inline(always)]
    fn bit_and(self, other: u32) -> u32 {
        self & other
    }

    #[inline(always)]
    fn bit_or(self, other: u32) -> u32 {
        self | other
    }

    #[inline(always)]
    fn bit_xor(self, other: u32) -> u32 {
        self ^ other
    }

    #[inline(always)]
    fn shift_left(self, n: u32) -> u32 {
        self << n
    }

    #[inline(always)]
    fn shift_right(self, n: u32) -> u32 {
        self >> n
    }

    #[inline(always)]
    fn ror(self, n: u32) -> u32 {
        self.rotate_right(n)
    }

    #[inline(always)]
    fn pack_rows(r0: u8, r1: u8, r2: u8, r3: u8) -> u32 {
        let x0 = row_of_nibble(r0, 2);
        let x1 = row_of_nibble(r1, 2);
        let x2 = row_of_nibble(r2, 2);
        let x3 = row_of_nibble(r3, 2);
        x0 | x1 << 8 | x2 << 16 | x3 << 24
    }

    #[inline(always)]
    fn byte_repeat(b: u8) -> u32 {
        b as u32 * 0x0101_0101
    }

    #[inline(always)]
    fn low_byte(self) -> u8 {
        (self % 256) as u8
    }

    #[inline(always)]
    fn bitslice(output: &mut [u32; 8], input: &Blocks2) {
        let b0 = input.get(0);
        let b1 = input.get(1);
        let w0 = column_of(&b0, 0);
        let w1 = column_of(&b1, 0);
        let w2 = column_of(&b0, 1);
        let w3 = column_of(&b1, 1);
        let w4 = column_of(&b0, 2);
        let w5 = column_of(&b1, 2);
        let w6 = column_of(&b0, 3);
        let w7 = column_of(&b1, 3);
        *output = transpose([w0, w1, w2, w3, w4, w5, w6, w7]);
    }

    #[inline(always)]
    fn inv_bitslice(input: &[u32; 8]) -> Blocks2 {
        let [w0, w1, w2, w3, w4, w5, w6, w7] = transpose(*input);
        let b0 = block_of(w0, w2, w4, w6);
        let b1 = block_of(w1, w3, w5, w7);
        Blocks { blocks: [b0, b1] }
    }

    ghost shape = { built_shape bit 2 _ (Prim.search rules) (Prim.search rules)
        (Prim.search rules) };

    ghost keys_fit = { Prim.omega arith };
}

// A column of a block, its first row lowest.
#[tactic(auto, using(std::proofs::Common::rules, crate::proofs::Words::Packing::column_word))]
#[inline(always)]
fn column_of(block: &Block, column: usize) -> u32
    requires four_columns { column < 4 }
    ensures { (j p : ℕ) → j < 4 → p < 8
        → bit (row_byte block.now (4 * j + column)) p ≡ at (word_bits 32 result) (8 * j + p) }
{
    let start = 4 * column;
    u32::from_le_bytes([
        block[start],
        block[start + 1],
        block[start + 2],
        block[start + 3],
    ])
}

// The block of these columns.
#[inline(always)]
fn block_of(column0: u32, column1: u32, column2: u32, column3: u32) -> Block
    ensures { (c : ℕ) → c < 4 → (j p : ℕ) → j < 4 → p < 8
        → bit (row_byte result (4 * j + c)) p
        ≡ at (word_bits 32 (slice_index (column0 ∷ column1 ∷ column2 ∷ column3 ∷ []) c))
        (8 * j + p) }
{
    let [a0, a1, a2, a3] = column0.to_le_bytes();
    let [b0, b1, b2, b3] = column1.to_le_bytes();
    let [c0, c1, c2, c3] = column2.to_le_bytes();
    let [d0, d1, d2, d3] = column3.to_le_bytes();
    [
        a0, a1, a2, a3, b0, b1, b2, b3, c0, c1, c2, c3, d0, d1, d2, d3,
    ]
}

//! Vectors of 32 byte lanes as words of 256 bits: sixteen lanes have the first eight blocks, and
//! sixteen the last.

ghost use Rattle.std.specs.Prelude.{◌≡◌, ℕ, ◌+◌, ◌-◌, ◌*◌, ◌/◌, ◌%◌, ◌<◌, ◌&&◌, nat_le, nat_lt};
ghost use Rattle.aes_planes.specs.Bits.{at, bit, Places};
ghost use Rattle.aes_planes.specs.Words.{wide_bits, lane_bits};
ghost use Rattle.aes_planes.specs.Private.Packing.{row_byte};
ghost use Rattle.aes_planes.specs.Fips197 as fips;

use super::batch::Block;
use super::vector128;
use std::simd::prelude::*;

// The number of each lane in its half.
const COLUMNS: [u8; 32] = [
    0, 1, 2, 3, 4, 5, 6, 7, 8, 9, 10, 11, 12, 13, 14, 15, 0, 1, 2, 3, 4, 5, 6, 7, 8, 9, 10, 11, 12,
    13, 14, 15,
];

// Rotates the columns of the word by this many towards the low end.
#[tactic(auto, using(crate::proofs::Words::Wide::rotated_columns))]
#[inline(always)]
fn rotate_columns(x: u8x32, columns: u8) -> u8x32
    requires within { columns < 16 }
    ensures { Places 256 (wide_bits result) (λ i. at (wide_bits x) ((i + 16 * columns) % 256)) }
{
    x.swizzle_dyn_within::<16>(
        (u8x32::from_array(COLUMNS) + u8x32::splat(columns)) & u8x32::splat(15),
    )
}

// Shifts the columns of the word down by this many. Zeros enter at the high end.
#[tactic(auto, using(crate::proofs::Words::Wide::columns_right, crate::proofs::Words::Wide::place_low, crate::proofs::Words::Wide::place_high))]
#[inline(always)]
fn columns_down(x: u8x32, columns: u8) -> u8x32
    requires within { columns < 16 }
    ensures { Places 256 (wide_bits result) (λ i. nat_lt (i + 16 * columns) 256
        && at (wide_bits x) (i + 16 * columns)) }
{
    x.swizzle_dyn_within::<16>(
        (u8x32::from_array(COLUMNS) + u8x32::splat(columns + 112)) & u8x32::splat(0x8f),
    )
}

// Shifts the columns of the word up by this many. Zeros enter at the low end.
#[tactic(auto, using(crate::proofs::Words::Wide::columns_left))]
#[inline(always)]
fn columns_up(x: u8x32, columns: u8) -> u8x32
    requires within { columns < 16 }
    ensures { Places 256 (wide_bits result) (λ i. nat_le (16 * columns) i
        && at (wide_bits x) (i - 16 * columns)) }
{
    x.swizzle_dyn_within::<16>(u8x32::from_array(COLUMNS) - u8x32::splat(columns))
}

// Rotates the word by a byte towards the low end.
#[tactic(auto, using(crate::proofs::Words::Wide::rotated_byte))]
#[inline(always)]
pub(super) fn rotate_byte(x: u8x32) -> u8x32
    ensures { Places 256 (wide_bits result) (λ i. at (wide_bits x) ((i + 8) % 256)) }
{
    x.swizzle([
        16, 17, 18, 19, 20, 21, 22, 23, 24, 25, 26, 27, 28, 29, 30, 31, 1, 2, 3, 4, 5, 6, 7, 8, 9,
        10, 11, 12, 13, 14, 15, 0,
    ])
}

// Shifts the word down by a byte.
#[tactic(auto, using(crate::proofs::Words::Wide::byte_right))]
#[inline(always)]
pub(super) fn byte_down(x: u8x32) -> u8x32
    ensures { Places 256 (wide_bits result) (λ i. nat_lt (i + 8) 256 && at (wide_bits x) (i + 8)) }
{
    x.shuffle(
        u8x32::splat(0),
        [
            16, 17, 18, 19, 20, 21, 22, 23, 24, 25, 26, 27, 28, 29, 30, 31, 1, 2, 3, 4, 5, 6, 7, 8,
            9, 10, 11, 12, 13, 14, 15, 32,
        ],
    )
}

// Shifts the word up by a byte.
#[tactic(auto, using(crate::proofs::Words::Wide::byte_left))]
#[inline(always)]
pub(super) fn byte_up(x: u8x32) -> u8x32
    ensures { Places 256 (wide_bits result) (λ i. nat_le 8 i && at (wide_bits x) (i - 8)) }
{
    x.shuffle(
        u8x32::splat(0),
        [
            32, 16, 17, 18, 19, 20, 21, 22, 23, 24, 25, 26, 27, 28, 29, 30, 0, 1, 2, 3, 4, 5, 6, 7,
            8, 9, 10, 11, 12, 13, 14, 15,
        ],
    )
}

// Rotates the word by this many bytes towards the low end.
#[tactic(auto, using(crate::proofs::Words::Wide::rotate_bytes_calls))]
#[inline(always)]
pub(super) fn rotate_bytes(x: u8x32, bytes: u32) -> u8x32
    requires within { bytes < 32 }
    ensures { Places 256 (wide_bits result) (λ i. at (wide_bits x) ((i + 8 * bytes) % 256)) }
{
    let whole = rotate_columns(x, (bytes / 2) as u8);
    if bytes % 2 == 0 {
        return whole;
    }
    rotate_byte(whole)
}

// Shifts the word down by this many bytes.
#[tactic(auto, using(crate::proofs::Words::Wide::bytes_right_calls))]
#[inline(always)]
pub(super) fn bytes_down(x: u8x32, bytes: u32) -> u8x32
    requires within { bytes < 32 }
    ensures { Places 256 (wide_bits result) (λ i. nat_lt (i + 8 * bytes) 256
        && at (wide_bits x) (i + 8 * bytes)) }
{
    let whole = columns_down(x, (bytes / 2) as u8);
    if bytes % 2 == 0 {
        return whole;
    }
    byte_down(whole)
}

// Shifts the word up by this many bytes.
#[tactic(auto, using(crate::proofs::Words::Wide::bytes_left_calls))]
#[inline(always)]
pub(super) fn bytes_up(x: u8x32, bytes: u32) -> u8x32
    requires within { bytes < 32 }
    ensures { Places 256 (wide_bits result) (λ i. nat_le (8 * bytes) i
        && at (wide_bits x) (i - 8 * bytes)) }
{
    let whole = columns_up(x, (bytes / 2) as u8);
    if bytes % 2 == 0 {
        return whole;
    }
    byte_up(whole)
}

// Sixteen lanes in both halves.
#[tactic(auto, using(crate::proofs::Words::Wide::twice_places))]
#[inline(always)]
pub(crate) fn twice(x: u8x16) -> u8x32
    ensures { (i : ℕ) → i < 256 → at (wide_bits result) i
        ≡ at (lane_bits x) (8 * (i / 16) + i % 8) }
{
    x.swizzle([
        0, 1, 2, 3, 4, 5, 6, 7, 8, 9, 10, 11, 12, 13, 14, 15, 0, 1, 2, 3, 4, 5, 6, 7, 8, 9, 10, 11,
        12, 13, 14, 15,
    ])
}

// The bytes of two blocks, row by row, one in each half.
#[inline(always)]
pub(crate) fn by_rows(low: Block, high: Block) -> u8x32
    ensures low { (j p : ℕ) → j < 16 → p < 8
        → bit (row_byte low j) p ≡ at (wide_bits result) (16 * j + p) }
    ensures high { (j p : ℕ) → j < 16 → p < 8
        → bit (row_byte high j) p ≡ at (wide_bits result) (16 * j + 8 + p) }
{
    vector128::by_rows(low).shuffle(
        vector128::by_rows(high),
        [
            0, 1, 2, 3, 4, 5, 6, 7, 8, 9, 10, 11, 12, 13, 14, 15, 16, 17, 18, 19, 20, 21, 22, 23,
            24, 25, 26, 27, 28, 29, 30, 31,
        ],
    )
}

// The block of the rows in the lower half.
#[tactic(auto, using(crate::proofs::Words::Wide::lower))]
#[inline(always)]
pub(crate) fn low_block(x: u8x32) -> Block
    ensures typed { fips.IsBlock result }
    ensures bits { (j p : ℕ) → j < 16 → p < 8
        → bit (row_byte result j) p ≡ at (wide_bits x) (16 * j + p) }
{
    vector128::by_columns(x.swizzle([0, 1, 2, 3, 4, 5, 6, 7, 8, 9, 10, 11, 12, 13, 14, 15]))
}

// The block of the rows in the upper half.
#[tactic(auto, using(crate::proofs::Words::Wide::upper))]
#[inline(always)]
pub(crate) fn high_block(x: u8x32) -> Block
    ensures typed { fips.IsBlock result }
    ensures bits { (j p : ℕ) → j < 16 → p < 8
        → bit (row_byte result j) p ≡ at (wide_bits x) (16 * j + 8 + p) }
{
    vector128::by_columns(x.swizzle([
        16, 17, 18, 19, 20, 21, 22, 23, 24, 25, 26, 27, 28, 29, 30, 31,
    ]))
}

//! Makes the rows of a block's multiples for the next four powers of x. Multiplication by x^4 moves
//! the bits of each row by four.

ghost use Rattle.std.specs.Prelude.{◌≡◌, ℕ, ◌*◌, ◌/◌, ◌%◌, ◌<◌, get_or, length, bit_xor};
ghost use Rattle.aes_permute.specs.Vectors.{half};
ghost use Rattle.gcm.specs.Gcm.{v_at};
ghost use Rattle.gcm.specs.Multiples.{multiples_rows};

use aes_cipher::cipher::Block;
use aes_permute::halves::{joined, lower, upper};
use aes_permute::lanes::Lanes;
use aes_planes::laws::block_has_16_bytes;
use std::simd::prelude::*;

// What falls out of a number in a multiplication by x^4 becomes two bytes, by the last four bits of
// the number. These tables have the first of the two bytes, and the second. The other bytes are 0.
const FALLEN_FIRST: [u8; 16] = [
    0x00, 0x1c, 0x38, 0x24, 0x70, 0x6c, 0x48, 0x54, 0xe1, 0xfd, 0xd9, 0xc5, 0x91, 0x8d, 0xa9, 0xb5,
];

const FALLEN_SECOND: [u8; 16] = [
    0x00, 0x20, 0x40, 0x60, 0x80, 0xa0, 0xc0, 0xe0, 0x00, 0x20, 0x40, 0x60, 0x80, 0xa0, 0xc0, 0xe0,
];

// Two rows for the next four powers of x, made of these rows and of the rows before them. What
// falls out isn't added yet.
#[inline(always)]
fn moved(rows: u8x32, before: u8x32) -> u8x32
    ensures { (i n : ℕ) → n < 16 → get_or (half result i) n 0
        ≡ bit_xor (get_or (half rows i) n 0 / 16) (get_or (half before i) n 0 * 16 % 256) }
{
    let high = rows >> u8x32::splat(4);
    let low = before << u8x32::splat(4);
    high ^ low
}

/// Writes the rows of v's multiples for the next four powers of x.
#[inline(always)]
pub(crate) fn put_moved_rows(moved_rows: &mut [Block], rows: &[Block], v: u128)
    requires sized { length moved_rows.old ≡ 16 }
    requires long { length rows.now ≡ 16 }
    requires rows { rows.now ≡ multiples_rows v }
    ensures { moved_rows.new ≡ multiples_rows (v_at v 4) }
{
    let end = rows[15];
    block_has_16_bytes(end);
    let last = u8x16::from_array(end).low_nibbles();
    let first = last.lookup(FALLEN_FIRST);
    let second = last.lookup(FALLEN_SECOND);
    // No row is before the first one. The eighth row, which is before the ninth, is at place 14.
    let eighth = rows[14];
    block_has_16_bytes(eighth);
    let before = joined(u8x16::splat(0), u8x16::from_array(eighth));
    let pair = moved(u8x32::load(rows, 0), before);
    moved_rows[0] = (lower(pair) ^ first).to_array();
    moved_rows[1] = upper(pair).to_array();
    let pair = moved(u8x32::load(rows, 2), u8x32::load(rows, 0));
    moved_rows[2] = (lower(pair) ^ second).to_array();
    moved_rows[3] = upper(pair).to_array();
    for r in 2..8 {
        let pair = moved(u8x32::load(rows, 2 * r), u8x32::load(rows, 2 * r - 2));
        moved_rows[2 * r] = lower(pair).to_array();
        moved_rows[2 * r + 1] = upper(pair).to_array();
    }
}

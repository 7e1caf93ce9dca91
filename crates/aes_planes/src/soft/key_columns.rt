//! What a key schedule does to columns: the round constant, sums from left to right, and round keys
//! that are made of halves of two others.

ghost use Rattle.std.specs.Prelude.{◌≡◌, ℕ, cond, nat_lt, ◌+◌, ◌-◌, ◌*◌, ◌%◌, ◌^◌, ◌<◌, ◌≤◌, ◌⊎◌};
ghost use Rattle.std.specs.Prelude.{length, map, slice_index_or};
ghost use Rattle.aes_planes.specs.Bits.{at, xor};
ghost use Rattle.aes_planes.specs.Fips197 as fips;
ghost use Rattle.aes_planes.specs.Planes.{held, place, zip_with, words_at, constant_block, fold_to};
ghost use Rattle.aes_planes.specs.Planes.{columns_summed, columns_straddled};

use crate::soft::word::Word;

/// Adds 2 ^ `bit` to the byte in row 1 and column 3 of every block: one bit of a round constant
/// (FIPS 197, 5.2).
#[inline(always)]
pub fn add_round_constant_bit<W: Word>(state: &mut [W; 8], bit: usize)
    requires below_8 { bit < 8 }
    ensures { held W.BLOCKS (map W.bits state.new)
        ≡ map (λ s. fips.add_round_key s (constant_block (2 ^ bit)))
        (held W.BLOCKS (map W.bits state.old)) }
{
    let mask = W::pack_rows(0x0, 0x8, 0x0, 0x0);
    let plane = state[bit];
    let flipped = plane.bit_xor(mask);
    state[bit] = flipped;
}

/// Adds a byte to the byte in row 1 and column 3 of every block: a round constant (FIPS 197, 5.2).
#[inline(always)]
pub fn add_round_constant<W: Word>(state: &mut [W; 8], constant: u8)
    ensures { held W.BLOCKS (map W.bits state.new)
        ≡ map (λ s. fips.add_round_key s (constant_block constant))
        (held W.BLOCKS (map W.bits state.old)) }
{
    *state = W::sum_planes(state, &W::constant_planes(constant));
}

/// Replaces the eight words at `offset` by sums of columns. If they hold the last round key after
/// SubBytes, they then hold the next round key (FIPS 197, 5.2).
///
/// Column `c` becomes the sum of columns 0 to `c` of the round key `idx_xor` words earlier, plus
/// one byte for each row. A rotation of the words at `offset` by `idx_ror` bits brings that byte
/// to column 0. The other words stay.
#[inline(always)]
pub fn xor_columns<W: Word>(round_keys: &mut [W], offset: usize, idx_xor: usize, idx_ror: u32)
    requires apart { 8 ≤ idx_xor }
    requires inside { idx_xor ≤ offset }
    requires room { offset + 8 ≤ length round_keys.old }
    requires below_bits { idx_ror < W.BITS }
    ensures others { (i : ℕ) (d : _) → (i < offset) ⊎ (offset + 8 ≤ i)
        → slice_index_or round_keys.new i d
        ≡ slice_index_or round_keys.old i d }
    ensures sums { (i : ℕ) (d : _) (r c k : ℕ) → i < 8 → r < 4 → c < 4 → k < W.BLOCKS
        → at (W.bits (slice_index_or round_keys.new (offset + i) d)) (place W.BLOCKS r c k)
        ≡ fold_to xor (λ e. at (W.bits (slice_index_or round_keys.old (offset + i - idx_xor) d))
        (place W.BLOCKS r e k))
        (at (W.bits (slice_index_or round_keys.old (offset + i) d))
        ((place W.BLOCKS r 0 k + idx_ror) % W.BITS)) c }
    ensures blocks { (rows cols : ℕ) → rows < 4 → cols < 4
        → idx_ror ≡ rows * (4 * W.BLOCKS) + cols * W.BLOCKS
        → held W.BLOCKS (map W.bits (words_at round_keys.new offset))
        ≡ zip_with (columns_summed rows cols)
        (held W.BLOCKS (map W.bits (words_at round_keys.old (offset - idx_xor))))
        (held W.BLOCKS (map W.bits (words_at round_keys.old offset))) }
    ensures same_length { length round_keys.new ≡ length round_keys.old }
{
    for i in 0..8 {
        let index = offset + i;
        let before = round_keys[index - idx_xor];
        let substituted = round_keys[index];
        round_keys[index] = before.sum_columns(substituted, idx_ror);
    }
}

/// The columns of `before` summed from left to right, from a column of `start` on (FIPS 197, 5.2).
///
/// A rotation of `start` by `rotation` bits brings to column 0 of each row the byte that starts its
/// sums.
#[inline(always)]
pub fn summed_columns<W: Word>(before: &[W; 8], start: &[W; 8], rotation: u32) -> [W; 8]
    requires below_bits { rotation < W.BITS }
    ensures { (rows cols : ℕ) → rows < 4 → cols < 4
        → rotation ≡ rows * (4 * W.BLOCKS) + cols * W.BLOCKS
        → held W.BLOCKS (map W.bits result)
        ≡ zip_with (columns_summed rows cols) (held W.BLOCKS (map W.bits before.now))
        (held W.BLOCKS (map W.bits start.now)) }
{
    let mut sums = *before;
    'planes: for p in 0..8 {
        sums[p] = before[p].sum_columns(start[p], rotation);
    }
    sums
}

// One plane of `straddle_columns`.
#[inline(always)]
fn straddle<W: Word>(left: W, right: W) -> W
    ensures { (r c k : ℕ) → r < 4 → c < 4 → k < W.BLOCKS
        → at (W.bits result) (place W.BLOCKS r c k)
        ≡ cond (nat_lt c 2) (at (W.bits left) (place W.BLOCKS r (c + 2) k))
        (at (W.bits right) (place W.BLOCKS r (c - 2) k)) }
{
    let down = left.shift_right(W::HALF_ROW);
    let up = right.shift_left(W::HALF_ROW);
    let low = W::uniform_row(0x3);
    let high = W::uniform_row(0xc);
    let first = low.bit_and(down);
    let last = high.bit_and(up);
    first.bit_or(last)
}

/// The last two columns of one state and the first two of another.
#[tactic(auto, using(crate::proofs::KeySchedule::SummedColumns::straddled_of_eight))]
#[inline(always)]
pub fn straddle_columns<W: Word>(left: &[W; 8], right: &[W; 8]) -> [W; 8]
    ensures { held W.BLOCKS (map W.bits result)
        ≡ zip_with columns_straddled (held W.BLOCKS (map W.bits left.now))
        (held W.BLOCKS (map W.bits right.now)) }
{
    let mut columns = *left;
    'planes: for p in 0..8 {
        columns[p] = straddle(left[p], right[p]);
    }
    columns
}

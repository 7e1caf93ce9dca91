//! Shifts of the rows of every block, as swaps of columns under masks.

ghost use Rattle.std.specs.Prelude.{◌≡◌, ℕ, true, ◌*◌, ◌/◌, ◌%◌, ◌<◌, List, get_or, map};
ghost use Rattle.aes_planes.specs.Bits.{bit, Places};
ghost use Rattle.aes_planes.specs.Fips197 as fips;
ghost use Rattle.aes_planes.specs.Planes.{held};
ghost use Rattle.aes_planes.specs.Private.Swaps.{swapped_bit, is_swap_at, columns_swapped};

use crate::soft::word::Word;

// Swaps the bits under the mask with those `shift` places above them.
#[inline(always)]
fn delta_swap_1<W: Word>(x: W, shift: u32, mask: W) -> W
    requires below_bits { shift < W.BITS }
    ensures { Places W.BITS (W.bits result) (swapped_bit W.BITS (W.bits x) (W.bits mask) shift) }
{
    let above = x.shift_right(shift);
    let differ = x.bit_xor(above);
    let moved = differ.bit_and(mask);
    let up = moved.shift_left(shift);
    let low = x.bit_xor(moved);
    low.bit_xor(up)
}

// Swaps in every plane the columns that the mask names in each row with the columns `shift` places
// above.
#[inline(always)]
fn swap_columns<W: Word>(state: &mut [W; 8], shift: u32, mask: W)
    requires below_bits { shift < W.BITS }
    ensures { (d : ℕ) (nibbles : List ℕ) → d < 4 → shift ≡ d * W.BLOCKS
        → ((r c : ℕ) → r < 4 → c < 4 → is_swap_at d nibbles r c ≡ true)
        → Places W.BITS (W.bits mask)
        (λ i. bit (get_or nibbles (i / W.ROW_BITS) 0) (i % W.ROW_BITS / W.QUARTER_ROW))
        → held W.BLOCKS (map W.bits state.new)
        ≡ map (columns_swapped d nibbles) (held W.BLOCKS (map W.bits state.old)) }
{
    let [x0, x1, x2, x3, x4, x5, x6, x7] = *state;
    let swapped0 = delta_swap_1(x0, shift, mask);
    let swapped1 = delta_swap_1(x1, shift, mask);
    let swapped2 = delta_swap_1(x2, shift, mask);
    let swapped3 = delta_swap_1(x3, shift, mask);
    let swapped4 = delta_swap_1(x4, shift, mask);
    let swapped5 = delta_swap_1(x5, shift, mask);
    let swapped6 = delta_swap_1(x6, shift, mask);
    let swapped7 = delta_swap_1(x7, shift, mask);
    let planes = [
        swapped0, swapped1, swapped2, swapped3, swapped4, swapped5, swapped6, swapped7,
    ];
    *state = planes;
}

/// Shifts the rows of every block once: ShiftRows (FIPS 197, 5.1.2).
#[inline(always)]
pub fn shift_rows_1<W: Word>(state: &mut [W; 8])
    ensures { held W.BLOCKS (map W.bits state.new)
        ≡ map (fips.shift_times 1) (held W.BLOCKS (map W.bits state.old)) }
{
    let by_two = W::pack_rows(0x0, 0x1, 0x3, 0x2);
    swap_columns(state, W::HALF_ROW, by_two);
    let by_one = W::pack_rows(0x0, 0x5, 0x0, 0x5);
    swap_columns(state, W::QUARTER_ROW, by_one);
}

/// Shifts the rows of every block twice (FIPS 197, 5.1.2): rows 1 and 3 swap their halves.
#[inline(always)]
pub fn shift_rows_2<W: Word>(state: &mut [W; 8])
    ensures { held W.BLOCKS (map W.bits state.new)
        ≡ map (fips.shift_times 2) (held W.BLOCKS (map W.bits state.old)) }
{
    let by_two = W::pack_rows(0x0, 0x3, 0x0, 0x3);
    swap_columns(state, W::HALF_ROW, by_two);
}

/// Shifts the rows of every block three times (FIPS 197, 5.1.2), which undoes one shift.
#[inline(always)]
pub fn shift_rows_3<W: Word>(state: &mut [W; 8])
    ensures { held W.BLOCKS (map W.bits state.new)
        ≡ map (fips.shift_times 3) (held W.BLOCKS (map W.bits state.old)) }
{
    let by_two = W::pack_rows(0x0, 0x2, 0x3, 0x1);
    swap_columns(state, W::HALF_ROW, by_two);
    let by_one = W::pack_rows(0x0, 0x5, 0x0, 0x5);
    swap_columns(state, W::QUARTER_ROW, by_one);
}

/// Undoes one shift of the rows of every block: InvShiftRows (FIPS 197, 5.3.1).
#[tactic(auto, using(crate::proofs::Shifts::ColumnSwaps::shifted_back_1))]
#[inline(always)]
pub fn inv_shift_rows_1<W: Word>(state: &mut [W; 8])
    ensures { held W.BLOCKS (map W.bits state.new)
        ≡ map (fips.inv_shift_times 1) (held W.BLOCKS (map W.bits state.old)) }
{
    shift_rows_3(state);
}

/// Undoes two shifts of the rows of every block (FIPS 197, 5.3.1).
#[tactic(auto, using(crate::proofs::Shifts::ColumnSwaps::shifted_back_2))]
#[inline(always)]
pub fn inv_shift_rows_2<W: Word>(state: &mut [W; 8])
    ensures { held W.BLOCKS (map W.bits state.new)
        ≡ map (fips.inv_shift_times 2) (held W.BLOCKS (map W.bits state.old)) }
{
    shift_rows_2(state);
}

/// Undoes three shifts of the rows of every block (FIPS 197, 5.3.1).
#[tactic(auto, using(crate::proofs::Shifts::ColumnSwaps::shifted_back_3))]
#[inline(always)]
pub fn inv_shift_rows_3<W: Word>(state: &mut [W; 8])
    ensures { held W.BLOCKS (map W.bits state.new)
        ≡ map (fips.inv_shift_times 3) (held W.BLOCKS (map W.bits state.old)) }
{
    shift_rows_1(state);
}

//! The cipher on planes, in either direction and any layout.
ghost use Rattle.std.specs.Prelude.{◌≡◌, ℕ, ◌+◌, ◌-◌, ◌*◌, ◌%◌, ◌<◌, ◌≤◌, List, length, map};
ghost use Rattle.aes_planes.specs.Fips197 as fips;
ghost use Rattle.aes_planes.specs.Planes.{held};
ghost use Rattle.aes_soft.specs.Stored.{deferred, key_of, key_size, IsKeyed};

use super::layouts::Layout;
use super::rounds::{Deferred0, Deferred1, Deferred2, Deferred3, add_key, inv_round, round};
use aes_cipher::cipher::{Decrypt, Direction, Encrypt};
use aes_planes::soft::mix_columns::{inv_mix_columns_0, mix_columns_0};
use aes_planes::soft::sbox::{Layers, inv_sub_bytes, sub_bytes, sub_bytes_nots};
use aes_planes::soft::shifts::{inv_shift_rows_1, inv_shift_rows_2, shift_rows_1, shift_rows_2};
use aes_planes::soft::word::{Batch, Word};

/// A direction's cipher and its round on planes.
pub trait PlaneCipher: Direction {
    /// Does to each block that planes hold what a round does before it adds its round key.
    fn step_planes<W: Word>(state: &mut [W; 8])
        ensures { held W.BLOCKS (map W.bits state.new)
            ≡ map Self.step (held W.BLOCKS (map W.bits state.old)) };

    /// Processes each block that planes hold under stored round keys, in `rounds` rounds.
    fn process_planes<W: Word, L: Layout>(
        round_keys: &[W],
        rounds: usize,
        state: &mut [W; 8],
        layers: &mut Layers,
    )
        requires ten_at_least { 10 ≤ rounds }
        requires fourteen_at_most { rounds ≤ 14 }
        requires even { rounds % 2 ≡ 0 }
        requires room { 8 * rounds + 8 ≤ length round_keys.now }
        requires is_schedule { IsKeyed (key_size rounds) W.BLOCKS (deferred L.PERIOD rounds)
            (map W.bits round_keys.now) }
        ensures blocks { let key = key_of (key_size rounds) W.BLOCKS (deferred L.PERIOD rounds)
            (map W.bits round_keys.now) in
            held W.BLOCKS (map W.bits state.new)
            ≡ map (Self.processed (fips.key_expansion key)) (held W.BLOCKS (map W.bits state.old)) }
        ensures layers { layers.new ≡ layers.old + rounds };
}

impl PlaneCipher for Encrypt {
    #[tactic(auto, using(crate::proofs::Slots::round_stepped))]
    #[inline(always)]
    fn step_planes<W: Word>(state: &mut [W; 8]) {
        sub_bytes(state, &mut Layers::new());
        sub_bytes_nots(state);
        shift_rows_1(state);
        mix_columns_0(state);
    }

    // Runs a period at a time. If one ShiftRows is deferred, two more rounds or two ShiftRows make
    // it three.
    fn process_planes<W: Word, L: Layout>(
        round_keys: &[W],
        rounds: usize,
        state: &mut [W; 8],
        layers: &mut Layers,
    ) {
        let period = L::PERIOD;
        let periods = (rounds - 2) / period;
        let mut planes = *state;
        add_key(&mut planes, round_keys, 0);
        'whole_periods: for past in 0..periods {
            let done = period * past;
            round::<W, Deferred1>(&mut planes, round_keys, done + 1, layers);
            if period == 4 {
                round::<W, Deferred2>(&mut planes, round_keys, done + 2, layers);
                round::<W, Deferred3>(&mut planes, round_keys, done + 3, layers);
            } else {
                shift_rows_2(&mut planes);
            }
            round::<W, Deferred0>(&mut planes, round_keys, done + period, layers);
        }
        let odd = period * periods + 1;
        round::<W, Deferred1>(&mut planes, round_keys, odd, layers);
        if odd + 1 < rounds {
            round::<W, Deferred2>(&mut planes, round_keys, rounds - 2, layers);
            round::<W, Deferred3>(&mut planes, round_keys, rounds - 1, layers);
        } else {
            shift_rows_2(&mut planes);
        }
        sub_bytes(&mut planes, layers);
        add_key(&mut planes, round_keys, rounds);
        *state = planes;
    }
}

impl PlaneCipher for Decrypt {
    #[tactic(auto, using(crate::proofs::Slots::inv_round_stepped))]
    #[inline(always)]
    fn step_planes<W: Word>(state: &mut [W; 8]) {
        sub_bytes_nots(state);
        inv_sub_bytes(state, &mut Layers::new());
        inv_shift_rows_1(state);
        inv_mix_columns_0(state);
    }

    // Runs a period at a time.
    fn process_planes<W: Word, L: Layout>(
        round_keys: &[W],
        rounds: usize,
        state: &mut [W; 8],
        layers: &mut Layers,
    ) {
        let period = L::PERIOD;
        let periods = (rounds - 2) / period;
        let odd = period * periods + 1;
        let mut planes = *state;
        add_key(&mut planes, round_keys, rounds);
        inv_sub_bytes(&mut planes, layers);
        if odd + 1 < rounds {
            inv_round::<W, Deferred3>(&mut planes, round_keys, rounds - 1, layers);
            inv_round::<W, Deferred2>(&mut planes, round_keys, rounds - 2, layers);
        } else {
            inv_shift_rows_2(&mut planes);
        }
        inv_round::<W, Deferred1>(&mut planes, round_keys, odd, layers);
        'whole_periods: for past in 0..periods {
            let number = period * (periods - past);
            inv_round::<W, Deferred0>(&mut planes, round_keys, number, layers);
            if period == 4 {
                inv_round::<W, Deferred3>(&mut planes, round_keys, number - 1, layers);
                inv_round::<W, Deferred2>(&mut planes, round_keys, number - 2, layers);
            } else {
                inv_shift_rows_2(&mut planes);
            }
            inv_round::<W, Deferred1>(&mut planes, round_keys, number + 1 - period, layers);
        }
        add_key(&mut planes, round_keys, 0);
        *state = planes;
    }
}

// Processes each block of a batch. Inlined: in a loop over many batches the compiler can then
// remove most copies of blocks.
#[tactic(auto, using(crate::proofs::Slots::batch_processed))]
#[inline(always)]
pub(crate) fn process<W: Word, L: Layout, D: PlaneCipher>(
    round_keys: &[W],
    rounds: usize,
    input: &W::Blocks,
    layers: &mut Layers,
) -> W::Blocks
    requires ten_at_least { 10 ≤ rounds }
    requires fourteen_at_most { rounds ≤ 14 }
    requires even { rounds % 2 ≡ 0 }
    requires room { 8 * rounds + 8 ≤ length round_keys.now }
    requires is_schedule { IsKeyed (key_size rounds) W.BLOCKS (deferred L.PERIOD rounds)
        (map W.bits round_keys.now) }
    ensures blocks { let key = key_of (key_size rounds) W.BLOCKS (deferred L.PERIOD rounds)
        (map W.bits round_keys.now) in
        W.Blocks.blocks result ≡ map (D.processed (fips.key_expansion key))
        (W.Blocks.blocks input.now) }
    ensures layers { layers.new ≡ layers.old + rounds }
{
    let mut state = [W::zero(); 8];
    W::bitslice(&mut state, input);
    D::process_planes::<W, L>(round_keys, rounds, &mut state, layers);
    W::inv_bitslice(&state)
}

// Processes each block of a batch in a call that is not inlined. This is quicker for a single block
// and for a batch that is filled up. The rounds are then compiled once for both.
#[inline(never)]
pub(crate) fn process_outlined<W: Word, L: Layout, D: PlaneCipher>(
    round_keys: &[W],
    rounds: usize,
    input: &W::Blocks,
    layers: &mut Layers,
) -> W::Blocks
    requires ten_at_least { 10 ≤ rounds }
    requires fourteen_at_most { rounds ≤ 14 }
    requires even { rounds % 2 ≡ 0 }
    requires room { 8 * rounds + 8 ≤ length round_keys.now }
    requires is_schedule { IsKeyed (key_size rounds) W.BLOCKS (deferred L.PERIOD rounds)
        (map W.bits round_keys.now) }
    ensures blocks { let key = key_of (key_size rounds) W.BLOCKS (deferred L.PERIOD rounds)
        (map W.bits round_keys.now) in
        W.Blocks.blocks result ≡ map (D.processed (fips.key_expansion key))
        (W.Blocks.blocks input.now) }
    ensures layers { layers.new ≡ layers.old + rounds }
{
    process::<W, L, D>(round_keys, rounds, input, layers)
}

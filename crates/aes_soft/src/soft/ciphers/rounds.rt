//! Rounds that leave their ShiftRows out: what the ciphers of both layouts are made of.
ghost use Rattle.std.specs.Prelude.{◌≡◌, ℕ, ◌+◌, ◌*◌, ◌<◌, ◌≤◌, length, map};
ghost use Rattle.aes_planes.specs.Fips197 as fips;
ghost use Rattle.aes_planes.specs.Planes.{held, between_shifts, plus63, words_at, zip_with};

use aes_planes::soft::mix_columns::{
    inv_mix_columns_0, inv_mix_columns_1, inv_mix_columns_2, inv_mix_columns_3, mix_columns_0,
    mix_columns_1, mix_columns_2, mix_columns_3,
};
use aes_planes::soft::round_keys::round_key;
use aes_planes::soft::sbox::{Layers, inv_sub_bytes, sub_bytes};
use aes_planes::soft::sums::add_round_key;
use aes_planes::soft::word::Word;

// Adds round key `i` to every block.
#[inline(always)]
pub(super) fn add_key<W: Word>(state: &mut [W; 8], round_keys: &[W], i: usize)
    requires room { 8 * i + 8 ≤ length round_keys.now }
    ensures { held W.BLOCKS (map W.bits state.new)
        ≡ zip_with fips.add_round_key (held W.BLOCKS (map W.bits state.old))
        (held W.BLOCKS (map W.bits (words_at round_keys.now (8 * i)))) }
{
    let key = round_key(round_keys, i);
    add_round_key(state, &key);
}

// How many ShiftRows are deferred after a round. It is a type and not a number, so that each round
// is compiled with its own mixing of columns, without a choice between four.
pub(super) trait Deferred {
    // The number of deferred ShiftRows.
    ghost DEFERRED: { ℕ };

    // Applies MixColumns to every block, between the deferred ShiftRows and as many InvShiftRows.
    fn mix<W: Word>(state: &mut [W; 8])
        ensures { held W.BLOCKS (map W.bits state.new)
            ≡ map (between_shifts DEFERRED fips.mix_columns)
            (held W.BLOCKS (map W.bits state.old)) };

    // Applies InvMixColumns to every block, between the deferred ShiftRows and as many
    // InvShiftRows.
    fn unmix<W: Word>(state: &mut [W; 8])
        ensures { held W.BLOCKS (map W.bits state.new)
            ≡ map (between_shifts DEFERRED fips.inv_mix_columns)
            (held W.BLOCKS (map W.bits state.old)) };
}

// No ShiftRows is deferred.
pub(super) struct Deferred0;

impl Deferred for Deferred0 {
    ghost DEFERRED = { 0 };

    #[inline(always)]
    fn mix<W: Word>(state: &mut [W; 8]) {
        mix_columns_0(state);
    }

    #[inline(always)]
    fn unmix<W: Word>(state: &mut [W; 8]) {
        inv_mix_columns_0(state);
    }
}

// One ShiftRows is deferred.
pub(super) struct Deferred1;

impl Deferred for Deferred1 {
    ghost DEFERRED = { 1 };

    #[inline(always)]
    fn mix<W: Word>(state: &mut [W; 8]) {
        mix_columns_1(state);
    }

    #[inline(always)]
    fn unmix<W: Word>(state: &mut [W; 8]) {
        inv_mix_columns_1(state);
    }
}

// Two ShiftRows are deferred.
pub(super) struct Deferred2;

impl Deferred for Deferred2 {
    ghost DEFERRED = { 2 };

    #[inline(always)]
    fn mix<W: Word>(state: &mut [W; 8]) {
        mix_columns_2(state);
    }

    #[inline(always)]
    fn unmix<W: Word>(state: &mut [W; 8]) {
        inv_mix_columns_2(state);
    }
}

// Three ShiftRows are deferred.
pub(super) struct Deferred3;

impl Deferred for Deferred3 {
    ghost DEFERRED = { 3 };

    #[inline(always)]
    fn mix<W: Word>(state: &mut [W; 8]) {
        mix_columns_3(state);
    }

    #[inline(always)]
    fn unmix<W: Word>(state: &mut [W; 8]) {
        inv_mix_columns_3(state);
    }
}

// Round `i` without its ShiftRows, which is deferred. `D` says how many are deferred after the
// round. By this number the mixing finds each row where it is.
#[inline(always)]
pub(super) fn round<W: Word, D: Deferred>(
    state: &mut [W; 8],
    round_keys: &[W],
    i: usize,
    layers: &mut Layers,
)
    requires room { 8 * i + 8 ≤ length round_keys.now }
    ensures blocks { held W.BLOCKS (map W.bits state.new)
        ≡ zip_with fips.add_round_key (map (between_shifts D.DEFERRED fips.mix_columns)
        (map (map (λ b. plus63 (fips.sbox b))) (held W.BLOCKS (map W.bits state.old))))
        (held W.BLOCKS (map W.bits (words_at round_keys.now (8 * i)))) }
    ensures layers { layers.new ≡ layers.old + 1 }
{
    sub_bytes(state, layers);
    D::mix(state);
    add_key(state, round_keys, i);
}

// Undoes the mixing of round `i`, and the substitution of the next round. `D` says how many
// ShiftRows are deferred there.
#[inline(always)]
pub(super) fn inv_round<W: Word, D: Deferred>(
    state: &mut [W; 8],
    round_keys: &[W],
    i: usize,
    layers: &mut Layers,
)
    requires room { 8 * i + 8 ≤ length round_keys.now }
    ensures blocks { held W.BLOCKS (map W.bits state.new)
        ≡ map (map (λ b. fips.inv_sbox (plus63 b)))
        (map (between_shifts D.DEFERRED fips.inv_mix_columns)
        (zip_with fips.add_round_key (held W.BLOCKS (map W.bits state.old))
        (held W.BLOCKS (map W.bits (words_at round_keys.now (8 * i)))))) }
    ensures layers { layers.new ≡ layers.old + 1 }
{
    add_key(state, round_keys, i);
    D::unmix(state);
    inv_sub_bytes(state, layers);
}

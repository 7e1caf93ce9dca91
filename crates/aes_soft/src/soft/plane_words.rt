//! The key expansion on planes (FIPS 197, 5.2), before a layout changes the round keys.
ghost use Rattle.std.specs.Prelude.{◌≡◌, ℕ, ◌+◌, ◌*◌, List, map, replicate};
ghost use Rattle.aes_planes.specs.Fips197 as fips;
ghost use Rattle.aes_planes.specs.Planes.{held, words_at};

use aes_planes::expansion::FourWords;
use aes_planes::soft::key_columns::{add_round_constant, straddle_columns, summed_columns};
use aes_planes::soft::round_keys::{round_key, store_round_key};
use aes_planes::soft::sbox::{Layers, sub_bytes, sub_bytes_nots};
use aes_planes::soft::word::Word;
use std::marker::PhantomData;

// SubBytes of every block, with the constant 0x63.
#[tactic(auto, using(crate::proofs::Slots::substituted))]
#[inline(always)]
fn substitute<W: Word>(state: &mut [W; 8], layers: &mut Layers)
    ensures blocks { held W.BLOCKS (map W.bits state.new)
        ≡ map fips.sub_bytes (held W.BLOCKS (map W.bits state.old)) }
    ensures layers { layers.new ≡ layers.old + 1 }
{
    sub_bytes(state, layers);
    sub_bytes_nots(state);
}

// Round keys as planes, with four words in every slot.
pub(crate) struct PlaneWords<W> {
    word: PhantomData<W>,
}

impl<W: Word> FourWords for PlaneWords<W> {
    type Words = [W; 8];

    type StoredIn = W;

    ghost AreWords = { λ planes block. held W.BLOCKS (map W.bits planes)
        ≡ replicate W.BLOCKS block };

    ghost IsStored = { λ planes last i block.
        held W.BLOCKS (words_at (map W.bits planes) (8 * i)) ≡ replicate W.BLOCKS block };

    ghost length_for = { λ last. 8 * last + 8 };

    ghost LAYERS = { 1 };

    #[inline(always)]
    fn load(key: &[u8], from: usize) -> [W; 8] {
        // The bytes are lent, so that no copy of them is left.
        W::in_every_slot(key[from..from + 16].as_array::<16>().unwrap())
    }

    #[inline(always)]
    fn rotated(before: [W; 8], last: [W; 8], constant: u8, layers: &mut Layers) -> [W; 8] {
        let mut start = last;
        substitute(&mut start, layers);
        add_round_constant(&mut start, constant);
        summed_columns(&before, &start, W::ror_distance(1, 3))
    }

    #[inline(always)]
    fn substituted(before: [W; 8], last: [W; 8], layers: &mut Layers) -> [W; 8] {
        let mut start = last;
        substitute(&mut start, layers);
        summed_columns(&before, &start, W::ror_distance(0, 3))
    }

    #[inline(always)]
    fn plain(before: [W; 8], last: [W; 8]) -> [W; 8] {
        summed_columns(&before, &last, W::ror_distance(0, 1))
    }

    #[inline(always)]
    fn straddled(left: [W; 8], right: [W; 8]) -> [W; 8] {
        straddle_columns(&left, &right)
    }

    #[inline(always)]
    fn read_back(stored: &[W], i: usize, _last: usize, _words: [W; 8]) -> [W; 8] {
        round_key(stored, i)
    }

    #[inline(always)]
    fn store(stored: &mut [W], i: usize, _last: usize, words: [W; 8]) {
        store_round_key(stored, i, &words);
    }
}

//! Makes planes of the round keys of vector permutations, so that one key schedule serves both
//! forms.

ghost use Rattle.std.specs.Prelude.{◌≡◌, ◌⊎◌, ℕ, ◌+◌, ◌*◌, ◌≤◌, false, length, map};
ghost use Rattle.std.specs.Prelude.{replicate, take};
ghost use Rattle.aes_planes.specs.Fips197 as fips;
ghost use Rattle.aes_planes.specs.Planes.{held, words_at};
ghost use Rattle.aes_soft.specs.Stored as soft;
ghost use Rattle.aes_permute.specs.Stored.{untower};
ghost use Rattle.aes_permute.specs.Keys.{key_of_lanes, IsCipherSchedule};

use aes_cipher::not_clone::NotClone;
use aes_cipher::zeroize::zeroize_words;
use aes_permute::rounds::out_of_tower;
use aes_planes::soft::round_keys::store_round_key;
use aes_planes::soft::word::{Block, Word};
use aes_soft::soft::plane_room::PlaneRoom;
use std::simd::prelude::*;

// The block that planes hold for a stored round key of Cipher between the first and the last. The
// constant of the S-box is added to it twice, so that it cancels out. The rows are shifted back
// already.
#[inline(always)]
fn block_for_planes(stored: &Block) -> Block
    ensures { result ≡ map untower stored.now }
{
    out_of_tower(u8x16::from_array(*stored)).to_array()
}

// Stores a block in every slot as the planes of round key `i`. The other words stay.
#[inline(always)]
fn store_in_every_slot<W: Word>(words: &mut [W], i: usize, block: &Block)
    requires room { 8 * i + 8 ≤ length words.old }
    ensures there { held W.BLOCKS (map W.bits (words_at words.new (8 * i)))
        ≡ replicate W.BLOCKS block.now }
    ensures others { (o : ℕ) → (o + 8 ≤ 8 * i) ⊎ (8 * i + 8 ≤ o)
        → words_at words.new o ≡ words_at words.old o }
    ensures same_length { length words.new ≡ length words.old }
{
    store_round_key(words, i, &W::in_every_slot(block));
}

/// Writes stored round keys of Cipher to words, as the full layout of planes stores those of the
/// same key.
pub fn store_planes<W: Word>(words: &mut [W], keys: &[Block])
    requires sized { length words.old ≡ 8 * length keys.now }
    requires keyed { IsCipherSchedule keys.now }
    ensures same_length { length words.new ≡ 8 * length keys.now }
    ensures is_schedule { soft.IsFullSchedule W.bits W.BLOCKS words.new }
    ensures key { soft.key_of_planes W.bits W.BLOCKS words.new ≡ key_of_lanes keys.now }
{
    let last = keys.len() - 1;
    store_in_every_slot(words, 0, &keys[0]);
    'keys: for i in 1..last {
        store_in_every_slot(words, i, &block_for_planes(&keys[i]));
    }
    store_in_every_slot(words, last, &keys[last]);
}

/// Round keys on planes, in room for those of the largest key. A drop requires zeros, so the prover
/// refuses code that drops them without a wipe.
pub(crate) struct PlaneKeys<W: Word> {
    room: PlaneRoom<W>,
}

impl<W: Word> PlaneKeys<W> {
    /// Returns zeros, to be written over.
    #[inline(always)]
    pub(crate) fn zeroed() -> PlaneKeys<W> {
        PlaneKeys {
            room: [W::zero(); 120],
        }
    }

    /// Stores round keys of Cipher in the first words.
    #[inline(always)]
    pub(crate) fn store(&mut self, keys: &[Block])
        requires keyed { IsCipherSchedule keys.now }
        ensures is_schedule { soft.IsFullSchedule W.bits W.BLOCKS (take (8 * length keys.now) self.new.room) }
        ensures key { soft.key_of_planes W.bits W.BLOCKS (take (8 * length keys.now) self.new.room)
            ≡ key_of_lanes keys.now }
    {
        store_planes(&mut self.room[..8 * keys.len()], keys);
    }

    /// Lends the words of the first `count` round keys.
    #[inline(always)]
    pub(crate) fn lend(&self, count: usize) -> &[W]
        requires fits { count ≤ 15 }
        ensures { result.now ≡ take (8 * count) self.now.room }
    {
        &self.room[..8 * count]
    }

    /// Overwrites the words with zeros, in place.
    #[inline(always)]
    pub(crate) fn wipe(&mut self)
        ensures { map W.bits self.new.room ≡ replicate 120 (replicate W.BITS false) }
    {
        zeroize_words(&mut self.room);
    }
}

impl<W: Word> Drop for PlaneKeys<W> {
    #[inline(always)]
    fn drop(self)
        requires wiped { map W.bits self.room ≡ replicate 120 (replicate W.BITS false) }
    {
        let PlaneKeys { room: _ } = self;
    }
}

impl<W: Word> NotClone for PlaneKeys<W> {}

//! The key schedules (FIPS 197, 5.2), four words at a time, and the form in which round keys are
//! stored.

ghost use Rattle.std.specs.Prelude.{◌≡◌, ◌+◌, ◌/◌, ◌%◌, ◌<◌, ◌≤◌, ◌∷◌, length, map, replicate, bit_xor};
ghost use Rattle.std.specs.Simd.Lanes.{zip2};
ghost use Rattle.aes_planes.specs.Fips197 as fips;
ghost use Rattle.aes_planes.specs.Planes.{plus63, fold_to};
ghost use Rattle.aes_cipher.specs.KeySizes.{IsKeySize};
ghost use Rattle.aes_permute.specs.Keys.{encrypting, key_of_lanes, AreInverse, IsCipherSchedule};
ghost use Rattle.aes_permute.specs.Stored.{untower, key_untower, IsWritten};

use crate::lanes::Lanes;
use crate::rounds::{encrypting_key, into_tower, inverted_key, out_of_tower, plain_key};
use crate::sbox::sub_bytes_but_constant;
use crate::tables::{TOWER_HIGH, TOWER_LOW};
use aes_planes::expansion::{self, FourWords};
use aes_planes::laws;
use aes_planes::soft::sbox::Layers;
use aes_planes::soft::word::Block;
use std::simd::prelude::*;

// The places of the lanes one column and two columns to the left, with none before the first.
const COLUMN_BEFORE: [u8; 16] = [0x80, 0x80, 0x80, 0x80, 0, 1, 2, 3, 4, 5, 6, 7, 8, 9, 10, 11];

const TWO_COLUMNS_BEFORE: [u8; 16] = [
    0x80, 0x80, 0x80, 0x80, 0x80, 0x80, 0x80, 0x80, 0, 1, 2, 3, 4, 5, 6, 7,
];

// In the tower basis, each column of the result is a sum of columns: of those of `before` up to it,
// of that of `start`, and of that of `addend`.
#[tactic(auto, unfolding(crate::specs::Lookup::is_index))]
#[inline(always)]
fn summed_columns(before: u8x16, start: u8x16, addend: u8x16) -> u8x16
    requires before { length before ≡ 16 }
    requires start { length start ≡ 16 }
    requires addend { length addend ≡ 16 }
    ensures { map untower result ≡ fips.state (λ r c. fold_to fips.field_add
        (fips.byte_at (map untower before) r) (fips.field_add
        (fips.byte_at (map untower start) r c) (fips.byte_at (map untower addend) r c)) c) }
{
    let pairs = before.sum(before.permuted(COLUMN_BEFORE));
    let sums = pairs.sum(pairs.permuted(TWO_COLUMNS_BEFORE));
    (sums ^ addend) ^ start
}

// A byte in the tower basis. The byte is public, since the address of a look-up depends on it.
#[tactic(auto, using(crate::proofs::ExpandedLanes::byte_is))]
#[inline(always)]
fn tower_byte(byte: u8) -> u8
    ensures { untower result ≡ byte }
{
    TOWER_LOW[usize::from(byte & 0x0f)] ^ TOWER_HIGH[usize::from(byte >> 4)]
}

// Adds a round constant to the first byte. `summed_columns` then adds each column to those after
// it, so the constant comes to row 0 of every column.
#[inline(always)]
fn with_constant(words: u8x16, constant: u8) -> u8x16
    requires { length words ≡ 16 }
    ensures { map untower result ≡ zip2 bit_xor (map untower words) (constant ∷ replicate 15 0) }
{
    let byte = tower_byte(constant);
    words ^ u8x16::from_array([byte, 0, 0, 0, 0, 0, 0, 0, 0, 0, 0, 0, 0, 0, 0, 0])
}

// Returns four words as they are stored for round key `i`, of those from 0 to a last one.
#[inline(always)]
fn stored_key(words: u8x16, i: usize, last: usize) -> u8x16
    requires { 1 ≤ last }
    ensures first { i ≡ 0 → result ≡ map untower words }
    ensures between { 1 ≤ i → i < last
        → fips.shift_times (i % 4) (map key_untower result) ≡ map untower words }
    ensures at_last { i ≡ last → map plus63 result ≡ map untower words }
{
    if i == 0 {
        return out_of_tower(words);
    }
    if i == last {
        // Like the round keys between, the last one contains the constant of the S-box. But it
        // isn't in the tower basis.
        return plain_key(words);
    }
    encrypting_key(words, i)
}

// The schedule of Cipher in vectors. One vector has four words, in the tower basis.
struct LaneKeys;

impl FourWords for LaneKeys {
    type Words = u8x16;

    type StoredIn = Block;

    ghost AreWords = { λ words block. map untower words ≡ block };

    ghost IsStored = { IsWritten };

    ghost length_for = { λ last. last + 1 };

    ghost LAYERS = { 0 };

    #[inline(always)]
    fn load(key: &[u8], from: usize) -> u8x16 {
        into_tower(u8x16::from_array(*key[from..from + 16].as_array::<16>().unwrap()))
    }

    #[inline(always)]
    fn rotated(before: u8x16, last: u8x16, constant: u8, _layers: &mut Layers) -> u8x16 {
        // The rotation comes first. Otherwise LLVM rotates both look-ups of a sum, one by one.
        let word = last.swizzle([
            13, 14, 15, 12, 13, 14, 15, 12, 13, 14, 15, 12, 13, 14, 15, 12,
        ]);
        let start = sub_bytes_but_constant(word);
        summed_columns(with_constant(before, constant), start, u8x16::splat(0x6e))
    }

    #[inline(always)]
    fn substituted(before: u8x16, last: u8x16, _layers: &mut Layers) -> u8x16 {
        let word = last.swizzle([
            12, 13, 14, 15, 12, 13, 14, 15, 12, 13, 14, 15, 12, 13, 14, 15,
        ]);
        summed_columns(before, sub_bytes_but_constant(word), u8x16::splat(0x6e))
    }

    #[inline(always)]
    fn plain(before: u8x16, last: u8x16) -> u8x16 {
        let start = last.swizzle([4, 5, 6, 7, 4, 5, 6, 7, 4, 5, 6, 7, 4, 5, 6, 7]);
        summed_columns(before, start, u8x16::splat(0))
    }

    #[tactic(auto, using(crate::proofs::ExpandedLanes::straddled_is))]
    #[inline(always)]
    fn straddled(left: u8x16, right: u8x16) -> u8x16 {
        left.shuffle(
            right,
            [8, 9, 10, 11, 12, 13, 14, 15, 16, 17, 18, 19, 20, 21, 22, 23],
        )
    }

    #[inline(always)]
    fn read_back(_stored: &[Block], _i: usize, _last: usize, words: u8x16) -> u8x16 {
        words
    }

    #[inline(always)]
    fn store(stored: &mut [Block], i: usize, last: usize, words: u8x16) {
        let key = stored_key(words, i, last);
        stored[i] = key.to_array();
    }
}

/// Writes the round keys of a key of any size as Cipher uses them: KeyExpansion (FIPS 197, 5.2).
pub fn expand_lanes(keys: &mut [Block], key: &[u8])
    requires one_of_three { IsKeySize (length key.now) }
    requires sized { length keys.old ≡ length key.now / 4 + 7 }
    ensures schedule { IsCipherSchedule keys.new }
    ensures key { key_of_lanes keys.new ≡ key.now }
    ensures keys { encrypting keys.new ≡ fips.key_expansion key.now }
    ensures same_length { length keys.new ≡ length keys.old }
{
    expansion::expand::<LaneKeys>(keys, key, &mut Layers::new());
}

/// Writes the stored round keys of EqInvCipher, in their order of use, for the key of Cipher's
/// round keys (FIPS 197, 5.3.5). The first is Cipher's last one, and the last is Cipher's first
/// one.
pub fn invert_lanes(inverse: &mut [Block], keys: &[Block])
    requires two { 2 ≤ length keys.now }
    requires sized { length inverse.old ≡ length keys.now }
    ensures keys { AreInverse inverse.new keys.now }
    ensures same_length { length inverse.new ≡ length inverse.old }
{
    // Each is written once, in its place. To reverse a list in place would leave a round key on the
    // stack.
    let last = keys.len() - 1;
    'keys: for i in 1..last {
        let key = keys[last - i];
        laws::block_has_16_bytes(key);
        inverse[i] = inverted_key(u8x16::from_array(key), i, last).to_array();
    }
    inverse[0] = keys[last];
    inverse[last] = keys[0];
}

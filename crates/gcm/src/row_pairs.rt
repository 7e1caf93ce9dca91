//! Two rows in one vector of 32 bytes, one in each half. The lower half has the first sixteen
//! bytes. On a processor without such vectors, each half is a vector of its own.

ghost use Rattle.std.specs.Prelude.{◌≡◌, ◌+◌, ◌*◌, ◌/◌, ◌%◌, ◌^◌, ◌∷◌, ◌++◌, ℕ, List, take, drop};
ghost use Rattle.std.specs.Prelude.{map, length, slice_index};
ghost use Rattle.std.specs.Int.{w128, from_be_bytes};
ghost use Rattle.aes_permute.specs.Lookup.{looked, low_nibble, high_nibble, AreIndices};

use aes_permute::halves::{joined, twice};
use std::simd::prelude::*;

/// Returns the low nibble of each byte of a block, in both halves.
#[inline(always)]
pub(crate) fn low_nibbles_twice(x: u8x16) -> u8x32
    ensures nibbles { result ≡ map low_nibble x ++ map low_nibble x }
    ensures places { AreIndices result }
{
    twice(x) & u8x32::splat(15)
}

/// Returns the high nibble of each byte of a block, in both halves.
#[inline(always)]
pub(crate) fn high_nibbles_twice(x: u8x16) -> u8x32
    ensures nibbles { result ≡ map high_nibble x ++ map high_nibble x }
    ensures places { AreIndices result }
{
    twice(x) >> u8x32::splat(4)
}

/// Returns the entry of a table at each place of the lower half, and of another at those of the
/// upper half.
#[tactic(auto, using(aes_permute::proofs::ByHalves::indices_in_halves))]
#[inline(always)]
pub(crate) fn lookup_in_halves(first: [u8; 16], second: [u8; 16], places: u8x32) -> u8x32
    requires { AreIndices places }
    ensures { (p q : List ℕ) → length p ≡ 16 → length q ≡ 16 → places ≡ p ++ q
        → result ≡ map (looked first) p ++ map (looked second) q }
{
    joined(u8x16::from_array(first), u8x16::from_array(second)).swizzle_dyn_within::<16>(places)
}

/// Returns the first bytes of each half, after a byte 0.
#[inline(always)]
pub(crate) fn after_zeros(x: u8x32) -> u8x32
    ensures lower { take 16 result ≡ 0 ∷ take 15 (take 16 x) }
    ensures upper { drop 16 result ≡ 0 ∷ take 15 (drop 16 x) }
{
    u8x32::splat(0).shuffle(
        x,
        [
            0, 32, 33, 34, 35, 36, 37, 38, 39, 40, 41, 42, 43, 44, 45, 46, 16, 48, 49, 50, 51, 52,
            53, 54, 55, 56, 57, 58, 59, 60, 61, 62,
        ],
    )
}

/// Returns the first bytes of each half, after the last of another vector's half.
#[inline(always)]
pub(crate) fn after_lasts(x: u8x32, y: u8x32) -> u8x32
    ensures lower { take 16 result ≡ slice_index (take 16 x) 15 ∷ take 15 (take 16 y) }
    ensures upper { drop 16 result ≡ slice_index (drop 16 x) 15 ∷ take 15 (drop 16 y) }
{
    x.shuffle(
        y,
        [
            15, 32, 33, 34, 35, 36, 37, 38, 39, 40, 41, 42, 43, 44, 45, 46, 31, 48, 49, 50, 51, 52,
            53, 54, 55, 56, 57, 58, 59, 60, 61, 62,
        ],
    )
}

/// Returns the first eight bytes of a block, after eight bytes 0.
#[inline(always)]
pub(crate) fn after_eight_zeros(x: u8x16) -> u8x16
    ensures { from_be_bytes w128 result ≡ from_be_bytes w128 x / 2 ^ 64 }
{
    u8x16::splat(0).shuffle(x, [0, 1, 2, 3, 4, 5, 6, 7, 16, 17, 18, 19, 20, 21, 22, 23])
}

/// Returns the first eight bytes of a block, after the last eight of another.
#[inline(always)]
pub(crate) fn after_last_eight(x: u8x16, y: u8x16) -> u8x16
    ensures { from_be_bytes w128 result ≡ from_be_bytes w128 x % 2 ^ 64 * 2 ^ 64
        + from_be_bytes w128 y / 2 ^ 64 }
{
    x.shuffle(
        y,
        [8, 9, 10, 11, 12, 13, 14, 15, 16, 17, 18, 19, 20, 21, 22, 23],
    )
}

//! Two blocks in one vector of 32 bytes. The first is in the lower half. On a processor without
//! such vectors, each half is a vector of its own.

ghost use Rattle.std.specs.Prelude.{◌≡◌, ◌++◌, take, drop, length};
ghost use Rattle.aes_planes.specs.Fips197 as fips;

use std::simd::prelude::*;

/// Returns a block in both halves.
#[tactic(auto, using(crate::proofs::ByHalves::block_in_both_halves))]
#[inline(always)]
pub fn twice(x: u8x16) -> u8x32
    requires { fips.IsBlock x }
    ensures { result ≡ x ++ x }
{
    x.swizzle([
        0, 1, 2, 3, 4, 5, 6, 7, 8, 9, 10, 11, 12, 13, 14, 15, 0, 1, 2, 3, 4, 5, 6, 7, 8, 9, 10, 11,
        12, 13, 14, 15,
    ])
}

/// Returns a block in each half.
#[tactic(auto, using(crate::proofs::ByHalves::both_in_order))]
#[inline(always)]
pub fn joined(lower: u8x16, upper: u8x16) -> u8x32
    requires lower { fips.IsBlock lower }
    requires upper { fips.IsBlock upper }
    ensures { result ≡ lower ++ upper }
{
    lower.shuffle(
        upper,
        [
            0, 1, 2, 3, 4, 5, 6, 7, 8, 9, 10, 11, 12, 13, 14, 15, 16, 17, 18, 19, 20, 21, 22, 23,
            24, 25, 26, 27, 28, 29, 30, 31,
        ],
    )
}

/// Returns the lower half.
#[tactic(auto, using(crate::proofs::ByHalves::picked_halves))]
#[inline(always)]
pub fn lower(x: u8x32) -> u8x16
    requires { length x ≡ 32 }
    ensures { result ≡ take 16 x }
{
    x.swizzle([0, 1, 2, 3, 4, 5, 6, 7, 8, 9, 10, 11, 12, 13, 14, 15])
}

/// Returns the upper half.
#[tactic(auto, using(crate::proofs::ByHalves::picked_halves))]
#[inline(always)]
pub fn upper(x: u8x32) -> u8x16
    requires { length x ≡ 32 }
    ensures { result ≡ drop 16 x }
{
    x.swizzle([
        16, 17, 18, 19, 20, 21, 22, 23, 24, 25, 26, 27, 28, 29, 30, 31,
    ])
}

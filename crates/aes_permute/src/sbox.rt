//! The S-box and its inverse on lanes. Two indices represent the inverse in the field, and tables
//! are read at these indices.

ghost use Rattle.std.specs.Prelude.{◌≡◌, ℕ, map};
ghost use Rattle.std.specs.Simd.Lanes.{zip2};
ghost use Rattle.aes_planes.specs.Fips197 as fips;
ghost use Rattle.aes_planes.specs.Planes.{plus63};
ghost use Rattle.aes_permute.specs.Lookup.{AreIndices};
ghost use Rattle.aes_permute.specs.TwoIndices.{first_of, second_of, at_indices};
ghost use Rattle.aes_permute.specs.Stored.{untower};

use crate::lanes::Lanes;
use crate::tables::{INVERSE, ONE_FIRST, ONE_SECOND, SCALED_INVERSE};
use std::simd::prelude::*;

/// The two indices of an inverse in the field, lane by lane. A linear function of the inverse is
/// the sum of the entries of two tables at these indices.
#[derive(Clone, Copy)]
pub struct TwoIndices<L> {
    /// The index in the first table.
    pub first: L,
    /// The index in the second table.
    pub second: L,
}

/// Returns the indices of the inverses of bytes in the tower basis.
#[inline(always)]
pub fn indices_of<L: Lanes>(x: L) -> TwoIndices<L>
    ensures first { (i : ℕ) → L.block result.first i ≡ map first_of (L.block x i) }
    ensures second { (i : ℕ) → L.block result.second i ≡ map second_of (L.block x i) }
    ensures first_indices { (i : ℕ) → AreIndices (L.block result.first i) }
    ensures second_indices { (i : ℕ) → AreIndices (L.block result.second i) }
{
    x.blocks_have_16_bytes();
    let high = x.high_nibbles();
    let low = x.low_nibbles();
    let both = high.sum(low);
    let scaled = low.lookup(SCALED_INVERSE);
    let high_inverse = high.lookup(INVERSE);
    let both_inverse = both.lookup(INVERSE);
    let over_high = high_inverse.sum(scaled);
    let over_both = both_inverse.sum(scaled);
    let at_high = over_high.lookup(INVERSE);
    let at_both = over_both.lookup(INVERSE);
    let first = at_high.sum(both);
    let second = at_both.sum(high);
    TwoIndices { first, second }
}

/// Returns the sum of the entries of two tables at the indices.
#[inline(always)]
pub fn looked_up<L: Lanes>(at: TwoIndices<L>, first: [u8; 16], second: [u8; 16]) -> L
    requires first_indices { (i : ℕ) → AreIndices (L.block at.first i) }
    requires second_indices { (i : ℕ) → AreIndices (L.block at.second i) }
    ensures { (i : ℕ) → L.block result i ≡ zip2 (at_indices first second) (L.block at.first i)
        (L.block at.second i) }
{
    let by_first = at.first.lookup(first);
    let by_second = at.second.lookup(second);
    by_first.sum(by_second)
}

/// SubBytes of a block in the tower basis, without the constant of the S-box (FIPS 197, 5.1.1).
#[inline(always)]
pub fn sub_bytes_but_constant(x: u8x16) -> u8x16
    requires block { fips.IsBlock x }
    ensures { map untower result ≡ map plus63 (fips.sub_bytes (map untower x)) }
{
    looked_up(indices_of(x), ONE_FIRST, ONE_SECOND)
}

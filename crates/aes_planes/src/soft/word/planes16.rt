//! Packs a block into eight words of sixteen bits, which are gathered from the bits of a vector.

ghost use Rattle.std.specs.Prelude.{◌≡◌, ℕ, ◌+◌, ◌*◌, ◌<◌, [], ◌∷◌, get_or};
ghost use Rattle.aes_planes.specs.Bits.{bit};

use std::simd::prelude::*;

// Four words as one number, the first lowest.
#[tactic(auto, using(crate::proofs::Words::Constants::joined_bit))]
#[inline(always)]
fn joined(w0: u16, w1: u16, w2: u16, w3: u16) -> u64
    ensures { (p i : ℕ) → p < 4 → i < 16 → bit result (16 * p + i)
        ≡ bit (get_or (w0 ∷ w1 ∷ w2 ∷ w3 ∷ []) p 0) i }
{
    w0 as u64 | (w1 as u64) << 16 | (w2 as u64) << 32 | (w3 as u64) << 48
}

// Words as lanes, four at a time: LLVM puts single words into a vector one after the other, which
// takes longer.
#[inline(always)]
pub(super) fn lanes_of(words: &[u16; 8]) -> u16x8
    ensures { (p i : ℕ) → p < 8 → i < 16 → bit (get_or result p 0) i
        ≡ bit (get_or words.now p 0) i }
{
    let [w0, w1, w2, w3, w4, w5, w6, w7] = *words;
    let low = joined(w0, w1, w2, w3);
    let high = joined(w4, w5, w6, w7);
    u16x8::from_le_bytes(u64x2::from_array([low, high]).to_le_bytes())
}

// The bytes of the lanes: first the lower byte of each, and then the upper ones.
#[tactic(auto, using(crate::proofs::Words::PlaneLanes::half_bit))]
#[inline(always)]
pub(super) fn halves_of(x: u16x8) -> u8x16
    ensures { (j r i : ℕ) → j < 2 → r < 8 → i < 8 → bit (get_or result (8 * j + r) 0) i
        ≡ bit (get_or x r 0) (8 * j + i) }
{
    x.to_le_bytes()
        .swizzle([0, 2, 4, 6, 8, 10, 12, 14, 1, 3, 5, 7, 9, 11, 13, 15])
}

// Bit `p` of each of sixteen bytes, as a word.
#[tactic(auto, using(crate::proofs::Words::PlaneLanes::plane_bit))]
#[inline(always)]
pub(super) fn plane_of(bytes: u8x16, p: u32) -> u16
    requires below_8 { p < 8 }
    ensures { (i : ℕ) → i < 16 → bit result i ≡ bit (get_or bytes i 0) p }
{
    let tops = bytes << u8x16::splat((7 - p) as u8);
    (tops.simd_ge(u8x16::splat(128)).to_bitmask() % 0x1_0000) as u16
}

// The planes of sixteen bytes: word `p` has bit `p` of each.
#[inline(always)]
pub(super) fn planes_of(bytes: u8x16) -> [u16; 8]
    ensures { (p i : ℕ) → p < 8 → i < 16 → bit (get_or result p 0) i ≡ bit (get_or bytes i 0) p }
{
    let plane0 = plane_of(bytes, 0);
    let plane1 = plane_of(bytes, 1);
    let plane2 = plane_of(bytes, 2);
    let plane3 = plane_of(bytes, 3);
    let plane4 = plane_of(bytes, 4);
    let plane5 = plane_of(bytes, 5);
    let plane6 = plane_of(bytes, 6);
    let plane7 = plane_of(bytes, 7);
    [
        plane0, plane1, plane2, plane3, plane4, plane5, plane6, plane7,
    ]
}

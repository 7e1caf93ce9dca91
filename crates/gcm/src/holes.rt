//! Products with a block H by products of numbers with holes between their bits. They are for
//! processors without a byte shuffle. The lower half of a product of two words has to take the same
//! time for all words. No table is used, and no branch and no address depends on a secret.

ghost use Rattle.std.specs.Prelude.{◌≡◌, ◌*◌, ◌+◌, ◌%◌, ◌^◌};
ghost use Rattle.gcm.specs.Gcm.{product};
ghost use Rattle.gcm.specs.Carryless.{carryless};

use crate::numbers::number_of;
use crate::single_blocks::Factor;
use std::simd::prelude::*;

// Every fourth bit of a word, from bit 0, 1, 2 or 3 on.
const FOURTHS_0: u32 = 0x1111_1111;

const FOURTHS_1: u32 = 0x2222_2222;

const FOURTHS_2: u32 = 0x4444_4444;

const FOURTHS_3: u32 = 0x8888_8888;

// The lower half of the product of two words without carries. Each factor has every fourth bit
// alone. So at most eight bits are summed to a place of a product, and no carry reaches the next
// place, four bits on.
#[inline(always)]
fn lower_product(x: u32, y: u32) -> u32
    ensures { result ≡ carryless 32 x y % 2 ^ 32 }
{
    let (x0, x1, x2, x3) = (x & FOURTHS_0, x & FOURTHS_1, x & FOURTHS_2, x & FOURTHS_3);
    let (y0, y1, y2, y3) = (y & FOURTHS_0, y & FOURTHS_1, y & FOURTHS_2, y & FOURTHS_3);
    let z0 = x0.wrapping_mul(y0) ^ x1.wrapping_mul(y3) ^ x2.wrapping_mul(y2) ^ x3.wrapping_mul(y1);
    let z1 = x0.wrapping_mul(y1) ^ x1.wrapping_mul(y0) ^ x2.wrapping_mul(y3) ^ x3.wrapping_mul(y2);
    let z2 = x0.wrapping_mul(y2) ^ x1.wrapping_mul(y1) ^ x2.wrapping_mul(y0) ^ x3.wrapping_mul(y3);
    let z3 = x0.wrapping_mul(y3) ^ x1.wrapping_mul(y2) ^ x2.wrapping_mul(y1) ^ x3.wrapping_mul(y0);
    z0 & FOURTHS_0 ^ z1 & FOURTHS_1 ^ z2 & FOURTHS_2 ^ z3 & FOURTHS_3
}

// The product of two words without carries. Reversed words have the reversed product, of 63 bits,
// since there are no carries. So the upper half comes from the lower half of that product.
#[inline(never)]
fn product_of_words(x: u32, y: u32) -> u64
    ensures { result ≡ carryless 32 x y }
{
    let lower = lower_product(x, y);
    let mirrored = lower_product(x.reverse_bits(), y.reverse_bits());
    let upper = mirrored.reverse_bits() >> 1;
    (upper as u64) << 32 ^ lower as u64
}

// The product of two numbers of 64 bits without carries, by three products of halves.
#[inline(always)]
fn product_of_pairs(x: u64, y: u64) -> u128
    ensures { result ≡ carryless 64 x y }
{
    let (x0, x1) = ((x % (1 << 32)) as u32, (x >> 32) as u32);
    let (y0, y1) = ((y % (1 << 32)) as u32, (y >> 32) as u32);
    let low = product_of_words(x0, y0);
    let high = product_of_words(x1, y1);
    let middle = product_of_words(x0 ^ x1, y0 ^ y1) ^ low ^ high;
    (high as u128) << 64 ^ (middle as u128) << 32 ^ low as u128
}

// The product of two blocks as numbers, without carries: its upper and its lower 128 bits.
#[inline(always)]
fn product_of_numbers(x: u128, y: u128) -> (u128, u128)
    ensures { result.0 * 2 ^ 128 + result.1 ≡ carryless 128 x y }
{
    let (x0, x1) = ((x % (1 << 64)) as u64, (x >> 64) as u64);
    let (y0, y1) = ((y % (1 << 64)) as u64, (y >> 64) as u64);
    let low = product_of_pairs(x0, y0);
    let high = product_of_pairs(x1, y1);
    let middle = product_of_pairs(x0 ^ x1, y0 ^ y1) ^ low ^ high;
    (high ^ middle >> 64, low ^ middle << 64)
}

/// Returns the product of two blocks (6.3). A block has its bits in the reverse order of a number,
/// so the product as numbers is doubled. What falls out is added, by x^128 = 1 + x + x^2 + x^7.
/// Before that, the bits that fall out of this addition are added to what fell out.
#[inline(never)]
pub fn product_with_holes(x: u128, h: u128) -> u128
    ensures { result ≡ product x h }
{
    let (high, low) = product_of_numbers(x, h);
    let kept = high << 1 ^ low >> 127;
    let fallen = low << 1;
    let all = fallen ^ fallen << 127 ^ fallen << 126 ^ fallen << 121;
    kept ^ (all ^ all >> 1 ^ all >> 2 ^ all >> 7)
}

/// The block H, which is multiplied by products of numbers with holes between their bits.
#[derive(Drop)]
pub struct FactorWithHoles {
    pub h: u128,
}

impl Factor for FactorWithHoles {
    type Value = u128;

    ghost number = { λ value. value };

    ghost subkey = { λ factor. factor.h };

    #[inline(always)]
    fn hash_block(&self, value: u128, block: u8x16) -> u128 {
        product_with_holes(value ^ number_of(block), self.h)
    }
}

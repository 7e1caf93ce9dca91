//! Products with a block H, bit by bit, as the standard has them. They are for processors without a
//! byte shuffle, where a look-up in a table needs an address that depends on a secret. Here no
//! table is used, and no branch and no address depends on a secret.

ghost use Rattle.std.specs.Prelude.{◌≡◌};
ghost use Rattle.gcm.specs.Gcm.{product};

use crate::field::{if_one, next_v};
use crate::numbers::number_of;
use crate::single_blocks::Factor;
use std::simd::prelude::*;

/// Returns the product of two blocks (6.3, algorithm 1). Where a bit of the other block is 1, V_i
/// of H is added. A mask does this for each bit.
#[inline(never)]
pub fn product_bitwise(x: u128, h: u128) -> u128
    ensures { result ≡ product x h }
{
    let mut z = 0;
    let mut v = h;
    let mut left = x;
    for i in 0..128u32 {
        z ^= if_one(left >> 127, v);
        v = next_v(v);
        left <<= 1;
    }
    z
}

/// The block H, which is multiplied bit by bit, with masks.
#[derive(Drop)]
pub struct BitwiseFactor {
    pub h: u128,
}

impl Factor for BitwiseFactor {
    type Value = u128;

    ghost number = { λ value. value };

    ghost subkey = { λ factor. factor.h };

    #[inline(always)]
    fn hash_block(&self, value: u128, block: u8x16) -> u128 {
        product_bitwise(value ^ number_of(block), self.h)
    }
}

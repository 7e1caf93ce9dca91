//! GHASH block by block. Each block is added to the value, and the sum is multiplied by H.

ghost use Rattle.std.specs.Prelude.{◌≡◌, ℕ, ◌/◌, length};
ghost use Rattle.std.specs.Int.{w128, from_be_bytes};
ghost use Rattle.std.specs.Int.Bits.{bit_xor};
ghost use Rattle.aes_cipher.specs.Blocks.{padded};
ghost use Rattle.gcm.specs.Gcm.{hashed, product};
ghost use Rattle.gcm.specs.Hashed.{hashed_as};

use crate::byte_order::{ByteOrder, HighestFirst};
use crate::hash::{block_at, last_block};
use aes_cipher::cipher::Block;
use std::simd::prelude::*;

/// The block H, in a form that multiplies a block by it.
pub trait Factor {
    /// A value of GHASH, in the form in which products are made.
    type Value: Copy;

    /// The number that a value stands for.
    ghost number: { Self.Value → ℕ };

    /// The block H.
    ghost subkey: { Self → ℕ };

    /// Returns the product of H and the sum of a value and a block (6.4, step 3). No branch and no
    /// address depends on any of them.
    fn hash_block(&self, value: Self::Value, block: u8x16) -> Self::Value
        ensures { number result
            ≡ product (bit_xor (number value) (from_be_bytes w128 block)) (subkey self.now) };
}

// The value after the whole blocks of a string (6.4).
#[tactic(auto, using(crate::proofs::Messages::Hashing::hashed_next))]
#[inline(always)]
pub(crate) fn hash_whole<F: Factor, O: ByteOrder>(
    factor: &F,
    value: F::Value,
    bytes: &[u8],
) -> F::Value
    ensures { F.number result ≡ hashed_as O.number (F.subkey factor.now) (F.number value) bytes.now
        (length bytes.now / 16) }
{
    let mut hashed = value;
    for i in 0..bytes.len() / 16 {
        hashed = factor.hash_block(hashed, block_at::<O>(bytes, i));
    }
    hashed
}

/// Returns the value after more bytes, followed by zeros that fill the last block. For a few
/// blocks this is quicker than `hash_string`, since it takes time to compute the multiples of H's
/// powers.
pub fn hash_singly<F: Factor, O: ByteOrder>(factor: &F, value: F::Value, bytes: &[u8]) -> F::Value
    ensures { F.number result ≡ hashed_as O.number (F.subkey factor.now) (F.number value)
        (padded bytes.now) (length (padded bytes.now) / 16) }
{
    let hashed = hash_whole::<F, O>(factor, value, bytes);
    let over = bytes.len() % 16;
    if over == 0 {
        return hashed;
    }
    factor.hash_block(hashed, last_block::<O>(&bytes[bytes.len() - over..]))
}

/// Returns the value after more bytes in GCM's order, followed by zeros that fill the last block.
#[inline(always)]
pub(crate) fn hash_on_singly<F: Factor>(factor: &F, value: F::Value, bytes: &[u8]) -> F::Value
    ensures { F.number result ≡ hashed (F.subkey factor.now) (F.number value) (padded bytes.now)
        (length (padded bytes.now) / 16) }
{
    hash_singly::<F, HighestFirst>(factor, value, bytes)
}

/// Returns the value after more bytes in GCM's order, followed by zeros that fill the last block,
/// and one block more.
#[inline(always)]
pub(crate) fn hash_to_end_singly<F: Factor>(
    factor: &F,
    value: F::Value,
    bytes: &[u8],
    end: &Block,
) -> F::Value
    ensures { let before = hashed (F.subkey factor.now) (F.number value) (padded bytes.now)
        (length (padded bytes.now) / 16) in
        F.number result ≡ product (bit_xor before (from_be_bytes w128 end.now))
        (F.subkey factor.now) }
{
    factor.hash_block(
        hash_on_singly::<F>(factor, value, bytes),
        u8x16::from_array(*end),
    )
}

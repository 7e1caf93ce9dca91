//! POLYVAL (RFC 8452, 3), by products of GCM's field.

ghost use Rattle.std.specs.Prelude.{◌≡◌, ℕ, List, ◌*◌, ◌^◌, ◌<◌, ◌≤◌, ◌++◌, length};
ghost use Rattle.std.specs.Int.{w64, w128, to_le_bytes, from_le_bytes, from_be_bytes};
ghost use Rattle.gcm.specs.Gcm.{next_v};
ghost use Rattle.gcm_siv.specs.GcmSiv.{hash, length_block};

use aes_cipher::blocks::{block_of_halves, number_of_block};
use aes_cipher::cipher::Block;
use gcm::{
    BitwiseFactor, ByteOrder, Factor, FactorWithHoles, Multiples, MultiplesRoom, ProductRoom,
    SubkeyRoom, SubkeyWordsRoom, Table, TableRoom, hash_singly, hash_string, hash_string_and_end,
    number_of_words,
};
use std::simd::prelude::*;

// POLYVAL's order: the lowest byte is the first (appendix A).
struct LowestFirst;

impl ByteOrder for LowestFirst {
    ghost number = { from_le_bytes w128 };

    #[inline(always)]
    fn highest_first(block: u8x16) -> u8x16 {
        block.reverse()
    }
}

// The last block that is hashed: two lengths, in bits.
fn lengths_of(first: u64, second: u64) -> Block
    requires first { first ≤ 2 ^ 36 }
    requires second { second ≤ 2 ^ 36 }
    ensures { result ≡ to_le_bytes w64 (8 * first) ++ to_le_bytes w64 (8 * second) }
{
    block_of_halves(&(8 * first).to_le_bytes(), &(8 * second).to_le_bytes())
}

// The last block that is hashed of additional data and a text, its highest byte first.
#[tactic(auto, unfolding(crate::specs::GcmSiv::length_block))]
fn last_block(additional: &[u8], text: &[u8]) -> u8x16
    requires additional { length additional.now ≤ 2 ^ 36 }
    requires text { length text.now ≤ 2 ^ 36 }
    ensures { from_be_bytes w128 result ≡ from_le_bytes w128
        (length_block additional.now text.now) }
{
    let lengths = lengths_of(additional.len() as u64, text.len() as u64);
    LowestFirst::highest_first(u8x16::from_array(lengths))
}

// The block that a number of GCM's field stands for. Its bytes are in the reverse order.
fn bytes_of(value: u8x16) -> Block
    ensures { result ≡ to_le_bytes w128 (from_be_bytes w128 value) }
{
    number_of_block(&value.to_array()).to_le_bytes()
}

/// Room with which POLYVAL is computed, made for the authentication key times x^-1.
pub trait PolyvalRoom: ProductRoom {
    /// Returns S_s of additional data and a text.
    fn hash(&self, additional: &[u8], text: &[u8]) -> Block
        requires made { Self.IsMade self.now }
        requires additional { length additional.now ≤ 2 ^ 36 }
        requires text { length text.now ≤ 2 ^ 36 }
        ensures { (h : ℕ) → h < 2 ^ 128 → Self.subkey self.now ≡ next_v h
            → result ≡ to_le_bytes w128 (hash h additional.now text.now) };
}

// S_s of additional data and a text, block by block.
fn hash_by<F: Factor>(factor: &F, zero: F::Value, additional: &[u8], text: &[u8]) -> F::Value
    requires zero { F.number zero ≡ 0 }
    requires additional { length additional.now ≤ 2 ^ 36 }
    requires text { length text.now ≤ 2 ^ 36 }
    ensures { (h : ℕ) → h < 2 ^ 128 → F.subkey factor.now ≡ next_v h
        → F.number result ≡ hash h additional.now text.now }
{
    let first = hash_singly::<F, LowestFirst>(factor, zero, additional);
    let second = hash_singly::<F, LowestFirst>(factor, first, text);
    factor.hash_block(second, last_block(additional, text))
}

// Room for a few blocks: multiples of the factor alone.
impl PolyvalRoom for TableRoom {
    fn hash(&self, additional: &[u8], text: &[u8]) -> Block {
        let zero = u8x16::splat(0);
        bytes_of(hash_by(&Table::new(self), zero, additional, text))
    }
}

// Room for many blocks. It also has multiples of the factor's square and cube, so that three blocks
// are hashed at once.
impl PolyvalRoom for MultiplesRoom {
    fn hash(&self, additional: &[u8], text: &[u8]) -> Block {
        let multiples = Multiples::new(self);
        let value = hash_string::<LowestFirst>(&multiples, u8x16::splat(0), additional);
        let end = last_block(additional, text);
        bytes_of(hash_string_and_end::<LowestFirst>(&multiples, value, text, end))
    }
}

// Room for a processor without a byte shuffle: the factor alone, and products bit by bit.
impl PolyvalRoom for SubkeyRoom {
    fn hash(&self, additional: &[u8], text: &[u8]) -> Block {
        let h = number_of_block(&self[0]);
        hash_by(&BitwiseFactor { h }, 0, additional, text).to_le_bytes()
    }
}

// Room for a processor without a byte shuffle: the factor alone, and products with holes between
// the bits.
impl PolyvalRoom for SubkeyWordsRoom {
    fn hash(&self, additional: &[u8], text: &[u8]) -> Block {
        let h = number_of_words(self);
        hash_by(&FactorWithHoles { h }, 0, additional, text).to_le_bytes()
    }
}

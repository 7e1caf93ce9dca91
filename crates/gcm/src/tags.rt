//! What a tag is made of: the hash of a message and a mask (7.1, steps 4 to 6).

ghost use Rattle.std.specs.Prelude.{◌≡◌, ℕ, List, ◌↔◌, ◌*◌, ◌++◌, length, IsTrue};
ghost use Rattle.std.specs.Int.{w64, w128, to_be_bytes, from_be_bytes};
ghost use Rattle.std.specs.Int.Bits.{bit_xor};
ghost use Rattle.aes_planes.specs.Fips197 as fips;
ghost use Rattle.gcm.specs.Gcm as nist;
ghost use Rattle.gcm.specs.Gcm.{HasFixedLength, IsHashedLength, IsTextLength};

use crate::hash_room::{BorrowedRoom, HashRoom, hash_on, hash_to_end};
use aes_cipher::blocks::{
    block_of_halves, block_of_number, blocks_equal, number_of_block, sum_of_blocks,
};
use aes_cipher::cipher::{Block, BlockCipherEncrypt};

// The last block that is hashed: two lengths, in bits.
fn lengths_of(first: u64, second: u64) -> Block
    requires first { IsHashedLength first }
    requires second { IsHashedLength second }
    ensures { result ≡ to_be_bytes w64 (8 * first) ++ to_be_bytes w64 (8 * second) }
{
    block_of_halves(&(8 * first).to_be_bytes(), &(8 * second).to_be_bytes())
}

// The value of GHASH after the block of two lengths.
pub(crate) fn hash_lengths<R: HashRoom>(
    room: &BorrowedRoom<R>,
    value: u128,
    first: u64,
    second: u64,
) -> u128
    requires first { IsHashedLength first }
    requires second { IsHashedLength second }
    ensures { result ≡ nist.product (bit_xor value
        (from_be_bytes w128 (to_be_bytes w64 (8 * first) ++ to_be_bytes w64 (8 * second))))
        room.now }
{
    room.product(value ^ number_of_block(&lengths_of(first, second)))
}

// S of additional data and a cipher text (7.1, steps 4 and 5).
pub(crate) fn hash<R: HashRoom>(room: &BorrowedRoom<R>, additional: &[u8], text: &[u8]) -> u128
    requires additional { IsHashedLength (length additional.now) }
    requires text { IsTextLength (length text.now) }
    ensures { result ≡ nist.hash room.now additional.now text.now }
{
    let value = hash_on(room, 0, additional);
    let lengths = lengths_of(additional.len() as u64, text.len() as u64);
    hash_to_end(room, value, text, &lengths)
}

// Writes the encryption of a counter block, which masks a tag. The hash for the tag is computed
// after it and added at once: a compiler may leave on the stack what is known during a call.
pub(crate) fn put_mask<C: BlockCipherEncrypt>(cipher: &C, first: &Block, mask: &mut Block)
    ensures { mask.new ≡ fips.cipher_with (C.round_keys cipher.now)
        (to_be_bytes w128 (from_be_bytes w128 first.now)) }
{
    // No effect: it states that the block is that of its number.
    number_of_block(first);
    *mask = *first;
    cipher.encrypt_block(mask);
}

// Adds a block to the mask of a tag. The result is GCTR of the block (7.1, step 6).
pub(crate) fn add_masked(block: u128, sum: &mut Block)
    ensures { (w : List (List ℕ)) (first : ℕ)
        → sum.old ≡ fips.cipher_with w (to_be_bytes w128 first)
        → sum.new ≡ nist.gctr w first (to_be_bytes w128 block) }
{
    *sum = sum_of_blocks(&block_of_number(block), sum);
}

/// Whether a claimed tag is the expected one, without an early exit. Inlined, since it only makes a
/// call: one more frame between would hold what the caller's registers had.
#[inline(always)]
pub(crate) fn is_expected(claimed: &Block, expected: &Block) -> bool
    ensures { IsTrue result ↔ (claimed.now ≡ expected.now) }
{
    blocks_equal(claimed, expected)
}

/// Returns whether a tag has a length that a short tag may have, which is 4, 8 or 12 to 15, and has
/// this length (5.2.1.2).
pub fn is_short_tag(fixed_length: usize, tag: &[u8]) -> bool
    ensures { IsTrue result ↔ HasFixedLength fixed_length tag.now }
{
    let is_short = fixed_length == 4
        || fixed_length == 8
        || (12 <= fixed_length && fixed_length <= 15);
    is_short && tag.len() == fixed_length
}

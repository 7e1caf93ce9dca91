//! Room for what GHASH needs of a block H, and GHASH over it. On a processor with a byte shuffle
//! this is tables of H's multiples, and else H alone.

ghost use Rattle.std.specs.Prelude.{◌≡◌, ℕ, List, ◌/◌, ◌%◌, ◌<◌, ◌++◌, length};
ghost use Rattle.gcm.specs.Pieces.{IsHashing};
ghost use Rattle.std.specs.Int.{w128, from_be_bytes};
ghost use Rattle.std.specs.Int.Bits.{bit_xor};
ghost use Rattle.aes_cipher.specs.Blocks.{padded};
ghost use Rattle.gcm.specs.Gcm.{hashed, product};
ghost use Rattle.gcm.specs.Multiples.{subkey_in, HasMultiples, IsTable, subkey_alone, IsAlone};
ghost use Rattle.gcm.specs.Multiples.{subkey_of_words, AreSubkeyWords};

use crate::bitwise::{BitwiseFactor, product_bitwise};
use crate::byte_order::HighestFirst;
use crate::hash::{hash_string, hash_string_and_end};
use crate::holes::{FactorWithHoles, product_with_holes};
use crate::multiples::{Multiples, MultiplesRoom, TableRoom, put_multiples, put_one_table};
use crate::numbers::{number_of, vector_of};
use crate::single_blocks::{hash_on_singly, hash_to_end_singly};
use crate::words::{number_of_words, words_of};
use aes_cipher::blocks::{block_of_number, number_of_block};
use aes_cipher::cipher::Block;
use aes_cipher::zeroize::Zeroize;
use std::marker::Model;
use std::simd::prelude::*;

/// Room for what products with a block need. The block is H of GHASH, or a factor of POLYVAL. The
/// room is as secret as the block.
pub trait ProductRoom: Zeroize {
    /// The room has what products with the block need.
    ghost IsMade: { Self → Type 0 };

    /// The block.
    ghost subkey: { Self → ℕ };

    /// Writes what products with `h` need.
    fn put(&mut self, h: u128)
        ensures made { IsMade self.new }
        ensures subkey { subkey self.new ≡ h };
}

/// Room with which GHASH is computed.
pub trait HashRoom: ProductRoom {
    /// Returns the product of a block and H (6.3). No branch and no address depends on either.
    fn product(&self, x: u128) -> u128
        requires { Self.IsMade self.now }
        ensures { result ≡ product x (Self.subkey self.now) };

    /// Returns the value of GHASH after more bytes, followed by zeros that fill the last block.
    fn hash_on(&self, value: u128, bytes: &[u8]) -> u128
        requires { Self.IsMade self.now }
        ensures { result ≡ hashed (Self.subkey self.now) value (padded bytes.now)
            (length (padded bytes.now) / 16) };

    /// Returns the value of GHASH after more bytes, followed by zeros that fill the last block, and
    /// one block more.
    fn hash_to_end(&self, value: u128, bytes: &[u8], end: &Block) -> u128
        requires { Self.IsMade self.now }
        ensures { let before =
            hashed (Self.subkey self.now) value (padded bytes.now) (length (padded bytes.now) / 16) in
            result ≡ product (bit_xor before (from_be_bytes w128 end.now)) (Self.subkey self.now) };
}

// Multiples of a block, which byte shuffles look up: for few products.
impl ProductRoom for TableRoom {
    ghost IsMade = { IsTable };

    ghost subkey = { subkey_in };

    #[inline(always)]
    fn put(&mut self, h: u128) {
        put_one_table(self, h);
    }
}

// Multiples of the block, of its square and of its cube. So three blocks are hashed at once.
impl ProductRoom for MultiplesRoom {
    ghost IsMade = { HasMultiples };

    ghost subkey = { subkey_in };

    #[inline(always)]
    fn put(&mut self, h: u128) {
        put_multiples(self, h);
    }
}

impl HashRoom for MultiplesRoom {
    #[inline(always)]
    fn product(&self, x: u128) -> u128 {
        number_of(Multiples::new(self).block_product(vector_of(x)))
    }

    fn hash_on(&self, value: u128, bytes: &[u8]) -> u128 {
        let multiples = Multiples::new(self);
        number_of(hash_string::<HighestFirst>(&multiples, vector_of(value), bytes))
    }

    fn hash_to_end(&self, value: u128, bytes: &[u8], end: &Block) -> u128 {
        let multiples = Multiples::new(self);
        let value = vector_of(value);
        let end = u8x16::from_array(*end);
        number_of(hash_string_and_end::<HighestFirst>(&multiples, value, bytes, end))
    }
}

/// Room for H alone.
pub type SubkeyRoom = [Block; 1];

impl ProductRoom for SubkeyRoom {
    ghost IsMade = { IsAlone };

    ghost subkey = { subkey_alone };

    #[inline(always)]
    fn put(&mut self, h: u128) {
        self[0] = block_of_number(h);
    }
}

// Products are made bit by bit.
impl HashRoom for SubkeyRoom {
    #[inline(always)]
    fn product(&self, x: u128) -> u128 {
        product_bitwise(x, number_of_block(&self[0]))
    }

    #[inline(always)]
    fn hash_on(&self, value: u128, bytes: &[u8]) -> u128 {
        let h = number_of_block(&self[0]);
        hash_on_singly(&BitwiseFactor { h }, value, bytes)
    }

    #[inline(always)]
    fn hash_to_end(&self, value: u128, bytes: &[u8], end: &Block) -> u128 {
        let h = number_of_block(&self[0]);
        hash_to_end_singly(&BitwiseFactor { h }, value, bytes, end)
    }
}

/// Room for H alone, as four words.
pub type SubkeyWordsRoom = [u32; 4];

impl ProductRoom for SubkeyWordsRoom {
    ghost IsMade = { AreSubkeyWords };

    ghost subkey = { subkey_of_words };

    #[inline(always)]
    fn put(&mut self, h: u128) {
        *self = words_of(h);
    }
}

// Products are made with holes between the bits.
impl HashRoom for SubkeyWordsRoom {
    #[inline(always)]
    fn product(&self, x: u128) -> u128 {
        product_with_holes(x, number_of_words(self))
    }

    #[inline(always)]
    fn hash_on(&self, value: u128, bytes: &[u8]) -> u128 {
        let h = number_of_words(self);
        hash_on_singly(&FactorWithHoles { h }, value, bytes)
    }

    #[inline(always)]
    fn hash_to_end(&self, value: u128, bytes: &[u8], end: &Block) -> u128 {
        let h = number_of_words(self);
        hash_to_end_singly(&FactorWithHoles { h }, value, bytes, end)
    }
}

/// What products with a block H need, in room that is lent. Contracts see a value as H.
#[derive(Drop)]
pub struct BorrowedRoom<'a, R: HashRoom> {
    borrowed: &'a R,
}

impl<'a, R: HashRoom> Model for BorrowedRoom<'a, R> {
    ghost Value = { ℕ };

    ghost view = { λ room. R.subkey room.borrowed.now };

    ghost invariant = { λ room. R.IsMade room.borrowed.now };
}

impl<'a, R: HashRoom> BorrowedRoom<'a, R> {
    /// Borrows room that was written.
    #[inline(always)]
    pub fn new(room: &'a R) -> BorrowedRoom<'a, R>
        requires { R.IsMade room.now }
        ensures { result ≡ R.subkey room.now }
    {
        BorrowedRoom { borrowed: room }
    }

    /// Returns the product of a block and H (6.3).
    #[inline(always)]
    pub(crate) fn product(&self, x: u128) -> u128
        ensures { result ≡ product x self.now }
    {
        self.borrowed.product(x)
    }
}

/// Returns the value of GHASH after more bytes, followed by zeros that fill the last block.
#[inline(always)]
pub(crate) fn hash_on<R: HashRoom>(room: &BorrowedRoom<R>, value: u128, bytes: &[u8]) -> u128
    ensures { result ≡ hashed room.now value (padded bytes.now)
        (length (padded bytes.now) / 16) }
{
    room.borrowed.hash_on(value, bytes)
}

/// Returns the value of GHASH after more bytes, followed by zeros that fill the last block, and
/// one block more.
#[inline(always)]
pub(crate) fn hash_to_end<R: HashRoom>(
    room: &BorrowedRoom<R>,
    value: u128,
    bytes: &[u8],
    end: &Block,
) -> u128
    ensures { let before =
        hashed room.now value (padded bytes.now) (length (padded bytes.now) / 16) in
        result ≡ product (bit_xor before (from_be_bytes w128 end.now)) room.now }
{
    room.borrowed.hash_to_end(value, bytes, end)
}

/// Adds more bytes of a string to a value of GHASH. `rest_length` bytes of the string are in
/// `rest`, a block that isn't whole yet. Bytes that don't fill a block are left there. This is a
/// call of its own, so that its stack can be wiped, with all that is computed from the value.
#[inline(never)]
pub(crate) fn hash_piece<R: HashRoom>(
    room: &BorrowedRoom<R>,
    value: &mut Block,
    rest: &mut Block,
    rest_length: usize,
    bytes: &[u8],
)
    requires { rest_length < 16 }
    ensures { (y : ℕ) (s : List ℕ) → length s % 16 ≡ rest_length
        → IsHashing room.now y s (from_be_bytes w128 value.old) rest.old
        → IsHashing room.now y (s ++ bytes.now) (from_be_bytes w128 value.new) rest.new }
{
    if bytes.len() < 16 - rest_length {
        rest[rest_length..rest_length + bytes.len()].copy_from_slice(bytes);
        return;
    }
    let before = number_of_block(value);
    let (first, others) = bytes.split_at(16 - rest_length);
    rest[rest_length..].copy_from_slice(first);
    let (whole, last) = others.split_at(others.len() / 16 * 16);
    let sum = room.product(before ^ number_of_block(rest));
    rest[..last.len()].copy_from_slice(last);
    *value = block_of_number(hash_on(room, sum, whole));
}

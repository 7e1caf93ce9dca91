//! The rounds of Cipher and EqInvCipher on lanes, and their round keys. States are kept in the
//! tower basis, and round keys contain the constant of the S-box.

ghost use Rattle.std.specs.Prelude.{◌≡◌, ◌-◌, ◌%◌, ◌≤◌, ℕ, List, true, false, map};
ghost use Rattle.aes_planes.specs.Fips197 as fips;
ghost use Rattle.aes_permute.specs.Keys.{cipher_form, inverse_form};
ghost use Rattle.aes_permute.specs.MixedRows.{mixed_at};
ghost use Rattle.aes_permute.specs.Stored.{untower, inv_untower, decryption_untower};
ghost use Rattle.aes_permute.specs.Stored.{key_untower};

use crate::lane_rounds::LaneRounds;
use crate::lanes::{Lanes, looked_up_by_nibbles};
use crate::sbox::{indices_of, looked_up};
use crate::tables::*;
use aes_cipher::cipher::{Decrypt, Encrypt};
use std::simd::prelude::*;

// Cipher (FIPS 197, 5.1).
impl LaneRounds for Encrypt {
    ghost state_byte = { untower };

    ghost form = { cipher_form };

    ghost BACKWARD = { false };

    const BACKWARD: bool = false;

    #[inline(always)]
    fn add_first_key<L: Lanes>(blocks: L, key: L) -> L {
        blocks.blocks_have_16_bytes();
        key.blocks_have_16_bytes();
        looked_up_by_nibbles(blocks.sum(key), TOWER_LOW, TOWER_HIGH)
    }

    // ShiftRows is left out. Each byte is read where it is.
    #[inline(always)]
    fn round<L: Lanes>(x: L, key: L, number: usize) -> L {
        x.blocks_have_16_bytes();
        key.blocks_have_16_bytes();
        let at = indices_of(x);
        let one = looked_up(at, ONE_FIRST, ONE_SECOND);
        let two = looked_up(at, TWO_FIRST, TWO_SECOND);
        mixed_columns(one, two, key, number)
    }

    #[inline(always)]
    fn last_round<L: Lanes>(x: L, key: L, number: usize) -> L {
        x.blocks_have_16_bytes();
        key.blocks_have_16_bytes();
        let one = looked_up(indices_of(x), SBOX_FIRST, SBOX_SECOND);
        one.permuted(SHIFTED_ROWS[number % 4]).sum(key)
    }

    #[tactic(auto, using(crate::proofs::LaterKeys::cipher_keys_later))]
    fn keys_may_come_later() {}

    #[tactic(auto, using(crate::proofs::DirectionLaws::same_forward))]
    fn rounds_use_every_key() {}

    #[tactic(auto, using(crate::proofs::DirectionLaws::cipher_by_rounds))]
    fn rounds_follow_the_standard() {}
}

// EqInvCipher (FIPS 197, 5.3.5).
impl LaneRounds for Decrypt {
    ghost state_byte = { decryption_untower };

    ghost form = { inverse_form };

    ghost BACKWARD = { true };

    const BACKWARD: bool = true;

    #[inline(always)]
    fn add_first_key<L: Lanes>(blocks: L, key: L) -> L {
        blocks.blocks_have_16_bytes();
        key.blocks_have_16_bytes();
        looked_up_by_nibbles(blocks.sum(key), INV_TOWER_LOW, INV_TOWER_HIGH)
    }

    // InvShiftRows is left out, and each byte is read where it is. k InvShiftRows that are left out
    // are as 4 - k ShiftRows.
    #[inline(always)]
    fn round<L: Lanes>(x: L, key: L, number: usize) -> L {
        x.blocks_have_16_bytes();
        key.blocks_have_16_bytes();
        let at = indices_of(x);
        let by_5 = looked_up(at, INV_5_FIRST, INV_5_SECOND);
        let by_4 = looked_up(at, INV_4_FIRST, INV_4_SECOND);
        let mixed = mixed_back(by_5, by_4, key, 4 - number % 4);
        mixed.blocks_have_16_bytes();
        mixed
    }

    #[inline(always)]
    fn last_round<L: Lanes>(x: L, key: L, number: usize) -> L {
        x.blocks_have_16_bytes();
        key.blocks_have_16_bytes();
        let one = looked_up(indices_of(x), INV_SBOX_FIRST, INV_SBOX_SECOND);
        one.permuted(SHIFTED_ROWS[(4 - number % 4) % 4]).sum(key)
    }

    #[tactic(auto, using(crate::proofs::LaterKeys::inverse_keys_later))]
    fn keys_may_come_later() {}

    #[tactic(auto, using(aes_planes::proofs::Standard::InvertedKeys::inverted_length))]
    fn rounds_use_every_key() {}

    #[tactic(auto, using(crate::proofs::DirectionLaws::inv_cipher_by_rounds))]
    fn rounds_follow_the_standard() {}
}

// MixColumns and AddRoundKey, from each byte and its double (FIPS 197, 5.1.3, 5.1.4). `left_out` says
// how many ShiftRows are left out: the columns are those after them, and the bytes are where they
// were before.
#[inline(always)]
fn mixed_columns<L: Lanes>(one: L, two: L, key: L, left_out: usize) -> L
    ensures { (i : ℕ) → L.block result i
        ≡ mixed_at (left_out % 4) (L.block one i) (L.block two i) (L.block key i) }
{
    // The double of each byte plus the byte of the next row. One row further on, these sums have the
    // other part of the product with 3.
    let next = one.permuted(NEXT_ROW[left_out % 4]);
    let pairs = two.sum(next);
    let second = pairs.permuted(NEXT_ROW[left_out % 4]);
    let fourth = one.permuted(ROW_BEFORE[left_out % 4]);
    let with_key = fourth.sum(key);
    let most = with_key.sum(pairs);
    most.sum(second)
}

// InvMixColumns and AddRoundKey, from the products of each byte with 5 and with 4 (FIPS 197, 5.3.3,
// 5.1.4). InvMixColumns is MixColumns after a matrix whose first row is 5, 0, 4, 0. `left_out` is
// that of `mixed_columns`.
#[inline(always)]
fn mixed_back<L: Lanes>(by_5: L, by_4: L, key: L, left_out: usize) -> L
    ensures { (i : ℕ) (x : List ℕ) → fips.IsBlock x
        → map inv_untower (L.block by_5 i) ≡ map (fips.field_mul 5) x
        → map inv_untower (L.block by_4 i) ≡ map (fips.field_mul 4) x
        → fips.shift_times (left_out % 4) (map decryption_untower (L.block result i))
        ≡ fips.add_round_key (fips.inv_mix_columns (fips.shift_times (left_out % 4) x))
        (fips.shift_times (left_out % 4) (map decryption_untower (L.block key i))) }
{
    by_5.blocks_have_16_bytes();
    by_4.blocks_have_16_bytes();
    key.blocks_have_16_bytes();
    let third = by_4.permuted(NEXT_ROW_BUT_ONE[left_out % 4]);
    let one = by_5.sum(third);
    one.blocks_have_16_bytes();
    let two = looked_up_by_nibbles(one, INV_DOUBLE_LOW, INV_DOUBLE_HIGH);
    mixed_columns(one, two, key, left_out)
}

/// Returns a block in the tower basis.
#[inline(always)]
pub fn into_tower(block: u8x16) -> u8x16
    ensures { map untower result ≡ block }
{
    block.blocks_have_16_bytes();
    looked_up_by_nibbles(block, TOWER_LOW, TOWER_HIGH)
}

/// Returns the block that bytes in the tower basis stand for.
#[inline(always)]
pub fn out_of_tower(x: u8x16) -> u8x16
    ensures { result ≡ map untower x }
{
    looked_up_by_nibbles(x, UNTOWER_LOW, UNTOWER_HIGH)
}

/// Returns what is stored for round key `number` of Cipher, between the first and the last. `key`
/// has it in the tower basis. The rows are shifted back as often as ShiftRows was left out before.
#[inline(always)]
pub fn encrypting_key(key: u8x16, number: usize) -> u8x16
    ensures { fips.shift_times (number % 4) (map key_untower result) ≡ map untower key }
{
    key.blocks_have_16_bytes();
    // 0x6e is 0x63 in the tower basis.
    key.permuted(SHIFTED_ROWS[(4 - number % 4) % 4]) ^ u8x16::splat(0x6e)
}

/// Returns InvMixColumns of a round key of Cipher, in the basis of EqInvCipher (FIPS 197, 5.3.5).
/// `number` is its number in Cipher, and its rows stay shifted back so often.
#[inline(always)]
pub fn decrypting_key(key: u8x16, number: usize) -> u8x16
    requires { fips.IsBlock key }
    ensures { fips.shift_times (number % 4) (map decryption_untower result)
        ≡ fips.inv_mix_columns (fips.shift_times (number % 4) key) }
{
    let by_5 = looked_up_by_nibbles(key, KEY_5_LOW, KEY_5_HIGH);
    let by_4 = looked_up_by_nibbles(key, KEY_4_LOW, KEY_4_HIGH);
    // 0x2c is 0x63 in the basis of EqInvCipher.
    mixed_back(by_5, by_4, u8x16::splat(0x2c), number)
}

/// Returns the round key that a stored one of Cipher stands for, between the first and the last.
#[inline(always)]
pub fn plain_key(stored: u8x16) -> u8x16
    requires { fips.IsBlock stored }
    ensures { result ≡ map key_untower stored }
{
    out_of_tower(stored) ^ u8x16::splat(0x63)
}

/// Turns a stored round key of Cipher into the one of EqInvCipher at a place between the first and
/// the last. In Cipher its number is `last - place`, and its rows are shifted back so often. For
/// EqInvCipher they are shifted forth `place` times, so `last` shifts lead from one to the other.
#[inline(always)]
pub fn inverted_key(stored: u8x16, place: usize, last: usize) -> u8x16
    requires block { fips.IsBlock stored }
    requires at_most { place ≤ last }
    ensures { fips.inv_shift_times (place % 4) (map decryption_untower result)
        ≡ fips.inv_mix_columns (fips.shift_times ((last - place) % 4) (map key_untower stored)) }
{
    let key = plain_key(stored);
    key.blocks_have_16_bytes();
    let mixed = decrypting_key(key, last - place);
    mixed.blocks_have_16_bytes();
    mixed.permuted(SHIFTED_ROWS[last % 4])
}

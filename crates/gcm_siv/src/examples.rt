//! AES-GCM-SIV at values from outside, as contracts. With them the prover refuses a mistake in a
//! definition. The values are from RFC 8452: section 7, appendix A, the message of eight bytes in
//! appendix C.1, and one of twenty with additional data in C.2. The last call shows that a text
//! comes back, as callers can prove it.
//!
//! `bytes n 0x..` is the n bytes that these digits write.

ghost use Rattle.std.specs.Prelude.{◌≡◌, ◌↔◌, ◌⊎◌, ◌+◌, ◌-◌, ◌*◌, ◌/◌, ◌%◌, ◌^◌, ◌<◌, ◌≤◌, ℕ, List, []};
ghost use Rattle.std.specs.Prelude.{suc, ◌∷◌, ◌++◌, length, replicate, slice_index, IfOk, IsErr};
ghost use Rattle.std.specs.List.{slice_range};
ghost use Rattle.std.specs.Int.Bits.{bit_xor};
ghost use Rattle.std.specs.Int.{w32, w128, from_le_bytes, to_le_bytes};
ghost use Rattle.aes_planes.specs.BigEndian.{bytes};
ghost use Rattle.aes_planes.specs.Fips197 as fips;
ghost use Rattle.gcm_siv.specs.GcmSiv.{authentication_key, encryption_key, first_counter};
ghost use Rattle.gcm_siv.specs.GcmSiv.{IsAuthentic, IsSivKeySize, counter_block, dot};
ghost use Rattle.gcm_siv.specs.GcmSiv.{inverse_power};
ghost use Rattle.gcm_siv.specs.GcmSiv.{block_at, hash, length_block, polyval, polyval_after, tag};
ghost use Rattle.gcm_siv.specs.GcmSiv.{tag_input, text, times, times_power};
ghost use Rattle.aes_cipher.specs.Blocks.{padded};
ghost use Rattle.aes_cipher.specs.Lengths.{IsOneOf};
ghost use Rattle.aes_ctr.specs.CounterMode.{plus_stream};

use crate::errors::TooLong;
use crate::laws::text_twice;
use crate::lengths::LONGEST;
use crate::mode::GcmSiv;
use aes_cipher::cipher::{Block, BlockCipherEncrypt, KeyInit};

/// The most bytes that a text may have, and the most of additional data.
pub fn limit_examples()
    ensures { LONGEST ≡ 2 ^ 36 }
{}

/// A product, a dot product, and x^-128, whose product with x^128 is 1 (section 7).
#[tactic(auto, unfolding(crate::proofs::OnLiterals::siv_on_literals))]
pub fn field_examples()
    ensures times { times (from_le_bytes w128 (bytes 16 0x66e94bd4ef8a2c3b884cfa59ca342b2e))
        (from_le_bytes w128 (bytes 16 0xff000000000000000000000000000000))
        ≡ from_le_bytes w128 (bytes 16 0x37856175e9dc9df26ebc6d6171aa0ae9) }
    ensures dot { dot (from_le_bytes w128 (bytes 16 0x66e94bd4ef8a2c3b884cfa59ca342b2e))
        (from_le_bytes w128 (bytes 16 0xff000000000000000000000000000000))
        ≡ from_le_bytes w128 (bytes 16 0xebe563401e7e91ea3ad6426b8140c394) }
    ensures written { inverse_power ≡ from_le_bytes w128
        (bytes 16 0x01000000000000000000000000000492) }
    ensures inverse { times_power inverse_power 128 ≡ 1 }
{}

/// POLYVAL of two blocks (appendix A).
#[tactic(auto, unfolding(crate::proofs::OnLiterals::siv_on_literals))]
pub fn polyval_examples()
    ensures { polyval (from_le_bytes w128 (bytes 16 0x25629347589242761d31f826ba4b757b))
        (bytes 16 0x4f4f95668c83dfb6401762bb2d01a262 ++ bytes 16 0xd1a24ddd2721d006bbe45f20d3c9f362)
        ≡ from_le_bytes w128 (bytes 16 0xf7a3b47b846119fae5b7866cf5e5b77e) }
{}

/// POLYVAL of no blocks is 0. Each further block is summed and multiplied in the same way, at any
/// place (3).
#[tactic(auto, unfolding(crate::proofs::OnLiterals::polyval_steps))]
pub fn polyval_rules()
    ensures none { (h : ℕ) → polyval h [] ≡ 0 }
    ensures begun { (h s : ℕ) (x : List ℕ) → polyval_after h s x 0 ≡ s }
    ensures block { (x : List ℕ) (j : ℕ)
        → block_at x j ≡ from_le_bytes w128 (slice_range x (16 * j) (16 * j + 16)) }
    ensures next { (h s : ℕ) (x : List ℕ) (j : ℕ)
        → polyval_after h s x (suc j) ≡ dot (bit_xor (polyval_after h s x j) (block_at x j)) h }
    ensures whole { (h : ℕ) (x : List ℕ) → polyval h x ≡ polyval_after h 0 x (length x / 16) }
{}

/// What is hashed, tagged and encrypted, of strings of any length (4).
#[tactic(auto, unfolding(crate::proofs::OnLiterals::siv_messages))]
pub fn message_rules()
    ensures hash { (h : ℕ) (a p : List ℕ) → hash h a p
        ≡ polyval h (padded a ++ padded p ++ length_block a p) }
    ensures tag { (key nonce a p : List ℕ) → tag key nonce a p
        ≡ fips.cipher (encryption_key key nonce) (tag_input (hash
        (from_le_bytes w128 (authentication_key key nonce)) a p) nonce) }
    ensures text { (key nonce t x : List ℕ) → text key nonce t x ≡ plus_stream (λ i.
        slice_index (fips.cipher (encryption_key key nonce)
        (counter_block (first_counter t) (i / 16))) (i % 16)) 0 x }
{}

/// A counter counts on the first 32 bits of a block, modulo 2^32, the lowest byte first, however
/// far it has come. The first counter block is the tag with its highest bit set, also if it is set
/// already.
#[tactic(auto, using(crate::proofs::CounterBlocks::block_on), unfolding(crate::proofs::OnLiterals::siv_on_literals))]
pub fn counter_examples()
    ensures next { counter_block (bytes 16 0xff0000000102030405060708090a0b8c) 1
        ≡ bytes 16 0x000100000102030405060708090a0b8c }
    ensures wrapped { counter_block (bytes 16 0xffffffff000000000000000000000080) 1
        ≡ bytes 16 0x00000000000000000000000000000080 }
    ensures last { counter_block (replicate 16 0xff) (2 ^ 32 - 1)
        ≡ 0xfe ∷ replicate 15 0xff }
    ensures high { counter_block (bytes 16 0xfeffff7f000000000000000000000080) 2
        ≡ bytes 16 0x00000080000000000000000000000080 }
    ensures on { (block : List ℕ) (j : ℕ)
        → counter_block block (j + 1) ≡ counter_block (counter_block block j) 1 }
    ensures set { first_counter (replicate 16 0x7f) ≡ replicate 15 0x7f ++ 0xff ∷ [] }
    ensures kept { first_counter (replicate 16 0xff) ≡ replicate 16 0xff }
{}

/// What is accepted (5): a tag that is the tag of the additional data and of the decrypted text.
pub fn authentic_examples()
    ensures { (key nonce a t c : List ℕ) → IsAuthentic key nonce a t c
        → t ≡ tag key nonce a (text key nonce t c) }
{}

/// A key-generating key has 16 bytes or 32.
pub fn size_rule()
    ensures { (size : ℕ) → IsSivKeySize size ↔ IsOneOf (16 ∷ 32 ∷ []) size }
{}

/// The lengths in bits of the longest strings. Every byte of the strings counts.
pub fn length_examples()
    ensures { (a p : List ℕ) → length a ≡ 2 ^ 36 → length p ≡ 2 ^ 36 - 1
        → length_block a p ≡ bytes 16 0x0000000080000000f8ffffff7f000000 }
{}

// The blocks that the message of eight bytes encrypts.
#[tactic(auto, using(aes_planes::proofs::OnLiterals::ciphers), unfolding(aes_planes::proofs::OnLiterals::aes_by_table))]
fn encrypted_blocks()
    ensures zero { fips.cipher_with
        (fips.key_expansion (bytes 16 0x01000000000000000000000000000000))
        (to_le_bytes w32 0 ++ bytes 12 0x030000000000000000000000)
        ≡ bytes 16 0xd9b360279694941a2010be790ff81954 }
    ensures one { fips.cipher_with
        (fips.key_expansion (bytes 16 0x01000000000000000000000000000000))
        (to_le_bytes w32 1 ++ bytes 12 0x030000000000000000000000)
        ≡ bytes 16 0xc5dbc6987ada737758568e3552059132 }
    ensures two { fips.cipher_with
        (fips.key_expansion (bytes 16 0x01000000000000000000000000000000))
        (to_le_bytes w32 2 ++ bytes 12 0x030000000000000000000000)
        ≡ bytes 16 0x4004a0dcd862f2a5f559f116bee72388 }
    ensures three { fips.cipher_with
        (fips.key_expansion (bytes 16 0x01000000000000000000000000000000))
        (to_le_bytes w32 3 ++ bytes 12 0x030000000000000000000000)
        ≡ bytes 16 0x7360219d2d44ef6c3d190c795fe54c0c }
    ensures tag { fips.cipher_with
        (fips.key_expansion (bytes 16 0x4004a0dcd862f2a57360219d2d44ef6c))
        (bytes 16 0xe893b7740962c5e49d2a90a7dc5cec74)
        ≡ bytes 16 0x578782fff6013b815b287c22493a364c }
    ensures stream { fips.cipher_with
        (fips.key_expansion (bytes 16 0x4004a0dcd862f2a57360219d2d44ef6c))
        (bytes 16 0x578782fff6013b815b287c22493a36cc)
        ≡ bytes 16 0xb4d839330ac7b786a779523a099ca598 }
{}

/// Eight bytes and no additional data (appendix C.1).
pub fn gcm_siv_128_example()
    ensures tag { tag (bytes 16 0x01000000000000000000000000000000)
        (bytes 12 0x030000000000000000000000) []
        (bytes 8 0x0100000000000000) ≡ bytes 16 0x578782fff6013b815b287c22493a364c }
    ensures text { text (bytes 16 0x01000000000000000000000000000000)
        (bytes 12 0x030000000000000000000000)
        (bytes 16 0x578782fff6013b815b287c22493a364c) (bytes 8 0x0100000000000000)
        ≡ bytes 8 0xb5d839330ac7b786 }
{
    encrypted_blocks();
}

// The blocks that are encrypted under a key of 32 bytes, for the keys of a message.
#[tactic(auto, using(aes_planes::proofs::OnLiterals::ciphers), unfolding(aes_planes::proofs::OnLiterals::aes_by_table))]
fn encrypted_numbers()
    ensures zero { fips.cipher_with
        (fips.key_expansion
        (bytes 32 0x0100000000000000000000000000000000000000000000000000000000000000))
        (to_le_bytes w32 0 ++ bytes 12 0x030000000000000000000000)
        ≡ bytes 16 0xb5d3c529dfafac430384a63b046e999e }
    ensures one { fips.cipher_with
        (fips.key_expansion
        (bytes 32 0x0100000000000000000000000000000000000000000000000000000000000000))
        (to_le_bytes w32 1 ++ bytes 12 0x030000000000000000000000)
        ≡ bytes 16 0x136d2d11be284d7fd498b142a2995a5a }
    ensures two { fips.cipher_with
        (fips.key_expansion
        (bytes 32 0x0100000000000000000000000000000000000000000000000000000000000000))
        (to_le_bytes w32 2 ++ bytes 12 0x030000000000000000000000)
        ≡ bytes 16 0xb914f4742be9e1d7641d397a9a0ffa64 }
    ensures three { fips.cipher_with
        (fips.key_expansion
        (bytes 32 0x0100000000000000000000000000000000000000000000000000000000000000))
        (to_le_bytes w32 3 ++ bytes 12 0x030000000000000000000000)
        ≡ bytes 16 0xa2f84addbf96dec3fcdefbceafd2a5f3 }
    ensures four { fips.cipher_with
        (fips.key_expansion
        (bytes 32 0x0100000000000000000000000000000000000000000000000000000000000000))
        (to_le_bytes w32 4 ++ bytes 12 0x030000000000000000000000)
        ≡ bytes 16 0x456e3c6c05ecc15709d8894632480faf }
    ensures five { fips.cipher_with
        (fips.key_expansion
        (bytes 32 0x0100000000000000000000000000000000000000000000000000000000000000))
        (to_le_bytes w32 5 ++ bytes 12 0x030000000000000000000000)
        ≡ bytes 16 0xcdbf0700fedad22273098dd2eaa268b3 }
{}

/// The keys of a message under a key of 32 bytes (appendix C.2).
pub fn keys_256_example()
    ensures authentication { authentication_key
        (bytes 32 0x0100000000000000000000000000000000000000000000000000000000000000)
        (bytes 12 0x030000000000000000000000) ≡ bytes 16 0xb5d3c529dfafac43136d2d11be284d7f }
    ensures encryption { encryption_key (bytes 32
        0x0100000000000000000000000000000000000000000000000000000000000000)
        (bytes 12 0x030000000000000000000000)
        ≡ bytes 32 0xb914f4742be9e1d7a2f84addbf96dec3456e3c6c05ecc157cdbf0700fedad222 }
{
    encrypted_numbers();
}

// The blocks that are encrypted under the second of these keys: for the tag, and for the text.
#[tactic(auto, using(aes_planes::proofs::OnLiterals::ciphers), unfolding(aes_planes::proofs::OnLiterals::aes_by_table))]
fn encrypted_under_256()
    ensures tag { fips.cipher_with
        (fips.key_expansion
        (bytes 32 0xb914f4742be9e1d7a2f84addbf96dec3456e3c6c05ecc157cdbf0700fedad222))
        (bytes 16 0x943ef4fd04bd31d193816ab26f86554a)
        ≡ bytes 16 0xb879ad976d8242acc188ab59cabfe307 }
    ensures first { fips.cipher_with
        (fips.key_expansion
        (bytes 32 0xb914f4742be9e1d7a2f84addbf96dec3456e3c6c05ecc157cdbf0700fedad222))
        (bytes 16 0xb879ad976d8242acc188ab59cabfe387)
        ≡ bytes 16 0x40dd0163cdb48f9fe3212bf61b201976 }
    ensures second { fips.cipher_with
        (fips.key_expansion
        (bytes 32 0xb914f4742be9e1d7a2f84addbf96dec3456e3c6c05ecc157cdbf0700fedad222))
        (bytes 16 0xb979ad976d8242acc188ab59cabfe387)
        ≡ bytes 16 0x027f342b38b58fc6858b73af3aeabecf }
{}

/// Twenty bytes, and eighteen of additional data, under this key (appendix C.2). The last byte of
/// S_s has its highest bit set. That of the tag doesn't.
pub fn gcm_siv_256_example()
    ensures tag { tag (bytes 32 0x0100000000000000000000000000000000000000000000000000000000000000)
        (bytes 12 0x030000000000000000000000)
        (bytes 18 0x010000000000000000000000000000000200)
        (bytes 20 0x0300000000000000000000000000000004000000)
        ≡ bytes 16 0xb879ad976d8242acc188ab59cabfe307 }
    ensures text { text
        (bytes 32 0x0100000000000000000000000000000000000000000000000000000000000000)
        (bytes 12 0x030000000000000000000000)
        (bytes 16 0xb879ad976d8242acc188ab59cabfe307)
        (bytes 20 0x0300000000000000000000000000000004000000)
        ≡ bytes 20 0x43dd0163cdb48f9fe3212bf61b201976067f342b }
{
    keys_256_example();
    encrypted_under_256();
}

/// Encrypts a text and decrypts it again: its tag is accepted, and the text comes back. Returns the
/// tag.
///
/// # Errors
///
/// `TooLong` exactly if the text or the additional data has more than 2^36 bytes.
pub fn there_and_back<C: KeyInit + BlockCipherEncrypt + Drop>(
    mode: &GcmSiv<C>,
    nonce: &[u8; 12],
    additional: &[u8],
    message: &mut [u8],
) -> Result<Block, TooLong>
    ensures refusal { IsErr result ↔ ((2 ^ 36 < length message.old)
        ⊎ (2 ^ 36 < length additional.now)) }
    ensures back { message.new ≡ message.old }
    ensures tag { IfOk result (λ it. it ≡ tag mode.now nonce.now additional.now message.old) }
{
    text_twice();
    let tag = mode.encrypt(nonce, additional, message)?;
    match mode.decrypt(nonce, additional, message, &tag) {
        Ok(()) => Ok(tag),
        Err(_) => Err(TooLong),
    }
}

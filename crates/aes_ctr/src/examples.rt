//! Counter mode at values from outside, as contracts. With them the prover refuses a mistake in a
//! definition.
//!
//! `bytes n 0x..` is the n bytes that these digits write.

ghost use Rattle.std.specs.Prelude.{◌≡◌, ℕ, ◌+◌, ◌/◌, ◌%◌, List, ◌∷◌, [], ◌++◌, slice_index};
ghost use Rattle.aes_planes.specs.BigEndian.{bytes};
ghost use Rattle.aes_planes.specs.Fips197 as fips;
ghost use Rattle.aes_ctr.specs.CounterMode.{counter, counter_block, keystream_byte, plus_stream};
ghost use Rattle.aes_ctr.specs.CounterMode.{pieces_plus_stream};

/// The counter blocks of SP 800-38A, F.5.1, and counters that carry into the upper 64 bits and over
/// the end (B.1).
#[tactic(auto, unfolding(crate::proofs::OnLiterals::ctr_on_literals))]
pub fn counter_examples()
    ensures first { counter_block (bytes 16 0xf0f1f2f3f4f5f6f7f8f9fafbfcfdfeff) 0
        ≡ bytes 16 0xf0f1f2f3f4f5f6f7f8f9fafbfcfdfeff }
    ensures second { counter_block (bytes 16 0xf0f1f2f3f4f5f6f7f8f9fafbfcfdfeff) 1
        ≡ bytes 16 0xf0f1f2f3f4f5f6f7f8f9fafbfcfdff00 }
    ensures fourth { counter_block (bytes 16 0xf0f1f2f3f4f5f6f7f8f9fafbfcfdfeff) 3
        ≡ bytes 16 0xf0f1f2f3f4f5f6f7f8f9fafbfcfdff02 }
    ensures carried { counter_block (bytes 16 0x0123456789abcdefffffffffffffffff) 1
        ≡ bytes 16 0x0123456789abcdf00000000000000000 }
    ensures over_the_end { counter_block (bytes 16 0xffffffffffffffffffffffffffffffff) 2
        ≡ bytes 16 0x00000000000000000000000000000001 }
    ensures modulo { counter (bytes 16 0xffffffffffffffffffffffffffffffff) 2 ≡ 1 }
{}

/// Each counter block is the one before it, counted on by one, at any place. Byte i of the
/// keystream is a byte of the encrypted counter block that it falls in (6.5).
#[tactic(auto, using(crate::proofs::Counters::block_on), unfolding(crate::proofs::OnLiterals::ctr_rules))]
pub fn counter_rules()
    ensures on { (iv : List ℕ) (j : ℕ)
        → counter_block iv (j + 1) ≡ counter_block (counter_block iv j) 1 }
    ensures byte { (w : List (List ℕ)) (iv : List ℕ) (i : ℕ) → keystream_byte w iv i
        ≡ slice_index (fips.cipher_with w (counter_block iv (i / 16))) (i % 16) }
{}

/// The keystream of SP 800-38A, F.5.1: the cipher of each of the four counter blocks.
#[tactic(auto, using(aes_planes::proofs::OnLiterals::ciphers), unfolding(crate::proofs::OnLiterals::ctr_by_table))]
pub fn keystream_128_example()
    ensures first { fips.cipher_with
        (fips.key_expansion (bytes 16 0x2b7e151628aed2a6abf7158809cf4f3c))
        (counter_block (bytes 16 0xf0f1f2f3f4f5f6f7f8f9fafbfcfdfeff) 0)
        ≡ bytes 16 0xec8cdf7398607cb0f2d21675ea9ea1e4 }
    ensures second { fips.cipher_with
        (fips.key_expansion (bytes 16 0x2b7e151628aed2a6abf7158809cf4f3c))
        (counter_block (bytes 16 0xf0f1f2f3f4f5f6f7f8f9fafbfcfdfeff) 1)
        ≡ bytes 16 0x362b7c3c6773516318a077d7fc5073ae }
    ensures third { fips.cipher_with
        (fips.key_expansion (bytes 16 0x2b7e151628aed2a6abf7158809cf4f3c))
        (counter_block (bytes 16 0xf0f1f2f3f4f5f6f7f8f9fafbfcfdfeff) 2)
        ≡ bytes 16 0x6a2cc3787889374fbeb4c81b17ba6c44 }
    ensures fourth { fips.cipher_with
        (fips.key_expansion (bytes 16 0x2b7e151628aed2a6abf7158809cf4f3c))
        (counter_block (bytes 16 0xf0f1f2f3f4f5f6f7f8f9fafbfcfdfeff) 3)
        ≡ bytes 16 0xe89c399ff0f198c6d40a31db156cabfe }
{}

/// SP 800-38A, F.5.1: the four blocks in one call, and the sixteen bytes from place 18 on.
pub fn ctr_128_example()
    ensures whole { plus_stream
        (keystream_byte (fips.key_expansion (bytes 16 0x2b7e151628aed2a6abf7158809cf4f3c))
        (bytes 16 0xf0f1f2f3f4f5f6f7f8f9fafbfcfdfeff)) 0
        (bytes 16 0x6bc1bee22e409f96e93d7e117393172a ++ bytes 16 0xae2d8a571e03ac9c9eb76fac45af8e51
        ++ bytes 16 0x30c81c46a35ce411e5fbc1191a0a52ef
        ++ bytes 16 0xf69f2445df4f9b17ad2b417be66c3710)
        ≡ bytes 16 0x874d6191b620e3261bef6864990db6ce ++ bytes 16 0x9806f66b7970fdff8617187bb9fffdff
        ++ bytes 16 0x5ae4df3edbd5d35e5b4f09020db03eab
        ++ bytes 16 0x1e031dda2fbe03d1792170a0f3009cee }
    ensures part { plus_stream
        (keystream_byte (fips.key_expansion (bytes 16 0x2b7e151628aed2a6abf7158809cf4f3c))
        (bytes 16 0xf0f1f2f3f4f5f6f7f8f9fafbfcfdfeff)) 18
        (bytes 16 0x8a571e03ac9c9eb76fac45af8e5130c8)
        ≡ bytes 16 0xf66b7970fdff8617187bb9fffdff5ae4 }
{
    keystream_128_example();
}

/// Two pieces plus the stream 5, 6, 7, .. from place 1 on: 1 plus 6 and 2 plus 7, then 3 plus 8.
#[tactic(auto, unfolding(crate::proofs::OnLiterals::ctr_on_literals))]
pub fn pieces_example()
    ensures { pieces_plus_stream (λ i. 5 + i) 1 ((1 ∷ 2 ∷ []) ∷ (3 ∷ []) ∷ [])
        ≡ (7 ∷ 5 ∷ []) ∷ (11 ∷ []) ∷ [] }
{}

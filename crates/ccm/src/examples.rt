//! CCM at values from outside, as contracts: SP 800-38C, C.1, and A.2.2. With them the prover
//! refuses a mistake in a definition. Another implementation of AES computed what comes between.
//!
//! `bytes n 0x..` is the n bytes that these digits write.

ghost use Rattle.std.specs.Prelude.{◌≡◌, ◌<◌, ◌≤◌, ℕ, ◌+◌, ◌-◌, ◌*◌, ◌/◌, ◌%◌, List, [], ◌∷◌, ◌++◌};
ghost use Rattle.std.specs.Prelude.{◌↔◌, ◌^◌, length, slice_index, take};
ghost use Rattle.aes_planes.specs.BigEndian.{bytes};
ghost use Rattle.aes_planes.specs.Fips197 as fips;
ghost use Rattle.aes_cipher.specs.Lengths.{IsOneOf};
ghost use Rattle.aes_ctr.specs.CounterMode.{plus_stream};
ghost use Rattle.ccm.specs.Ccm.{chain_end, counter_block, encoded_length, first_block, tag, text};
ghost use Rattle.ccm.specs.Ccm.{Fits, IsNonceLength, IsTagLength};
ghost use Rattle.cmac.specs.Chain.{chained_through};

// The blocks that the example encrypts: B_0 of the chain, B_1 and B_2 with the values before them,
// Ctr_0 and Ctr_1.
#[tactic(auto, using(aes_planes::proofs::OnLiterals::ciphers), unfolding(aes_planes::proofs::OnLiterals::aes_by_table))]
fn encrypted_blocks()
    ensures first { fips.cipher_with
        (fips.key_expansion (bytes 16 0x404142434445464748494a4b4c4d4e4f))
        (bytes 16 0x4f101112131415160000000000000004)
        ≡ bytes 16 0x2ad239bb229b8fb46e308f5bc7409b88 }
    ensures second { fips.cipher_with
        (fips.key_expansion (bytes 16 0x404142434445464748494a4b4c4d4e4f))
        (bytes 16 0x2ada39ba20988bb168378f5bc7409b88)
        ≡ bytes 16 0x2e3b95530ad7c90268caf2c597c49292 }
    ensures third { fips.cipher_with
        (fips.key_expansion (bytes 16 0x404142434445464748494a4b4c4d4e4f))
        (bytes 16 0x0e1ab7700ad7c90268caf2c597c49292)
        ≡ bytes 16 0x6084341b32042bf000b4b7995553a3c5 }
    ensures counter_0 { fips.cipher_with
        (fips.key_expansion (bytes 16 0x404142434445464748494a4b4c4d4e4f))
        (bytes 16 0x07101112131415160000000000000000)
        ≡ bytes 16 0x2d28114610676c2632bad748559a679a }
    ensures counter_1 { fips.cipher_with
        (fips.key_expansion (bytes 16 0x404142434445464748494a4b4c4d4e4f))
        (bytes 16 0x07101112131415160000000000000001)
        ≡ bytes 16 0x51432378e474b33971318484103cddfb }
{}

/// The text and the tag of example 1.
pub fn ccm_128_example()
    ensures text { text (fips.key_expansion (bytes 16 0x404142434445464748494a4b4c4d4e4f))
        (bytes 7 0x10111213141516) (bytes 4 0x20212223) ≡ bytes 4 0x7162015b }
    ensures tag { tag (fips.key_expansion (bytes 16 0x404142434445464748494a4b4c4d4e4f))
        (bytes 7 0x10111213141516) 4 (bytes 8 0x0001020304050607) (bytes 4 0x20212223)
        ≡ bytes 4 0x4dac255d }
{
    encrypted_blocks();
}

/// The first blocks of example 3, and of a message without additional data. Then the lengths of
/// additional data on either side of a limit, and that of A.2.2.
#[tactic(auto, unfolding(crate::proofs::OnLiterals::formats_on_literals))]
pub fn formatting_examples()
    ensures first { first_block (bytes 12 0x101112131415161718191a1b) 8 20 24
        ≡ bytes 16 0x5a101112131415161718191a1b000018 }
    ensures without { first_block (bytes 13 0x00000003020100a0a1a2a3a4a5) 16 0 5
        ≡ bytes 16 0x3900000003020100a0a1a2a3a4a50005 }
    ensures counter { counter_block (bytes 12 0x101112131415161718191a1b) 2
        ≡ bytes 16 0x02101112131415161718191a1b000002 }
    ensures none { encoded_length 0 ≡ [] }
    ensures in_two { encoded_length 65279 ≡ bytes 2 0xfeff }
    ensures in_six { encoded_length 65280 ≡ bytes 6 0xfffe0000ff00 }
    ensures of_the_standard { encoded_length 65536 ≡ bytes 6 0xfffe00010000 }
    ensures most_in_six { encoded_length 4294967295 ≡ bytes 6 0xfffeffffffff }
    ensures in_ten { encoded_length 4294967296 ≡ bytes 10 0xffff0000000100000000 }
{}

/// The first block of any message, as RFC 3610 has it (2.2): with a length of q bytes, and a tag of
/// 2 m + 2 bytes.
#[tactic(auto, unfolding(crate::specs::Ccm::first_block, crate::specs::Ccm::flags))]
pub fn first_block_rules()
    ensures with { (nonce : List ℕ) (m a p q : ℕ) → length nonce + q ≡ 15 → 0 < a
        → first_block nonce (2 * m + 2) a p ≡ (64 + 8 * m + (q - 1)) ∷ nonce ++ bytes q p }
    ensures without { (nonce : List ℕ) (m p q : ℕ) → length nonce + q ≡ 15
        → first_block nonce (2 * m + 2) 0 p ≡ (8 * m + (q - 1)) ∷ nonce ++ bytes q p }
{}

/// For strings of any length: the lengths of additional data between the limits, the blocks, and
/// what these are chained into and added to (A.2.2, A.3; 6.1, steps 1 to 8).
#[tactic(auto, unfolding(crate::proofs::OnLiterals::message_rules))]
pub fn message_rules()
    ensures in_two { (a : ℕ) → 0 < a → a < 65280 → encoded_length a ≡ bytes 2 a }
    ensures in_six { (a : ℕ) → 65280 ≤ a → a < 4294967296
        → encoded_length a ≡ 255 ∷ 254 ∷ bytes 4 a }
    ensures in_ten { (a : ℕ) → 4294967296 ≤ a → encoded_length a ≡ 255 ∷ 255 ∷ bytes 8 a }
    ensures counter { (nonce : List ℕ) (j q : ℕ) → length nonce + q ≡ 15
        → counter_block nonce j ≡ (q - 1) ∷ nonce ++ bytes q j }
    ensures chain { (w : List (List ℕ)) (nonce a p : List ℕ) (t : ℕ) → chain_end w nonce t a p
        ≡ chained_through w (chained_through w
        (fips.cipher_with w (first_block nonce t (length a) (length p)))
        (encoded_length (length a) ++ a)) p }
    ensures text { (w : List (List ℕ)) (nonce p : List ℕ) → text w nonce p
        ≡ plus_stream (λ i. slice_index
        (fips.cipher_with w (counter_block nonce (i / 16))) (i % 16)) 16 p }
    ensures tag { (w : List (List ℕ)) (nonce a p : List ℕ) (t : ℕ) → tag w nonce t a p
        ≡ take t (fips.add_round_key (chain_end w nonce t a p)
        (fips.cipher_with w (counter_block nonce 0))) }
{}

/// The lengths of nonces and of tags. If a nonce has 15 - q bytes, the length of a text has to fit
/// into q bytes (A.1).
pub fn length_rules()
    ensures nonce { (n : ℕ) → IsNonceLength n
        ↔ IsOneOf (7 ∷ 8 ∷ 9 ∷ 10 ∷ 11 ∷ 12 ∷ 13 ∷ []) n }
    ensures tag { (t : ℕ) → IsTagLength t ↔ IsOneOf (4 ∷ 6 ∷ 8 ∷ 10 ∷ 12 ∷ 14 ∷ 16 ∷ []) t }
    ensures text { (n q p : ℕ) → n + q ≡ 15 → Fits n p ↔ (p < 2 ^ (8 * q)) }
{}

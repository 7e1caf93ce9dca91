//! CMAC at values from outside, as contracts: RFC 4493, section 4, whose examples are also those of
//! SP 800-38B, D.1. With them the prover refuses a mistake in a definition.
//!
//! `bytes n 0x..` is the n bytes that these digits write.

ghost use Rattle.std.specs.Prelude.{◌≡◌, ◌<◌, ◌≤◌, ℕ, ◌+◌, ◌*◌, ◌/◌, ◌%◌, List, [], ◌∷◌, ◌++◌};
ghost use Rattle.std.specs.Prelude.{◌^◌, length, replicate};
ghost use Rattle.std.specs.List.{slice_range};
ghost use Rattle.std.specs.Int.{w128, from_be_bytes, to_be_bytes};
ghost use Rattle.std.specs.Int.Bits.{bit_xor};
ghost use Rattle.aes_planes.specs.BigEndian.{bytes};
ghost use Rattle.aes_planes.specs.Fips197 as fips;
ghost use Rattle.aes_cipher.specs.Blocks.{padded};
ghost use Rattle.cmac.specs.Chain.{chained, chained_through};
ghost use Rattle.cmac.specs.Cmac.{doubled, doubled_block, subkey_1, subkey_2, before_last};
ghost use Rattle.cmac.specs.Cmac.{cmac, last_block};

// The blocks that the examples encrypt. First the block of zeros. Then those of the messages with
// 40 and with 64 bytes, in their order. Then the last blocks of all four messages.
#[tactic(auto, using(aes_planes::proofs::OnLiterals::ciphers), unfolding(aes_planes::proofs::OnLiterals::aes_by_table))]
fn encrypted_blocks()
    ensures zeros { fips.cipher_with
        (fips.key_expansion (bytes 16 0x2b7e151628aed2a6abf7158809cf4f3c))
        (bytes 16 0) ≡ bytes 16 0x7df76b0c1ab899b33e42f047b91b546f }
    ensures first { fips.cipher_with
        (fips.key_expansion (bytes 16 0x2b7e151628aed2a6abf7158809cf4f3c))
        (bytes 16 0x6bc1bee22e409f96e93d7e117393172a)
        ≡ bytes 16 0x3ad77bb40d7a3660a89ecaf32466ef97 }
    ensures second { fips.cipher_with
        (fips.key_expansion (bytes 16 0x2b7e151628aed2a6abf7158809cf4f3c))
        (bytes 16 0x94faf1e313799afc3629a55f61c961c6)
        ≡ bytes 16 0xb148c17f309ee692287ae57cf12add49 }
    ensures third { fips.cipher_with
        (fips.key_expansion (bytes 16 0x2b7e151628aed2a6abf7158809cf4f3c))
        (bytes 16 0x8180dd3993c20283cd812465eb208fa6)
        ≡ bytes 16 0xc93d11bfaf08c5dc4d90b37b4dee002b }
    ensures of_0 { fips.cipher_with
        (fips.key_expansion (bytes 16 0x2b7e151628aed2a6abf7158809cf4f3c))
        (bytes 16 0x77ddac306ae266ccf90bc11ee46d513b)
        ≡ bytes 16 0xbb1d6929e95937287fa37d129b756746 }
    ensures of_16 { fips.cipher_with
        (fips.key_expansion (bytes 16 0x2b7e151628aed2a6abf7158809cf4f3c))
        (bytes 16 0x902f68fa1b31acf095b89e9e01a5bff4)
        ≡ bytes 16 0x070a16b46b4d4144f79bdd9dd04a287c }
    ensures of_40 { fips.cipher_with
        (fips.key_expansion (bytes 16 0x2b7e151628aed2a6abf7158809cf4f3c))
        (bytes 16 0x765d7109f920644f5171246215478c72)
        ≡ bytes 16 0xdfa66747de9ae63030ca32611497c827 }
    ensures of_64 { fips.cipher_with
        (fips.key_expansion (bytes 16 0x2b7e151628aed2a6abf7158809cf4f3c))
        (bytes 16 0xc44ce3e245366dad9c3e128fd9b49fe5)
        ≡ bytes 16 0x51f0bebf7e3b9d92fc49741779363cfe }
{}

/// A block is doubled without its first bit and with it. If a block is the first bit alone, its
/// double is R_128.
#[tactic(auto, unfolding(crate::proofs::OnLiterals::cmac_on_literals))]
pub fn doubled_examples()
    ensures without { doubled_block (bytes 16 0x7df76b0c1ab899b33e42f047b91b546f)
        ≡ bytes 16 0xfbeed618357133667c85e08f7236a8de }
    ensures with_first_bit { doubled_block (bytes 16 0xfbeed618357133667c85e08f7236a8de)
        ≡ bytes 16 0xf7ddac306ae266ccf90bc11ee46d513b }
    ensures first_bit_alone { doubled_block (bytes 16 0x80000000000000000000000000000000)
        ≡ bytes 16 0x87 }
{}

/// Every block is doubled, without its first bit and with it, and the subkeys of every key are
/// doubled blocks (6.1).
#[tactic(auto, unfolding(crate::proofs::OnLiterals::subkey_rules))]
pub fn subkey_rules()
    ensures without { (x : ℕ) → x < 2 ^ 127 → doubled x ≡ 2 * x }
    ensures with_first_bit { (x : ℕ) → x < 2 ^ 127
        → doubled (2 ^ 127 + x) ≡ bit_xor (2 * x) 0x87 }
    ensures block { (block : List ℕ)
        → doubled_block block ≡ to_be_bytes w128 (doubled (from_be_bytes w128 block)) }
    ensures first { (w : List (List ℕ))
        → subkey_1 w ≡ doubled_block (fips.cipher_with w (replicate 16 0)) }
    ensures second { (w : List (List ℕ)) → subkey_2 w ≡ doubled_block (subkey_1 w) }
{}

/// Each block but the last is chained as the first one is, at any place. The last block of a
/// message that isn't empty has 1 to 16 bytes (6.2, steps 2 to 6).
#[tactic(auto, unfolding(crate::proofs::OnLiterals::cmac_rules))]
pub fn chain_rules()
    ensures none { before_last 0 ≡ 0 }
    ensures least { (n : ℕ) → 1 ≤ n → 16 * before_last n < n }
    ensures most { (n : ℕ) → n ≤ 16 * before_last n + 16 }
    ensures begun { (w : List (List ℕ)) (y message : List ℕ) → chained w y message 0 ≡ y }
    ensures next { (w : List (List ℕ)) (y message : List ℕ) (i : ℕ) → chained w y message (i + 1)
        ≡ fips.cipher_with w (fips.add_round_key (chained w y message i)
        (slice_range message (16 * i) (16 * i + 16))) }
    ensures through { (w : List (List ℕ)) (y message : List ℕ) → chained_through w y message
        ≡ chained w y (padded message) (length (padded message) / 16) }
    ensures tag { (w : List (List ℕ)) (message : List ℕ) → cmac w message
        ≡ fips.cipher_with w (fips.add_round_key
        (chained w (replicate 16 0) message (before_last (length message)))
        (last_block w (slice_range message
        (16 * before_last (length message)) (length message)))) }
{}

/// A string gets as few zeros as fill its last block. If the last block of a message is complete,
/// it stays as it is. Otherwise a bit 1 and zeros fill it (6.2, step 4).
#[tactic(auto, unfolding(crate::proofs::OnLiterals::padding_rules))]
pub fn padding_rules()
    ensures zeros { (s : List ℕ) (k : ℕ) → k < 16 → (length s + k) % 16 ≡ 0
        → padded s ≡ s ++ replicate k 0 }
    ensures complete { (w : List (List ℕ)) (rest : List ℕ) → length rest ≡ 16
        → last_block w rest ≡ fips.add_round_key (subkey_1 w) rest }
    ensures short { (w : List (List ℕ)) (rest : List ℕ) (k : ℕ) → length rest + k ≡ 15
        → last_block w rest
        ≡ fips.add_round_key (subkey_2 w) (rest ++ 0x80 ∷ replicate k 0) }
{}

/// The subkeys and the tags of messages of 0, 16, 40 and 64 bytes.
pub fn cmac_128_examples()
    ensures first_subkey { subkey_1 (fips.key_expansion (bytes 16 0x2b7e151628aed2a6abf7158809cf4f3c))
        ≡ bytes 16 0xfbeed618357133667c85e08f7236a8de }
    ensures second_subkey { subkey_2 (fips.key_expansion (bytes 16 0x2b7e151628aed2a6abf7158809cf4f3c))
        ≡ bytes 16 0xf7ddac306ae266ccf90bc11ee46d513b }
    ensures of_0 { cmac (fips.key_expansion (bytes 16 0x2b7e151628aed2a6abf7158809cf4f3c)) []
        ≡ bytes 16 0xbb1d6929e95937287fa37d129b756746 }
    ensures of_16 { cmac (fips.key_expansion (bytes 16 0x2b7e151628aed2a6abf7158809cf4f3c))
        (bytes 16 0x6bc1bee22e409f96e93d7e117393172a)
        ≡ bytes 16 0x070a16b46b4d4144f79bdd9dd04a287c }
    ensures of_40 { cmac (fips.key_expansion (bytes 16 0x2b7e151628aed2a6abf7158809cf4f3c))
        (bytes 16 0x6bc1bee22e409f96e93d7e117393172a ++ bytes 16 0xae2d8a571e03ac9c9eb76fac45af8e51
        ++ bytes 8 0x30c81c46a35ce411) ≡ bytes 16 0xdfa66747de9ae63030ca32611497c827 }
    ensures of_64 { cmac (fips.key_expansion (bytes 16 0x2b7e151628aed2a6abf7158809cf4f3c))
        (bytes 16 0x6bc1bee22e409f96e93d7e117393172a ++ bytes 16 0xae2d8a571e03ac9c9eb76fac45af8e51
        ++ bytes 16 0x30c81c46a35ce411e5fbc1191a0a52ef
        ++ bytes 16 0xf69f2445df4f9b17ad2b417be66c3710)
        ≡ bytes 16 0x51f0bebf7e3b9d92fc49741779363cfe }
{
    encrypted_blocks();
}

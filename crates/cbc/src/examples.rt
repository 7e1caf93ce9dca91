//! Chains at values from outside, as contracts: SP 800-38A, F.2.1 and F.2.2. With them the prover
//! refuses a mistake in a definition.
//!
//! `bytes n 0x..` is the n bytes that these digits write.

ghost use Rattle.std.specs.Prelude.{◌≡◌, ◌∷◌, []};
ghost use Rattle.aes_planes.specs.BigEndian.{bytes};
ghost use Rattle.aes_planes.specs.Fips197 as fips;
ghost use Rattle.cbc.specs.Cbc.{chained, last_of, unchained};

// The first two input blocks and output blocks, both ways.
#[tactic(auto, using(aes_planes::proofs::OnLiterals::ciphers), unfolding(aes_planes::proofs::OnLiterals::aes_by_table))]
fn ciphered_blocks()
    ensures first { fips.cipher_with
        (fips.key_expansion (bytes 16 0x2b7e151628aed2a6abf7158809cf4f3c))
        (bytes 16 0x6bc0bce12a459991e134741a7f9e1925)
        ≡ bytes 16 0x7649abac8119b246cee98e9b12e9197d }
    ensures second { fips.cipher_with
        (fips.key_expansion (bytes 16 0x2b7e151628aed2a6abf7158809cf4f3c))
        (bytes 16 0xd86421fb9f1a1eda505ee1375746972c)
        ≡ bytes 16 0x5086cb9b507219ee95db113a917678b2 }
    ensures first_back { fips.inv_cipher_with (fips.key_expansion (bytes 16 0x2b7e151628aed2a6abf7158809cf4f3c))
        (bytes 16 0x7649abac8119b246cee98e9b12e9197d)
        ≡ bytes 16 0x6bc0bce12a459991e134741a7f9e1925 }
    ensures second_back { fips.inv_cipher_with (fips.key_expansion (bytes 16 0x2b7e151628aed2a6abf7158809cf4f3c))
        (bytes 16 0x5086cb9b507219ee95db113a917678b2)
        ≡ bytes 16 0xd86421fb9f1a1eda505ee1375746972c }
{}

/// The first two blocks of a chain, there and back.
pub fn cbc_128_example()
    ensures encrypted { chained (fips.key_expansion (bytes 16 0x2b7e151628aed2a6abf7158809cf4f3c))
        (bytes 16 0x000102030405060708090a0b0c0d0e0f)
        (bytes 16 0x6bc1bee22e409f96e93d7e117393172a
        ∷ bytes 16 0xae2d8a571e03ac9c9eb76fac45af8e51 ∷ [])
        ≡ bytes 16 0x7649abac8119b246cee98e9b12e9197d
        ∷ bytes 16 0x5086cb9b507219ee95db113a917678b2 ∷ [] }
    ensures decrypted { unchained (fips.key_expansion (bytes 16 0x2b7e151628aed2a6abf7158809cf4f3c))
        (bytes 16 0x000102030405060708090a0b0c0d0e0f)
        (bytes 16 0x7649abac8119b246cee98e9b12e9197d
        ∷ bytes 16 0x5086cb9b507219ee95db113a917678b2 ∷ [])
        ≡ bytes 16 0x6bc1bee22e409f96e93d7e117393172a
        ∷ bytes 16 0xae2d8a571e03ac9c9eb76fac45af8e51 ∷ [] }
{
    ciphered_blocks();
}

/// The next call continues after the last of the blocks. If there are none, it continues where this
/// call began.
#[tactic(auto, unfolding(crate::specs::Cbc::last_of))]
pub fn last_examples()
    ensures last { last_of (0 ∷ []) ((1 ∷ []) ∷ (2 ∷ []) ∷ []) ≡ 2 ∷ [] }
    ensures none { last_of (0 ∷ []) [] ≡ 0 ∷ [] }
{}

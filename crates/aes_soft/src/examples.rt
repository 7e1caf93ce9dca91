//! Round keys as stored, and counts, at values from outside, as contracts. With them the prover
//! refuses a mistake in a definition.
//!
//! `bytes n 0x..` is the n bytes that these digits write. A separate model in Python computed round
//! keys and words, from the standard and the layouts. Bit 4 r + c of word 8 i + p is bit p of the
//! byte in row r and column c of what is stored for round key i.

ghost use Rattle.std.specs.Prelude.{◌≡◌, ◌*◌, ◌∷◌, [], map};
ghost use Rattle.aes_planes.specs.BigEndian.{bytes};
ghost use Rattle.aes_planes.specs.Fips197 as fips;
ghost use Rattle.aes_planes.specs.Words.{word_bits};
ghost use Rattle.aes_soft.specs.Batches.{layers_for};
ghost use Rattle.aes_soft.specs.Stored.{compact, full, key_of, size_of, IsSchedule};

/// The expansion of sixteen bytes of zeros, a round key a line.
#[tactic(auto, using(aes_planes::proofs::OnLiterals::keys), unfolding(aes_planes::proofs::OnLiterals::aes_by_table))]
pub fn zero_key_expansion()
    ensures { fips.key_expansion (bytes 16 0) ≡ map (bytes 16) (
        0x00000000000000000000000000000000 ∷
        0x62636363626363636263636362636363 ∷
        0x9b9898c9f9fbfbaa9b9898c9f9fbfbaa ∷
        0x90973450696ccffaf2f457330b0fac99 ∷
        0xee06da7b876a1581759e42b27e91ee2b ∷
        0x7f2e2b88f8443e098dda7cbbf34b9290 ∷
        0xec614b851425758c99ff09376ab49ba7 ∷
        0x217517873550620bacaf6b3cc61bf09b ∷
        0x0ef903333ba9613897060a04511dfa9f ∷
        0xb1d4d8e28a7db9da1d7bb3de4c664941 ∷
        0xb4ef5bcb3e92e21123e951cf6f8f188e ∷
        []) }
{}

// The words of sixteen bits that the compact layout stores for the key of zeros.
pub(crate) const COMPACT_WORDS: [u16; 88] = [
    0x0000, 0x0000, 0x0000, 0x0000, 0x0000, 0x0000, 0x0000, 0x0000, 0x000f, 0x0000, 0x0000, 0x0000,
    0x0000, 0x0000, 0x0000, 0x0000, 0xa550, 0x555a, 0x0000, 0xffff, 0x0fff, 0x5555, 0xa555, 0xffff,
    0x96c5, 0xc6c3, 0x0ff0, 0x5a5a, 0xf5a5, 0xc939, 0x6639, 0x5aa5, 0x4d79, 0x2284, 0x0a5f, 0x9969,
    0x53cc, 0x27d2, 0xe2d2, 0x69c3, 0xcbe2, 0xd146, 0x0965, 0xbdb7, 0x6b8b, 0xd2d4, 0xfe24, 0xe28e,
    0x208b, 0x36b7, 0xf2e3, 0x2d4d, 0x4ac6, 0x3d06, 0xfca6, 0xb8c5, 0x2a4c, 0x2267, 0xa4ae, 0x7194,
    0x6672, 0xd458, 0xf497, 0xc28c, 0x6c41, 0x62b8, 0xc0c5, 0xacb3, 0xb89e, 0xc5cd, 0xf5e7, 0x8834,
    0xb43a, 0x4e6d, 0x207c, 0x3ece, 0x3de5, 0x762e, 0x0907, 0xbd23, 0x8a23, 0x2c41, 0xc09b, 0xd9da,
    0x2d23, 0xfda0, 0xa8a7, 0xd2f1,
];

/// What the compact layout stores for the key of zeros.
pub fn compact_words()
    ensures { IsSchedule 1 (compact 10) (bytes 16 0) (map (word_bits 16) COMPACT_WORDS) }
{
    zero_key_expansion();
}

// The words of sixteen bits that the full layout stores for the key of zeros.
pub(crate) const FULL_WORDS: [u16; 88] = [
    0x0000, 0x0000, 0x0000, 0x0000, 0x0000, 0x0000, 0x0000, 0x0000, 0x000f, 0x0000, 0x0000, 0x0000,
    0x0000, 0x0000, 0x0000, 0x0000, 0xa550, 0x555a, 0x0000, 0xffff, 0x0fff, 0x5555, 0xa555, 0xffff,
    0x6635, 0x3633, 0x0ff0, 0x5a5a, 0xf5a5, 0x39c9, 0x96c9, 0x5aa5, 0x4d79, 0x2284, 0x0a5f, 0x9969,
    0x53cc, 0x27d2, 0xe2d2, 0x69c3, 0xcbe2, 0xd146, 0x0965, 0xbdb7, 0x6b8b, 0xd2d4, 0xfe24, 0xe28e,
    0x802b, 0xc6e7, 0xf2b3, 0x8d1d, 0x1a36, 0xcd06, 0xfca6, 0xe835, 0x8a1c, 0x8297, 0xa4ae, 0xd164,
    0x96d2, 0x7458, 0xf467, 0x322c, 0x6c41, 0x62b8, 0xc0c5, 0xacb3, 0xb89e, 0xc5cd, 0xf5e7, 0x8834,
    0xb43a, 0x4e6d, 0x207c, 0x3ece, 0x3de5, 0x762e, 0x0907, 0xbd23, 0x8a23, 0x2c41, 0xc09b, 0xd9da,
    0x2d23, 0xfda0, 0xa8a7, 0xd2f1,
];

/// What the full layout stores for the key of zeros.
pub fn full_words()
    ensures { IsSchedule 1 (full 10) (bytes 16 0) (map (word_bits 16) FULL_WORDS) }
{
    zero_key_expansion();
}

/// The key of the 32 bytes 00 to 1f, read from the words of its round keys 0 and 1, which are its
/// halves. Either layout stores these words. Then, how many bytes the key of 88, 104 and 120 words
/// has.
#[tactic(auto, unfolding(crate::proofs::OnLiterals::stored_on_literals))]
pub fn key_example()
    ensures of_32 { key_of 32 1 (full 14) (map (word_bits 16) (
        0xf0f0 ∷ 0xff00 ∷ 0xaaaa ∷ 0xcccc ∷ 0x0000 ∷ 0x0000 ∷ 0x0000 ∷ 0x0000 ∷
        0x0f0f ∷ 0x00ff ∷ 0x5a5a ∷ 0x639c ∷ 0xffff ∷ 0xffff ∷ 0xffff ∷ 0x0000 ∷
        [])) ≡ bytes 32 0x000102030405060708090a0b0c0d0e0f101112131415161718191a1b1c1d1e1f }
    ensures sizes { map size_of (88 ∷ 104 ∷ 120 ∷ []) ≡ 16 ∷ 24 ∷ 32 ∷ [] }
{}

/// Eight blocks at a time need one run of the rounds, and so does each block that is left over.
pub fn layer_examples()
    ensures none { layers_for 10 0 ≡ 0 }
    ensures one { layers_for 10 1 ≡ 10 }
    ensures seven { layers_for 12 7 ≡ 84 }
    ensures eight { layers_for 14 8 ≡ 14 }
    ensures nine { layers_for 10 9 ≡ 20 }
    ensures many { layers_for 14 1027 ≡ 14 * 131 }
{}

//! Round keys as words of 32 bits store them, at values from outside, as contracts. With them the
//! prover refuses a mistake in a definition. The calls have no effect.
//!
//! `bytes n 0x..` is the n bytes that these digits write. A separate model in Python computed the
//! words, from the standard and the layout. Bit 8 r + 2 c + k of word 8 i + p is, for both k, a bit
//! of what is stored for round key i: bit p of the byte in row r and column c.

ghost use Rattle.std.specs.Prelude.{◌≡◌, ◌↔◌, ◌∷◌, [], ℕ, List, drop, map, replicate, take};
ghost use Rattle.aes_planes.specs.BigEndian.{bytes};
ghost use Rattle.aes_planes.specs.Words.{word_bits};
ghost use Rattle.aes_cipher.specs.KeySizes.{IsKeySize};
ghost use Rattle.aes_soft.specs.Stored.{full, key_of_planes, words_for, IsSchedule};
ghost use Rattle.aes_narrow.specs.KeptKey.{key_in, no_key, words_in, HoldsKey, IsZeroAfter};
ghost use Rattle.aes_narrow.specs.KeptWord.{kept_bits, kept_blocks};
ghost use Rattle.aes_narrow.specs.declared.kept_key.KeptKey.{KeptKey};

use aes_planes::examples::key_expansion_128;

// The words of the key of FIPS 197, A.1.
const WORDS: [u32; 88] = [
    0x00f3f0f3, 0x0fccff33, 0xcff3ff00, 0xf0c0cfff, 0xc33f3300, 0xcc003f3f, 0x00ccf300, 0x3c0cfc30,
    0x00fc3fcf, 0x3fc3330f, 0xf0fc3300, 0x0cf30fcc, 0xcf3f3c00, 0xf000300c, 0xffc3c0ff, 0x0330cc0f,
    0x33f0f00f, 0x003f0f30, 0x0cc3c300, 0x0f0c0c3c, 0x3fcfcfff, 0xc033fc30, 0x003fc300, 0x30fff003,
    0xf0cff330, 0xcc0cc0c3, 0xfcf303ff, 0x3fcf30f3, 0x3fc33333, 0xc03cc33c, 0x330ccf33, 0x00ccc000,
    0xc0000f3c, 0xc3f3330c, 0x0cf30333, 0x3cccc0cf, 0x3c0c3cf0, 0xc30ccfc0, 0xf0f3c03c, 0x00c300ff,
    0xfc33c03f, 0xfccf0fcf, 0x3ffc000f, 0xfcc3033c, 0xfccfcfcf, 0x03fc3cf3, 0x3fcf30c0, 0xfff3ff33,
    0x303c3cc0, 0xcf003f0f, 0xcc3c0003, 0xfc0cf3f3, 0xfccc033c, 0x03f0fcfc, 0x00fffc0c, 0xccf333f0,
    0xcc0cfcf3, 0x00ccc030, 0x0f3fffff, 0x0fcf03cf, 0xf03cc30c, 0x0fcfc3ff, 0xcc003c30, 0xf0fc3c30,
    0x3c0c0303, 0x33f0cc3c, 0xc030cccc, 0xc0ccfcc3, 0x0c3f03fc, 0x0c00cf00, 0xc3ccfc3c, 0x0c3ccf0f,
    0x30fc3333, 0x0fcfc33f, 0x30f00fc3, 0x30c3333f, 0xc0c0ffcc, 0x0cccc3cc, 0x030f003f, 0xc0c0f003,
    0xf3f00fc3, 0x3fff033f, 0xc0fc3fc0, 0x3ff33c0c, 0x000333c3, 0x3cf0030f, 0xcffc33c0, 0xff030cff,
];

/// What is stored for the key of A.1: each round key twice, for the two blocks that words hold.
pub fn stored_example()
    ensures { IsSchedule 2 (full 10) (bytes 16 0x2b7e151628aed2a6abf7158809cf4f3c)
        (map (word_bits 32) WORDS) }
{
    key_expansion_128();
}

/// How many words are stored for keys of 16, 24 and 32 bytes: eight for each of 11, 13 and 15 round
/// keys.
pub fn count_examples()
    ensures { map words_for (16 ∷ 24 ∷ 32 ∷ []) ≡ 88 ∷ 104 ∷ 120 ∷ [] }
{}

/// How a struct is read: it holds a key if its length is that of one. The words of the round keys
/// come first, as planes in words of the build.
pub fn struct_rules()
    ensures holds { (kept : KeptKey) → HoldsKey kept ↔ IsKeySize kept.length }
    ensures words { (kept : KeptKey)
        → words_in kept ≡ take (words_for kept.length) kept.round_keys }
    ensures key { (kept : KeptKey)
        → key_in kept ≡ key_of_planes kept_bits kept_blocks (words_in kept) }
{}

/// Each word after those of a key is zero. A key of 32 bytes leaves no word over.
pub fn zeros_after_rules()
    ensures of_16 { (words : List ℕ) → IsZeroAfter (record { length = 16; round_keys = words })
        ↔ (drop 88 words ≡ replicate 32 0) }
    ensures of_24 { (words : List ℕ) → IsZeroAfter (record { length = 24; round_keys = words })
        ↔ (drop 104 words ≡ replicate 16 0) }
    ensures of_32 { (words : List ℕ) → IsZeroAfter (record { length = 32; round_keys = words })
        ↔ (drop 120 words ≡ []) }
{}

/// What a wipe leaves, field by field: nothing.
pub fn no_key_examples()
    ensures length { no_key.length ≡ 0 }
    ensures round_keys { no_key.round_keys ≡ replicate 120 0 }
{}

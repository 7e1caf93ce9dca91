//! Stored round keys at values from outside, as contracts. With them the prover refuses a mistake
//! in a definition. The calls have no effect.
//!
//! `bytes n 0x..` is the n bytes that these digits write. A separate model in Python computed what
//! is stored, from the standard and the basis that `tables.rt` describes.

ghost use Rattle.std.specs.Prelude.{◌≡◌, ◌↔◌, ◌∷◌, [], ℕ, List, drop, map, replicate, take};
ghost use Rattle.aes_planes.specs.BigEndian.{bytes};
ghost use Rattle.aes_planes.specs.Fips197 as fips;
ghost use Rattle.aes_permute.specs.Keys.{encrypting, decrypting, key_in_room, lane_key_size};
ghost use Rattle.aes_permute.specs.Keys.{stored_keys, AreInverse, AreZeroAfter, IsCipherSchedule};
ghost use Rattle.aes_permute.specs.Lookup.{looked};
ghost use Rattle.aes_permute.specs.Stored.{untower, decryption_untower, key_untower};

// The stored round keys of Cipher for the key of FIPS 197, C.1, each as one number, highest byte
// first.
const ENCRYPTING: [u128; 11] = [
    0x000102030405060708090a0b0c0d0e0f,
    0x20debcd70ddfaaed2af3b6fa20d587e7,
    0x53a5806e301569fa7483bb543a1e7fed,
    0x538b64e10d4075f6173bb67543fbb175,
    0xd0dcdc68b3390373ca170968e74212e7,
    0x1fddf350c2df8f566688f9dfeff1944d,
    0x704a7996dcf98327d4331e9055d5ffae,
    0xc57106a2775597d3cdc29b13f6ca76eb,
    0xd0fd2939c9e231446ad959c1f275a00d,
    0x4b99613aecb9af95e83509f674825610,
    0x70727e1c80f729749064c4e82e4853a6,
];

// The stored round keys of EqInvCipher for the key of FIPS 197, C.1.
const DECRYPTING: [u128; 11] = [
    0x70727e1c80f729749064c4e82e4853a6,
    0xe25b714595ce54e1adad25182c9df3fd,
    0xe2b98ec95b4ffa9414b5ae00adea09d5,
    0x87da78f995218b306373d071957f5815,
    0x12d18d873e7ea4c0da200ce5da89df6d,
    0x978384a40072ff36c8858b6b2ccb0509,
    0x41dd714ebbdba281e489adf7c8645771,
    0xa22a23aad617d61373c1d1e30095ffef,
    0x55caf0fb58fa02698978f0955f93d9dc,
    0x321cde6521ae051ffdc711befa61ded0,
    0x000102030405060708090a0b0c0d0e0f,
];

/// What bytes stand for. 0x15 is 0x53 in the tower basis. In a state of decryption 0x15 stands for
/// the affine transformation of 0x53 (FIPS 197, 5.1.1), and in a round key for the sum of 0x53 and
/// 0x63.
#[tactic(auto, unfolding(crate::proofs::OnLiterals::stored_on_literals))]
pub fn byte_examples()
    ensures tower { untower 0x15 ≡ 0x53 }
    ensures key { key_untower 0x15 ≡ 0x30 }
    ensures inverse { decryption_untower 0x15 ≡ 0x74 }
    ensures zero { map untower (0x00 ∷ 0x01 ∷ []) ≡ 0x00 ∷ 0x01 ∷ [] }
{}

/// An entry of a table of sixteen bytes, and none from place 128 on, as byte shuffles have it.
#[tactic(auto, unfolding(crate::proofs::OnLiterals::stored_on_literals))]
pub fn lookup_examples()
    ensures entry { looked (bytes 16 0xf0f1f2f3f4f5f6f7f8f9fafbfcfdfeff) 15 ≡ 0xff }
    ensures none { looked (bytes 16 0xf0f1f2f3f4f5f6f7f8f9fafbfcfdfeff) 128 ≡ 0 }
{}

/// The stored round keys of Cipher for the key of FIPS 197, C.1, and that key.
#[tactic(auto, using(aes_planes::proofs::OnLiterals::keys), unfolding(aes_planes::proofs::OnLiterals::aes_by_table, crate::proofs::OnLiterals::stored_on_literals))]
pub fn encrypting_keys()
    ensures stored { encrypting (map (bytes 16) ENCRYPTING)
        ≡ fips.key_expansion (bytes 16 0x000102030405060708090a0b0c0d0e0f) }
{}

/// The stored round keys of EqInvCipher for the same key, and the round keys that C.1 prints for
/// it.
#[tactic(auto, unfolding(crate::proofs::OnLiterals::stored_on_literals))]
pub fn decrypting_keys()
    ensures stored { decrypting (map (bytes 16) DECRYPTING) ≡ map (bytes 16) (
        0x13111d7fe3944a17f307a78b4d2b30c5 ∷
        0x13aa29be9c8faff6f770f58000f7bf03 ∷
        0x1362a4638f2586486bff5a76f7874a83 ∷
        0x8d82fc749c47222be4dadc3e9c7810f5 ∷
        0x72e3098d11c5de5f789dfe1578a2cccb ∷
        0x2ec410276326d7d26958204a003f32de ∷
        0xa8a2f5044de2c7f50a7ef79869671294 ∷
        0xc7c6e391e54032f1479c306d6319e50c ∷
        0xa0db02992286d160a2dc029c2485d561 ∷
        0x8c56dff0825dd3f9805ad3fc8659d7fd ∷
        0x000102030405060708090a0b0c0d0e0f ∷
        []) }
{}

/// The stored round keys of EqInvCipher are those of the same key as Cipher's. Cipher's own round
/// keys are not, and neither are two round keys that aren't reversed.
#[tactic(auto, unfolding(aes_planes::proofs::OnLiterals::inverted_on_literals, crate::proofs::OnLiterals::stored_on_literals))]
pub fn inverse_examples()
    ensures pair { AreInverse (map (bytes 16) DECRYPTING) (map (bytes 16) ENCRYPTING) }
    ensures forward { ¬ AreInverse (map (bytes 16) ENCRYPTING) (map (bytes 16) ENCRYPTING) }
    ensures in_order { ¬ AreInverse (bytes 16 1 ∷ bytes 16 2 ∷ []) (bytes 16 1 ∷ bytes 16 2 ∷ []) }
{}

/// Eleven, thirteen and fifteen round keys belong to keys of 16, 24 and 32 bytes. Twelve belong to
/// no key.
pub fn size_examples()
    ensures sizes { map (λ n. lane_key_size (replicate n [])) (11 ∷ 13 ∷ 15 ∷ [])
        ≡ 16 ∷ 24 ∷ 32 ∷ [] }
    ensures twelve { ¬ IsCipherSchedule (replicate 12 []) }
{}

/// The keys of A.1, A.2 and A.3, from the first two of their stored round keys.
#[tactic(auto, unfolding(crate::proofs::OnLiterals::room_on_literals))]
pub fn room_examples()
    ensures of_16 { key_in_room 16 (bytes 16 0x2b7e151628aed2a6abf7158809cf4f3c
        ∷ bytes 16 0xe41733633ed7aa338e4bfa42a8f999d8 ∷ replicate 13 (replicate 16 0))
        ≡ bytes 16 0x2b7e151628aed2a6abf7158809cf4f3c }
    ensures of_24 { key_in_room 24 (bytes 16 0x8e73b0f7da0e6452c810f32b809079e5
        ∷ bytes 16 0x01729ea17acbc0dcfa9951c8be64270d ∷ replicate 13 (replicate 16 0))
        ≡ bytes 24 0x8e73b0f7da0e6452c810f32b809079e562f8ead2522c6b7b }
    ensures of_32 { key_in_room 32 (bytes 16 0x603deb1015ca71be2b73aef0857d7781
        ∷ bytes 16 0xffc5e8212f3906f9981c99c148b8495e ∷ replicate 13 (replicate 16 0))
        ≡ bytes 32 0x603deb1015ca71be2b73aef0857d77811f352c073b6108d72d9810a30914dff4 }
{}

/// Which of the blocks of room are the round keys of a key, and which after them are zero.
pub fn room_rules()
    ensures keys_of_16 { (room : List (List ℕ)) → stored_keys 16 room ≡ take 11 room }
    ensures keys_of_24 { (room : List (List ℕ)) → stored_keys 24 room ≡ take 13 room }
    ensures keys_of_32 { (room : List (List ℕ)) → stored_keys 32 room ≡ take 15 room }
    ensures after_16 { (room : List (List ℕ)) → AreZeroAfter 16 room
        ↔ (drop 11 room ≡ replicate 4 (replicate 16 0)) }
    ensures after_24 { (room : List (List ℕ)) → AreZeroAfter 24 room
        ↔ (drop 13 room ≡ replicate 2 (replicate 16 0)) }
    ensures after_32 { (room : List (List ℕ)) → AreZeroAfter 32 room ↔ (drop 15 room ≡ []) }
{}

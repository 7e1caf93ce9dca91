//! A struct that keeps a key, at values from outside, as contracts. With them the prover refuses a
//! mistake in a definition. The calls have no effect.
//!
//! `bytes n 0x..` is the n bytes that these digits write. A separate model in Python computed what
//! a struct stores, from the standard and the basis that `tables.rt` of `aes_permute` describes.

ghost use Rattle.std.specs.Prelude.{◌≡◌, ◌↔◌, map, replicate};
ghost use Rattle.aes_planes.specs.BigEndian.{bytes};
ghost use Rattle.aes_planes.specs.Fips197 as fips;
ghost use Rattle.aes_cipher.specs.KeySizes.{IsKeySize};
ghost use Rattle.aes_permute.specs.Keys.{encrypting, key_in_room, stored_keys, AreInverse};
ghost use Rattle.aes_permute.specs.Keys.{AreZeroAfter};
ghost use Rattle.aes_hybrid.specs.KeptKey.{key_in, no_key, no_key_both_ways, round_keys_in};
ghost use Rattle.aes_hybrid.specs.KeptKey.{HoldsKey, IsKeptBothWays, IsZeroAfter, IsZeroAfterBoth};
ghost use Rattle.aes_hybrid.specs.declared.kept_key.KeptKey.{KeptKey};
ghost use Rattle.aes_hybrid.specs.declared.kept_key.KeptBothWays.{KeptBothWays};

use aes_planes::examples::key_expansion_128;

// The blocks of the struct of the key of A.1, each as one number, highest byte first: the stored
// round keys of Cipher.
const ENCRYPTING: [u128; 15] = [
    0x2b7e151628aed2a6abf7158809cf4f3c,
    0xe41733633ed7aa338e4bfa42a8f999d8,
    0xf039b3a0a040448c408b19f086aeddfd,
    0x1ed98d2fd08e3e90fea0d0031619facd,
    0x7dcdc8e1c37a5c8c539abf2f2b54ef6e,
    0x3cca45299110c468ac04a668e9f094cb,
    0x16caf9e1e96e03e72b3e28a0ac5482e7,
    0xf671f7f771d51b7834d5dcf1f64bb17e,
    0x510d86924e12590d14a9c01d8c12b584,
    0xee6cb592ceab6ee1b4d72c0b56101bf1,
    0xb3779acbaa8d46ea825c6fabd5006fc5,
    0,
    0,
    0,
    0,
];

// The blocks of the struct of the key of A.1: the stored round keys of EqInvCipher.
const DECRYPTING: [u128; 15] = [
    0xb3779acbaa8d46ea825c6fabd5006fc5,
    0xe32ae929e2826200f20eae0c6eb3705a,
    0x1184867a2da0f25f3cb4b5aeb0b5a720,
    0x57086ba210103e763d2dc909a01d5873,
    0x7ad0a3c96b11bdfd011c1ff8b1397953,
    0x7aed8e873d214ad04609e4189c3c3229,
    0x5ae01a1d6b04fa8257e990e2f6fde8e4,
    0x01c8462a1d2d54d51038e2b38d31ccad,
    0xdfa042c5303902ab2125a6d3b1d53e4a,
    0xf9b588b5c330b4e73ddc3842bc916c54,
    0x2b7e151628aed2a6abf7158809cf4f3c,
    0,
    0,
    0,
    0,
];

/// What is stored for the key of A.1: its round keys in both directions, and zeros after them.
#[tactic(auto, unfolding(crate::proofs::OnLiterals::kept_on_literals))]
pub fn stored_example()
    ensures round_keys { encrypting (stored_keys 16 (map (bytes 16) ENCRYPTING))
        ≡ fips.key_expansion (bytes 16 0x2b7e151628aed2a6abf7158809cf4f3c) }
    ensures inverse { AreInverse (stored_keys 16 (map (bytes 16) DECRYPTING))
        (stored_keys 16 (map (bytes 16) ENCRYPTING)) }
    ensures key { key_in_room 16 (map (bytes 16) ENCRYPTING)
        ≡ bytes 16 0x2b7e151628aed2a6abf7158809cf4f3c }
    ensures after_encrypting { AreZeroAfter 16 (map (bytes 16) ENCRYPTING) }
    ensures after_decrypting { AreZeroAfter 16 (map (bytes 16) DECRYPTING) }
{
    key_expansion_128();
}

/// The struct of the key of A.1 is in order.
pub fn struct_example()
    ensures { IsKeptBothWays (record {
      key = record { length = 16; round_keys = map (bytes 16) ENCRYPTING };
      decrypting = map (bytes 16) DECRYPTING;
    }) }
{
    stored_example();
}

/// How a struct is read: it holds a key if its length is that of one, and the key is read from its
/// blocks.
pub fn struct_rules()
    ensures holds { (kept : KeptKey) → HoldsKey kept ↔ IsKeySize kept.length }
    ensures key { (kept : KeptKey) → key_in kept ≡ key_in_room kept.length kept.round_keys }
    ensures round_keys { (kept : KeptKey)
        → round_keys_in kept ≡ fips.key_expansion (key_in kept) }
{}

/// What a wipe leaves, field by field: nothing.
pub fn no_key_examples()
    ensures length { no_key.length ≡ 0 }
    ensures round_keys { no_key.round_keys ≡ replicate 15 (replicate 16 0) }
    ensures both_ways { no_key_both_ways.key ≡ no_key }
    ensures decrypting { no_key_both_ways.decrypting ≡ replicate 15 (replicate 16 0) }
{}

/// If a struct has nothing of another key after its round keys, that room is zero. In a struct for
/// both directions, the room of each direction is zero.
pub fn zeros_after()
    ensures alone { (kept : KeptKey) → IsZeroAfter kept → AreZeroAfter kept.length kept.round_keys }
    ensures encrypting { (kept : KeptBothWays) → IsZeroAfterBoth kept
        → AreZeroAfter kept.key.length kept.key.round_keys }
    ensures decrypting { (kept : KeptBothWays) → IsZeroAfterBoth kept
        → AreZeroAfter kept.key.length kept.decrypting }
{}

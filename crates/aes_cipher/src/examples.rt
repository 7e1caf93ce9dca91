//! Definitions of this crate at values from outside, as contracts. With them the prover refuses a
//! mistake in a definition. The calls have no effect.
//!
//! `bytes n 0x..` is the n bytes that these digits write.

ghost use Rattle.std.specs.Prelude.{◌≡◌, ◌↔◌, ◌⊎◌, ℕ, List, ◌∷◌, [], replicate};
ghost use Rattle.aes_planes.specs.BigEndian.{bytes};
ghost use Rattle.aes_planes.specs.Fips197 as fips;
ghost use Rattle.aes_cipher.specs.Blocks.{blocks_of, EachOrUnchanged};
ghost use Rattle.aes_cipher.specs.KeySizes.{IsKeySize};
ghost use Rattle.aes_cipher.specs.Lengths.{IsOneOf};

use crate::cipher::{Block, Decrypt, Direction, Encrypt};
use crate::zeroize::{Element, Zeroize};

/// The bytes 00 to 21 are two blocks and two bytes that are left out, and fifteen bytes are no
/// block (FIPS 197, 3.1).
#[tactic(auto, unfolding(aes_planes::specs::BigEndian::bytes))]
pub fn block_examples()
    ensures two { blocks_of
        (bytes 34 0x000102030405060708090a0b0c0d0e0f101112131415161718191a1b1c1d1e1f2021)
        ≡ bytes 16 0x000102030405060708090a0b0c0d0e0f
        ∷ bytes 16 0x101112131415161718191a1b1c1d1e1f ∷ [] }
    ensures none { blocks_of (bytes 15 0x000102030405060708090a0b0c0d0e) ≡ [] }
{}

/// The sizes of keys.
pub fn key_size_rule()
    ensures { (size : ℕ) → IsKeySize size ↔ IsOneOf (16 ∷ 24 ∷ 32 ∷ []) size }
{}

/// `EachOrUnchanged` for one block: after it stands f of the block or the block itself, and nothing
/// else.
pub fn unchanged_rule()
    ensures { (f : List ℕ → List ℕ) (before after : List ℕ)
        → EachOrUnchanged f (before ∷ []) (after ∷ [])
        ↔ ((after ≡ f before) ⊎ (after ≡ before)) }
{}

/// Encryption is Cipher, and decryption InvCipher; their rounds are those of Cipher and of
/// EqInvCipher (FIPS 197, 5.1, 5.3 and 5.3.5).
pub fn direction_examples()
    ensures encrypt { (w : List (List ℕ)) (block : List ℕ)
        → ⟦<Encrypt as Direction>⟧.processed w block
        ≡ fips.cipher_with w block }
    ensures decrypt { (w : List (List ℕ)) (block : List ℕ)
        → ⟦<Decrypt as Direction>⟧.processed w block
        ≡ fips.inv_cipher_with w block }
    ensures encrypt_step { (b : List ℕ) → ⟦<Encrypt as Direction>⟧.step b
        ≡ fips.mix_columns (fips.shift_rows (fips.sub_bytes b)) }
    ensures encrypt_last { (b : List ℕ) → ⟦<Encrypt as Direction>⟧.last_step b
        ≡ fips.shift_rows (fips.sub_bytes b) }
    ensures decrypt_step { (b : List ℕ) → ⟦<Decrypt as Direction>⟧.step b
        ≡ fips.inv_mix_columns (fips.inv_shift_rows (fips.inv_sub_bytes b)) }
    ensures decrypt_last { (b : List ℕ) → ⟦<Decrypt as Direction>⟧.last_step b
        ≡ fips.inv_shift_rows (fips.inv_sub_bytes b) }
{}

/// What a wipe leaves: zeros, whatever is wiped.
pub fn zero_examples()
    ensures of_16 { ⟦<u16 as Element>⟧.ZERO ≡ 0 }
    ensures of_32 { ⟦<u32 as Element>⟧.ZERO ≡ 0 }
    ensures of_64 { ⟦<u64 as Element>⟧.ZERO ≡ 0 }
    ensures of_128 { ⟦<u128 as Element>⟧.ZERO ≡ 0 }
    ensures of_block { ⟦<Block as Element>⟧.ZERO ≡ replicate 16 0 }
    ensures of_array { ⟦<[u64; 3] as Zeroize>⟧.ZERO ≡ 0 ∷ 0 ∷ 0 ∷ [] }
{}

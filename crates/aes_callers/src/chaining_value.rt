//! The value at the end of a chain, by a definition that counts its steps. The loop's invariant is
//! the definition.

ghost use Rattle.std.specs.Prelude.{◌≡◌, ℕ, List, [], ◌∷◌, length, replicate};
ghost use Rattle.aes_planes.specs.Fips197 as fips;
ghost use Rattle.aes_callers.specs.ChainingValue.{value_after};

use aes::Aes128Enc;
use aes_cipher::blocks::sum_of_blocks;
use aes_cipher::cipher::{Block, BlockCipherEncrypt, KeyInit};

/// Returns the chaining value after all blocks.
#[tactic(auto, unfolding(crate::specs::ChainingValue::value_after))]
pub fn chaining_value<C: BlockCipherEncrypt>(cipher: &C, blocks: &[Block]) -> Block
    ensures { result ≡ value_after (C.round_keys cipher.now) blocks.now (length blocks.now) }
{
    let mut value = [0; 16];
    for i in 0..blocks.len() {
        value = sum_of_blocks(&blocks[i], &value);
        cipher.encrypt_block(&mut value);
    }
    value
}

/// Returns the chaining value under a key. The contract names the key, by its expansion.
pub fn chaining_value_under(key: &[u8; 16], blocks: &[Block]) -> Block
    ensures { result ≡ value_after (fips.key_expansion key.now) blocks.now (length blocks.now) }
{
    chaining_value(&Aes128Enc::new(key), blocks)
}

/// States the value after no block and after two, so that the prover refuses a mistake in the
/// definition.
#[tactic(auto, unfolding(crate::specs::ChainingValue::value_after))]
pub fn value_examples()
    ensures none { (w : List (List ℕ)) → value_after w [] 0 ≡ replicate 16 0 }
    ensures two { (w : List (List ℕ)) (a b : List ℕ) → value_after w (a ∷ b ∷ []) 2
        ≡ fips.cipher_with w (fips.add_round_key b (fips.cipher_with w (fips.add_round_key a (replicate 16 0)))) }
{}

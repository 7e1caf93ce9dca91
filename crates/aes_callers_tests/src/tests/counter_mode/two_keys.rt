//! A cipher of one round, under any two round keys, made from the single rounds.

ghost use Rattle.std.specs.Prelude.{◌≡◌, ℕ, [], ◌∷◌};
ghost use Rattle.std.proofs.Common.{arith};
ghost use Rattle.aes_planes.specs.Each.{Each};
ghost use Rattle.aes_planes.specs.Fips197 as fips;

use aes::hazmat::{cipher_round, inv_mix_columns};
use aes_cipher::blocks::sum_of_blocks;
use aes_cipher::cipher::{BatchSize, BatchSizeUser, BlockCipherEncBackend, RoundKeysUser};
use aes_planes::laws;
use aes_planes::soft::word::Block;

// The round key that changes nothing.
const ZERO_KEY: Block = [0; 16];

// A cipher whose first round is its last.
#[derive(Drop)]
pub(super) struct TwoKeys {
    // The round key before the round.
    pub first: Block,
    // The round key of the round.
    pub last: Block,
}

// Applies the last round of Cipher, which does not mix columns (FIPS 197, 5.1).
fn last_round(block: &mut Block, round_key: &Block)
    ensures { block.new ≡ fips.add_round_key (fips.shift_rows (fips.sub_bytes block.old)) round_key.now }
{
    cipher_round(block, &ZERO_KEY);
    inv_mix_columns(block);
    *block = sum_of_blocks(block, round_key);
}

// Encrypts the block under the two round keys (Cipher, FIPS 197, 5.1).
#[tactic(auto, unfolding(aes_planes::specs::Fips197::cipher_with, aes_planes::specs::Fips197::state_after))]
fn encrypt_one(cipher: &TwoKeys, block: &mut Block)
    ensures { block.new ≡ fips.cipher_with (cipher.now.first ∷ cipher.now.last ∷ []) block.old }
{
    *block = sum_of_blocks(block, &cipher.first);
    last_round(block, &cipher.last);
}

// Encrypts each block under the two round keys (Cipher, FIPS 197, 5.1).
#[tactic(auto, using(aes_cipher::proofs::SliceRuns::finished_one))]
fn encrypt_each(cipher: &TwoKeys, blocks: &mut [Block])
    ensures { Each (fips.cipher_with (cipher.now.first ∷ cipher.now.last ∷ [])) blocks.old blocks.new }
{
    for block in blocks.iter_mut() {
        encrypt_one(cipher, block);
    }
}

impl RoundKeysUser for TwoKeys {
    ghost round_keys = { λ cipher. cipher.first ∷ cipher.last ∷ [] };

    fn round_keys_are_blocks(&self) {
        laws::blocks_have_16_bytes(&[self.first, self.last]);
    }

    ghost two_round_keys = { λ cipher. Prim.omega arith };
}

// Batches of one block.
pub(super) struct One;

impl BatchSize for One {
    ghost PAR_BLOCKS = { 1 };

    const PAR_BLOCKS: usize = 1;

    ghost at_least_one = { Prim.omega arith };
}

impl BatchSizeUser for TwoKeys {
    type Par = One;
}

impl BlockCipherEncBackend for TwoKeys {
    fn encrypt_block(&self, block: &mut Block) {
        encrypt_one(self, block);
    }

    fn encrypt_par_blocks(&self, blocks: &mut [Block]) {
        encrypt_each(self, blocks);
    }
}

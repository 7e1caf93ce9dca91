//! A backend that a user writes.

ghost use Rattle.std.specs.Prelude.{◌≡◌, ◌≤◌, length};
ghost use Rattle.std.proofs.Common.{arith};
ghost use Rattle.aes_planes.specs.Fips197 as fips;

use crate::own_closures::{decrypt_each, encrypt_each};
use aes_cipher::cipher::{
    Block, BlockCipherDecBackend, BlockCipherEncBackend, ParBlocksSizeUser, RoundKeysUser,
};
use aes_rounds::rounds::{Aes, expand_128};

/// Works round by round, in batches of two blocks.
#[derive(Drop)]
pub struct OwnBackend {
    rounds: Aes<11>,
    ghost two_round_keys: { 2 ≤ length (⟦<Aes<11> as RoundKeysUser>⟧.round_keys rounds) },
}

impl OwnBackend {
    /// Makes the backend of a key.
    pub fn of_key(key: &[u8; 16]) -> OwnBackend
        ensures { ⟦<OwnBackend as RoundKeysUser>⟧.round_keys result ≡ fips.key_expansion key.now }
    {
        OwnBackend {
            rounds: Aes::<11>::new(&expand_128(key)),
        }
    }
}

impl RoundKeysUser for OwnBackend {
    ghost round_keys = { λ backend. ⟦<Aes<11> as RoundKeysUser>⟧.round_keys backend.rounds };

    fn round_keys_are_blocks(&self) {
        self.rounds.round_keys_are_blocks();
    }

    ghost two_round_keys = { λ backend. backend.two_round_keys };
}

impl ParBlocksSizeUser for OwnBackend {
    ghost PAR_BLOCKS = { 2 };

    const PAR_BLOCKS: usize = 2;

    ghost at_least_one = { Prim.omega arith };
}

impl BlockCipherEncBackend for OwnBackend {
    fn encrypt_block(&self, block: &mut Block) {
        self.rounds.encrypt_block(block);
    }

    fn encrypt_par_blocks(&self, blocks: &mut [Block]) {
        encrypt_each(&self.rounds, blocks);
    }
}

impl BlockCipherDecBackend for OwnBackend {
    fn decrypt_block(&self, block: &mut Block) {
        self.rounds.decrypt_block(block);
    }

    fn decrypt_par_blocks(&self, blocks: &mut [Block]) {
        decrypt_each(&self.rounds, blocks);
    }
}

//! Encryption under any list of round keys.

ghost use Rattle.std.specs.Prelude.{◌≡◌, ◌⊎◌, ◌≤◌, length};

use super::all_rounds;
use super::with_inverse::{Aes, AesDec};
use aes_cipher::cipher::{BatchOfEight, BatchSizeUser, BlockCipherEncBackend, RoundKeysUser};
use aes_cipher::not_clone::NotClone;
use aes_planes::laws;
use aes_planes::soft::word::Block;
use std::slice;

/// Encrypts round by round, under a list of RK round keys in the standard's order.
#[derive(Drop)]
pub struct AesEnc<const RK: usize> {
    round_keys: [Block; RK],
    ghost two_round_keys: { 2 ≤ length round_keys },
}

impl<const RK: usize> AesEnc<RK> {
    /// Makes the cipher under these round keys, which need not be the expansion of a key.
    pub fn new(round_keys: &[Block; RK]) -> AesEnc<RK>
        requires { (RK ≡ 11) ⊎ (RK ≡ 13) ⊎ (RK ≡ 15) }
        ensures { ⟦<AesEnc<RK> as RoundKeysUser>⟧.round_keys result ≡ round_keys.now }
    {
        AesEnc {
            round_keys: *round_keys,
        }
    }

    /// Returns the cipher and its inverse under the same round keys.
    pub fn as_encdec(&self) -> Aes<RK>
        ensures { ⟦<Aes<RK> as RoundKeysUser>⟧.round_keys result
            ≡ ⟦<AesEnc<RK> as RoundKeysUser>⟧.round_keys self.now }
    {
        Aes::with_round_keys(&self.round_keys)
    }

    /// Returns the inverse cipher under the same round keys.
    pub fn as_dec(&self) -> AesDec<RK>
        ensures { ⟦<AesDec<RK> as RoundKeysUser>⟧.round_keys result
            ≡ ⟦<AesEnc<RK> as RoundKeysUser>⟧.round_keys
            self.now }
    {
        AesDec::with_round_keys(&self.round_keys)
    }
}

impl<const RK: usize> NotClone for AesEnc<RK> {}

impl<const RK: usize> RoundKeysUser for AesEnc<RK> {
    ghost round_keys = { λ cipher. cipher.round_keys };

    fn round_keys_are_blocks(&self) {
        laws::blocks_have_16_bytes(&self.round_keys);
    }

    ghost two_round_keys = { λ cipher. cipher.two_round_keys };
}

impl<const RK: usize> BatchSizeUser for AesEnc<RK> {
    type Par = BatchOfEight;
}

impl<const RK: usize> BlockCipherEncBackend for AesEnc<RK> {
    fn encrypt_block(&self, block: &mut Block) {
        all_rounds::encrypt(slice::from_mut(block), &self.round_keys);
    }

    fn encrypt_par_blocks(&self, blocks: &mut [Block]) {
        all_rounds::encrypt(blocks, &self.round_keys);
    }
}

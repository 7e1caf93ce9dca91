//! Decryption under any list of round keys, alone or beside encryption.

ghost use Rattle.std.specs.Prelude.{◌≡◌, ◌⊎◌, ◌≤◌, length};
ghost use Rattle.aes_planes.specs.Each.{Each};
ghost use Rattle.aes_planes.specs.Fips197 as fips;

use super::all_rounds;
use super::inverted_keys::inverted_keys;
use aes_cipher::aes::BothWays;
use aes_cipher::cipher::{
    BatchOfEight, BatchSizeUser, BlockCipherDecBackend, BlockCipherEncBackend, Decrypt,
    RoundKeysUser,
};
use aes_cipher::not_clone::NotClone;
use aes_planes::laws;
use aes_planes::soft::word::Block;
use std::marker::PhantomData;
use std::slice;

/// Works round by round, under a list of RK round keys in the standard's order. The directions D
/// are both, or only decryption.
pub struct WithInverse<const RK: usize, D> {
    round_keys: [Block; RK],
    inverted_keys: [Block; RK],
    directions: PhantomData<D>,
    ghost inverted: { inverted_keys ≡ fips.inverted_keys round_keys },
    ghost two_round_keys: { 2 ≤ length round_keys },
}

/// Encrypts and decrypts round by round, under a list of RK round keys in the standard's order.
pub type Aes<const RK: usize> = WithInverse<RK, BothWays>;

/// Decrypts round by round, under a list of RK round keys in the standard's order.
pub type AesDec<const RK: usize> = WithInverse<RK, Decrypt>;

impl<const RK: usize, D> Drop for WithInverse<RK, D> {
    fn drop(self) {
        let WithInverse {
            round_keys: _,
            inverted_keys: _,
            directions: _,
        } = self;
    }
}

impl<const RK: usize, D> NotClone for WithInverse<RK, D> {}

impl<const RK: usize, D> WithInverse<RK, D> {
    /// Makes the cipher under these round keys, which need not be the expansion of a key.
    pub fn new(round_keys: &[Block; RK]) -> WithInverse<RK, D>
        requires { (RK ≡ 11) ⊎ (RK ≡ 13) ⊎ (RK ≡ 15) }
        ensures { ⟦<WithInverse<RK, D> as RoundKeysUser>⟧.round_keys result ≡ round_keys.now }
    {
        WithInverse::with_round_keys(round_keys)
    }

    // Keeps the round keys, and computes the inverted ones.
    pub(super) fn with_round_keys(round_keys: &[Block; RK]) -> WithInverse<RK, D>
        requires { 2 ≤ RK }
        ensures { ⟦<WithInverse<RK, D> as RoundKeysUser>⟧.round_keys result ≡ round_keys.now }
    {
        WithInverse {
            round_keys: *round_keys,
            inverted_keys: inverted_keys(round_keys),
            directions: PhantomData,
        }
    }

    // Decrypts each block, by EqInvCipher under the inverted round keys (FIPS 197, 5.3.5).
    #[tactic(auto, using(crate::proofs::InvertedKeys::inverse_of_each))]
    fn decrypt(&self, blocks: &mut [Block])
        ensures { Each (fips.inv_cipher_with self.now.round_keys) blocks.old blocks.new }
    {
        laws::equivalent_inverse();
        all_rounds::decrypt(blocks, &self.inverted_keys);
    }
}

impl<const RK: usize, D> RoundKeysUser for WithInverse<RK, D> {
    ghost round_keys = { λ cipher. cipher.round_keys };

    fn round_keys_are_blocks(&self) {
        laws::blocks_have_16_bytes(&self.round_keys);
    }

    ghost two_round_keys = { λ cipher. cipher.two_round_keys };
}

impl<const RK: usize, D> BatchSizeUser for WithInverse<RK, D> {
    type Par = BatchOfEight;
}

impl<const RK: usize> BlockCipherEncBackend for WithInverse<RK, BothWays> {
    fn encrypt_block(&self, block: &mut Block) {
        all_rounds::encrypt(slice::from_mut(block), &self.round_keys);
    }

    fn encrypt_par_blocks(&self, blocks: &mut [Block]) {
        all_rounds::encrypt(blocks, &self.round_keys);
    }
}

impl<const RK: usize, D> BlockCipherDecBackend for WithInverse<RK, D> {
    fn decrypt_block(&self, block: &mut Block) {
        self.decrypt(slice::from_mut(block));
    }

    fn decrypt_par_blocks(&self, blocks: &mut [Block]) {
        self.decrypt(blocks);
    }
}

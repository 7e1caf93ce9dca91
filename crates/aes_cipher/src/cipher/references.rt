//! References: a reference to a cipher is a cipher, and one to a backend is a backend.

use super::batches::BatchSizeUser;
use super::decrypt::BlockCipherDecrypt;
use super::decrypt_backend::{BlockCipherDecBackend, BlockCipherDecClosure};
use super::encrypt::BlockCipherEncrypt;
use super::encrypt_backend::{BlockCipherEncBackend, BlockCipherEncClosure};
use super::round_keys::RoundKeysUser;
use super::sizes::Block;

impl<C: RoundKeysUser> RoundKeysUser for &C {
    ghost round_keys = { λ lent. C.round_keys lent.now };

    fn round_keys_are_blocks(&self) {
        (**self).round_keys_are_blocks();
    }

    ghost two_round_keys = { λ lent. C.two_round_keys lent.now };
}

impl<C: BlockCipherEncrypt> BlockCipherEncrypt for &C {
    fn encrypt_with_backend<F: BlockCipherEncClosure>(&self, f: &mut F) {
        (**self).encrypt_with_backend(f);
    }

    fn encrypt_with_backend_for<F: BlockCipherEncClosure>(&self, blocks: usize, f: &mut F) {
        (**self).encrypt_with_backend_for(blocks, f);
    }

    fn encrypt_block(&self, block: &mut Block) {
        (**self).encrypt_block(block);
    }

    fn encrypt_blocks(&self, blocks: &mut [Block]) {
        (**self).encrypt_blocks(blocks);
    }
}

impl<C: BlockCipherDecrypt> BlockCipherDecrypt for &C {
    fn decrypt_with_backend<F: BlockCipherDecClosure>(&self, f: &mut F) {
        (**self).decrypt_with_backend(f);
    }

    fn decrypt_with_backend_for<F: BlockCipherDecClosure>(&self, blocks: usize, f: &mut F) {
        (**self).decrypt_with_backend_for(blocks, f);
    }

    fn decrypt_block(&self, block: &mut Block) {
        (**self).decrypt_block(block);
    }

    fn decrypt_blocks(&self, blocks: &mut [Block]) {
        (**self).decrypt_blocks(blocks);
    }
}

impl<B: BatchSizeUser> BatchSizeUser for &B {
    type Par = B::Par;
}

impl<B: BlockCipherEncBackend + BatchSizeUser> BlockCipherEncBackend for &B {
    fn encrypt_block(&self, block: &mut Block) {
        (**self).encrypt_block(block);
    }

    fn encrypt_par_blocks(&self, blocks: &mut [Block]) {
        (**self).encrypt_par_blocks(blocks);
    }

    fn encrypt_first_blocks(&self, count: usize, blocks: &mut [Block]) {
        (**self).encrypt_first_blocks(count, blocks);
    }
}

impl<B: BlockCipherDecBackend + BatchSizeUser> BlockCipherDecBackend for &B {
    fn decrypt_block(&self, block: &mut Block) {
        (**self).decrypt_block(block);
    }

    fn decrypt_par_blocks(&self, blocks: &mut [Block]) {
        (**self).decrypt_par_blocks(blocks);
    }
}

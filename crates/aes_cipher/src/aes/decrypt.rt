//! Ciphers that decrypt.

use super::AesCipher;
use super::direction_sets::Allows;
use super::stored_keys::{Decrypts, Processes};
use crate::cipher::{Block, BlockCipherDecClosure, BlockCipherDecrypt, Decrypt};

impl<S: Decrypts, D: Allows<Decrypt>> BlockCipherDecrypt for AesCipher<S, D> {
    #[inline(always)]
    fn decrypt_with_backend<F: BlockCipherDecClosure>(&self, f: &mut F) {
        self.keys.decrypt_with_backend_for(usize::MAX, f);
    }

    #[inline(always)]
    fn decrypt_with_backend_for<F: BlockCipherDecClosure>(&self, blocks: usize, f: &mut F) {
        self.keys.decrypt_with_backend_for(blocks, f);
    }

    #[inline(always)]
    fn decrypt_block(&self, block: &mut Block) {
        self.keys.process_one(block);
    }

    #[inline(always)]
    fn decrypt_blocks(&self, blocks: &mut [Block]) {
        self.keys.process_slice(blocks);
    }
}

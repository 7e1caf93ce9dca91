//! Ciphers that encrypt.

use super::AesCipher;
use super::direction_sets::Allows;
use super::stored_keys::{Encrypts, Processes};
use crate::cipher::{Block, BlockCipherEncClosure, BlockCipherEncrypt, Encrypt};

impl<S: Encrypts, D: Allows<Encrypt>> BlockCipherEncrypt for AesCipher<S, D> {
    #[inline(always)]
    fn encrypt_with_backend<F: BlockCipherEncClosure>(&self, f: &mut F) {
        self.keys.encrypt_with_backend_for(usize::MAX, f);
    }

    #[inline(always)]
    fn encrypt_with_backend_for<F: BlockCipherEncClosure>(&self, blocks: usize, f: &mut F) {
        self.keys.encrypt_with_backend_for(blocks, f);
    }

    #[inline(always)]
    fn encrypt_block(&self, block: &mut Block) {
        self.keys.process_one(block);
    }

    #[inline(always)]
    fn encrypt_blocks(&self, blocks: &mut [Block]) {
        self.keys.process_slice(blocks);
    }
}

//! Backends as ciphers: gives slice calls to a value that only has a backend.

ghost use Rattle.std.specs.Prelude.{◌≡◌};

use crate::closures::Row;
use aes_cipher::cipher::{
    BlockCipherDecBackend, BlockCipherDecClosure, BlockCipherDecrypt, BlockCipherEncBackend,
    BlockCipherEncClosure, BlockCipherEncrypt, RoundKeysUser,
};
use aes_planes::soft::word::Block;

/// A cipher that lends its one backend to every closure.
#[derive(Drop)]
pub struct ByBackend<B: RoundKeysUser> {
    pub backend: B,
}

impl<B: RoundKeysUser> RoundKeysUser for ByBackend<B> {
    ghost round_keys = { λ cipher. B.round_keys cipher.backend };

    fn round_keys_are_blocks(&self) {
        self.backend.round_keys_are_blocks();
    }

    ghost two_round_keys = { λ cipher. B.two_round_keys cipher.backend };
}

impl<B: BlockCipherEncBackend> BlockCipherEncrypt for ByBackend<B> {
    fn encrypt_with_backend<F: BlockCipherEncClosure>(&self, f: &mut F) {
        f.call(&self.backend);
    }

    fn encrypt_block(&self, block: &mut Block) {
        self.backend.encrypt_block(block);
    }

    fn encrypt_blocks(&self, blocks: &mut [Block]) {
        let mut row = Row { blocks };
        BlockCipherEncClosure::call(&mut row, &self.backend);
    }
}

impl<B: BlockCipherDecBackend> BlockCipherDecrypt for ByBackend<B> {
    fn decrypt_with_backend<F: BlockCipherDecClosure>(&self, f: &mut F) {
        f.call(&self.backend);
    }

    fn decrypt_block(&self, block: &mut Block) {
        self.backend.decrypt_block(block);
    }

    fn decrypt_blocks(&self, blocks: &mut [Block]) {
        let mut row = Row { blocks };
        BlockCipherDecClosure::call(&mut row, &self.backend);
    }
}

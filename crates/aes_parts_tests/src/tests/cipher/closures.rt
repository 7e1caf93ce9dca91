//! Closures that work with a backend of any type. `calls.rt` passes them to the calls of
//! `aes_cipher::cipher`; there is no test in this file.

ghost use Rattle.std.specs.Prelude.{◌≡◌};
ghost use Rattle.aes_planes.specs.Each.{Each};
ghost use Rattle.aes_planes.specs.Fips197 as fips;

use aes_cipher::cipher::{
    Block, BlockCipherDecBackend, BlockCipherDecClosure, BlockCipherEncBackend,
    BlockCipherEncClosure, Encrypt, ParBlocksSizeUser, process_by_backend,
};

/// Five blocks that are encrypted.
#[derive(Drop)]
pub struct Five {
    /// The blocks.
    pub blocks: [Block; 5],
}

impl BlockCipherEncClosure for Five {
    ghost did = { λ before w after. Each (fips.cipher_with w) before.blocks after.blocks };

    fn call<B: BlockCipherEncBackend>(&mut self, backend: &B) {
        process_by_backend::<Encrypt, B>(backend, &mut self.blocks);
    }
}

/// Blocks that are decrypted: one alone, and a batch if the backend takes batches of that size.
#[derive(Drop)]
pub struct OneAndBatch {
    /// The block alone.
    pub one: Block,
    /// The batch.
    pub batch: [Block; 3],
    /// Whether the backend takes batches of that size.
    pub fits: bool,
}

impl BlockCipherDecClosure for OneAndBatch {
    ghost did = { λ before w after. after.one ≡ fips.inv_cipher_with w before.one };

    fn call<B: BlockCipherDecBackend>(&mut self, backend: &B) {
        backend.decrypt_block(&mut self.one);
        self.fits = self.batch.len() == B::PAR_BLOCKS;
        if self.fits {
            backend.decrypt_par_blocks(&mut self.batch);
        }
    }
}

//! Closures that a user writes.

ghost use Rattle.std.specs.Prelude.{◌≡◌};
ghost use Rattle.aes_planes.specs.Each.{Each};
ghost use Rattle.aes_planes.specs.Fips197 as fips;

use aes_cipher::cipher::{
    Block, BlockCipherDecBackend, BlockCipherDecClosure, BlockCipherEncBackend,
    BlockCipherEncClosure,
};

/// Encrypts each block: batches while a whole one is left, then single blocks.
#[tactic(auto, using(aes_cipher::proofs::SliceRuns::finished_run, aes_cipher::proofs::SliceRuns::finished_one))]
pub fn encrypt_each<B: BlockCipherEncBackend>(backend: &B, blocks: &mut [Block])
    ensures { Each (fips.cipher_with (B.round_keys backend.now)) blocks.old blocks.new }
{
    let size = B::PAR_BLOCKS;
    let mut done = 0;
    while size <= blocks.len() - done {
        backend.encrypt_par_blocks(&mut blocks[done..done + size]);
        done += size;
    }
    while done < blocks.len() {
        backend.encrypt_block(&mut blocks[done]);
        done += 1;
    }
}

/// Decrypts each block: batches while a whole one is left, then single blocks.
#[tactic(auto, using(aes_cipher::proofs::SliceRuns::finished_run, aes_cipher::proofs::SliceRuns::finished_one))]
pub fn decrypt_each<B: BlockCipherDecBackend>(backend: &B, blocks: &mut [Block])
    ensures { Each (fips.inv_cipher_with (B.round_keys backend.now)) blocks.old blocks.new }
{
    let size = B::PAR_BLOCKS;
    let mut done = 0;
    while size <= blocks.len() - done {
        backend.decrypt_par_blocks(&mut blocks[done..done + size]);
        done += size;
    }
    while done < blocks.len() {
        backend.decrypt_block(&mut blocks[done]);
        done += 1;
    }
}

/// Five blocks, which are encrypted or decrypted.
#[derive(Drop)]
pub struct Five {
    /// The blocks.
    pub blocks: [Block; 5],
}

impl BlockCipherEncClosure for Five {
    ghost did = { λ before w after. Each (fips.cipher_with w) before.blocks after.blocks };

    fn call<B: BlockCipherEncBackend>(&mut self, backend: &B) {
        encrypt_each(backend, &mut self.blocks);
    }
}

impl BlockCipherDecClosure for Five {
    ghost did = { λ before w after. Each (fips.inv_cipher_with w) before.blocks after.blocks };

    fn call<B: BlockCipherDecBackend>(&mut self, backend: &B) {
        decrypt_each(backend, &mut self.blocks);
    }
}

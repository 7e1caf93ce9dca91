//! Backends in one direction, and the loop over many blocks, which is written once for both
//! directions.

ghost use Rattle.std.specs.Prelude.{◌≡◌, ◌≤◌, ℕ, List, length};
ghost use Rattle.aes_planes.specs.Each.{Each};

use super::batches::ParBlocksSizeUser;
use super::decrypt_backend::BlockCipherDecBackend;
use super::directions::{Decrypt, Direction, Encrypt};
use super::encrypt_backend::BlockCipherEncBackend;
use super::round_keys::RoundKeysUser;
use super::sizes::Block;

/// A backend that processes blocks in the direction D: every backend of that direction is one.
pub trait BackendIn<D: Direction>: ParBlocksSizeUser + RoundKeysUser {
    /// Processes the block in its place.
    fn process_block(&self, block: &mut Block)
        ensures { block.new ≡ D.processed (Self.round_keys self.now) block.old };

    /// Processes each block of one batch in its place.
    fn process_batch(&self, blocks: &mut [Block])
        requires one_batch { length blocks.old ≡ Self.PAR_BLOCKS }
        ensures { Each (D.processed (Self.round_keys self.now)) blocks.old blocks.new };
}

impl<B: BlockCipherEncBackend> BackendIn<Encrypt> for B {
    #[inline(always)]
    fn process_block(&self, block: &mut Block) {
        self.encrypt_block(block);
    }

    #[inline(always)]
    fn process_batch(&self, blocks: &mut [Block]) {
        self.encrypt_par_blocks(blocks);
    }
}

impl<B: BlockCipherDecBackend> BackendIn<Decrypt> for B {
    #[inline(always)]
    fn process_block(&self, block: &mut Block) {
        self.decrypt_block(block);
    }

    #[inline(always)]
    fn process_batch(&self, blocks: &mut [Block]) {
        self.decrypt_par_blocks(blocks);
    }
}

/// Processes every block: batches while a whole one is left, then single blocks.
#[tactic(auto, using(crate::proofs::SliceRuns::finished_run, crate::proofs::SliceRuns::finished_one))]
pub fn process_by_backend<D: Direction, B: BackendIn<D>>(backend: &B, blocks: &mut [Block])
    ensures { Each (D.processed (B.round_keys backend.now)) blocks.old blocks.new }
{
    let size = B::PAR_BLOCKS;
    let mut done = 0;
    while size <= blocks.len() - done {
        backend.process_batch(&mut blocks[done..done + size]);
        done += size;
    }
    while done < blocks.len() {
        backend.process_block(&mut blocks[done]);
        done += 1;
    }
}

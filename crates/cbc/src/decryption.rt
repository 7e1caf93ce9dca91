//! Decryption of a chain, many blocks at once: no block waits for the one before it.

ghost use Rattle.std.specs.Prelude.{◌≡◌, ◌≤◌, List, ℕ, length};
ghost use Rattle.cbc.specs.Cbc.{last_of, unchained};

use aes_cipher::blocks::sum_of_blocks;
use aes_cipher::cipher::{
    Block, BlockCipherDecBackend, BlockCipherDecClosure, Decrypt, RoundKeysUser, process_by_backend,
};

// How many blocks are decrypted at once: whole batches of every backend of the library.
const LARGEST_PART: usize = 64;

// Decrypts a part of a chain. `previous` is the encrypted block before the part, and afterwards the
// last encrypted block of the part. Encrypted blocks are copied, so that no plain text is left on
// the stack.
fn unchain_part<B: BlockCipherDecBackend>(backend: &B, previous: &mut Block, blocks: &mut [Block])
    requires fits { length blocks.old ≤ 64 }
    ensures unchained { blocks.new ≡ unchained (B.round_keys backend.now) previous.old blocks.old }
    ensures previous { previous.new ≡ last_of previous.old blocks.old }
{
    let mut room = [[0; 16]; LARGEST_PART];
    let encrypted = &mut room[..blocks.len()];
    encrypted.copy_from_slice(blocks);
    process_by_backend::<Decrypt, B>(backend, blocks);
    for k in 0..blocks.len() {
        blocks[k] = sum_of_blocks(&blocks[k], previous);
        *previous = encrypted[k];
    }
}

/// A chain whose next blocks are to be decrypted.
#[derive(Drop)]
pub struct Chain<'a> {
    /// The encrypted block before the blocks, and afterwards the last encrypted one of them.
    pub previous: Block,
    /// The blocks.
    pub blocks: &'a mut [Block],
}

impl<'a> BlockCipherDecClosure for Chain<'a> {
    ghost did = { λ before w after.
        (after.blocks.now ≡ unchained w before.previous before.blocks.now)
        × ((after.previous ≡ last_of before.previous before.blocks.now)
        × (after.blocks.ghost_name ≡ before.blocks.ghost_name)) };

    fn call<B: BlockCipherDecBackend>(&mut self, backend: &B) {
        unchain(backend, &mut self.previous, self.blocks);
    }
}

// Decrypts the blocks of a chain, part by part.
fn unchain<B: BlockCipherDecBackend>(backend: &B, previous: &mut Block, blocks: &mut [Block])
    ensures unchained { blocks.new ≡ unchained (B.round_keys backend.now) previous.old blocks.old }
    ensures previous { previous.new ≡ last_of previous.old blocks.old }
{
    let mut done = 0;
    while done < blocks.len() {
        let count = LARGEST_PART.min(blocks.len() - done);
        unchain_part(backend, previous, &mut blocks[done..done + count]);
        done += count;
    }
}

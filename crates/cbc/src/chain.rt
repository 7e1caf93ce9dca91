//! A chain of blocks, and its encryption.

ghost use Rattle.std.specs.Prelude.{◌≡◌};
ghost use Rattle.cbc.specs.Cbc.{chained, last_of, unchained};

use crate::decryption::Chain;
use aes_cipher::blocks::sum_of_blocks;
use aes_cipher::cipher::{Block, BlockCipherDecrypt, BlockCipherEncrypt};

/// The state of a chain: `struct fotsgure_aes_cbc`. Each call continues where the last one ended.
#[repr(C)]
#[derive(Drop)]
pub struct Cbc {
    /// The last encrypted block. Before the first one it is the initialization vector.
    pub previous: Block,
}

impl Cbc {
    /// Encrypts the blocks in place, as the next ones of the chain.
    pub fn encrypt_blocks<C: BlockCipherEncrypt>(&mut self, cipher: &C, blocks: &mut [Block])
        ensures blocks { blocks.new ≡ chained (C.round_keys cipher.now)
            self.old.previous blocks.old }
        ensures previous { self.new.previous ≡ last_of self.old.previous blocks.new }
    {
        let mut previous = self.previous;
        for i in 0..blocks.len() {
            previous = sum_of_blocks(&blocks[i], &previous);
            cipher.encrypt_block(&mut previous);
            blocks[i] = previous;
        }
        self.previous = previous;
    }

    /// Decrypts the blocks in place, as the next ones of the chain.
    pub fn decrypt_blocks<C: BlockCipherDecrypt>(&mut self, cipher: &C, blocks: &mut [Block])
        ensures blocks { blocks.new ≡ unchained (C.round_keys cipher.now)
            self.old.previous blocks.old }
        ensures previous { self.new.previous ≡ last_of self.old.previous blocks.old }
    {
        let count = blocks.len();
        let mut chain = Chain {
            previous: self.previous,
            blocks,
        };
        cipher.decrypt_with_backend_for(count, &mut chain);
        self.previous = chain.previous;
    }
}

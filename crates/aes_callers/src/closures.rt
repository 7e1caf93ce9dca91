//! Closures as users write them. Each works with a backend of any batch size, in both directions.

ghost use Rattle.std.specs.Prelude.{◌≡◌, length};
ghost use Rattle.aes_planes.specs.Each.{Each};
ghost use Rattle.aes_planes.specs.Fips197 as fips;

use aes_cipher::cipher::{
    BackendIn, BlockCipherDecBackend, BlockCipherDecClosure, BlockCipherDecrypt,
    BlockCipherEncBackend, BlockCipherEncClosure, BlockCipherEncrypt, Decrypt, Direction, Encrypt,
    RoundKeysUser, process_by_backend,
};
use aes_planes::laws;
use aes_planes::soft::word::Block;

/// Does nothing with the backend, and leaves its own field unchanged.
#[derive(Drop)]
pub struct LeavesBackend {
    pub count: u8,
}

impl BlockCipherEncClosure for LeavesBackend {
    ghost did = { λ before w after. after.count ≡ before.count };

    fn call<B: BlockCipherEncBackend>(&mut self, _backend: &B) {}
}

impl BlockCipherDecClosure for LeavesBackend {
    ghost did = { λ before w after. after.count ≡ before.count };

    fn call<B: BlockCipherDecBackend>(&mut self, _backend: &B) {}
}

/// Processes its block, and then the result once more.
#[derive(Drop)]
pub struct Twice {
    pub block: Block,
}

impl BlockCipherEncClosure for Twice {
    ghost did = { λ before w after. after.block
        ≡ fips.cipher_with w (fips.cipher_with w before.block) };

    fn call<B: BlockCipherEncBackend>(&mut self, backend: &B) {
        backend.encrypt_block(&mut self.block);
        backend.encrypt_block(&mut self.block);
    }
}

impl BlockCipherDecClosure for Twice {
    ghost did = { λ before w after. after.block
        ≡ fips.inv_cipher_with w (fips.inv_cipher_with w before.block) };

    fn call<B: BlockCipherDecBackend>(&mut self, backend: &B) {
        backend.decrypt_block(&mut self.block);
        backend.decrypt_block(&mut self.block);
    }
}

/// Processes blocks that it borrows: batches while a whole one is left, then single blocks.
#[derive(Drop)]
pub struct Row<'a> {
    pub blocks: &'a mut [Block],
}

impl<'a> BlockCipherEncClosure for Row<'a> {
    ghost did = { λ before w after.
        Each (fips.cipher_with w) before.blocks.now after.blocks.now
        × (after.blocks.ghost_name ≡ before.blocks.ghost_name) };

    fn call<B: BlockCipherEncBackend>(&mut self, backend: &B) {
        process_by_backend::<Encrypt, B>(backend, self.blocks);
    }
}

impl<'a> BlockCipherDecClosure for Row<'a> {
    ghost did = { λ before w after.
        Each (fips.inv_cipher_with w) before.blocks.now after.blocks.now
        × (after.blocks.ghost_name ≡ before.blocks.ghost_name) };

    fn call<B: BlockCipherDecBackend>(&mut self, backend: &B) {
        process_by_backend::<Decrypt, B>(backend, self.blocks);
    }
}

// Processes the first block alone, then all others.
fn process_first_then_all<D: Direction, B: BackendIn<D>>(backend: &B, blocks: &mut [Block])
    ensures { Each (D.processed (B.round_keys backend.now)) blocks.old blocks.new }
{
    if let Some((first, rest)) = blocks.split_first_mut() {
        backend.process_block(first);
        process_by_backend::<D, B>(backend, rest);
    }
}

/// Processes 24 blocks of its own: a single one, then batches while a whole one is left, then
/// single blocks.
#[derive(Drop)]
pub struct Mixed {
    pub blocks: [Block; 24],
}

impl BlockCipherEncClosure for Mixed {
    ghost did = { λ before w after. Each (fips.cipher_with w) before.blocks after.blocks };

    fn call<B: BlockCipherEncBackend>(&mut self, backend: &B) {
        process_first_then_all::<Encrypt, B>(backend, &mut self.blocks);
    }
}

impl BlockCipherDecClosure for Mixed {
    ghost did = { λ before w after. Each (fips.inv_cipher_with w) before.blocks after.blocks };

    fn call<B: BlockCipherDecBackend>(&mut self, backend: &B) {
        process_first_then_all::<Decrypt, B>(backend, &mut self.blocks);
    }
}

/// Encrypts the blocks with any cipher's backend, in batches where batches fit.
pub fn encrypt_row<C: BlockCipherEncrypt>(cipher: &C, blocks: &mut [Block])
    ensures { Each (fips.cipher_with (C.round_keys cipher.now)) blocks.old blocks.new }
{
    let mut row = Row { blocks };
    cipher.encrypt_with_backend(&mut row);
}

/// Encrypts a block twice and decrypts it twice, by closures: the block comes back.
pub fn twice_there_and_back<C: BlockCipherEncrypt + BlockCipherDecrypt>(
    cipher: &C,
    block: Block,
) -> Block
    ensures { result ≡ block }
{
    laws::sums_of_blocks();
    cipher.round_keys_are_blocks();
    cipher.ciphers_undo_each_other();
    let mut twice = Twice { block };
    cipher.encrypt_with_backend(&mut twice);
    cipher.decrypt_with_backend(&mut twice);
    twice.block
}

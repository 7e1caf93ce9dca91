//! The traits of keys, ciphers and backends, each call through its bound.

ghost use Rattle.std.specs.Prelude.{◌≤◌, length};

use aes_cipher::cipher::{
    AlgorithmName, Block, BlockCipherDecBackend, BlockCipherDecClosure, BlockCipherDecrypt,
    BlockCipherEncBackend, BlockCipherEncClosure, BlockCipherEncrypt, BlockSizeUser, InvalidLength,
    KeyInit, KeySizeUser, NotEqualError, ParBlocksSizeUser,
};
use std::fmt;

/// The numbers of a cipher's type: of bytes in a key, and in a block.
pub fn sizes<C: KeySizeUser + BlockSizeUser>() -> [usize; 2] {
    [C::KEY_SIZE, C::BLOCK_SIZE]
}

/// How many blocks a backend has in a batch, and bytes in a block.
pub fn batch_size<B: ParBlocksSizeUser>() -> [usize; 2] {
    [B::PAR_BLOCKS, B::BLOCK_SIZE]
}

/// Two values of a key, if the slice has the size of one.
pub fn made<C: KeyInit + Drop>(key: &C::Key, slice: &[u8]) -> Result<(C, C), InvalidLength> {
    let from_array: C = C::new(key);
    Ok((from_array, C::new_from_slice(slice)?))
}

/// Writes the name of a type.
pub fn write_name<A: AlgorithmName, W: fmt::Write>(f: &mut fmt::Formatter<W>) -> fmt::Result {
    A::write_alg_name::<W>(f)
}

/// Encrypts a block, and a batch of copies of it.
pub fn backend_encrypts<B: BlockCipherEncBackend>(backend: &B, block: &mut Block) {
    backend.encrypt_block(block);
    let mut blocks = [*block; 8];
    if blocks.len() == B::PAR_BLOCKS {
        backend.encrypt_par_blocks(&mut blocks);
    }
}

/// Decrypts a block, and a batch of copies of it.
pub fn backend_decrypts<B: BlockCipherDecBackend>(backend: &B, block: &mut Block) {
    backend.decrypt_block(block);
    let mut blocks = [*block; 8];
    if blocks.len() == B::PAR_BLOCKS {
        backend.decrypt_par_blocks(&mut blocks);
    }
}

/// Encrypts blocks by every call.
pub fn encrypts<C: BlockCipherEncrypt, F: BlockCipherEncClosure>(
    cipher: &C,
    closure: &mut F,
    input: &[Block],
    blocks: &mut [Block],
) -> Result<(), NotEqualError> {
    cipher.encrypt_with_backend::<F>(closure);
    cipher.encrypt_blocks(blocks);
    for block in blocks.iter_mut() {
        cipher.encrypt_block(block);
        let plain = *block;
        cipher.encrypt_block_b2b(&plain, block);
    }
    cipher.encrypt_blocks_b2b(input, blocks)
}

/// Decrypts blocks by every call.
pub fn decrypts<C: BlockCipherDecrypt, F: BlockCipherDecClosure>(
    cipher: &C,
    closure: &mut F,
    input: &[Block],
    blocks: &mut [Block],
) -> Result<(), NotEqualError> {
    cipher.decrypt_with_backend::<F>(closure);
    cipher.decrypt_blocks(blocks);
    for block in blocks.iter_mut() {
        cipher.decrypt_block(block);
        let encrypted = *block;
        cipher.decrypt_block_b2b(&encrypted, block);
    }
    cipher.decrypt_blocks_b2b(input, blocks)
}

//! A chain of blocks, and the first bytes of its last value.

ghost use Rattle.std.specs.Prelude.{◌≡◌, ◌↔◌, ◌-◌, ◌≤◌, ◌++◌, length, replicate, take, IsTrue};
ghost use Rattle.aes_planes.specs.Fips197 as fips;
ghost use Rattle.cmac.specs.Chain.{chained_through};

use aes_cipher::blocks::{blocks_equal, sum_of_blocks};
use aes_cipher::cipher::{Block, BlockCipherEncrypt};

// Continues a chain by one block: these bytes, followed by zeros.
fn chain_block<C: BlockCipherEncrypt>(cipher: &C, value: &mut Block, bytes: &[u8])
    requires { length bytes.now ≤ 16 }
    ensures { value.new ≡ fips.cipher_with (C.round_keys cipher.now)
        (fips.add_round_key value.old (bytes.now ++ replicate (16 - length bytes.now) 0)) }
{
    let mut block = [0; 16];
    block[..bytes.len()].copy_from_slice(bytes);
    *value = sum_of_blocks(value, &block);
    cipher.encrypt_block(value);
}

/// Continues a chain by a string, followed by zeros that fill its last block. Each block is added
/// to the value, and the sum is encrypted.
pub fn chain<C: BlockCipherEncrypt>(cipher: &C, value: &mut Block, bytes: &[u8])
    ensures { value.new ≡ chained_through (C.round_keys cipher.now) value.old bytes.now }
{
    for i in 0..bytes.len().div_ceil(16) {
        let end = bytes.len().min(16 * i + 16);
        chain_block(cipher, value, &bytes[16 * i..end]);
    }
}

/// Returns whether a tag of at most 16 bytes is the first bytes of a block. Compares without an
/// early exit.
#[tactic(auto, using(aes_cipher::proofs::Strings::first_bytes_tell))]
pub fn begins_with(block: &Block, tag: &[u8]) -> bool
    requires { length tag.now ≤ 16 }
    ensures { IsTrue result ↔ (tag.now ≡ take (length tag.now) block.now) }
{
    let mut claimed = *block;
    claimed[..tag.len()].copy_from_slice(tag);
    blocks_equal(&claimed, block)
}

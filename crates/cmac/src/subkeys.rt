//! The two subkeys.

ghost use Rattle.std.specs.Prelude.{◌≡◌};
ghost use Rattle.cmac.specs.Cmac.{doubled_block, subkey_1, subkey_2};

use aes_cipher::blocks::{block_of_number, number_of_block};
use aes_cipher::cipher::{Block, BlockCipherEncrypt};

// Doubles a block in the field of 2^128 elements. The bit that falls out is secret, so the code
// multiplies by it and doesn't branch on it.
fn double(block: &Block) -> Block
    ensures { result ≡ doubled_block block.now }
{
    let number = number_of_block(block);
    block_of_number((number << 1) ^ (0x87 * (number >> 127)))
}

/// Returns K1 and K2 (6.1).
#[tactic(auto, unfolding(crate::specs::Cmac::subkey_1, crate::specs::Cmac::subkey_2))]
pub(crate) fn subkeys<C: BlockCipherEncrypt>(cipher: &C) -> (Block, Block)
    ensures first { result.0 ≡ subkey_1 (C.round_keys cipher.now) }
    ensures second { result.1 ≡ subkey_2 (C.round_keys cipher.now) }
{
    let mut block = [0; 16];
    cipher.encrypt_block(&mut block);
    let first = double(&block);
    let second = double(&first);
    (first, second)
}

//! A chain of blocks that comes back, over any block cipher.

ghost use Rattle.std.specs.Prelude.{◌≡◌};

use aes_cipher::cipher::{Block, BlockCipherDecrypt, BlockCipherEncrypt};
use aes_planes::laws;
use cbc::Cbc;
use cbc::laws::chains_back;

/// Encrypts the blocks and decrypts them again: the blocks come back.
pub fn cbc_there_and_back<C: BlockCipherEncrypt + BlockCipherDecrypt>(
    cipher: &C,
    iv: &Block,
    blocks: &mut [Block],
)
    ensures { blocks.new ≡ blocks.old }
{
    chains_back();
    laws::block_has_16_bytes(*iv);
    laws::blocks_have_16_bytes(blocks);
    cipher.round_keys_are_blocks();
    let mut encrypting = Cbc { previous: *iv };
    encrypting.encrypt_blocks(cipher, blocks);
    let mut decrypting = Cbc { previous: *iv };
    decrypting.decrypt_blocks(cipher, blocks);
}

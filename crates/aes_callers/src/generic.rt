//! Programs over any block cipher, with what they can prove.

ghost use Rattle.std.specs.Prelude.{◌≡◌, ◌≢◌, ◌↔◌, length, IsErr, IfOk};
ghost use Rattle.aes_planes.specs.Fips197 as fips;

use aes_cipher::cipher::{
    Block, BlockCipherDecrypt, BlockCipherEncrypt, InvalidLength, KeyInit, RoundKeysUser,
};
use aes_planes::laws;

/// Encrypts a block with a value that somebody else made, and decrypts it again: the block comes
/// back. The key is not known here, so the contract refers to the value's round keys.
pub fn there_and_back_by<C: BlockCipherEncrypt + BlockCipherDecrypt>(
    cipher: &C,
    block: &mut Block,
) -> Block
    ensures there { result ≡ fips.cipher_with (C.round_keys cipher.now) block.old }
    ensures back { block.new ≡ block.old }
{
    cipher.ciphers_undo_each_other();
    cipher.encrypt_block(block);
    let there = *block;
    cipher.decrypt_block(block);
    there
}

/// Encrypts a block with a value made from a key, and decrypts it again. The result in between is
/// the standard's cipher under that key.
pub fn there_and_back<C: KeyInit + BlockCipherEncrypt + BlockCipherDecrypt + Drop>(
    key: &C::Key,
    block: &mut Block,
) -> Block
    ensures there { result ≡ fips.cipher (C.key_bytes key.now) block.old }
    ensures back { block.new ≡ block.old }
{
    there_and_back_by(&C::new(key), block)
}

/// Encrypts a block under a key given as a slice, and decrypts it again: the block comes back.
///
/// # Errors
///
/// `InvalidLength` exactly if the slice doesn't have the size of a key.
pub fn there_and_back_from_slice<C: KeyInit + BlockCipherEncrypt + BlockCipherDecrypt + Drop>(
    key: &[u8],
    block: &mut Block,
) -> Result<Block, InvalidLength>
    ensures refusal { IsErr result ↔ (length key.now ≢ C.KEY_SIZE) }
    ensures there { IfOk result (λ there. there ≡ fips.cipher key.now block.old) }
    ensures back { block.new ≡ block.old }
{
    let cipher = C::new_from_slice(key)?;
    Ok(there_and_back_by(&cipher, block))
}

/// Encrypts every block and decrypts every block: the blocks come back.
pub fn blocks_there_and_back<C: BlockCipherEncrypt + BlockCipherDecrypt>(
    cipher: &C,
    blocks: &mut [Block],
)
    ensures { blocks.new ≡ blocks.old }
{
    laws::blocks_have_16_bytes(blocks);
    laws::inverse_ciphers_on_blocks();
    cipher.round_keys_are_blocks();
    cipher.encrypt_blocks(blocks);
    cipher.decrypt_blocks(blocks);
}

/// The key of a value has as many bytes as its type says.
pub fn has_sized_key<C: KeyInit>(cipher: &C)
    ensures { length (C.own_key cipher.now) ≡ C.KEY_SIZE }
{
    cipher.key_has_its_size();
}

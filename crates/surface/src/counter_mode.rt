//! Counter mode.

use aes_cipher::cipher::{Block, BlockCipherEncrypt};
use aes_ctr::{Ctr128BE, KeystreamEnd, stream_cut};

/// Adds a keystream to bytes.
pub fn applied<C: BlockCipherEncrypt + Drop>(
    cipher: C,
    iv: Block,
    bytes: &mut [u8],
) -> Result<(), KeystreamEnd> {
    stream_cut();
    let mut mode: Ctr128BE<C> = Ctr128BE::new(cipher, iv);
    mode.try_apply(bytes)
}

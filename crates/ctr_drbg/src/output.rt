//! Output blocks: the cipher of V + 1, V + 2, .., each modulo 2^128.

ghost use Rattle.std.specs.Prelude.{◌≡◌, ◌^◌, ◌≤◌, length};
ghost use Rattle.ctr_drbg.specs.CtrDrbg as nist;

use aes_cipher::blocks::{block_of_number, number_of_block};
use aes_cipher::cipher::{Block, BlockCipherEncrypt, KeyInit};
use aes_ctr::add_keystream;

// The place in the keystream of counter mode from V on where the encryption of V + 1 begins.
const FIRST_OUTPUT: u64 = 16;

/// Adds as many bytes of output to bytes (10.2.1.2, steps 2 to 4).
pub(crate) fn add_output<C: BlockCipherEncrypt + KeyInit>(cipher: &C, v: &Block, bytes: &mut [u8])
    requires { length bytes.old ≤ 2 ^ 16 }
    ensures { bytes.new
        ≡ nist.exclusive_or
        (nist.output (C.own_key cipher.now) v.now (length bytes.old)) bytes.old }
{
    add_keystream(cipher, v, FIRST_OUTPUT, bytes);
}

/// Fills bytes with output (10.2.1.5.1, steps 3 to 5).
pub(crate) fn put_output<C: BlockCipherEncrypt + KeyInit>(cipher: &C, v: &Block, bytes: &mut [u8])
    requires { length bytes.old ≤ 2 ^ 16 }
    ensures { bytes.new ≡ nist.output (C.own_key cipher.now) v.now (length bytes.old) }
{
    bytes.fill(0);
    add_output(cipher, v, bytes);
}

/// Returns V after this many bytes of output.
pub(crate) fn moved_on(v: &Block, bytes: usize) -> Block
    requires { bytes ≤ 2 ^ 16 }
    ensures { result ≡ nist.v_after v.now (nist.blocks_for bytes) }
{
    block_of_number(number_of_block(v).wrapping_add(bytes.div_ceil(16) as u128))
}

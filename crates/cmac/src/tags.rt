//! Tags of messages.

ghost use Rattle.std.specs.Prelude.{◌≡◌, ◌↔◌, ◌≤◌, length, take, IsTrue};
ghost use Rattle.aes_planes.specs.Fips197 as fips;
ghost use Rattle.cmac.specs.Cmac.{last_block, cmac};

use crate::chaining::{begins_with, chain};
use crate::subkeys::subkeys;
use aes_cipher::blocks::{blocks_equal, sum_of_blocks};
use aes_cipher::cipher::{Block, BlockCipherEncrypt};

// The last block of a message, plus a subkey (6.2, step 4).
fn last_block<C: BlockCipherEncrypt>(cipher: &C, rest: &[u8]) -> Block
    requires { length rest.now ≤ 16 }
    ensures { result ≡ last_block (C.round_keys cipher.now) rest.now }
{
    let (first, second) = subkeys(cipher);
    let mut block = [0; 16];
    block[..rest.len()].copy_from_slice(rest);
    if rest.len() == 16 {
        sum_of_blocks(&first, &block)
    } else {
        block[rest.len()] = 0x80;
        sum_of_blocks(&second, &block)
    }
}

/// Returns the tag of a message, by its last block, of which these are the bytes, and the value of the
/// chain before it (6.2, steps 4 to 7).
#[inline(never)]
pub(crate) fn tag_at_end<C: BlockCipherEncrypt>(cipher: &C, value: &Block, rest: &[u8]) -> Block
    requires { length rest.now ≤ 16 }
    ensures { result ≡ fips.cipher_with (C.round_keys cipher.now)
        (fips.add_round_key value.now (last_block (C.round_keys cipher.now) rest.now)) }
{
    let last = last_block(cipher, rest);
    let mut tag = sum_of_blocks(value, &last);
    cipher.encrypt_block(&mut tag);
    tag
}

/// Returns the tag of a message (SP 800-38B, 6.2), all 16 bytes of it. Use a key for tags alone.
#[inline(never)]
pub fn tag<C: BlockCipherEncrypt>(cipher: &C, message: &[u8]) -> Block
    ensures { result ≡ cmac (C.round_keys cipher.now) message.now }
{
    let before = message.len().saturating_sub(1) / 16;
    let mut value = [0; 16];
    chain(cipher, &mut value, &message[..16 * before]);
    tag_at_end(cipher, &value, &message[16 * before..])
}

/// Returns whether this is the tag of a message (6.3). Compares without an early exit.
pub fn is_tag<C: BlockCipherEncrypt>(cipher: &C, message: &[u8], claimed: &Block) -> bool
    ensures { IsTrue result ↔ (claimed.now ≡ cmac (C.round_keys cipher.now) message.now) }
{
    blocks_equal(claimed, &tag(cipher, message))
}

/// Returns whether these bytes, at most 16, are the first bytes of the tag of a message (6.2, step
/// 7). Compares without an early exit. An empty tag is accepted for every message, so first refuse
/// tags that are too short.
#[inline(never)]
pub fn is_tag_start<C: BlockCipherEncrypt>(cipher: &C, message: &[u8], claimed: &[u8]) -> bool
    requires { length claimed.now ≤ 16 }
    ensures { IsTrue result ↔ (claimed.now
        ≡ take (length claimed.now) (cmac (C.round_keys cipher.now) message.now)) }
{
    begins_with(&tag(cipher, message), claimed)
}

//! A message whose lengths were checked.

ghost use Rattle.std.specs.Prelude.{◌≡◌, ◌↔◌, ◌≤◌, ◌++◌, length, IsTrue};
ghost use Rattle.aes_planes.specs.Fips197 as fips;
ghost use Rattle.cmac.specs.Chain.{chained_through};
ghost use Rattle.ccm.specs.Ccm as nist;
ghost use Rattle.ccm.specs.Ccm.{chain_end, counter_block, encoded_length, Fits};

use crate::formatting::{first_block, first_counter, put_length};
use aes_cipher::blocks::sum_of_blocks;
use aes_cipher::cipher::{Block, BlockCipherEncrypt};
use aes_ctr::add_keystream;
use aes_planes::laws;
use cmac::{begins_with, chain};

// Continues a chain with the length of additional data and with the data (A.2.2).
fn chain_additional<C: BlockCipherEncrypt>(cipher: &C, value: &mut Block, additional: &[u8])
    ensures { value.new ≡ chained_through (C.round_keys cipher.now) value.old
        (encoded_length (length additional.now) ++ additional.now) }
{
    if additional.len() == 0 {
        return;
    }
    let mut block = [0; 16];
    let size = put_length(additional.len() as u64, &mut block);
    let (first, rest) = additional.split_at(additional.len().min(16 - size));
    block[size..size + first.len()].copy_from_slice(first);
    chain(cipher, value, &block);
    chain(cipher, value, rest);
}

/// Writes the tag of additional data and a plain text as if it had all 16 bytes. The tag is the
/// first `tag_length` of these (SP 800-38C, 6.1).
pub(crate) fn put_tag<C: BlockCipherEncrypt>(
    cipher: &C,
    nonce: &[u8],
    tag_length: usize,
    additional: &[u8],
    text: &[u8],
    tag: &mut Block,
)
    requires shortest { 7 ≤ length nonce.now }
    requires longest { length nonce.now ≤ 13 }
    requires tag { tag_length ≤ 16 }
    ensures { tag.new ≡ fips.add_round_key
        (chain_end (C.round_keys cipher.now) nonce.now tag_length additional.now text.now)
        (fips.cipher_with (C.round_keys cipher.now) (counter_block nonce.now 0)) }
{
    *tag = first_block(nonce, tag_length, additional.len(), text.len());
    cipher.encrypt_block(tag);
    chain_additional(cipher, tag, additional);
    chain(cipher, tag, text);
    let mut mask = first_counter(nonce);
    cipher.encrypt_block(&mut mask);
    *tag = sum_of_blocks(tag, &mask);
}

/// Whether a tag is that of additional data and a plain text. Compares without an early exit.
pub(crate) fn is_tag<C: BlockCipherEncrypt>(
    cipher: &C,
    nonce: &[u8],
    additional: &[u8],
    text: &[u8],
    claimed: &[u8],
) -> bool
    requires shortest { 7 ≤ length nonce.now }
    requires longest { length nonce.now ≤ 13 }
    requires tag { length claimed.now ≤ 16 }
    ensures { IsTrue result ↔ (claimed.now ≡ nist.tag (C.round_keys cipher.now) nonce.now
        (length claimed.now) additional.now text.now) }
{
    let mut expected = [0; 16];
    put_tag(
        cipher,
        nonce,
        claimed.len(),
        additional,
        text,
        &mut expected,
    );
    begins_with(&expected, claimed)
}

/// Encrypts or decrypts a text in place: counter mode from the second counter block on (6.1, steps
/// 5 to 8).
pub(crate) fn process_text<C: BlockCipherEncrypt>(cipher: &C, nonce: &[u8], text: &mut [u8])
    requires shortest { 7 ≤ length nonce.now }
    requires longest { length nonce.now ≤ 13 }
    requires fits { Fits (length nonce.now) (length text.old) }
    ensures { text.new ≡ nist.text (C.round_keys cipher.now) nonce.now text.old }
{
    let block = first_counter(nonce);
    // No effect: it states that these bytes are a block.
    laws::block_has_16_bytes(block);
    add_keystream(cipher, &block, 16, text);
}

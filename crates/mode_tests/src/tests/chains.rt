//! CBC: the standard's example, cut at each block, there and back.

use aes_cipher::aes::{AesCipher, Bits128, BothWays};
use aes_cipher::cipher::{BlockCipherDecrypt, BlockCipherEncrypt, KeyInit};
use aes_hybrid::BothWaysKeys;
use aes_hybrid::widths::Width256;
use cbc::Cbc;
use standards::blocks::{PLAIN, blocks};
use standards::chains::{CHAINED_128, IV};
use standards::keys::KEY_A1;

// Whether the plain blocks become the encrypted ones, and these become the plain ones again,
// wherever the chain is cut into two calls.
fn chains<C: BlockCipherEncrypt + BlockCipherDecrypt>(cipher: &C) -> bool {
    let mut right = true;
    for cut in 0..=4 {
        let mut row = blocks(&PLAIN);
        let mut chain = Cbc {
            previous: IV.to_be_bytes(),
        };
        chain.encrypt_blocks(cipher, &mut row[..cut]);
        chain.encrypt_blocks(cipher, &mut row[cut..]);
        right &= row == blocks(&CHAINED_128) && chain.previous == row[3];
        chain.previous = IV.to_be_bytes();
        chain.decrypt_blocks(cipher, &mut row[..cut]);
        chain.decrypt_blocks(cipher, &mut row[cut..]);
        right &= row == blocks(&PLAIN);
    }
    right
}

// SP 800-38A, F.2.1 and F.2.2.
#[test]
fn chains_the_blocks_of_the_standard(rt: HostRuntime) {
    assert!(rt; chains(&AesCipher::<BothWaysKeys<Bits128, Width256>, BothWays>::new(&KEY_A1)));
}

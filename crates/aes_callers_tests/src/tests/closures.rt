//! Tests of the proved callers in `closures.rt` of `aes_callers`, which pass closures to backends.
//! They run on the types of `aes` and `aes_hybrid`.

use aes::{Block, FixslicedAes};
use aes_callers::closures::{Row, encrypt_row, twice_there_and_back};
use aes_cipher::aes::{AesCipher, Bits128, BothWays, KeySize};
use aes_cipher::cipher::{BlockCipherDecrypt, BlockCipherEncrypt, KeyInit};
use aes_hybrid::BothWaysKeys;
use standards::blocks::{ENCRYPTED_128, PLAIN, blocks, different_blocks};
use standards::keys::KEY_A1;

// The four blocks of an example, and the first once more.
fn five_blocks(digits: &[u128; 4]) -> [Block; 5] {
    let [a, b, c, d] = blocks(digits);
    [a, b, c, d, a]
}

// Whether five blocks become the standard's and come back.
fn takes_a_row_of_five<C: BlockCipherEncrypt + BlockCipherDecrypt>(cipher: &C) -> bool {
    let plain = five_blocks(&PLAIN);
    let wanted = five_blocks(&ENCRYPTED_128);
    let mut row = plain;
    cipher.encrypt_with_backend(&mut Row { blocks: &mut row });
    let there = row == wanted;
    cipher.decrypt_with_backend(&mut Row { blocks: &mut row });
    let back = row == plain;
    encrypt_row(cipher, &mut row);
    there && back && row == wanted
}

// The type of `aes` for both directions, with the size as a parameter.
fn planes_take_a_row<K: KeySize>(key: &K::Key) -> bool {
    takes_a_row_of_five(&FixslicedAes::<K, BothWays>::new(key))
}

// The type of `aes_hybrid` for both directions, with the size as a parameter.
fn both_forms_take_a_row<K: KeySize>(key: &K::Key) -> bool {
    takes_a_row_of_five(&AesCipher::<BothWaysKeys<K>, BothWays>::new(key))
}

// SP 800-38A, F.1.1 and F.1.2.
#[test]
fn a_row_of_five_has_the_blocks_of_the_standard(rt: HostRuntime) {
    assert!(rt; planes_take_a_row::<Bits128>(&KEY_A1));
    assert!(rt; both_forms_take_a_row::<Bits128>(&KEY_A1));
}

// A block encrypted twice and decrypted twice by the type of `aes` for a size.
fn twice_by_planes<K: KeySize>(key: &K::Key, block: Block) -> Block {
    twice_there_and_back(&FixslicedAes::<K, BothWays>::new(key), block)
}

#[test]
fn decrypting_twice_gives_back_what_was_encrypted_twice(rt: HostRuntime) {
    for block in different_blocks() {
        assert!(rt; twice_by_planes::<Bits128>(&[0x16; 16], block) == block);
    }
}

//! What no clause says: that the calls on blocks answer.

use aes_cipher::blocks::{
    block_of_halves, block_of_number, blocks_equal, halves_and_blocks, halves_of_block,
    number_of_block, numbers_as_blocks, sum_of_blocks,
};
use aes_cipher::cipher::Block;

// Sixteen bytes that differ, and the number that they are.
const COUNTED: Block = [0, 1, 2, 3, 4, 5, 6, 7, 8, 9, 10, 11, 12, 13, 14, 15];

const NUMBER: u128 = 0x000102030405060708090a0b0c0d0e0f;

#[test]
fn sums_and_compares(rt: HostRuntime) {
    let sum = sum_of_blocks(&COUNTED, &[0xf0; 16]);
    assert!(rt; sum[0] == 0xf0);
    assert!(rt; sum[15] == 0xff);
    assert!(rt; sum_of_blocks(&sum, &[0xf0; 16]) == COUNTED);
    assert!(rt; blocks_equal(&COUNTED, &COUNTED));
    for i in 0..16 {
        let mut other = COUNTED;
        other[i] ^= 0x80;
        assert!(rt; !blocks_equal(&COUNTED, &other));
    }
}

#[test]
fn counts_in_blocks(rt: HostRuntime) {
    numbers_as_blocks();
    assert!(rt; block_of_number(NUMBER) == COUNTED);
    assert!(rt; number_of_block(&COUNTED) == NUMBER);
    assert!(rt; block_of_number(u128::MAX) == [0xff; 16]);
}

#[test]
fn halves_blocks(rt: HostRuntime) {
    halves_and_blocks();
    let (first, second) = halves_of_block(&COUNTED);
    assert!(rt; first == [0, 1, 2, 3, 4, 5, 6, 7]);
    assert!(rt; second == [8, 9, 10, 11, 12, 13, 14, 15]);
    assert!(rt; block_of_halves(&first, &second) == COUNTED);
}

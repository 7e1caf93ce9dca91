//! Slices of blocks, in every form and by every cipher, against the calls on single blocks.

use crate::tests::every_cipher::{DirectionTrial, try_every_cipher};
use aes_cipher::cipher::{Block, CipherIn, Direction, NotEqualError};
use standards::blocks::different_blocks;
use std::test::Fail;

// A block that no call has written.
const UNTOUCHED: Block = [0xee; 16];

// Whether slices become what the calls on blocks make of them, in both forms, and the blocks after
// them stay.
fn processes_slices<D: Direction, C: CipherIn<D>>(cipher: &C) -> bool {
    let blocks = different_blocks();
    let mut right = true;
    for count in 0..=24 {
        let mut wanted = blocks;
        for i in 0..count {
            cipher.process_block(&mut wanted[i]);
        }
        let mut in_place = blocks;
        cipher.process_blocks(&mut in_place[..count]);
        let mut output = [UNTOUCHED; 24];
        right &= cipher
            .process_blocks_b2b(&blocks[..count], &mut output[..count])
            .is_ok();
        right &= in_place == wanted && output[..count] == wanted[..count];
        right &= output[count..].iter().all(|block| *block == UNTOUCHED);
    }
    right
}

// Whether slices of unequal lengths, 0 to 9, are refused, and no block of the output is written.
fn refuses_unequal_lengths<D: Direction, C: CipherIn<D>>(cipher: &C) -> bool {
    let blocks = different_blocks();
    let mut right = true;
    for from in 0..10 {
        for to in 0..10 {
            if from != to {
                let mut output = [UNTOUCHED; 10];
                let answer = cipher.process_blocks_b2b(&blocks[..from], &mut output[..to]);
                right &= answer == Err(NotEqualError);
                right &= output.iter().all(|block| *block == UNTOUCHED);
            }
        }
    }
    right
}

// Slices of 0 to 24 blocks, and slices of unequal lengths.
struct Slices;

impl DirectionTrial for Slices {
    fn passes<D: Direction, C: CipherIn<D>>(&self, cipher: &C) -> bool {
        processes_slices::<D, C>(cipher) && refuses_unequal_lengths::<D, C>(cipher)
    }
}

#[test]
fn processes_slices_as_single_blocks(rt: HostRuntime) -> Result<(), Fail> {
    try_every_cipher(&rt, &Slices)
}

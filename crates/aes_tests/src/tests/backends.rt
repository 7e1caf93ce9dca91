//! The backends of every cipher: what closures on them leave. Those of the round by round ciphers
//! take eight blocks at once.

use super::every_cipher::{DirectionTrial, try_every_cipher};
use aes::Block;
use aes_callers::closures::{LeavesBackend, Mixed, Row, Twice};
use aes_cipher::cipher::{CipherIn, Direction};
use standards::blocks::different_blocks;
use std::test::Fail;

fn does_nothing<D: Direction, C: CipherIn<D>>(cipher: &C) -> bool {
    let mut nothing = LeavesBackend { count: 7 };
    cipher.process_with_backend(&mut nothing);
    nothing.count == 7
}

fn works_twice<D: Direction, C: CipherIn<D>>(cipher: &C, block: Block) -> bool {
    let mut twice = Twice { block };
    cipher.process_with_backend(&mut twice);
    let mut wanted = block;
    cipher.process_block(&mut wanted);
    cipher.process_block(&mut wanted);
    twice.block == wanted
}

fn works_on_rows<D: Direction, C: CipherIn<D>>(cipher: &C) -> bool {
    let plain = different_blocks();
    let mut wanted = plain;
    for i in 0..wanted.len() {
        cipher.process_block(&mut wanted[i]);
    }
    let mut mixed = Mixed { blocks: plain };
    cipher.process_with_backend(&mut mixed);
    let mut five = plain;
    cipher.process_with_backend(&mut Row {
        blocks: &mut five[..5],
    });
    mixed.blocks == wanted && five[..5] == wanted[..5] && five[5..] == plain[5..]
}

// A closure that does nothing, one that works twice, and blocks in slices, by what single calls
// leave.
struct Closures;

impl DirectionTrial for Closures {
    fn passes<D: Direction, C: CipherIn<D>>(&self, cipher: &C) -> bool {
        does_nothing::<D, C>(cipher)
            && works_twice::<D, C>(cipher, different_blocks()[3])
            && works_on_rows::<D, C>(cipher)
    }
}

#[test]
fn closures_leave_what_single_calls_leave(rt: HostRuntime) -> Result<(), Fail> {
    try_every_cipher(&rt, &Closures)
}

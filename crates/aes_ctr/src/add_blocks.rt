//! Sums of bytes and blocks of the keystream.

ghost use Rattle.std.specs.Prelude.{◌≡◌, ◌+◌, ◌*◌, ◌≤◌, ◌<◌, length, slice_index};
ghost use Rattle.aes_ctr.specs.CounterMode.{plus_stream};
ghost use Rattle.aes_ctr.specs.Private.{byte_of_blocks};

use aes_cipher::cipher::Block;
use std::simd::prelude::*;

// Adds to bytes the bytes of a block from one place on: all sixteen as one vector.
#[tactic(auto, using(crate::proofs::Runs::part_calls))]
#[inline(always)]
fn add_part(block: &Block, from: usize, bytes: &mut [u8])
    requires { from + length bytes.old ≤ 16 }
    ensures { bytes.new ≡ plus_stream (slice_index block.now) from bytes.old }
{
    if bytes.len() == 16 {
        let sums = u8x16::from_slice(bytes) ^ u8x16::from_array(*block);
        sums.copy_to_slice(bytes);
    } else {
        for i in 0..bytes.len() {
            bytes[i] ^= block[from + i];
        }
    }
}

// Adds to bytes the bytes of a batch of blocks from one place on.
#[inline(always)]
pub(crate) fn add_blocks(blocks: &[Block], from: usize, bytes: &mut [u8])
    requires { from + length bytes.old ≤ 16 * length blocks.now }
    ensures { bytes.new ≡ plus_stream (byte_of_blocks blocks.now) from bytes.old }
{
    let mut done = 0;
    if from % 16 != 0 {
        done = (16 - from % 16).min(bytes.len());
        add_part(&blocks[from / 16], from % 16, &mut bytes[..done]);
    }
    'whole: while bytes.len() - done >= 16 {
        add_part(&blocks[(from + done) / 16], 0, &mut bytes[done..done + 16]);
        done += 16;
    }
    if done < bytes.len() {
        add_part(&blocks[(from + done) / 16], 0, &mut bytes[done..]);
    }
}

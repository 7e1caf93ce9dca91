//! The blocks of bytes, processed by code that is written once for both directions.

ghost use Rattle.std.specs.Prelude.{◌≡◌, ◌≢◌, ◌↔◌, ◌*◌, ◌%◌, length, map, IsErr, OnOk, OnErr};
ghost use Rattle.std.specs.Simd.{first_chunks};
ghost use Rattle.aes_planes.specs.Each.{Each};
ghost use Rattle.aes_cipher.specs.Blocks.{blocks_of, Sixteens};

use super::PartialBlock;
use crate::cipher::{Block, CipherIn, Direction};

// How many blocks are passed to a cipher at once. This number makes whole batches of every backend
// here, and needs a kibibyte of the stack.
const BLOCKS_AT_ONCE: usize = 64;

// No effect; states that each block of a program has sixteen bytes.
fn blocks_have_16_bytes(blocks: &[Block])
    ensures { Sixteens blocks.now }
{}

// Processes bytes by way of blocks in `room`. The standard library can lend a slice of bytes as a
// slice of blocks, but doesn't say what the bytes are afterwards.
fn process_part<D: Direction, C: CipherIn<D>>(cipher: &C, bytes: &mut [u8], room: &mut [Block])
    requires as_many { length bytes.old ≡ 16 * length room.old }
    ensures { first_chunks 16 (length room.old) bytes.new
        ≡ map (D.processed (C.round_keys cipher.now))
        (first_chunks 16 (length room.old) bytes.old) }
{
    let (blocks, _) = bytes.as_chunks();
    room.copy_from_slice(blocks);
    cipher.process_blocks(room);
    blocks_have_16_bytes(room);
    bytes.copy_from_slice(room.as_flattened());
}

/// Processes the blocks of bytes in place.
pub(super) fn process_bytes<D: Direction, C: CipherIn<D>>(
    cipher: &C,
    bytes: &mut [u8],
) -> Result<(), PartialBlock>
    ensures refusal { IsErr result ↔ (length bytes.old % 16 ≢ 0) }
    ensures written { OnOk result
        (Each (D.processed (C.round_keys cipher.now)) (blocks_of bytes.old) (blocks_of bytes.new)) }
    ensures untouched { OnErr result (bytes.new ≡ bytes.old) }
{
    if bytes.len() % 16 != 0 {
        return Err(PartialBlock);
    }
    let mut room = [[0; 16]; BLOCKS_AT_ONCE];
    let whole = bytes.len() / 16;
    let mut done = 0;
    while done < whole {
        let count = (whole - done).min(BLOCKS_AT_ONCE);
        let part = &mut bytes[16 * done..16 * (done + count)];
        process_part::<D, C>(cipher, part, &mut room[..count]);
        done += count;
    }
    Ok(())
}

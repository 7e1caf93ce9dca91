//! Adds the keystream to bytes: first to the end of a block, then in whole batches, and then to the
//! rest.

ghost use Rattle.std.specs.Prelude.{◌≡◌, ℕ, ◌+◌, ◌*◌, ◌/◌, ◌%◌, ◌^◌, ◌<◌, ◌≤◌, length};
ghost use Rattle.aes_ctr.specs.CounterMode.{keystream_byte, plus_stream};
ghost use Rattle.aes_ctr.specs.Private.{added_from};
ghost use Rattle.aes_ctr.specs.Streams.{stream_byte};

use crate::add_blocks::add_blocks;
use crate::counter_blocks::{CounterBlocks, WholeBlock};
use crate::keystream::{fill_by_backend, fill_with_keystream};
use aes_cipher::cipher::{Block, BlockCipherEncBackend, BlockCipherEncClosure, BlockCipherEncrypt};
use aes_planes::soft::word::LARGEST_BATCH;

// Adds to bytes of one block the keystream from one position on.
#[tactic(auto, using(crate::proofs::Places::plus_blocks))]
fn add_to_one<C: BlockCipherEncrypt, K: CounterBlocks>(
    cipher: &C,
    counters: &K,
    position: u64,
    bytes: &mut [u8],
)
    requires { position % 16 + length bytes.old ≤ 16 }
    ensures { bytes.new ≡ plus_stream (stream_byte (C.round_keys cipher.now) (K.block counters.now))
        position bytes.old }
{
    let mut room = [[0; 16]; 1];
    fill_with_keystream(cipher, counters, position / 16, &mut room);
    add_blocks(&room, (position % 16) as usize, bytes);
}

// How many blocks a backend gets at once: a batch, or one block if there is no room for a batch.
#[inline(always)]
fn blocks_at_once<B: BlockCipherEncBackend>() -> usize
    ensures some { 1 ≤ result }
    ensures inside { result ≤ 16 }
{
    if B::PAR_BLOCKS <= LARGEST_BATCH {
        B::PAR_BLOCKS
    } else {
        1
    }
}

// Adds to the bytes of one batch the keystream from a block on. The number of blocks is a constant,
// so that counters and blocks of the keystream stay in registers.
#[tactic(auto, using(crate::proofs::Places::plus_batch, std::proofs::lemmas::Grind::common_steps))]
#[inline(always)]
fn add_batch<B: BlockCipherEncBackend, K: CounterBlocks>(
    backend: &B,
    counters: &K,
    first: u64,
    bytes: &mut [u8],
)
    requires fits { B.PAR_BLOCKS ≤ 16 }
    requires one_batch { length bytes.old ≡ 16 * B.PAR_BLOCKS }
    ensures { bytes.new
        ≡ plus_stream (stream_byte (B.round_keys backend.now) (K.block counters.now))
        (16 * first) bytes.old }
{
    let mut room = [[0; 16]; LARGEST_BATCH];
    let blocks = &mut room[..B::PAR_BLOCKS];
    counters.put(first, blocks);
    backend.encrypt_par_blocks(blocks);
    add_blocks(blocks, 0, bytes);
}

// Adds the keystream to the bytes from place `done` on; the first byte of all is at `position` of
// the keystream. Stops at the end of a batch that begins with the block of byte `done`, or at the
// end of the bytes. Returns the place that follows.
fn add_next<B: BlockCipherEncBackend, K: CounterBlocks>(
    backend: &B,
    counters: &K,
    position: u64,
    done: usize,
    bytes: &mut [u8],
) -> usize
    requires { done ≤ length bytes.old }
    ensures inside { result ≤ length bytes.old }
    ensures some { done < length bytes.old → done < result }
    ensures to_a_block { result < length bytes.old → (position + result) % 16 ≡ 0 }
    ensures added { let stream = stream_byte (B.round_keys backend.now) (K.block counters.now) in
        position + length bytes.old < 2 ^ 64
        → added_from stream position result bytes.new ≡ added_from stream position done bytes.old }
{
    let place = position.wrapping_add(done as u64);
    let from = (place % 16) as usize;
    let mut room = [[0; 16]; LARGEST_BATCH];
    let blocks = &mut room[..blocks_at_once::<B>()];
    let part = (16 * blocks.len() - from).min(bytes.len() - done);
    let count = (from + part).div_ceil(16);
    fill_by_backend(backend, counters, place / 16, count, blocks);
    add_blocks(blocks, from, &mut bytes[done..done + part]);
    done + part
}

// Adds to bytes the keystream from one position on, by the backend. If the position is inside a
// block, the end of that block comes first. Then come whole batches, and then what is left.
fn add_by_backend<B: BlockCipherEncBackend, K: CounterBlocks>(
    backend: &B,
    counters: &K,
    position: u64,
    bytes: &mut [u8],
)
    ensures { position + length bytes.old < 2 ^ 64
        → bytes.new ≡ plus_stream (stream_byte (B.round_keys backend.now) (K.block counters.now))
        position bytes.old }
{
    let mut done = 0;
    if position % 16 != 0 {
        done = add_next(backend, counters, position, 0, bytes);
    }
    if B::PAR_BLOCKS <= LARGEST_BATCH {
        let size = 16 * B::PAR_BLOCKS;
        'whole: while bytes.len() - done >= size {
            let place = position.wrapping_add(done as u64);
            add_batch(backend, counters, place / 16, &mut bytes[done..done + size]);
            done += size;
        }
    }
    'rest: while done < bytes.len() {
        done = add_next(backend, counters, position, done, bytes);
    }
}

// Bytes to which the keystream is to be added, from a position on.
#[derive(Drop)]
struct AddStream<'k, 'a, K: CounterBlocks> {
    counters: &'k K,
    position: u64,
    bytes: &'a mut [u8],
}

impl<'k, 'a, K: CounterBlocks> BlockCipherEncClosure for AddStream<'k, 'a, K> {
    ghost did = { λ before w after.
        (before.position + length before.bytes.now < 2 ^ 64
        → after.bytes.now ≡ plus_stream (stream_byte w (K.block before.counters.now)) before.position before.bytes.now)
        × (after.bytes.ghost_name ≡ before.bytes.ghost_name) };

    fn call<B: BlockCipherEncBackend>(&mut self, backend: &B) {
        add_by_backend(backend, self.counters, self.position, self.bytes);
    }
}

/// Adds the keystream of these counter blocks to bytes, from a position on (SP 800-38A, 6.5).
pub fn add_stream<C: BlockCipherEncrypt, K: CounterBlocks>(
    cipher: &C,
    counters: &K,
    position: u64,
    bytes: &mut [u8],
)
    requires { position + length bytes.old < 2 ^ 64 }
    ensures { bytes.new ≡ plus_stream (stream_byte (C.round_keys cipher.now) (K.block counters.now))
        position bytes.old }
{
    let from = (position % 16) as usize;
    if bytes.len() <= 16 - from {
        add_to_one(cipher, counters, position, bytes);
    } else {
        let blocks = (from + bytes.len()).div_ceil(16);
        let mut adding = AddStream {
            counters,
            position,
            bytes,
        };
        cipher.encrypt_with_backend_for(blocks, &mut adding);
    }
}

/// Adds the keystream to bytes, from a position on, with the whole block as the counter. It keeps
/// no position: `Ctr128BE` does.
#[tactic(auto, using(crate::proofs::Places::whole_blocks))]
pub fn add_keystream<C: BlockCipherEncrypt>(cipher: &C, iv: &Block, position: u64, bytes: &mut [u8])
    requires { position + length bytes.old < 2 ^ 64 }
    ensures { bytes.new ≡ plus_stream (keystream_byte (C.round_keys cipher.now) iv.now)
        position bytes.old }
{
    add_stream(cipher, &WholeBlock { iv: *iv }, position, bytes);
}

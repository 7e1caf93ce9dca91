//! Counter mode with a counter of 32 bits, its lowest byte first (RFC 8452, 4).

ghost use Rattle.std.specs.Prelude.{◌≡◌, ◌++◌, drop, take};
ghost use Rattle.std.specs.Int.{w32, from_le_bytes, to_le_bytes};
ghost use Rattle.gcm_siv.specs.GcmSiv.{counter_block, counter_mode};

use aes_cipher::cipher::{Block, BlockCipherEncrypt};
use aes_ctr::{CounterBlocks, add_stream};

// A block with another counter.
#[inline(always)]
fn with_counter(counter: u32, start: &Block) -> Block
    ensures { result ≡ to_le_bytes w32 counter ++ drop 4 start.now }
{
    let mut block = *start;
    block[..4].copy_from_slice(&counter.to_le_bytes());
    block
}

// The counter of a block.
#[inline(always)]
fn counter_of(block: &Block) -> u32
    ensures { result ≡ from_le_bytes w32 (take 4 block.now) }
{
    let mut bytes = [0; 4];
    bytes.copy_from_slice(&block[..4]);
    u32::from_le_bytes(bytes)
}

// An initial counter block, whose first 32 bits count, modulo 2^32, their lowest byte first.
#[derive(Drop)]
struct FirstBits {
    start: Block,
}

impl CounterBlocks for FirstBits {
    ghost block = { λ counters. counter_block counters.start };

    #[tactic(auto, using(crate::proofs::CounterBlocks::counted))]
    #[inline(always)]
    fn put(&self, first: u64, blocks: &mut [Block]) {
        let mut counter = counter_of(&self.start).wrapping_add((first % (1 << 32)) as u32);
        for i in 0..blocks.len() {
            blocks[i] = with_counter(counter, &self.start);
            counter = counter.wrapping_add(1);
        }
    }
}

/// Adds the keystream to bytes, from an initial counter block on (AES_CTR).
#[tactic(auto, using(crate::proofs::CounterBlocks::mode_is))]
pub fn add_keystream<C: BlockCipherEncrypt>(cipher: &C, start: &Block, bytes: &mut [u8])
    ensures { bytes.new ≡ counter_mode (C.round_keys cipher.now) start.now bytes.old }
{
    add_stream(cipher, &FirstBits { start: *start }, 0, bytes);
}

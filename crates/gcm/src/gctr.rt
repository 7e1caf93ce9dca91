//! Counter mode in which the last 32 bits of a block count (GCTR, 6.5).

ghost use Rattle.std.specs.Prelude.{◌≡◌, ◌+◌, ◌^◌, ◌≤◌, length};
ghost use Rattle.std.specs.Int.{w128, to_be_bytes, from_be_bytes};
ghost use Rattle.aes_ctr.specs.CounterMode.{plus_stream};
ghost use Rattle.gcm.specs.Gcm.{counter_at, gctr_byte};

use aes_cipher::blocks::{block_of_number, number_of_block};
use aes_cipher::cipher::{Block, BlockCipherEncrypt};
use aes_cipher::zeroize::MustWipe;
use aes_ctr::{CounterBlocks, add_stream};

// A secret block, which has to be wiped in place.
pub(crate) type SecretBlock = MustWipe<[Block; 1]>;

// How many counter blocks there are before the last 32 bits of a counter repeat.
const COUNTERS: u128 = 1 << 32;

// An initial counter block, whose last 32 bits count, modulo 2^32 (inc_32, 6.2). The block is
// secret if its nonce doesn't have 12 bytes. So nothing is compared, and no carry leaves the last
// 32 bits.
#[derive(Drop)]
struct LastBits {
    start: Block,
}

impl CounterBlocks for LastBits {
    ghost block = { λ counters j. to_be_bytes w128 (counter_at (from_be_bytes w128 counters.start) j) };

    #[tactic(auto, using(crate::proofs::Messages::Counting::counted))]
    #[inline(always)]
    fn put(&self, first: u64, blocks: &mut [Block]) {
        let number = number_of_block(&self.start);
        let others = number - number % COUNTERS;
        let mut counter = ((number % COUNTERS) as u32).wrapping_add((first % (1 << 32)) as u32);
        for i in 0..blocks.len() {
            blocks[i] = block_of_number(others + counter as u128);
            counter = counter.wrapping_add(1);
        }
    }
}

// Adds to bytes the keystream of GCTR from a position on. This is a call of its own, so that its
// stack can be wiped.
#[inline(never)]
pub(crate) fn add_gctr<C: BlockCipherEncrypt>(
    cipher: &C,
    first: &Block,
    position: u64,
    bytes: &mut [u8],
)
    requires { position + length bytes.old ≤ 2 ^ 36 }
    ensures { bytes.new
        ≡ plus_stream (gctr_byte (C.round_keys cipher.now) (from_be_bytes w128 first.now))
        position bytes.old }
{
    if bytes.len() > 0 {
        add_stream(cipher, &LastBits { start: *first }, position, bytes);
    }
}

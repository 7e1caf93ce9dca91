//! Blocks of the keystream.

ghost use Rattle.std.specs.Prelude.{◌≡◌, ◌⊎◌, ℕ, [], ◌+◌, ◌<◌, ◌≤◌, length, slice_index_or};
ghost use Rattle.aes_planes.specs.Fips197 as fips;

use crate::counter_blocks::CounterBlocks;
use aes_cipher::cipher::{Block, BlockCipherEncBackend, BlockCipherEncrypt};

// Writes blocks of the keystream, from number `first` on: the counter blocks, encrypted.
pub(crate) fn fill_with_keystream<C: BlockCipherEncrypt, K: CounterBlocks>(
    cipher: &C,
    counters: &K,
    first: u64,
    blocks: &mut [Block],
)
    ensures { (i : ℕ) → i < length blocks.old → slice_index_or blocks.new i []
        ≡ fips.cipher_with (C.round_keys cipher.now) (K.block counters.now (first + i)) }
{
    counters.put(first, blocks);
    cipher.encrypt_blocks(blocks);
}

// Writes `count` blocks of the keystream, from number `first` on, with a backend: as the first of a
// batch, or one by one. The blocks after them become counter blocks, or blocks of the keystream
// too. This is a call of its own, so that whole batches, which don't need it, are inlined.
#[tactic(auto, using(crate::proofs::Places::filled))]
pub(crate) fn fill_by_backend<B: BlockCipherEncBackend, K: CounterBlocks>(
    backend: &B,
    counters: &K,
    first: u64,
    count: usize,
    blocks: &mut [Block],
)
    requires { count ≤ length blocks.old }
    ensures first { (i : ℕ) → i < count → slice_index_or blocks.new i []
        ≡ fips.cipher_with (B.round_keys backend.now) (K.block counters.now (first + i)) }
    ensures others { (i : ℕ) → i < length blocks.old
        → (slice_index_or blocks.new i [] ≡ fips.cipher_with (B.round_keys backend.now)
        (K.block counters.now (first + i)))
        ⊎ (slice_index_or blocks.new i [] ≡ K.block counters.now (first + i)) }
{
    // The whole batch gets counter blocks. Otherwise blocks of zeros could be encrypted with it,
    // and their encryption is GCM's H.
    counters.put(first, blocks);
    if blocks.len() == B::PAR_BLOCKS {
        backend.encrypt_first_blocks(count, blocks);
    } else {
        for i in 0..count {
            backend.encrypt_block(&mut blocks[i]);
        }
    }
}

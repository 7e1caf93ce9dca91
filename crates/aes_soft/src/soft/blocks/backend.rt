//! Backends: round keys that are lent to a closure, with what a batch needs.
ghost use Rattle.std.specs.Prelude.{◌≡◌, ℕ, List};
ghost use Rattle.aes_planes.specs.Fips197 as fips;
ghost use Rattle.aes_planes.specs.Words.{word_bits};
ghost use Rattle.aes_planes.proofs.Standard.CipherLaws.{two_expanded};
ghost use Rattle.aes_soft.specs.Stored.{key_of_planes, IsFullSchedule};

mod decrypt;
mod encrypt;

use super::slices::{process_batch_under, process_block_under};
use crate::soft::blocks::BatchWord;
use crate::soft::full::store_widened;
use crate::soft::plane_room::words_hold_a_key;
use aes_cipher::cipher::{
    BatchOfEight, BatchSizeUser, BlockCipherDecBackend, BlockCipherEncBackend, Decrypt, Encrypt,
    RoundKeysUser,
};
use aes_cipher::zeroize::Wiped;
use aes_planes::soft::sbox::Layers;
use aes_planes::soft::word::Block;
pub use decrypt::decrypt_with_backend;
pub use encrypt::encrypt_with_backend;
use std::convert::AsSlice;
use std::marker::Model;

// The most bytes of stack that a closure uses to work on batches, as the closures of this library's
// modes do.
const CLOSURE_STACK: usize = 2032;

/// The backend of a key of 16 bytes.
pub type Aes128Backend<'a> = Backend<'a, Wiped<[BatchWord; 88]>>;

/// The backend of a key of 24 bytes.
pub type Aes192Backend<'a> = Backend<'a, Wiped<[BatchWord; 104]>>;

/// The backend of a key of 32 bytes.
pub type Aes256Backend<'a> = Backend<'a, Wiped<[BatchWord; 120]>>;

/// Encrypts and decrypts under round keys that it borrows. It also holds, or borrows, these round
/// keys on the words of a batch. Contracts see a value as its key.
pub struct Backend<'a, H: AsSlice<BatchWord> + Drop> {
    round_keys: &'a [u16],
    widened: H,
}

impl<H: AsSlice<BatchWord> + Drop> Drop for Backend<'_, H> {
    #[inline(always)]
    fn drop(self) {
        let Backend {
            round_keys: _,
            widened: _,
        } = self;
    }
}

impl<'a, H: AsSlice<BatchWord> + Drop> Model for Backend<'a, H> {
    ghost Value = { List ℕ };

    ghost view = { λ backend. key_of_planes (word_bits 16) 1 backend.round_keys.now };

    ghost invariant = { λ backend. IsFullSchedule (word_bits 16) 1 backend.round_keys.now
        × IsFullSchedule (word_bits 128) 8 (H.items backend.widened)
        × (key_of_planes (word_bits 128) 8 (H.items backend.widened)
        ≡ key_of_planes (word_bits 16) 1 backend.round_keys.now) };
}

// Widens stored round keys in place.
#[inline(always)]
fn fill<const N: usize>(widened: &mut [BatchWord; N], round_keys: &[u16; N])
    requires is_schedule { IsFullSchedule (word_bits 16) 1 round_keys.now }
    ensures schedule { IsFullSchedule (word_bits 128) 8 widened.new }
    ensures key { key_of_planes (word_bits 128) 8 widened.new
        ≡ key_of_planes (word_bits 16) 1 round_keys.now }
{
    store_widened(widened, round_keys);
}

impl<'a, const N: usize> Backend<'a, Wiped<[BatchWord; N]>> {
    /// Makes the backend of stored round keys. It holds a widened copy, and wipes it when it is
    /// dropped.
    #[inline(always)]
    pub fn new(round_keys: &'a [u16; N]) -> Backend<'a, Wiped<[BatchWord; N]>>
        requires is_schedule { IsFullSchedule (word_bits 16) 1 round_keys.now }
        ensures { result ≡ key_of_planes (word_bits 16) 1 round_keys.now }
    {
        let mut widened = Wiped::<[BatchWord; N]>::zeroed();
        fill(widened.value_mut(), round_keys);
        Backend {
            round_keys,
            widened,
        }
    }
}

impl<'a> Backend<'a, &'a [BatchWord]> {
    // Makes the backend of stored round keys and of their widened copy. Both are lent, and their
    // owner wipes them.
    #[inline(always)]
    fn lent(round_keys: &'a [u16], widened: &'a [BatchWord]) -> Backend<'a, &'a [BatchWord]>
        requires is_schedule { IsFullSchedule (word_bits 16) 1 round_keys.now }
        requires is_widened { IsFullSchedule (word_bits 128) 8 widened.now }
        requires same_key { key_of_planes (word_bits 128) 8 widened.now
            ≡ key_of_planes (word_bits 16) 1 round_keys.now }
        ensures { result ≡ key_of_planes (word_bits 16) 1 round_keys.now }
    {
        Backend {
            round_keys,
            widened,
        }
    }
}

impl<H: AsSlice<BatchWord> + Drop> RoundKeysUser for Backend<'_, H> {
    ghost round_keys = { fips.key_expansion };

    fn round_keys_are_blocks(&self) {
        words_hold_a_key(self.round_keys);
    }

    ghost two_round_keys = { two_expanded };
}

impl<H: AsSlice<BatchWord> + Drop> BatchSizeUser for Backend<'_, H> {
    type Par = BatchOfEight;
}

impl<H: AsSlice<BatchWord> + Drop> BlockCipherEncBackend for Backend<'_, H> {
    #[inline(always)]
    fn encrypt_block(&self, block: &mut Block) {
        process_block_under::<Encrypt>(self.round_keys, block);
    }

    #[inline(always)]
    fn encrypt_par_blocks(&self, blocks: &mut [Block]) {
        let words = self.widened.as_slice();
        process_batch_under::<BatchWord, Encrypt>(words, blocks, &mut Layers::new());
    }
}

impl<H: AsSlice<BatchWord> + Drop> BlockCipherDecBackend for Backend<'_, H> {
    #[inline(always)]
    fn decrypt_block(&self, block: &mut Block) {
        process_block_under::<Decrypt>(self.round_keys, block);
    }

    #[inline(always)]
    fn decrypt_par_blocks(&self, blocks: &mut [Block]) {
        let words = self.widened.as_slice();
        process_batch_under::<BatchWord, Decrypt>(words, blocks, &mut Layers::new());
    }
}

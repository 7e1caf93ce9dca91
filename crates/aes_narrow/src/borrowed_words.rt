//! Stored round keys on words, lent as a cipher for both directions.

ghost use Rattle.std.specs.Prelude.{◌≡◌, ℕ, List};
ghost use Rattle.aes_planes.specs.Fips197 as fips;
ghost use Rattle.aes_planes.proofs.Standard.CipherLaws.{two_expanded};
ghost use Rattle.aes_soft.specs.Stored.{key_of_planes, IsFullSchedule};

use crate::blocks::process_on_words;
use crate::narrow_word::NarrowWord;
use aes_cipher::cipher::{
    BatchSizeUser, BlockCipherDecBackend, BlockCipherDecClosure, BlockCipherDecrypt,
    BlockCipherEncBackend, BlockCipherEncClosure, BlockCipherEncrypt, Decrypt, Encrypt,
    RoundKeysUser,
};
use aes_cipher::zeroize::wipe_stack;
use aes_planes::laws;
use aes_planes::soft::word::Block;
use aes_soft::soft::blocks::process_filled_up;
use std::marker::Model;
use std::slice;

// The most bytes of stack that a closure uses to work on batches, as the closures of this library's
// modes do.
const CLOSURE_STACK: usize = 2032;

/// Stored round keys on words, lent to encrypt and to decrypt. This type is also the backend of
/// closures, and then wipes no stack. Contracts see a value as its key.
pub struct BorrowedWords<'a, W: NarrowWord> {
    words: &'a [W],
}

impl<W: NarrowWord> Drop for BorrowedWords<'_, W> {
    #[inline(always)]
    fn drop(self) {
        let BorrowedWords { words: _ } = self;
    }
}

impl<'a, W: NarrowWord> Model for BorrowedWords<'a, W> {
    ghost Value = { List ℕ };

    ghost view = { λ lent. key_of_planes W.bits W.BLOCKS lent.words.now };

    ghost invariant = { λ lent. IsFullSchedule W.bits W.BLOCKS lent.words.now };
}

impl<'a, W: NarrowWord> BorrowedWords<'a, W> {
    /// Lends stored round keys.
    #[inline(always)]
    pub fn new(words: &'a [W]) -> BorrowedWords<'a, W>
        requires { IsFullSchedule W.bits W.BLOCKS words.now }
        ensures { result ≡ key_of_planes W.bits W.BLOCKS words.now }
    {
        BorrowedWords { words }
    }
}

impl<W: NarrowWord> RoundKeysUser for BorrowedWords<'_, W> {
    ghost round_keys = { fips.key_expansion };

    #[tactic(auto, using(aes_soft::proofs::KeyOfPlanes::read_keys))]
    fn round_keys_are_blocks(&self) {
        laws::expanded_keys();
        // A use of a field tells the proof what holds for every value of the type.
        let _ = &self.words;
    }

    ghost two_round_keys = { two_expanded };
}

impl<W: NarrowWord> BatchSizeUser for BorrowedWords<'_, W> {
    type Par = W::Par;
}

impl<W: NarrowWord> BlockCipherEncBackend for BorrowedWords<'_, W> {
    #[inline(always)]
    fn encrypt_block(&self, block: &mut Block) {
        process_filled_up::<Encrypt, W>(self.words, slice::from_mut(block));
    }

    #[inline(always)]
    fn encrypt_par_blocks(&self, blocks: &mut [Block]) {
        process_filled_up::<Encrypt, W>(self.words, blocks);
    }
}

impl<W: NarrowWord> BlockCipherDecBackend for BorrowedWords<'_, W> {
    #[inline(always)]
    fn decrypt_block(&self, block: &mut Block) {
        process_filled_up::<Decrypt, W>(self.words, slice::from_mut(block));
    }

    #[inline(always)]
    fn decrypt_par_blocks(&self, blocks: &mut [Block]) {
        process_filled_up::<Decrypt, W>(self.words, blocks);
    }
}

// Calls a closure to encrypt. This is a call of its own, so that its stack can be wiped.
#[inline(never)]
fn call_to_encrypt<W: NarrowWord, F: BlockCipherEncClosure>(words: &[W], f: &mut F)
    requires { IsFullSchedule W.bits W.BLOCKS words.now }
    ensures { F.did f.old (fips.key_expansion (key_of_planes W.bits W.BLOCKS words.now)) f.new }
{
    f.call(&BorrowedWords::new(words));
}

// Calls a closure to decrypt.
#[inline(never)]
fn call_to_decrypt<W: NarrowWord, F: BlockCipherDecClosure>(words: &[W], f: &mut F)
    requires { IsFullSchedule W.bits W.BLOCKS words.now }
    ensures { F.did f.old (fips.key_expansion (key_of_planes W.bits W.BLOCKS words.now)) f.new }
{
    f.call(&BorrowedWords::new(words));
}

impl<W: NarrowWord> BlockCipherEncrypt for BorrowedWords<'_, W> {
    #[inline(always)]
    fn encrypt_with_backend<F: BlockCipherEncClosure>(&self, f: &mut F) {
        call_to_encrypt::<W, F>(self.words, f);
        wipe_stack::<CLOSURE_STACK>();
    }

    #[inline(always)]
    fn encrypt_block(&self, block: &mut Block) {
        process_on_words::<Encrypt, W>(self.words, slice::from_mut(block));
    }

    #[inline(always)]
    fn encrypt_blocks(&self, blocks: &mut [Block]) {
        process_on_words::<Encrypt, W>(self.words, blocks);
    }
}

impl<W: NarrowWord> BlockCipherDecrypt for BorrowedWords<'_, W> {
    #[inline(always)]
    fn decrypt_with_backend<F: BlockCipherDecClosure>(&self, f: &mut F) {
        call_to_decrypt::<W, F>(self.words, f);
        wipe_stack::<CLOSURE_STACK>();
    }

    #[inline(always)]
    fn decrypt_block(&self, block: &mut Block) {
        process_on_words::<Decrypt, W>(self.words, slice::from_mut(block));
    }

    #[inline(always)]
    fn decrypt_blocks(&self, blocks: &mut [Block]) {
        process_on_words::<Decrypt, W>(self.words, blocks);
    }
}

//! Planes for callers' closures that have many blocks: the backend, and how it is lent. The planes
//! are wiped before the call returns.

ghost use Rattle.std.specs.Prelude.{◌≡◌, ℕ, List};
ghost use Rattle.aes_planes.specs.Fips197 as fips;
ghost use Rattle.aes_planes.proofs.Standard.CipherLaws.{two_expanded};
ghost use Rattle.aes_permute.specs.Keys.{encrypting, key_of_lanes, IsCipherSchedule};
ghost use Rattle.aes_permute.specs.Stored.{round_keys_of};
ghost use Rattle.aes_soft.specs.Stored as soft;

use crate::borrowed_cipher::BorrowedCipher;
use crate::plane_keys::PlaneKeys;
use crate::widths::Width;
use aes_cipher::cipher::{
    BatchSizeUser, BlockCipherDecBackend, BlockCipherDecClosure, BlockCipherEncBackend,
    BlockCipherEncClosure, Decrypt, Encrypt, RoundKeysUser,
};
use aes_cipher::zeroize::wipe_stack;
use aes_permute::lane_rounds::LaneRounds;
use aes_planes::soft::sbox::Layers;
use aes_planes::soft::word::Block;
use aes_soft::soft::blocks::process_batch_under;
use std::marker::Model;
use std::slice;

// The most bytes of stack that a closure uses to work on batches, as the closures of this library's
// modes do. From 2 KB on libc's memset is slower.
const CLOSURE_STACK: usize = 2032;

/// A caller's closure in the direction D. The public traits of closures have one direction each. By
/// this one, planes are lent by the same function in both.
pub(crate) trait ClosureIn<D: LaneRounds> {
    /// What the work does: the relation of the closure's own trait.
    ghost did_in: { Self → List (List ℕ) → Self → Type 0 };

    /// Does the closure's work with planes.
    fn call_with<W: Width>(&mut self, batches: &Batches<'_, D, W>)
        ensures { did_in self.old (fips.key_expansion batches.now) self.new };
}

impl<F: BlockCipherEncClosure> ClosureIn<Encrypt> for F {
    ghost did_in = { F.did };

    #[inline(always)]
    fn call_with<W: Width>(&mut self, batches: &Batches<'_, Encrypt, W>) {
        self.call(batches);
    }
}

impl<F: BlockCipherDecClosure> ClosureIn<Decrypt> for F {
    ghost did_in = { F.did };

    #[inline(always)]
    fn call_with<W: Width>(&mut self, batches: &Batches<'_, Decrypt, W>) {
        self.call(batches);
    }
}

/// Lends planes to a closure. The planes, and the stack that the closure used, are wiped before the
/// call returns. Never inlined: few blocks then need no large frame, and what a caller leaves below
/// its own frame isn't deep. The round keys are slices, which are passed in registers. Planes serve
/// both directions, and are made of the round keys of Cipher.
#[inline(never)]
pub(crate) fn lend_planes<D: LaneRounds, W: Width, F: ClosureIn<D>>(
    keys: &[Block],
    direction_keys: &[Block],
    f: &mut F,
)
    requires keyed { IsCipherSchedule keys.now }
    requires direction_keys { round_keys_of D.form direction_keys.now ≡ D.form.direction_keys (encrypting keys.now) }
    ensures { F.did_in f.old (fips.key_expansion (key_of_lanes keys.now)) f.new }
{
    let mut planes = PlaneKeys::<W::PlaneWord>::zeroed();
    planes.store(keys);
    let cipher = BorrowedCipher::new(keys, direction_keys);
    call_to_work::<D, W, F>(&cipher, planes.lend(keys.len()), f);
    planes.wipe();
    wipe_stack::<CLOSURE_STACK>();
}

// Calls a closure with planes. This is a call of its own, so that its stack can be wiped.
#[inline(never)]
fn call_to_work<D: LaneRounds, W: Width, F: ClosureIn<D>>(
    cipher: &BorrowedCipher<'_, D, W>,
    words: &[W::PlaneWord],
    f: &mut F,
)
    requires is_schedule { soft.IsFullSchedule W.PlaneWord.bits W.PlaneWord.BLOCKS words.now }
    requires same_key { soft.key_of_planes W.PlaneWord.bits W.PlaneWord.BLOCKS words.now ≡ cipher.now }
    ensures { F.did_in f.old (fips.key_expansion cipher.now) f.new }
{
    f.call_with(&Batches::new(cipher, words));
}

/// A backend that processes batches on planes, and single blocks on vectors, under the same round
/// keys.
pub(crate) struct Batches<'a, D: LaneRounds, W: Width> {
    cipher: &'a BorrowedCipher<'a, D, W>,
    words: &'a [W::PlaneWord],
}

impl<D: LaneRounds, W: Width> Drop for Batches<'_, D, W> {
    #[inline(always)]
    fn drop(self) {
        let Batches {
            cipher: _,
            words: _,
        } = self;
    }
}

impl<'a, D: LaneRounds, W: Width> Model for Batches<'a, D, W> {
    ghost Value = { List ℕ };

    ghost view = { λ batches. batches.cipher.now };

    ghost invariant = { λ batches. soft.IsFullSchedule W.PlaneWord.bits W.PlaneWord.BLOCKS batches.words.now
        × (soft.key_of_planes W.PlaneWord.bits W.PlaneWord.BLOCKS batches.words.now ≡ batches.cipher.now) };
}

impl<'a, D: LaneRounds, W: Width> Batches<'a, D, W> {
    #[inline(always)]
    pub(crate) fn new(
        cipher: &'a BorrowedCipher<'a, D, W>,
        words: &'a [W::PlaneWord],
    ) -> Batches<'a, D, W>
        requires is_schedule { soft.IsFullSchedule W.PlaneWord.bits W.PlaneWord.BLOCKS words.now }
        requires same_key { soft.key_of_planes W.PlaneWord.bits W.PlaneWord.BLOCKS words.now ≡ cipher.now }
        ensures { result ≡ cipher.now }
    {
        Batches { cipher, words }
    }
}

impl<D: LaneRounds, W: Width> RoundKeysUser for Batches<'_, D, W> {
    ghost round_keys = { fips.key_expansion };

    fn round_keys_are_blocks(&self) {
        self.cipher.round_keys_are_blocks();
    }

    ghost two_round_keys = { two_expanded };
}

impl<D: LaneRounds, W: Width> BatchSizeUser for Batches<'_, D, W> {
    type Par = W::Par;
}

impl<W: Width> BlockCipherEncBackend for Batches<'_, Encrypt, W> {
    #[inline(always)]
    fn encrypt_block(&self, block: &mut Block) {
        self.cipher.process_on_vectors(slice::from_mut(block));
    }

    #[inline(always)]
    fn encrypt_par_blocks(&self, blocks: &mut [Block]) {
        process_batch_under::<W::PlaneWord, Encrypt>(self.words, blocks, &mut Layers::new());
    }

    #[tactic(auto, using(aes_cipher::proofs::FirstBlocks::first_blocks))]
    #[inline(always)]
    fn encrypt_first_blocks(&self, count: usize, blocks: &mut [Block]) {
        if count <= W::MOST_AFTER_BATCHES {
            self.cipher.process_on_vectors(&mut blocks[..count]);
        } else {
            self.encrypt_par_blocks(blocks);
        }
    }
}

impl<W: Width> BlockCipherDecBackend for Batches<'_, Decrypt, W> {
    #[inline(always)]
    fn decrypt_block(&self, block: &mut Block) {
        self.cipher.process_on_vectors(slice::from_mut(block));
    }

    #[inline(always)]
    fn decrypt_par_blocks(&self, blocks: &mut [Block]) {
        process_batch_under::<W::PlaneWord, Decrypt>(self.words, blocks, &mut Layers::new());
    }
}

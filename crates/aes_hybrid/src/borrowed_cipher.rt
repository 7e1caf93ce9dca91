//! Stored round keys, lent as a cipher of one direction: few blocks by vector permutations, whole
//! batches of many on planes. Functions come in the order in which they call each other.

ghost use Rattle.std.specs.Prelude.{◌≡◌, ◌≤◌, ℕ, List, drop, length, take};
ghost use Rattle.aes_planes.specs.Each.{Each};
ghost use Rattle.aes_planes.specs.Fips197 as fips;
ghost use Rattle.aes_planes.proofs.Standard.CipherLaws.{two_expanded};
ghost use Rattle.aes_permute.specs.Keys.{encrypting, key_of_lanes, IsCipherSchedule};
ghost use Rattle.aes_permute.specs.Stored.{round_keys_of};

use crate::batches::process_on_planes;
use crate::closures::lend_planes;
use crate::widths::{Width, Width128};
use aes_cipher::cipher::{
    BatchOfFour, BatchSizeUser, BlockCipherDecBackend, BlockCipherDecClosure, BlockCipherDecrypt,
    BlockCipherEncBackend, BlockCipherEncClosure, BlockCipherEncrypt, Decrypt, Encrypt,
    RoundKeysUser,
};
use aes_permute::blocks::{process_block, process_on_lanes};
use aes_permute::lane_rounds::LaneRounds;
use aes_planes::laws;
use aes_planes::soft::word::{Batch, Block, Word};
use aes_soft::soft::PlaneCipher;
use std::marker::{Model, PhantomData};
use std::slice;

/// Stored round keys, lent as a cipher of the direction D: `keys` are the round keys of Cipher, and
/// `direction_keys` those of the direction. This type is also the backend for few blocks, and
/// processes them by vector permutations. Contracts see a value as its key.
pub struct BorrowedCipher<'a, D: LaneRounds, W = Width128> {
    keys: &'a [Block],
    direction_keys: &'a [Block],
    direction: PhantomData<D>,
    width: PhantomData<W>,
}

impl<D: LaneRounds, W> Drop for BorrowedCipher<'_, D, W> {
    #[inline(always)]
    fn drop(self) {
        let BorrowedCipher {
            keys: _,
            direction_keys: _,
            direction: _,
            width: _,
        } = self;
    }
}

impl<'a, D: LaneRounds, W> Model for BorrowedCipher<'a, D, W> {
    ghost Value = { List ℕ };

    ghost view = { λ lent. key_of_lanes lent.keys.now };

    ghost invariant = { λ lent. IsCipherSchedule lent.keys.now
        × (round_keys_of D.form lent.direction_keys.now
        ≡ D.form.direction_keys (fips.key_expansion (key_of_lanes lent.keys.now))) };
}

impl<'a, W> BorrowedCipher<'a, Encrypt, W> {
    /// Lends stored round keys of Cipher, to encrypt.
    #[inline(always)]
    pub(crate) fn encrypting(keys: &'a [Block]) -> BorrowedCipher<'a, Encrypt, W>
        requires { IsCipherSchedule keys.now }
        ensures { result ≡ key_of_lanes keys.now }
    {
        BorrowedCipher {
            keys,
            direction_keys: keys,
            direction: PhantomData,
            width: PhantomData,
        }
    }
}

impl<'a, D: LaneRounds, W> BorrowedCipher<'a, D, W> {
    /// Lends stored round keys: those of Cipher, and those of the direction.
    #[inline(always)]
    pub(crate) fn new(keys: &'a [Block], direction_keys: &'a [Block]) -> BorrowedCipher<'a, D, W>
        requires keyed { IsCipherSchedule keys.now }
        requires direction_keys { round_keys_of D.form direction_keys.now ≡ D.form.direction_keys (encrypting keys.now) }
        ensures { result ≡ key_of_lanes keys.now }
    {
        BorrowedCipher {
            keys,
            direction_keys,
            direction: PhantomData,
            width: PhantomData,
        }
    }
}

impl<D: LaneRounds, W> RoundKeysUser for BorrowedCipher<'_, D, W> {
    ghost round_keys = { fips.key_expansion };

    fn round_keys_are_blocks(&self) {
        laws::expanded_keys();
        // A use of a field tells the proof what holds for every value of the type.
        let _ = &self.keys;
    }

    ghost two_round_keys = { two_expanded };
}

impl<W: Width> BlockCipherEncrypt for BorrowedCipher<'_, Encrypt, W> {
    #[inline(always)]
    fn encrypt_with_backend<F: BlockCipherEncClosure>(&self, f: &mut F) {
        self.encrypt_with_backend_for(usize::MAX, f);
    }

    #[inline(always)]
    fn encrypt_with_backend_for<F: BlockCipherEncClosure>(&self, blocks: usize, f: &mut F) {
        if blocks >= W::LEAST_FOR_CLOSURES {
            lend_planes::<Encrypt, W, F>(self.keys, self.keys, f);
        } else {
            f.call(self);
        }
    }

    #[inline(always)]
    fn encrypt_block(&self, block: &mut Block) {
        self.process_block(block);
    }

    #[inline(always)]
    fn encrypt_blocks(&self, blocks: &mut [Block]) {
        self.process_blocks(blocks);
    }
}

impl<W: Width> BlockCipherDecrypt for BorrowedCipher<'_, Decrypt, W> {
    #[inline(always)]
    fn decrypt_with_backend<F: BlockCipherDecClosure>(&self, f: &mut F) {
        self.decrypt_with_backend_for(usize::MAX, f);
    }

    #[inline(always)]
    fn decrypt_with_backend_for<F: BlockCipherDecClosure>(&self, blocks: usize, f: &mut F) {
        if blocks >= W::LEAST_FOR_CLOSURES {
            lend_planes::<Decrypt, W, F>(self.keys, self.direction_keys, f);
        } else {
            f.call(self);
        }
    }

    #[inline(always)]
    fn decrypt_block(&self, block: &mut Block) {
        self.process_block(block);
    }

    #[inline(always)]
    fn decrypt_blocks(&self, blocks: &mut [Block]) {
        self.process_blocks(blocks);
    }
}

impl<D: LaneRounds + PlaneCipher, W: Width> BorrowedCipher<'_, D, W> {
    /// Processes each block of a slice in place: first on planes, if there are many, and then the
    /// others on vectors.
    #[tactic(auto, using(crate::proofs::Fronts::first_then_others))]
    pub(crate) fn process_blocks(&self, blocks: &mut [Block])
        ensures { Each (D.processed (fips.key_expansion self.now)) blocks.old blocks.new }
    {
        let done = process_first_on_planes::<D, W>(self.keys, blocks);
        self.process_on_vectors(&mut blocks[done..]);
    }
}

// Processes the first blocks of a slice on planes, and returns how many these are. Of few blocks
// there are none. Of many there are the whole batches, and also the blocks after them if planes take
// less time for these.
#[inline(always)]
fn process_first_on_planes<D: LaneRounds + PlaneCipher, W: Width>(
    keys: &[Block],
    blocks: &mut [Block],
) -> usize
    requires keyed { IsCipherSchedule keys.now }
    ensures inside { result ≤ length blocks.old }
    ensures first { Each (D.processed (fips.key_expansion (key_of_lanes keys.now)))
        (take result blocks.old)
        (take result blocks.new) }
    ensures others { drop result blocks.new ≡ drop result blocks.old }
{
    let count = blocks.len();
    let least = if D::BACKWARD {
        W::LEAST_TO_DECRYPT
    } else {
        W::LEAST_TO_ENCRYPT
    };
    if count < least {
        return 0;
    }
    let rest = count % <W::PlaneWord as Word>::Blocks::LEN;
    let left = if rest <= W::MOST_AFTER_BATCHES {
        rest
    } else {
        0
    };
    process_on_planes::<D, W::PlaneWord>(keys, &mut blocks[..count - left]);
    count - left
}

impl<D: LaneRounds, W: Width> BorrowedCipher<'_, D, W> {
    /// Processes each block of a slice in place on vectors, by permutations.
    #[inline(always)]
    pub(crate) fn process_on_vectors(&self, blocks: &mut [Block])
        ensures { Each (D.processed (fips.key_expansion self.now)) blocks.old blocks.new }
    {
        D::rounds_follow_the_standard();
        D::rounds_use_every_key();
        process_on_lanes::<D, W::Vectors>(self.direction_keys, blocks);
    }
}

impl<D: LaneRounds, W> BorrowedCipher<'_, D, W> {
    /// Processes a block in place in a vector, which stays in a register.
    #[inline(always)]
    fn process_block(&self, block: &mut Block)
        ensures { block.new ≡ D.processed (fips.key_expansion self.now) block.old }
    {
        D::rounds_follow_the_standard();
        D::rounds_use_every_key();
        process_block::<D>(self.direction_keys, block);
    }
}

// As a backend, the cipher processes four blocks at a time, all on vectors.
impl<D: LaneRounds, W: Width> BatchSizeUser for BorrowedCipher<'_, D, W> {
    type Par = BatchOfFour;
}

impl<W: Width> BlockCipherEncBackend for BorrowedCipher<'_, Encrypt, W> {
    #[inline(always)]
    fn encrypt_block(&self, block: &mut Block) {
        self.process_on_vectors(slice::from_mut(block));
    }

    #[inline(always)]
    fn encrypt_par_blocks(&self, blocks: &mut [Block]) {
        self.process_on_vectors(blocks);
    }

    #[tactic(auto, using(aes_cipher::proofs::FirstBlocks::first_blocks))]
    #[inline(always)]
    fn encrypt_first_blocks(&self, count: usize, blocks: &mut [Block]) {
        self.process_on_vectors(&mut blocks[..count]);
    }
}

impl<W: Width> BlockCipherDecBackend for BorrowedCipher<'_, Decrypt, W> {
    #[inline(always)]
    fn decrypt_block(&self, block: &mut Block) {
        self.process_on_vectors(slice::from_mut(block));
    }

    #[inline(always)]
    fn decrypt_par_blocks(&self, blocks: &mut [Block]) {
        self.process_on_vectors(blocks);
    }
}

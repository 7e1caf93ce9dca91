//! A cipher of one round, and a backend that is lent its round keys.

ghost use Rattle.std.specs.Prelude.{◌≡◌, ℕ, ◌≤◌, List, [], ◌∷◌};
ghost use Rattle.std.proofs.Common.{arith};
ghost use Rattle.aes_planes.specs.Each.{Each};
ghost use Rattle.aes_planes.specs.Fips197 as fips;

use aes_cipher::blocks::sum_of_blocks;
use aes_cipher::cipher::{
    AlgorithmName, BatchSize, BatchSizeUser, Block, BlockCipherDecBackend, BlockCipherDecClosure,
    BlockCipherDecrypt, BlockCipherEncBackend, BlockCipherEncClosure, BlockCipherEncrypt,
    RoundKeysUser,
};
use aes_planes::laws;
use aes_planes::soft::sbox::{Layers, inv_sub_bytes, sub_bytes, sub_bytes_nots};
use aes_planes::soft::shifts::{inv_shift_rows_1, shift_rows_1};
use aes_planes::soft::word::{Batch, Blocks1, Word};
use std::fmt;

/// A cipher of one round, which is the last: it has no MixColumns.
#[derive(Drop)]
pub struct OneRound {
    /// The round key before the round.
    pub first: Block,
    /// The round key of the round.
    pub last: Block,
}

// The batch of one block.
fn batch_of(block: &Block) -> Blocks1
    ensures { result ≡ block.now ∷ [] }
{
    let mut blocks = Blocks1::zero();
    blocks.set(0, *block);
    blocks
}

// SubBytes and ShiftRows of a block.
#[tactic(auto, using(aes_planes::proofs::Shifts::Deferred::with63), unfolding(aes_planes::specs::Fips197::shift_times))]
fn substituted(block: &Block) -> Block
    ensures { result ≡ fips.shift_rows (fips.sub_bytes block.now) }
{
    let mut planes = [0; 8];
    u16::bitslice(&mut planes, &batch_of(block));
    sub_bytes(&mut planes, &mut Layers::new());
    sub_bytes_nots(&mut planes);
    shift_rows_1(&mut planes);
    u16::inv_bitslice(&planes).get(0)
}

// InvShiftRows and InvSubBytes of a block.
fn unsubstituted(block: &Block) -> Block
    ensures { result ≡ fips.inv_sub_bytes (fips.inv_shift_rows block.now) }
{
    let mut planes = [0; 8];
    u16::bitslice(&mut planes, &batch_of(block));
    inv_shift_rows_1(&mut planes);
    sub_bytes_nots(&mut planes);
    inv_sub_bytes(&mut planes, &mut Layers::new());
    u16::inv_bitslice(&planes).get(0)
}

impl OneRound {
    #[tactic(auto, unfolding(aes_planes::specs::Fips197::cipher_with, aes_planes::specs::Fips197::state_after))]
    fn encrypt(&self, block: &mut Block)
        ensures { block.new ≡ fips.cipher_with (self.now.first ∷ self.now.last ∷ []) block.old }
    {
        let state = substituted(&sum_of_blocks(block, &self.first));
        *block = sum_of_blocks(&state, &self.last);
    }

    #[tactic(auto, using(aes_cipher::proofs::SliceRuns::finished_one))]
    fn encrypt_each(&self, blocks: &mut [Block])
        ensures { Each (fips.cipher_with (self.now.first ∷ self.now.last ∷ [])) blocks.old blocks.new }
    {
        for block in blocks.iter_mut() {
            self.encrypt(block);
        }
    }

    #[tactic(auto, unfolding(aes_planes::specs::Fips197::inv_cipher_with, aes_planes::specs::Fips197::inv_state_after))]
    fn decrypt(&self, block: &mut Block)
        ensures { block.new ≡ fips.inv_cipher_with (self.now.first ∷ self.now.last ∷ []) block.old }
    {
        let state = unsubstituted(&sum_of_blocks(block, &self.last));
        *block = sum_of_blocks(&state, &self.first);
    }

    #[tactic(auto, using(aes_cipher::proofs::SliceRuns::finished_one))]
    fn decrypt_each(&self, blocks: &mut [Block])
        ensures { Each (fips.inv_cipher_with (self.now.first ∷ self.now.last ∷ [])) blocks.old blocks.new }
    {
        for block in blocks.iter_mut() {
            self.decrypt(block);
        }
    }

    fn are_round_keys(&self)
        ensures { fips.AreRoundKeys (self.now.first ∷ self.now.last ∷ []) }
    {
        laws::block_has_16_bytes(self.first);
        laws::block_has_16_bytes(self.last);
    }
}

impl RoundKeysUser for OneRound {
    ghost round_keys = { λ cipher. cipher.first ∷ cipher.last ∷ [] };

    fn round_keys_are_blocks(&self) {
        self.are_round_keys();
    }

    ghost two_round_keys = { λ cipher. Prim.omega arith };
}

impl BlockCipherEncrypt for OneRound {
    fn encrypt_with_backend<F: BlockCipherEncClosure>(&self, f: &mut F) {
        f.call(&BorrowedRound { cipher: self });
    }

    fn encrypt_block(&self, block: &mut Block) {
        self.encrypt(block);
    }

    fn encrypt_blocks(&self, blocks: &mut [Block]) {
        self.encrypt_each(blocks);
    }
}

impl BlockCipherDecrypt for OneRound {
    fn decrypt_with_backend<F: BlockCipherDecClosure>(&self, f: &mut F) {
        f.call(&BorrowedRound { cipher: self });
    }

    fn decrypt_block(&self, block: &mut Block) {
        self.decrypt(block);
    }

    fn decrypt_blocks(&self, blocks: &mut [Block]) {
        self.decrypt_each(blocks);
    }
}

impl AlgorithmName for OneRound {
    fn write_alg_name<W: fmt::Write>(f: &mut fmt::Formatter<W>) -> fmt::Result {
        f.write_str("OneRound")
    }
}

/// The round keys of a cipher, lent to a backend.
#[derive(Drop)]
pub struct BorrowedRound<'a> {
    /// The owner of the round keys.
    pub cipher: &'a OneRound,
}

/// Batches of three blocks.
pub struct Three;

impl BatchSize for Three {
    ghost PAR_BLOCKS = { 3 };

    const PAR_BLOCKS: usize = 3;

    ghost at_least_one = { Prim.omega arith };
}

impl RoundKeysUser for BorrowedRound<'_> {
    ghost round_keys = { λ lent. lent.cipher.now.first ∷ lent.cipher.now.last ∷ [] };

    fn round_keys_are_blocks(&self) {
        self.cipher.are_round_keys();
    }

    ghost two_round_keys = { λ lent. Prim.omega arith };
}

impl BatchSizeUser for BorrowedRound<'_> {
    type Par = Three;
}

impl BlockCipherEncBackend for BorrowedRound<'_> {
    fn encrypt_block(&self, block: &mut Block) {
        self.cipher.encrypt(block);
    }

    fn encrypt_par_blocks(&self, blocks: &mut [Block]) {
        self.cipher.encrypt_each(blocks);
    }
}

impl BlockCipherDecBackend for BorrowedRound<'_> {
    fn decrypt_block(&self, block: &mut Block) {
        self.cipher.decrypt(block);
    }

    fn decrypt_par_blocks(&self, blocks: &mut [Block]) {
        self.cipher.decrypt_each(blocks);
    }
}

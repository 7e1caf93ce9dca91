//! Single rounds of eight blocks, each under its own round key, batch after batch.

ghost use Rattle.std.specs.Prelude.{◌≡◌, ◌%◌, length};
ghost use Rattle.aes_planes.specs.Each.{Each};
ghost use Rattle.aes_planes.specs.Fips197 as fips;
ghost use Rattle.aes_planes.specs.SingleRounds.{cipher_round, equiv_inv_cipher_round};
ghost use Rattle.aes_planes.specs.SingleRounds.{rounds_by_place};

use crate::soft::blocks::{batch_of, put_batch};
use crate::soft::ciphers::PlaneCipher;
use aes_cipher::blocks::sum_of_blocks;
use aes_cipher::cipher::{Decrypt, Encrypt};
use aes_planes::soft::word::{Batch, Block, Word};

/// A round of the cipher (FIPS 197, 5.1) of each of eight blocks, under the round key at its own
/// place.
pub fn cipher_round_par<W: Word>(blocks: &mut [Block; 8], round_keys: &[Block; 8])
    requires divides { 8 % W.BLOCKS ≡ 0 }
    ensures { blocks.new ≡ rounds_by_place cipher_round blocks.old round_keys.now }
{
    rounds_par::<W, Encrypt>(blocks, round_keys);
}

/// A round of the equivalent inverse cipher (FIPS 197, 5.3.5) of each of eight blocks, under the
/// round key at its own place.
pub fn equiv_inv_cipher_round_par<W: Word>(blocks: &mut [Block; 8], round_keys: &[Block; 8])
    requires divides { 8 % W.BLOCKS ≡ 0 }
    ensures { blocks.new ≡ rounds_by_place equiv_inv_cipher_round blocks.old round_keys.now }
{
    rounds_par::<W, Decrypt>(blocks, round_keys);
}

// A step of each of eight blocks, plus the round key at its own place.
#[inline(always)]
fn rounds_par<W: Word, D: PlaneCipher>(blocks: &mut [Block; 8], round_keys: &[Block; 8])
    requires divides { 8 % W.BLOCKS ≡ 0 }
    ensures { blocks.new ≡ rounds_by_place (λ b k. fips.add_round_key (D.step b) k)
        blocks.old round_keys.now }
{
    step_each::<W, D>(blocks);
    add_round_keys(blocks, round_keys);
}

// A step of each block of a slice, batch by batch.
#[inline(always)]
fn step_each<W: Word, D: PlaneCipher>(blocks: &mut [Block])
    requires whole_batches { length blocks.old % W.Blocks.LEN ≡ 0 }
    ensures { Each D.step blocks.old blocks.new }
{
    let size = W::Blocks::LEN;
    let mut done = 0;
    while done < blocks.len() {
        step_batch::<W, D>(&mut blocks[done..done + size]);
        done += size;
    }
}

// A step of each block of one batch, in its place.
#[tactic(auto, using(crate::proofs::Slots::batch_processed))]
#[inline(always)]
fn step_batch<W: Word, D: PlaneCipher>(blocks: &mut [Block])
    requires one_batch { length blocks.old ≡ W.Blocks.LEN }
    ensures { Each D.step blocks.old blocks.new }
{
    let mut state = [W::zero(); 8];
    W::bitslice(&mut state, &batch_of::<W::Blocks>(blocks));
    D::step_planes(&mut state);
    put_batch(&W::inv_bitslice(&state), blocks);
}

// AddRoundKey of each of eight blocks, with the round key at its own place (FIPS 197, 5.1.4).
#[tactic(auto, using(crate::proofs::ByPlace::zipped_step))]
#[inline(always)]
fn add_round_keys(blocks: &mut [Block; 8], round_keys: &[Block; 8])
    ensures { blocks.new ≡ rounds_by_place fips.add_round_key blocks.old round_keys.now }
{
    for i in 0..8 {
        blocks[i] = sum_of_blocks(&blocks[i], &round_keys[i]);
    }
}

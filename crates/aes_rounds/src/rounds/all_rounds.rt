//! All rounds, one after the other, in either direction, on blocks that are processed together.

ghost use Rattle.std.specs.Prelude.{◌≡◌, ◌≤◌, length};
ghost use Rattle.aes_planes.specs.Each.{Each};
ghost use Rattle.aes_planes.specs.Fips197 as fips;
ghost use Rattle.aes_planes.specs.Rounds.{all_rounds};

use super::single_rounds::SingleRounds;
use aes::hazmat::Block8;
use aes_cipher::blocks::sum_of_blocks;
use aes_cipher::cipher::{Decrypt, Encrypt};
use aes_planes::soft::word::Block;

// The round key that changes nothing.
const ZERO_KEY: Block = [0; 16];

// Encrypts each block (Cipher, FIPS 197, 5.1).
#[tactic(auto, using(aes_planes::proofs::Standard::AllRounds::cipher_is))]
pub(super) fn encrypt(blocks: &mut [Block], round_keys: &[Block])
    requires { 2 ≤ length round_keys.now }
    ensures { Each (fips.cipher_with round_keys.now) blocks.old blocks.new }
{
    apply_rounds::<Encrypt>(blocks, round_keys);
}

// Decrypts each block under inverted round keys (EqInvCipher, FIPS 197, 5.3.5).
#[tactic(auto, using(aes_planes::proofs::Standard::AllRounds::eq_inv_cipher_is))]
pub(super) fn decrypt(blocks: &mut [Block], inverted_keys: &[Block])
    requires { 2 ≤ length inverted_keys.now }
    ensures { Each (fips.eq_inv_cipher_with inverted_keys.now) blocks.old blocks.new }
{
    apply_rounds::<Decrypt>(blocks, inverted_keys);
}

// Applies all rounds to each block.
fn apply_rounds<D: SingleRounds>(blocks: &mut [Block], round_keys: &[Block])
    requires { 2 ≤ length round_keys.now }
    ensures { Each (all_rounds D.step D.last_step round_keys.now) blocks.old blocks.new }
{
    let last = round_keys.len() - 1;
    add_round_key(blocks, &round_keys[0]);
    for number in 1..last {
        round::<D>(blocks, &round_keys[number]);
    }
    last_step::<D>(blocks);
    add_round_key(blocks, &round_keys[last]);
}

// Applies the last round without its key to each block: a round under the zero key, and then the
// inverse of its column mixing.
fn last_step<D: SingleRounds>(blocks: &mut [Block])
    ensures { Each D.last_step blocks.old blocks.new }
{
    D::unmixed_round_is_last();
    round::<D>(blocks, &ZERO_KEY);
    unmix::<D>(blocks);
}

// Applies AddRoundKey to each block (FIPS 197, 5.1.4).
fn add_round_key(blocks: &mut [Block], round_key: &Block)
    ensures { Each (λ b. fips.add_round_key b round_key.now) blocks.old blocks.new }
{
    for block in blocks.iter_mut() {
        *block = sum_of_blocks(block, round_key);
    }
}

// Applies a round to each of eight blocks at once.
fn round_eight<D: SingleRounds>(batch: &mut Block8, round_key: &Block)
    ensures { Each (λ b. fips.add_round_key (D.step b) round_key.now) batch.old batch.new }
{
    D::round_par(batch, &[*round_key; 8]);
}

// Applies a round to each block.
fn round<D: SingleRounds>(blocks: &mut [Block], round_key: &Block)
    ensures { Each (λ b. fips.add_round_key (D.step b) round_key.now) blocks.old blocks.new }
{
    if blocks.len() == 8 {
        let batch: &mut Block8 = blocks.as_mut_array().unwrap();
        round_eight::<D>(batch, round_key);
    } else {
        for block in blocks.iter_mut() {
            D::round(block, round_key);
        }
    }
}

// Undoes the column mixing of a round in each block.
fn unmix<D: SingleRounds>(blocks: &mut [Block])
    ensures { Each D.unmixed blocks.old blocks.new }
{
    for block in blocks.iter_mut() {
        D::unmix(block);
    }
}

//! Single rounds, over any word and without one.

ghost use Rattle.std.specs.Prelude.{◌≡◌, ◌%◌};

use aes::hazmat;
use aes::hazmat::{Block, Block8};
use aes_planes::soft::word::Word;
use aes_soft::soft;

/// Rounds of a block.
pub fn of_block(block: &mut Block, round_key: &Block) {
    hazmat::cipher_round(block, round_key);
    hazmat::equiv_inv_cipher_round(block, round_key);
    hazmat::mix_columns(block);
    hazmat::inv_mix_columns(block);
}

/// Rounds of eight blocks.
pub fn of_eight(blocks: &mut Block8, round_keys: &Block8) {
    hazmat::cipher_round_par(blocks, round_keys);
    hazmat::equiv_inv_cipher_round_par(blocks, round_keys);
}

/// Rounds of a block on a word.
pub fn of_block_on<W: Word>(block: &mut Block, round_key: &Block) {
    soft::hazmat::cipher_round::<W>(block, round_key);
    soft::hazmat::equiv_inv_cipher_round::<W>(block, round_key);
    soft::hazmat::mix_columns::<W>(block);
    soft::hazmat::inv_mix_columns::<W>(block);
}

/// Rounds of eight blocks on a word.
pub fn of_eight_on<W: Word>(blocks: &mut Block8, round_keys: &Block8)
    requires { 8 % W.BLOCKS ≡ 0 }
{
    soft::hazmat::cipher_round_par::<W>(blocks, round_keys);
    soft::hazmat::equiv_inv_cipher_round_par::<W>(blocks, round_keys);
}

/// Rounds on every word.
pub fn on_every_word(blocks: &mut Block8, round_keys: &Block8) {
    of_eight_on::<u16>(blocks, round_keys);
    of_eight_on::<u32>(blocks, round_keys);
    of_eight_on::<u64>(blocks, round_keys);
    of_eight_on::<u128>(blocks, round_keys);
}

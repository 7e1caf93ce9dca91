//! Single rounds of the cipher and its inverse, on one block or on eight. A round protects nothing
//! by itself.
//!
//! Each round is computed in a call of its own, which is never inlined. The call leaves blocks and
//! round keys on its stack, which is wiped afterwards.

ghost use Rattle.std.specs.Prelude.{◌≡◌};
ghost use Rattle.aes_planes.specs.Fips197 as fips;
ghost use Rattle.aes_planes.specs.SingleRounds.{cipher_round, equiv_inv_cipher_round};
ghost use Rattle.aes_planes.specs.SingleRounds.{rounds_by_place};

use crate::form::RoundWord;
use aes_cipher::cipher::Block;
use aes_cipher::zeroize::wipe_stack;
use aes_soft::soft::hazmat;

// The most bytes of stack of a round.
const ROUND_STACK: usize = 512;

#[inline(never)]
fn round(block: &mut Block, round_key: &Block)
    ensures { block.new ≡ cipher_round block.old round_key.now }
{
    hazmat::cipher_round::<RoundWord>(block, round_key);
}

#[inline(never)]
fn inverse_round(block: &mut Block, round_key: &Block)
    ensures { block.new ≡ equiv_inv_cipher_round block.old round_key.now }
{
    hazmat::equiv_inv_cipher_round::<RoundWord>(block, round_key);
}

#[inline(never)]
fn rounds(blocks: &mut [Block; 8], round_keys: &[Block; 8])
    ensures { blocks.new ≡ rounds_by_place cipher_round blocks.old round_keys.now }
{
    hazmat::cipher_round_par::<RoundWord>(blocks, round_keys);
}

#[inline(never)]
fn inverse_rounds(blocks: &mut [Block; 8], round_keys: &[Block; 8])
    ensures { blocks.new ≡ rounds_by_place equiv_inv_cipher_round blocks.old round_keys.now }
{
    hazmat::equiv_inv_cipher_round_par::<RoundWord>(blocks, round_keys);
}

#[inline(never)]
fn mixed(block: &mut Block)
    ensures { block.new ≡ fips.mix_columns block.old }
{
    hazmat::mix_columns::<RoundWord>(block);
}

#[inline(never)]
fn inverse_mixed(block: &mut Block)
    ensures { block.new ≡ fips.inv_mix_columns block.old }
{
    hazmat::inv_mix_columns::<RoundWord>(block);
}

/// Applies a round of Cipher to the block: SubBytes, ShiftRows, MixColumns, AddRoundKey (FIPS 197,
/// 5.1).
#[unsafe(no_mangle)]
pub extern "C" fn fotsgure_aes_cipher_round(block: &mut Block, round_key: &Block)
    ensures { block.new ≡ fips.add_round_key
        (fips.mix_columns (fips.shift_rows (fips.sub_bytes block.old)))
        round_key.now }
{
    round(block, round_key);
    wipe_stack::<ROUND_STACK>();
}

/// Applies a round of EqInvCipher to the block: InvSubBytes, InvShiftRows, InvMixColumns,
/// AddRoundKey (FIPS 197, 5.3.5).
#[unsafe(no_mangle)]
pub extern "C" fn fotsgure_aes_equiv_inv_cipher_round(block: &mut Block, round_key: &Block)
    ensures { block.new ≡ fips.add_round_key
        (fips.inv_mix_columns (fips.inv_shift_rows (fips.inv_sub_bytes block.old)))
        round_key.now }
{
    inverse_round(block, round_key);
    wipe_stack::<ROUND_STACK>();
}

/// Applies a round of Cipher (FIPS 197, 5.1) to each of eight blocks, with the round key at the
/// same place.
#[unsafe(no_mangle)]
pub extern "C" fn fotsgure_aes_cipher_round_par(blocks: &mut [Block; 8], round_keys: &[Block; 8])
    ensures { blocks.new ≡ rounds_by_place cipher_round blocks.old round_keys.now }
{
    rounds(blocks, round_keys);
    wipe_stack::<ROUND_STACK>();
}

/// Applies a round of EqInvCipher (FIPS 197, 5.3.5) to each of eight blocks, with the round key at
/// the same place.
#[unsafe(no_mangle)]
pub extern "C" fn fotsgure_aes_equiv_inv_cipher_round_par(
    blocks: &mut [Block; 8],
    round_keys: &[Block; 8],
)
    ensures { blocks.new ≡ rounds_by_place equiv_inv_cipher_round blocks.old round_keys.now }
{
    inverse_rounds(blocks, round_keys);
    wipe_stack::<ROUND_STACK>();
}

/// Applies MixColumns to the block (FIPS 197, 5.1.3).
#[unsafe(no_mangle)]
pub extern "C" fn fotsgure_aes_mix_columns(block: &mut Block)
    ensures { block.new ≡ fips.mix_columns block.old }
{
    mixed(block);
    wipe_stack::<ROUND_STACK>();
}

/// Applies InvMixColumns to the block (FIPS 197, 5.3.3).
#[unsafe(no_mangle)]
pub extern "C" fn fotsgure_aes_inv_mix_columns(block: &mut Block)
    ensures { block.new ≡ fips.inv_mix_columns block.old }
{
    inverse_mixed(block);
    wipe_stack::<ROUND_STACK>();
}

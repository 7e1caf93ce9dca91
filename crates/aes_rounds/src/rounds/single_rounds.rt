//! The single rounds of each direction: those of Cipher, and those of EqInvCipher.

ghost use Rattle.std.specs.Prelude.{◌≡◌, ℕ, List, replicate};
ghost use Rattle.aes_planes.specs.Fips197 as fips;
ghost use Rattle.aes_planes.specs.SingleRounds.{rounds_by_place};

use aes::hazmat::{
    Block8, cipher_round, cipher_round_par, equiv_inv_cipher_round, equiv_inv_cipher_round_par,
    inv_mix_columns, mix_columns,
};
use aes_cipher::cipher::{Decrypt, Direction, Encrypt};
use aes_planes::soft::word::Block;

// A direction, by the single rounds that it consists of.
pub(super) trait SingleRounds: Direction {
    // The inverse of the column mixing in a round.
    ghost unmixed: { List ℕ → List ℕ };

    // Applies a round to the block.
    fn round(block: &mut Block, round_key: &Block)
        ensures { block.new ≡ fips.add_round_key (Self.step block.old) round_key.now };

    // Applies a round to each block, under the round key at the same index.
    fn round_par(blocks: &mut Block8, round_keys: &Block8)
        ensures { blocks.new ≡ rounds_by_place (λ b k. fips.add_round_key (Self.step b) k)
            blocks.old round_keys.now };

    // Undoes the column mixing of a round.
    fn unmix(block: &mut Block)
        ensures { block.new ≡ unmixed block.old };

    // No effect; states that a round under the zero key, with its column mixing undone, is the last
    // round.
    fn unmixed_round_is_last()
        ensures { (b : List ℕ) → unmixed (fips.add_round_key (Self.step b) (replicate 16 0))
            ≡ Self.last_step b };
}

// Cipher (FIPS 197, 5.1).
impl SingleRounds for Encrypt {
    ghost unmixed = { fips.inv_mix_columns };

    fn round(block: &mut Block, round_key: &Block) {
        cipher_round(block, round_key);
    }

    fn round_par(blocks: &mut Block8, round_keys: &Block8) {
        cipher_round_par(blocks, round_keys);
    }

    fn unmix(block: &mut Block) {
        inv_mix_columns(block);
    }

    #[tactic(auto, using(aes::proofs::SingleRounds::mixing_undone))]
    fn unmixed_round_is_last() {}
}

// EqInvCipher (FIPS 197, 5.3.5).
impl SingleRounds for Decrypt {
    ghost unmixed = { fips.mix_columns };

    fn round(block: &mut Block, round_key: &Block) {
        equiv_inv_cipher_round(block, round_key);
    }

    fn round_par(blocks: &mut Block8, round_keys: &Block8) {
        equiv_inv_cipher_round_par(blocks, round_keys);
    }

    fn unmix(block: &mut Block) {
        mix_columns(block);
    }

    #[tactic(auto, using(aes::proofs::SingleRounds::inverse_mixing_undone))]
    fn unmixed_round_is_last() {}
}

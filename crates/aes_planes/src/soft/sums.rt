//! Sums of planes and round keys.

ghost use Rattle.std.specs.Prelude.{◌≡◌, map};
ghost use Rattle.aes_planes.specs.Fips197 as fips;
ghost use Rattle.aes_planes.specs.Planes.{held, zip_with};

use crate::soft::word::Word;

/// Adds a round key to every block: AddRoundKey (FIPS 197, 5.1.4).
#[tactic(auto, using(crate::proofs::Planes::Held::added_held))]
#[inline(always)]
pub fn add_round_key<W: Word>(state: &mut [W; 8], round_key: &[W; 8])
    ensures { held W.BLOCKS (map W.bits state.new)
        ≡ zip_with fips.add_round_key (held W.BLOCKS (map W.bits state.old))
        (held W.BLOCKS (map W.bits round_key.now)) }
{
    *state = W::sum_planes(state, round_key);
}

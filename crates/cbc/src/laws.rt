//! Laws of chains. A call has no effect; its contract states the law, for proofs that need it.

ghost use Rattle.std.specs.Prelude.{◌≡◌, ℕ, List, [], ◌++◌, ◌<◌, length, slice_index_or};
ghost use Rattle.aes_planes.specs.Fips197 as fips;
ghost use Rattle.cbc.specs.Cbc.{chained, last_of, unchained};

use aes_planes::laws;

/// No effect; states that a chain may be cut anywhere: the blocks after the cut are chained to the
/// last encrypted block before it.
#[tactic(auto, using(crate::proofs::Chains::chained_cut, crate::proofs::Chains::unchained_cut))]
pub fn chains_cut()
    ensures encrypted { (w : List (List ℕ)) (iv : List ℕ) (a b : List (List ℕ)) →
        chained w iv (a ++ b) ≡ chained w iv a ++ chained w (last_of iv (chained w iv a)) b }
    ensures decrypted { (w : List (List ℕ)) (iv : List ℕ) (a b : List (List ℕ)) →
        unchained w iv (a ++ b) ≡ unchained w iv a ++ unchained w (last_of iv a) b }
{}

/// No effect; states that decryption undoes encryption, on blocks and under round keys of the
/// standard.
pub fn chains_back()
    ensures { (w : List (List ℕ)) (iv : List ℕ) (blocks : List (List ℕ)) → fips.AreRoundKeys w
        → fips.IsBlock iv →
        ((i : ℕ) → i < length blocks → fips.IsBlock (slice_index_or blocks i [])) →
        unchained w iv (chained w iv blocks) ≡ blocks }
{
    laws::inverse_ciphers_with();
    laws::sums_of_blocks();
}

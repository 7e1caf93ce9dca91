//! Round keys in a list of words: eight words of planes each.

ghost use Rattle.std.specs.Prelude.{◌≡◌, ℕ, ◌+◌, ◌*◌, ◌<◌, ◌≤◌, ◌⊎◌, length};
ghost use Rattle.aes_planes.specs.Planes.{words_at};

use crate::soft::word::Word;

/// Returns the planes of round key `i`: the words from `8 * i` on.
#[tactic(auto, using(crate::proofs::Planes::EightWords::eight_words))]
#[inline(always)]
pub fn round_key<W: Word>(round_keys: &[W], i: usize) -> [W; 8]
    requires room { 8 * i + 8 ≤ length round_keys.now }
    ensures { result ≡ words_at round_keys.now (8 * i) }
{
    let start = 8 * i;
    let plane0 = round_keys[start];
    let plane1 = round_keys[start + 1];
    let plane2 = round_keys[start + 2];
    let plane3 = round_keys[start + 3];
    let plane4 = round_keys[start + 4];
    let plane5 = round_keys[start + 5];
    let plane6 = round_keys[start + 6];
    let plane7 = round_keys[start + 7];
    [
        plane0, plane1, plane2, plane3, plane4, plane5, plane6, plane7,
    ]
}

/// Stores the planes of round key `i`. The other words stay.
#[tactic(auto, using(crate::proofs::Planes::EightWords::words_put, crate::proofs::Planes::EightWords::words_stay))]
#[inline(always)]
pub fn store_round_key<W: Word>(round_keys: &mut [W], i: usize, planes: &[W; 8])
    requires room { 8 * i + 8 ≤ length round_keys.old }
    ensures there { words_at round_keys.new (8 * i) ≡ planes.now }
    ensures others { (o : ℕ) → (o + 8 ≤ 8 * i) ⊎ (8 * i + 8 ≤ o)
        → words_at round_keys.new o ≡ words_at round_keys.old o }
    ensures same_length { length round_keys.new ≡ length round_keys.old }
{
    let start = 8 * i;
    for p in 0..8 {
        round_keys[start + p] = planes[p];
    }
}

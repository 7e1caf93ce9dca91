//! The key expansion (FIPS 197, 5.2), four words at a time. It is written once for every form in
//! which round keys are made and stored.

ghost use Rattle.std.specs.Prelude.{◌≡◌, ◌≢◌, ◌⊎◌, ◌+◌, ◌*◌, ◌≤◌, ℕ, List, length, take, drop};
ghost use Rattle.aes_planes.specs.Expansion.{substitutions};
ghost use Rattle.aes_planes.specs.Fips197 as fips;
ghost use Rattle.aes_planes.specs.Planes.{constant_block, columns_summed, columns_straddled};

use crate::soft::sbox::Layers;

// The powers of x in the field, from 0 to 9: the bytes that round constants begin with (FIPS 197,
// 5.2).
const POWERS_OF_X: [u8; 10] = [0x01, 0x02, 0x04, 0x08, 0x10, 0x20, 0x40, 0x80, 0x1b, 0x36];

/// A form of four words of the key expansion: planes, a vector or a block. It says how the words
/// are made, and how they are stored as a round key.
pub trait FourWords {
    /// Four words.
    type Words: Copy;

    /// What round keys are stored in.
    type StoredIn;

    /// The words are the four words of a block.
    ghost AreWords: { Self.Words → List ℕ → Type 0 };

    /// A round key, by its number and that of the last one, is stored for a block.
    ghost IsStored: { List Self.StoredIn → ℕ → ℕ → List ℕ → Type 0 };

    /// How many elements the round keys from 0 to a last one fill.
    ghost length_for: { ℕ → ℕ };

    /// How many S-box layers a substitution runs.
    ghost LAYERS: { ℕ };

    /// Four words of a key, from one byte on.
    fn load(key: &[u8], from: usize) -> Self::Words
        requires within { from + 16 ≤ length key.now }
        ensures { AreWords result (take 16 (drop from key.now)) };

    /// Four words. The first one needs the rotation, the substitution and a round constant.
    /// `before` has the four words that are one key earlier, and `last` the four words just before.
    fn rotated(
        before: Self::Words,
        last: Self::Words,
        constant: u8,
        layers: &mut Layers,
    ) -> Self::Words
        ensures words { (x y : List ℕ) → AreWords before x → AreWords last y → AreWords result
            (columns_summed 1 3 x
            (fips.add_round_key (fips.sub_bytes y) (constant_block constant))) }
        ensures layers { layers.new ≡ layers.old + LAYERS };

    /// Four words. The first one needs the substitution alone.
    fn substituted(before: Self::Words, last: Self::Words, layers: &mut Layers) -> Self::Words
        ensures words { (x y : List ℕ) → AreWords before x → AreWords last y
            → AreWords result (columns_summed 0 3 x (fips.sub_bytes y)) }
        ensures layers { layers.new ≡ layers.old + LAYERS };

    /// Four words. The first one needs neither. Column 1 of `last` is the word just before
    /// them.
    fn plain(before: Self::Words, last: Self::Words) -> Self::Words
        ensures { (x y : List ℕ) → AreWords before x → AreWords last y
            → AreWords result (columns_summed 0 1 x y) };

    /// The last two of four words and the first two of the next four.
    fn straddled(left: Self::Words, right: Self::Words) -> Self::Words
        ensures { (x y : List ℕ) → AreWords left x → AreWords right y
            → AreWords result (columns_straddled x y) };

    /// The four words of round key `i`, of those from 0 to `last`, once more. A form reads them
    /// back if it is slower to keep them.
    fn read_back(
        stored: &[Self::StoredIn],
        i: usize,
        last: usize,
        words: Self::Words,
    ) -> Self::Words
        requires sized { length stored.now ≡ length_for last }
        requires within { i ≤ last }
        ensures { (x : List ℕ) → IsStored stored.now last i x → AreWords words x
            → AreWords result x };

    /// Stores four words as round key `i` of those from 0 to `last`. The others stay.
    fn store(stored: &mut [Self::StoredIn], i: usize, last: usize, words: Self::Words)
        requires sized { length stored.old ≡ length_for last }
        requires within { i ≤ last }
        requires two { 1 ≤ last }
        ensures there { (x : List ℕ) → AreWords words x → IsStored stored.new last i x }
        ensures others { (j : ℕ) (x : List ℕ) → j ≤ last → j ≢ i
            → IsStored stored.old last j x → IsStored stored.new last j x }
        ensures same_length { length stored.new ≡ length stored.old };
}

/// Stores the round keys of a key of any size: KeyExpansion (FIPS 197, 5.2). If the length of the
/// key is a constant, only one of the three loops is compiled.
#[inline(always)]
pub fn expand<F: FourWords>(stored: &mut [F::StoredIn], key: &[u8], layers: &mut Layers)
    requires one_of_three { (length key.now ≡ 16)
        ⊎ ((length key.now ≡ 24) ⊎ (length key.now ≡ 32)) }
    requires room { length stored.old ≡ F.length_for (fips.rounds key.now) }
    ensures keys { (i : ℕ) → i ≤ fips.rounds key.now
        → F.IsStored stored.new (fips.rounds key.now) i
        (fips.round_key (fips.key_expansion key.now) i) }
    ensures layers { layers.new ≡ layers.old + substitutions (length key.now) * F.LAYERS }
    ensures same_length { length stored.new ≡ length stored.old }
{
    if key.len() == 16 {
        expand_128::<F>(stored, key, layers);
    } else if key.len() == 24 {
        expand_192::<F>(stored, key, layers);
    } else {
        expand_256::<F>(stored, key, layers);
    }
}

// Stores the round keys of a key of 16 bytes.
#[inline(always)]
fn expand_128<F: FourWords>(stored: &mut [F::StoredIn], key: &[u8], layers: &mut Layers)
    requires room { length stored.old ≡ F.length_for 10 }
    requires sized { length key.now ≡ 16 }
    ensures keys { (i : ℕ) → i ≤ 10
        → F.IsStored stored.new 10 i (fips.round_key (fips.key_expansion key.now) i) }
    ensures layers { layers.new ≡ layers.old + 10 * F.LAYERS }
    ensures same_length { length stored.new ≡ F.length_for 10 }
{
    let mut words = F::load(key, 0);
    F::store(stored, 0, 10, words);
    'expand: for i in 0..10 {
        let before = F::read_back(stored, i, 10, words);
        words = F::rotated(before, words, POWERS_OF_X[i], layers);
        F::store(stored, i + 1, 10, words);
    }
}

// Stores the round keys of a key of 24 bytes.
#[inline(always)]
fn expand_192<F: FourWords>(stored: &mut [F::StoredIn], key: &[u8], layers: &mut Layers)
    requires room { length stored.old ≡ F.length_for 12 }
    requires sized { length key.now ≡ 24 }
    ensures keys { (i : ℕ) → i ≤ 12
        → F.IsStored stored.new 12 i (fips.round_key (fips.key_expansion key.now) i) }
    ensures layers { layers.new ≡ layers.old + 8 * F.LAYERS }
    ensures same_length { length stored.new ≡ F.length_for 12 }
{
    // Six words at a time: `front` has the first four, and `back` the last four.
    let mut front = F::load(key, 0);
    let mut back = F::load(key, 8);
    F::store(stored, 0, 12, front);
    'expand: for i in 0..4 {
        let front1 = F::rotated(front, back, POWERS_OF_X[2 * i], layers);
        let back1 = F::plain(back, front1);
        // Twelve words are three round keys, and the one in the middle has two words of each six.
        let middle = F::straddled(back, front1);
        F::store(stored, 3 * i + 1, 12, middle);
        F::store(stored, 3 * i + 2, 12, back1);
        front = F::rotated(front1, back1, POWERS_OF_X[2 * i + 1], layers);
        back = F::plain(back1, front);
        F::store(stored, 3 * i + 3, 12, front);
    }
}

// Stores the round keys of a key of 32 bytes.
#[inline(always)]
fn expand_256<F: FourWords>(stored: &mut [F::StoredIn], key: &[u8], layers: &mut Layers)
    requires room { length stored.old ≡ F.length_for 14 }
    requires sized { length key.now ≡ 32 }
    ensures keys { (i : ℕ) → i ≤ 14
        → F.IsStored stored.new 14 i (fips.round_key (fips.key_expansion key.now) i) }
    ensures layers { layers.new ≡ layers.old + 13 * F.LAYERS }
    ensures same_length { length stored.new ≡ F.length_for 14 }
{
    // Eight words at a time: `even` has the first four, and `odd` the last four.
    let mut even = F::load(key, 0);
    let mut odd = F::load(key, 16);
    F::store(stored, 0, 14, even);
    F::store(stored, 1, 14, odd);
    'expand: for i in 0..6 {
        let even_before = F::read_back(stored, 2 * i, 14, even);
        even = F::rotated(even_before, odd, POWERS_OF_X[i], layers);
        F::store(stored, 2 * i + 2, 14, even);
        let odd_before = F::read_back(stored, 2 * i + 1, 14, odd);
        odd = F::substituted(odd_before, even, layers);
        F::store(stored, 2 * i + 3, 14, odd);
    }
    let before = F::read_back(stored, 12, 14, even);
    even = F::rotated(before, odd, POWERS_OF_X[6], layers);
    F::store(stored, 14, 14, even);
}

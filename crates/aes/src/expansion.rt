//! The key expansion (FIPS 197, 5.2), on single rounds.

ghost use Rattle.std.specs.Prelude.{◌≡◌, ◌⊎◌, ◌+◌, length, slice_index};
ghost use Rattle.aes_planes.specs.Fips197 as fips;
ghost use Rattle.aes_planes.specs.Planes.{fold_to};

use crate::Block;
use crate::hazmat::{cipher_round, inv_mix_columns};
use aes_planes::expansion::{FourWords, expand};
use aes_planes::laws;
use aes_planes::soft::sbox::Layers;

// Four bytes: a column of a block, and the unit of the key expansion.
type KeyWord = [u8; 4];

// The round key that changes nothing.
const ZERO_KEY: Block = [0; 16];

/// KeyExpansion of a key of 16 bytes (FIPS 197, 5.2).
pub fn expand_128(key: &[u8; 16]) -> [Block; 11]
    ensures { result ≡ fips.key_expansion key.now }
{
    expanded(key)
}

/// KeyExpansion of a key of 24 bytes (FIPS 197, 5.2).
pub fn expand_192(key: &[u8; 24]) -> [Block; 13]
    ensures { result ≡ fips.key_expansion key.now }
{
    expanded(key)
}

/// KeyExpansion of a key of 32 bytes (FIPS 197, 5.2).
pub fn expand_256(key: &[u8; 32]) -> [Block; 15]
    ensures { result ≡ fips.key_expansion key.now }
{
    expanded(key)
}

// KeyExpansion of a key of any size (FIPS 197, 5.2).
#[tactic(auto, using(crate::proofs::BlockExpansion::same_round_keys))]
#[inline(always)]
fn expanded<const COUNT: usize>(key: &[u8]) -> [Block; COUNT]
    requires one_of_three { (length key.now ≡ 16)
        ⊎ ((length key.now ≡ 24) ⊎ (length key.now ≡ 32)) }
    requires sized { COUNT ≡ fips.rounds key.now + 1 }
    ensures { result ≡ fips.key_expansion key.now }
{
    let mut round_keys = [[0; 16]; COUNT];
    expand::<BlockKeys>(&mut round_keys, key, &mut Layers::new());
    round_keys
}

// Round keys as the blocks that they are.
struct BlockKeys;

impl FourWords for BlockKeys {
    type Words = Block;

    type StoredIn = Block;

    ghost AreWords = { λ words block. words ≡ block };

    ghost IsStored = { λ round_keys last i block. fips.round_key round_keys i ≡ block };

    ghost length_for = { λ last. last + 1 };

    ghost LAYERS = { 0 };

    fn load(key: &[u8], from: usize) -> Block {
        *key[from..from + 16].as_array::<16>().unwrap()
    }

    fn rotated(before: Block, last: Block, constant: u8, _layers: &mut Layers) -> Block {
        let word = substituted_word(last);
        let rotated = [word[1], word[2], word[3], word[0]];
        summed_columns(before, add_words(rotated, [constant, 0, 0, 0]))
    }

    fn substituted(before: Block, last: Block, _layers: &mut Layers) -> Block {
        let word = substituted_word(last);
        summed_columns(before, word)
    }

    #[tactic(auto, using(crate::proofs::BlockExpansion::plain_is))]
    fn plain(before: Block, last: Block) -> Block {
        summed_columns(before, [last[4], last[5], last[6], last[7]])
    }

    #[tactic(auto, using(crate::proofs::BlockExpansion::straddled_is))]
    fn straddled(left: Block, right: Block) -> Block {
        [
            left[8], left[9], left[10], left[11], left[12], left[13], left[14], left[15], right[0],
            right[1], right[2], right[3], right[4], right[5], right[6], right[7],
        ]
    }

    fn read_back(_stored: &[Block], _i: usize, _last: usize, words: Block) -> Block {
        words
    }

    fn store(stored: &mut [Block], i: usize, _last: usize, words: Block) {
        stored[i] = words;
    }
}

// SubWord of the last of four words, by a round under the zero key whose MixColumns is undone.
// ShiftRows separates the bytes of the column: the byte of row r is then r columns to the left.
#[tactic(auto, using(crate::proofs::BlockExpansion::last_word_substituted))]
fn substituted_word(words: Block) -> KeyWord
    ensures { result ≡ fips.word (λ r. fips.byte_at (fips.sub_bytes words) r 3) }
{
    laws::block_has_16_bytes(words);
    let mut block = words;
    cipher_round(&mut block, &ZERO_KEY);
    inv_mix_columns(&mut block);
    [block[12], block[9], block[6], block[3]]
}

// Returns columns. Each is the sum of a word and of the block's columns up to that place.
fn summed_columns(before: Block, start: KeyWord) -> Block
    ensures { result ≡ fips.state
        (λ r c. fold_to fips.field_add (fips.byte_at before r) (slice_index start r) c) }
{
    let a = add_words([before[0], before[1], before[2], before[3]], start);
    let b = add_words([before[4], before[5], before[6], before[7]], a);
    let c = add_words([before[8], before[9], before[10], before[11]], b);
    let d = add_words([before[12], before[13], before[14], before[15]], c);
    [
        a[0], a[1], a[2], a[3], b[0], b[1], b[2], b[3], c[0], c[1], c[2], c[3], d[0], d[1], d[2],
        d[3],
    ]
}

// The sum of two words.
fn add_words(v: KeyWord, w: KeyWord) -> KeyWord
    ensures { result ≡ fips.add_words v w }
{
    [v[0] ^ w[0], v[1] ^ w[1], v[2] ^ w[2], v[3] ^ w[3]]
}

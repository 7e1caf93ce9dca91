//! Room for the planes of stored round keys of a key of any size, and the first of its words, which
//! are the round keys.
ghost use Rattle.std.specs.Prelude.{◌≡◌, ◌⊎◌, ◌+◌, ◌*◌, length};
ghost use Rattle.aes_planes.specs.Expansion.{substitutions};
ghost use Rattle.aes_planes.specs.Fips197 as fips;
ghost use Rattle.aes_planes.specs.Words.{word_bits};
ghost use Rattle.aes_soft.specs.Stored.{key_of_planes, stored_words, words_for, IsFullSchedule};

use super::ciphers::Full;
use super::key_schedule::expand_stored;
use aes_cipher::aes::KeySize;
use aes_cipher::zeroize::Wiped;
use aes_planes::laws;
use aes_planes::soft::sbox::Layers;

/// Room for the round keys of a key of any size in the full layout: as many words as the largest
/// has.
pub type PlaneRoom<W> = [W; 120];

/// Returns the stored round keys of a key: the first of the words.
#[inline(always)]
pub fn keys_in_room<K: KeySize>(room: &Wiped<PlaneRoom<u16>>) -> &[u16]
    ensures words { result.now ≡ stored_words K.SIZE room.now }
    ensures count { length result.now ≡ words_for K.SIZE }
{
    &room.value()[..2 * K::SIZE + 56]
}

/// Writes the round keys of a key, as the full layout stores them: KeyExpansion (FIPS 197, 5.2).
#[inline(always)]
pub fn expand_in_room<K: KeySize>(room: &mut PlaneRoom<u16>, key: &[u8], layers: &mut Layers)
    requires sized { length key.now ≡ K.SIZE }
    ensures schedule { IsFullSchedule (word_bits 16) 1 (stored_words K.SIZE room.new) }
    ensures key { key_of_planes (word_bits 16) 1 (stored_words K.SIZE room.new) ≡ key.now }
    ensures layers { layers.new ≡ layers.old + substitutions K.SIZE }
{
    // The room is cut here, since the borrow checker doesn't cover a cut of what a `Wiped` lends to
    // be written over.
    expand_stored::<u16, Full>(&mut room[..2 * K::SIZE + 56], key, layers);
}

/// No effect; states that stored round keys are read as a key of bytes, whose round keys are
/// blocks.
#[tactic(auto, using(crate::proofs::KeyOfPlanes::read_keys))]
pub fn words_hold_a_key(words: &[u16])
    requires { (length words.now ≡ 88) ⊎ ((length words.now ≡ 104) ⊎ (length words.now ≡ 120)) }
    ensures sized { 2 * length (key_of_planes (word_bits 16) 1 words.now) + 56 ≡ length words.now }
    ensures bytes { fips.IsBytes (key_of_planes (word_bits 16) 1 words.now) }
    ensures round_keys { fips.AreRoundKeys (fips.key_expansion (key_of_planes (word_bits 16) 1 words.now)) }
{
    laws::expanded_keys();
}

//! Round keys in room for those of a key of any size.

ghost use Rattle.std.specs.Prelude.{◌≡◌, ◌+◌, ◌*◌, drop, length, take};
ghost use Rattle.aes_cipher.specs.KeySizes.{IsKeySize};
ghost use Rattle.aes_soft.specs.Stored.{key_of_planes, words_for, IsFullSchedule};

use aes_cipher::zeroize::wipe_stack;
use aes_planes::soft::sbox::Layers;
use aes_planes::soft::word::Word;
use aes_soft::soft::plane_room::PlaneRoom;
use aes_soft::soft::{Full, expand_stored};

/// Returns the stored round keys of a key of `size` bytes: the first of the words.
#[inline(always)]
pub fn keys_in_room<W: Word>(room: &PlaneRoom<W>, size: usize) -> &[W]
    requires { IsKeySize size }
    ensures keys { result.now ≡ take (words_for size) room.now }
    ensures count { length result.now ≡ words_for size }
{
    &room[..2 * size + 56]
}

// The most bytes of stack of the expansion of a key.
const EXPANSION_STACK: usize = 768;

// Writes the round keys of a key, as the full layout stores them. This is a call of its own, so
// that its stack can be wiped.
#[inline(never)]
fn expand_words<W: Word>(words: &mut [W], key: &[u8])
    requires one_of_three { IsKeySize (length key.now) }
    requires sized { length words.old ≡ words_for (length key.now) }
    ensures schedule { IsFullSchedule W.bits W.BLOCKS words.new }
    ensures key { key_of_planes W.bits W.BLOCKS words.new ≡ key.now }
    ensures same_length { length words.new ≡ length words.old }
{
    expand_stored::<W, Full>(words, key, &mut Layers::new());
}

/// Writes the round keys of a key, as the full layout stores them: KeyExpansion (FIPS 197, 5.2).
/// The stack that this used is wiped before the call returns.
#[inline(always)]
pub fn expand_in_room<W: Word>(room: &mut PlaneRoom<W>, key: &[u8])
    requires { IsKeySize (length key.now) }
    ensures schedule { IsFullSchedule W.bits W.BLOCKS (take (words_for (length key.now)) room.new) }
    ensures key { key_of_planes W.bits W.BLOCKS (take (words_for (length key.now)) room.new)
        ≡ key.now }
    ensures after { drop (words_for (length key.now)) room.new
        ≡ drop (words_for (length key.now)) room.old }
{
    expand_words::<W>(&mut room[..2 * key.len() + 56], key);
    wipe_stack::<EXPANSION_STACK>();
}

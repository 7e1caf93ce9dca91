//! The round keys on `u16` as the round keys of any other word.
ghost use Rattle.std.specs.Prelude.{◌≡◌, length, take};
ghost use Rattle.aes_planes.specs.Words.{word_bits};
ghost use Rattle.aes_soft.specs.Stored.{key_of_planes, IsFullSchedule};

use crate::soft::plane_room::PlaneRoom;
use aes_planes::soft::word::Word;

/// Writes stored round keys on `u16` to as many words of `W`, for the same key. Each word is made
/// by `broadcast`, so that every slot has the block of the one slot.
#[inline(always)]
pub fn store_widened<W: Word>(widened: &mut [W], round_keys: &[u16])
    requires same_length { length widened.old ≡ length round_keys.now }
    requires is_stored { IsFullSchedule (word_bits 16) 1 round_keys.now }
    ensures schedule { IsFullSchedule W.bits W.BLOCKS widened.new }
    ensures key { key_of_planes W.bits W.BLOCKS widened.new
        ≡ key_of_planes (word_bits 16) 1 round_keys.now }
    ensures same_length { length widened.new ≡ length round_keys.now }
{
    'widen: for i in 0..round_keys.len() {
        widened[i] = W::broadcast(round_keys[i]);
    }
}

// Does what `store_widened` does, in room for the round keys of the largest key: writes as many of
// its first words.
#[inline(always)]
pub(crate) fn store_widened_first<W: Word>(room: &mut PlaneRoom<W>, round_keys: &[u16])
    requires is_stored { IsFullSchedule (word_bits 16) 1 round_keys.now }
    ensures schedule { IsFullSchedule W.bits W.BLOCKS (take (length round_keys.now) room.new) }
    ensures key { key_of_planes W.bits W.BLOCKS (take (length round_keys.now) room.new)
        ≡ key_of_planes (word_bits 16) 1 round_keys.now }
{
    store_widened(&mut room[..round_keys.len()], round_keys);
}

/// The stored round keys of a key on `u16` as those of the same key on `W`: see `store_widened`.
pub fn widen<W: Word, const N: usize>(round_keys: &[u16; N]) -> [W; N]
    requires is_stored { IsFullSchedule (word_bits 16) 1 round_keys.now }
    ensures schedule { IsFullSchedule W.bits W.BLOCKS result }
    ensures key { key_of_planes W.bits W.BLOCKS result
        ≡ key_of_planes (word_bits 16) 1 round_keys.now }
{
    let mut widened = [W::zero(); N];
    store_widened(&mut widened, round_keys);
    widened
}

//! Room for stored round keys of a key of any size, and the first of its blocks, which are the
//! round keys.

ghost use Rattle.std.specs.Prelude.{◌≡◌, ◌+◌, ◌/◌, drop, length};
ghost use Rattle.aes_cipher.specs.KeySizes.{IsKeySize};
ghost use Rattle.aes_permute.specs.Keys.{key_of_lanes, stored_keys, AreInverse, IsCipherSchedule};

use crate::lane_keys::{expand_lanes, invert_lanes};
use aes_planes::soft::word::Block;

/// Room for the round keys of a key of any size: as many blocks as the largest has.
pub type LaneRoom = [Block; 15];

/// Returns the stored round keys of a key of `size` bytes: the first of the blocks.
#[inline(always)]
pub fn keys_in_room(room: &LaneRoom, size: usize) -> &[Block]
    requires { IsKeySize size }
    ensures keys { result.now ≡ stored_keys size room.now }
    ensures count { length result.now ≡ size / 4 + 7 }
{
    &room[..size / 4 + 7]
}

/// Writes the round keys of a key as Cipher uses them: KeyExpansion (FIPS 197, 5.2).
#[inline(always)]
pub fn expand_in_room(room: &mut LaneRoom, key: &[u8])
    requires { IsKeySize (length key.now) }
    ensures schedule { IsCipherSchedule (stored_keys (length key.now) room.new) }
    ensures key { key_of_lanes (stored_keys (length key.now) room.new) ≡ key.now }
    ensures after { drop (length key.now / 4 + 7) room.new
        ≡ drop (length key.now / 4 + 7) room.old }
{
    expand_lanes(&mut room[..key.len() / 4 + 7], key);
}

/// Writes the round keys of EqInvCipher, for the key of `size` bytes that Cipher's round keys have
/// (FIPS 197, 5.3.5).
#[inline(always)]
pub fn invert_in_room(inverse: &mut LaneRoom, room: &LaneRoom, size: usize)
    requires { IsKeySize size }
    ensures keys { AreInverse (stored_keys size inverse.new) (stored_keys size room.now) }
    ensures after { drop (size / 4 + 7) inverse.new ≡ drop (size / 4 + 7) inverse.old }
{
    invert_lanes(&mut inverse[..size / 4 + 7], keys_in_room(room, size));
}

//! Key schedules: the key expansion, stored as a layout has it.
ghost use Rattle.std.specs.Prelude.{◌≡◌, ◌⊎◌, ◌+◌, ◌*◌, length, map};
ghost use Rattle.aes_planes.specs.Expansion.{substitutions};
ghost use Rattle.aes_planes.specs.Fips197 as fips;
ghost use Rattle.aes_soft.specs.Stored.{deferred, key_of, IsSchedule};

use super::ciphers::Layout;
use super::key_layout::store;
use super::plane_words::PlaneWords;
use aes_planes::expansion::expand;
use aes_planes::soft::sbox::Layers;
use aes_planes::soft::word::Word;

/// Writes the round keys of a key to words, as a layout stores them: KeyExpansion (FIPS 197, 5.2).
/// Each is in every slot. It allows for the ShiftRows that the ciphers defer, and contains the 0x63
/// that `sub_bytes` leaves out. No other copy is made.
#[inline(always)]
pub fn expand_stored<W: Word, L: Layout>(round_keys: &mut [W], key: &[u8], layers: &mut Layers)
    requires one_of_three { (length key.now ≡ 16)
        ⊎ ((length key.now ≡ 24) ⊎ (length key.now ≡ 32)) }
    requires sized { length round_keys.old ≡ 8 * fips.rounds key.now + 8 }
    ensures schedule { IsSchedule W.BLOCKS (deferred L.PERIOD (fips.rounds key.now)) key.now
        (map W.bits round_keys.new) }
    ensures key { let layout = deferred L.PERIOD (fips.rounds key.now) in
        key_of (length key.now) W.BLOCKS layout (map W.bits round_keys.new) ≡ key.now }
    ensures layers { layers.new ≡ layers.old + substitutions (length key.now) }
    ensures same_length { length round_keys.new ≡ length round_keys.old }
{
    expand::<PlaneWords<W>>(round_keys, key, layers);
    store::<W, L>(round_keys, key.len() / 4 + 6);
}

//! Closures that are lent a backend that decrypts.
ghost use Rattle.std.specs.Prelude.{◌≡◌};
ghost use Rattle.aes_planes.specs.Fips197 as fips;
ghost use Rattle.aes_planes.specs.Words.{word_bits};
ghost use Rattle.aes_soft.specs.Stored.{key_of_planes, IsFullSchedule};

use super::{Backend, CLOSURE_STACK};
use crate::soft::blocks::BatchWord;
use crate::soft::full::store_widened_first;
use crate::soft::plane_room::PlaneRoom;
use aes_cipher::cipher::BlockCipherDecClosure;
use aes_cipher::zeroize::{MustWipe, wipe_stack};

// Calls the closure with a backend, in a call of its own, so that its stack can be wiped.
#[inline(never)]
fn call_to_decrypt<F: BlockCipherDecClosure>(round_keys: &[u16], widened: &[BatchWord], f: &mut F)
    requires is_schedule { IsFullSchedule (word_bits 16) 1 round_keys.now }
    requires is_widened { IsFullSchedule (word_bits 128) 8 widened.now }
    requires same_key { key_of_planes (word_bits 128) 8 widened.now
        ≡ key_of_planes (word_bits 16) 1 round_keys.now }
    ensures { F.did f.old
        (fips.key_expansion (key_of_planes (word_bits 16) 1 round_keys.now)) f.new }
{
    f.call(&Backend::lent(round_keys, widened));
}

/// Calls the closure once, with a backend of stored round keys. These are widened for the call. The
/// widened copy, and the stack that the closure used, are wiped after it.
#[inline(never)]
pub fn decrypt_with_backend<F: BlockCipherDecClosure>(round_keys: &[u16], f: &mut F)
    requires is_schedule { IsFullSchedule (word_bits 16) 1 round_keys.now }
    ensures { F.did f.old
        (fips.key_expansion (key_of_planes (word_bits 16) 1 round_keys.now)) f.new }
{
    let mut room = MustWipe::<PlaneRoom<BatchWord>>::zeroed();
    store_widened_first(room.value_mut(), round_keys);
    call_to_decrypt(round_keys, &room.value()[..round_keys.len()], f);
    room.wipe();
    wipe_stack::<CLOSURE_STACK>();
}

//! The course of a message: its keys are derived, it is processed under them, and what is left of
//! them is wiped.

ghost use Rattle.std.specs.Prelude.{◌≡◌, ◌↔◌, ℕ, List, ◌^◌, ◌≤◌, length, IsTrue, false};
ghost use Rattle.gcm_siv.specs.GcmSiv as rfc;
ghost use Rattle.gcm_siv.specs.GcmSiv.{IsAuthentic, IsKeyOf, IsSivKeySize};

use crate::hash::PolyvalRoom;
use crate::keys::derive_and_prepare;
use crate::lengths::is_short;
use crate::message::{open, seal};
use crate::message_key::MessageKey;
use aes_cipher::cipher::{Block, BlockCipherEncrypt};
use aes_cipher::zeroize::{MustWipe, wipe_stack};

// The most bytes of stack below the room for a message's keys. Derived keys, values of POLYVAL, the
// right tag of a refused message and blocks of the keystream may be there.
const MESSAGE_STACK: usize = 2816;

// Encrypts a text in place and returns the tag, with room for POLYVAL of this type. Never inlined,
// so that a short message has a small stack frame. This function wipes its room, and the stack that
// calls left below it. If a caller wiped that stack, its depth would depend on the room.
#[inline(never)]
fn seal_in<C: BlockCipherEncrypt, K: MessageKey, R: PolyvalRoom>(
    cipher: &C,
    size: usize,
    nonce: &[u8; 12],
    additional: &[u8],
    text: &mut [u8],
) -> Block
    requires size { IsSivKeySize size }
    requires allowed { K.IsAllowed size }
    requires additional { length additional.now ≤ 2 ^ 36 }
    requires text { length text.old ≤ 2 ^ 36 }
    ensures tag { (key : List ℕ) → IsKeyOf size (C.round_keys cipher.now) key
        → result ≡ rfc.tag key nonce.now additional.now text.old }
    ensures encrypted { (key : List ℕ) → IsKeyOf size (C.round_keys cipher.now) key
        → text.new ≡ rfc.text key nonce.now result text.old }
{
    let mut room = MustWipe::<R>::zeroed();
    let mut message_key = MustWipe::<K>::zeroed();
    derive_and_prepare(
        cipher,
        size,
        nonce,
        message_key.value_mut(),
        room.value_mut(),
    );
    let tag = seal(message_key.value(), room.value(), nonce, additional, text);
    message_key.wipe();
    room.wipe();
    wipe_stack::<MESSAGE_STACK>();
    tag
}

/// Encrypts a text in place and returns the tag, under a cipher whose key has `size` bytes (4), with
/// the room that takes less time.
#[inline(always)]
pub fn seal_message<C: BlockCipherEncrypt, K: MessageKey>(
    cipher: &C,
    size: usize,
    nonce: &[u8; 12],
    additional: &[u8],
    text: &mut [u8],
) -> Block
    requires size { IsSivKeySize size }
    requires allowed { K.IsAllowed size }
    requires additional { length additional.now ≤ 2 ^ 36 }
    requires text { length text.old ≤ 2 ^ 36 }
    ensures tag { (key : List ℕ) → IsKeyOf size (C.round_keys cipher.now) key
        → result ≡ rfc.tag key nonce.now additional.now text.old }
    ensures encrypted { (key : List ℕ) → IsKeyOf size (C.round_keys cipher.now) key
        → text.new ≡ rfc.text key nonce.now result text.old }
{
    if is_short(additional.len(), text.len()) {
        seal_in::<C, K, K::ShortRoom>(cipher, size, nonce, additional, text)
    } else {
        seal_in::<C, K, K::LongRoom>(cipher, size, nonce, additional, text)
    }
}

// Decrypts a text in place if the tag is right, and returns whether it is, with room for POLYVAL of
// this type.
#[inline(never)]
fn open_in<C: BlockCipherEncrypt, K: MessageKey, R: PolyvalRoom>(
    cipher: &C,
    size: usize,
    nonce: &[u8; 12],
    additional: &[u8],
    text: &mut [u8],
    tag: &Block,
) -> bool
    requires size { IsSivKeySize size }
    requires allowed { K.IsAllowed size }
    requires additional { length additional.now ≤ 2 ^ 36 }
    requires text { length text.old ≤ 2 ^ 36 }
    ensures accepted { (key : List ℕ) → IsKeyOf size (C.round_keys cipher.now) key
        → IsTrue result ↔ IsAuthentic key nonce.now additional.now tag.now text.old }
    ensures decrypted { (key : List ℕ) → IsKeyOf size (C.round_keys cipher.now) key
        → IsTrue result → text.new ≡ rfc.text key nonce.now tag.now text.old }
    ensures untouched { result ≡ false → text.new ≡ text.old }
{
    let mut room = MustWipe::<R>::zeroed();
    let mut message_key = MustWipe::<K>::zeroed();
    derive_and_prepare(
        cipher,
        size,
        nonce,
        message_key.value_mut(),
        room.value_mut(),
    );
    let is_right = open(
        message_key.value(),
        room.value(),
        nonce,
        additional,
        text,
        tag,
    );
    message_key.wipe();
    room.wipe();
    wipe_stack::<MESSAGE_STACK>();
    is_right
}

/// Decrypts a text in place if the tag is right, and returns whether it is, under a cipher whose key
/// has `size` bytes (5), with the room that takes less time.
#[inline(always)]
pub fn open_message<C: BlockCipherEncrypt, K: MessageKey>(
    cipher: &C,
    size: usize,
    nonce: &[u8; 12],
    additional: &[u8],
    text: &mut [u8],
    tag: &Block,
) -> bool
    requires size { IsSivKeySize size }
    requires allowed { K.IsAllowed size }
    requires additional { length additional.now ≤ 2 ^ 36 }
    requires text { length text.old ≤ 2 ^ 36 }
    ensures accepted { (key : List ℕ) → IsKeyOf size (C.round_keys cipher.now) key
        → IsTrue result ↔ IsAuthentic key nonce.now additional.now tag.now text.old }
    ensures decrypted { (key : List ℕ) → IsKeyOf size (C.round_keys cipher.now) key
        → IsTrue result → text.new ≡ rfc.text key nonce.now tag.now text.old }
    ensures untouched { result ≡ false → text.new ≡ text.old }
{
    if is_short(additional.len(), text.len()) {
        open_in::<C, K, K::ShortRoom>(cipher, size, nonce, additional, text, tag)
    } else {
        open_in::<C, K, K::LongRoom>(cipher, size, nonce, additional, text, tag)
    }
}

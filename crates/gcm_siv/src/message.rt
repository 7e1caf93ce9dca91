//! A message under its own keys (RFC 8452, 4 and 5).

ghost use Rattle.std.specs.Prelude.{◌≡◌, ◌↔◌, ℕ, [], ◌∷◌, ◌+◌, ◌%◌, ◌^◌, ◌<◌, ◌≤◌, ◌++◌, length};
ghost use Rattle.std.specs.Prelude.{replicate, slice_index, take, IsTrue, false};
ghost use Rattle.aes_planes.specs.Fips197 as fips;
ghost use Rattle.gcm.specs.Gcm.{next_v};
ghost use Rattle.gcm_siv.specs.GcmSiv.{first_counter, tag_under, text_under};

use crate::hash::PolyvalRoom;
use crate::message_key::MessageKey;
use aes_cipher::blocks::{blocks_equal, sum_of_blocks};
use aes_cipher::cipher::Block;
use aes_cipher::zeroize::MustWipe;

// The block whose encryption is the tag, made of S_s and the nonce.
fn tag_input(sum: &Block, nonce: &[u8; 12]) -> Block
    ensures { let block = fips.add_round_key sum.now (nonce.now ++ replicate 4 0) in
        result ≡ take 15 block ++ slice_index block 15 % 128 ∷ [] }
{
    let mut added = [0; 16];
    added[..12].copy_from_slice(nonce);
    let mut block = sum_of_blocks(sum, &added);
    block[15] %= 128;
    block
}

// The initial counter block of a tag.
fn first_counter(tag: &Block) -> Block
    ensures { result ≡ first_counter tag.now }
{
    let mut block = *tag;
    block[15] = 128 + block[15] % 128;
    block
}

// Writes the tag of additional data and a plain text.
fn put_tag<K: MessageKey, R: PolyvalRoom>(
    key: &K,
    room: &R,
    nonce: &[u8; 12],
    additional: &[u8],
    text: &[u8],
    tag: &mut Block,
)
    requires set { K.IsSet key.now }
    requires made { R.IsMade room.now }
    requires additional { length additional.now ≤ 2 ^ 36 }
    requires text { length text.now ≤ 2 ^ 36 }
    ensures { (h : ℕ) → h < 2 ^ 128 → R.subkey room.now ≡ next_v h
        → tag.new ≡ tag_under (fips.key_expansion (K.own_key key.now)) h nonce.now additional.now text.now }
{
    *tag = tag_input(&room.hash(additional, text), nonce);
    key.encrypt_block(tag);
}

// Whether a tag is that of additional data and a plain text.
fn is_tag<K: MessageKey, R: PolyvalRoom>(
    key: &K,
    room: &R,
    nonce: &[u8; 12],
    additional: &[u8],
    text: &[u8],
    tag: &Block,
) -> bool
    requires set { K.IsSet key.now }
    requires made { R.IsMade room.now }
    requires additional { length additional.now ≤ 2 ^ 36 }
    requires text { length text.now ≤ 2 ^ 36 }
    ensures { (h : ℕ) → h < 2 ^ 128 → R.subkey room.now ≡ next_v h
        → IsTrue result ↔ (tag.now ≡ tag_under (fips.key_expansion (K.own_key key.now))
        h nonce.now additional.now text.now) }
{
    let mut expected = MustWipe::<[Block; 1]>::zeroed();
    put_tag(
        key,
        room,
        nonce,
        additional,
        text,
        &mut expected.value_mut()[0],
    );
    let is_equal = blocks_equal(tag, &expected.value()[0]);
    expected.wipe();
    is_equal
}

// Encrypts or decrypts a text that has a tag.
fn process_text<K: MessageKey>(key: &K, tag: &Block, text: &mut [u8])
    requires { K.IsSet key.now }
    ensures { text.new ≡ text_under (fips.key_expansion (K.own_key key.now)) tag.now text.old }
{
    key.add_keystream(&first_counter(tag), text);
}

/// Encrypts a text in place, and returns the tag. This is a call of its own, as `open`, so that its
/// stack can be wiped.
#[inline(never)]
pub(crate) fn seal<K: MessageKey, R: PolyvalRoom>(
    key: &K,
    room: &R,
    nonce: &[u8; 12],
    additional: &[u8],
    text: &mut [u8],
) -> Block
    requires set { K.IsSet key.now }
    requires made { R.IsMade room.now }
    requires additional { length additional.now ≤ 2 ^ 36 }
    requires text { length text.old ≤ 2 ^ 36 }
    ensures tag { (h : ℕ) → h < 2 ^ 128 → R.subkey room.now ≡ next_v h
        → result ≡ tag_under (fips.key_expansion (K.own_key key.now)) h nonce.now additional.now text.old }
    ensures text { text.new ≡ text_under (fips.key_expansion (K.own_key key.now)) result text.old }
{
    let mut tag = [0; 16];
    put_tag(key, room, nonce, additional, text, &mut tag);
    process_text(key, &tag, text);
    tag
}

/// Decrypts a text in place if its tag is right, and returns whether it is. A text that is refused
/// is encrypted again, so that it is unchanged.
#[inline(never)]
pub(crate) fn open<K: MessageKey, R: PolyvalRoom>(
    key: &K,
    room: &R,
    nonce: &[u8; 12],
    additional: &[u8],
    text: &mut [u8],
    tag: &Block,
) -> bool
    requires set { K.IsSet key.now }
    requires made { R.IsMade room.now }
    requires additional { length additional.now ≤ 2 ^ 36 }
    requires text { length text.old ≤ 2 ^ 36 }
    ensures accepted { (h : ℕ) → h < 2 ^ 128 → R.subkey room.now ≡ next_v h
        → IsTrue result ↔ (tag.now ≡ tag_under (fips.key_expansion (K.own_key key.now)) h nonce.now additional.now
        (text_under (fips.key_expansion (K.own_key key.now)) tag.now text.old)) }
    ensures decrypted { IsTrue result → text.new
        ≡ text_under (fips.key_expansion (K.own_key key.now)) tag.now text.old }
    ensures untouched { result ≡ false → text.new ≡ text.old }
{
    process_text(key, tag, text);
    if is_tag(key, room, nonce, additional, text, tag) {
        return true;
    }
    process_text(key, tag, text);
    false
}

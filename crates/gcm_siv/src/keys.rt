//! The keys of a message, derived from the key-generating key and the nonce (RFC 8452, 4).

ghost use Rattle.std.specs.Prelude.{◌≡◌, ◌+◌, ◌/◌, ◌^◌, ◌<◌, ℕ, List, [], ◌++◌, slice_index_or, take};
ghost use Rattle.std.specs.Int.{w32, w128, from_le_bytes, to_le_bytes};
ghost use Rattle.gcm.specs.Gcm.{next_v};
ghost use Rattle.gcm_siv.specs.GcmSiv.{authentication_key, encryption_key, IsKeyOf, IsSivKeySize};
ghost use Rattle.gcm_siv.specs.Private.{derived_keys, halves_of_six, numbered};

use crate::hash::PolyvalRoom;
use crate::message_key::MessageKey;
use aes_cipher::blocks::{block_of_halves, halves_of_block};
use aes_cipher::cipher::{Block, BlockCipherEncrypt};
use aes_cipher::zeroize::MustWipe;
use gcm::next_v;

// A number of 32 bits, its lowest byte first, and the nonce.
fn numbered(number: u32, nonce: &[u8; 12]) -> Block
    ensures { result ≡ to_le_bytes w32 number ++ nonce.now }
{
    let mut block = [0; 16];
    let (first, last) = block.split_at_mut(4);
    first.copy_from_slice(&number.to_le_bytes());
    last.copy_from_slice(nonce);
    block
}

// The numbered blocks of the numbers 0 to 5.
#[tactic(auto, unfolding(crate::specs::Private::numbered))]
fn numbered_blocks(nonce: &[u8; 12]) -> [Block; 6]
    ensures { result ≡ numbered nonce.now }
{
    [
        numbered(0, nonce),
        numbered(1, nonce),
        numbered(2, nonce),
        numbered(3, nonce),
        numbered(4, nonce),
        numbered(5, nonce),
    ]
}

// The first halves of two blocks.
fn first_halves(one: &Block, other: &Block) -> Block
    ensures { result ≡ take 8 one.now ++ take 8 other.now }
{
    let (first, _) = halves_of_block(one);
    let (second, _) = halves_of_block(other);
    block_of_halves(&first, &second)
}

// Room for the keys of a message. The first block is the authentication key. The two blocks after
// it are the encryption key, or the first of these two if the key has 16 bytes. The other blocks
// are as secret.
type DerivedKeysRoom = [Block; 6];

// Writes the first halves of six blocks, two by two, into the first three blocks.
#[tactic(auto, unfolding(crate::specs::Private::halves_of_six))]
fn put_halves(blocks: &mut DerivedKeysRoom)
    ensures { take 3 blocks.new ≡ halves_of_six blocks.old }
{
    blocks[0] = first_halves(&blocks[0], &blocks[1]);
    blocks[1] = first_halves(&blocks[2], &blocks[3]);
    blocks[2] = first_halves(&blocks[4], &blocks[5]);
}

// Writes the keys of a message under a key of `size` bytes. Four blocks are encrypted if it has 16
// bytes, and six if it has 32.
#[tactic(auto, using(crate::proofs::DerivedKeys::derived_is))]
fn derive<C: BlockCipherEncrypt>(
    cipher: &C,
    size: usize,
    nonce: &[u8; 12],
    keys: &mut DerivedKeysRoom,
)
    requires { IsSivKeySize size }
    ensures { let blocks = size / 16 + 1 in
        take blocks keys.new ≡ take blocks (derived_keys (C.round_keys cipher.now) nonce.now) }
{
    *keys = numbered_blocks(nonce);
    cipher.encrypt_blocks(&mut keys[..size / 8 + 2]);
    put_halves(keys);
}

// Writes the multiples that POLYVAL needs: those of an authentication key times x^-1.
fn put_authentication<R: PolyvalRoom>(key: &Block, room: &mut R)
    ensures made { R.IsMade room.new }
    ensures authentication { R.subkey room.new ≡ next_v (from_le_bytes w128 key.now) }
    ensures small { from_le_bytes w128 key.now < 2 ^ 128 }
{
    room.put(next_v(u128::from_le_bytes(*key)));
}

// Sets the encryption key: the block after the first one, or the two blocks after it.
fn set_encryption_key<K: MessageKey>(keys: &DerivedKeysRoom, size: usize, message_key: &mut K)
    requires size { IsSivKeySize size }
    requires allowed { K.IsAllowed size }
    ensures set { K.IsSet message_key.new }
    ensures short { size ≡ 16 → K.own_key message_key.new ≡ slice_index_or keys.now 1 [] }
    ensures long { size ≡ 32 → K.own_key message_key.new
        ≡ slice_index_or keys.now 1 [] ++ slice_index_or keys.now 2 [] }
{
    if size == 16 {
        message_key.set(&keys[1]);
    } else {
        message_key.set(keys[1..3].as_flattened());
    }
}

/// Sets the key of a message, and writes the multiples of its authentication key times x^-1, under a
/// cipher whose key has `size` bytes. This is a call of its own, so that its stack can be wiped.
#[inline(never)]
pub(crate) fn derive_and_prepare<C: BlockCipherEncrypt, K: MessageKey, R: PolyvalRoom>(
    cipher: &C,
    size: usize,
    nonce: &[u8; 12],
    message_key: &mut K,
    room: &mut R,
)
    requires size { IsSivKeySize size }
    requires allowed { K.IsAllowed size }
    ensures made { R.IsMade room.new }
    ensures set { K.IsSet message_key.new }
    ensures authentication { (key : List ℕ) → IsKeyOf size (C.round_keys cipher.now) key
        → R.subkey room.new ≡ next_v (from_le_bytes w128 (authentication_key key nonce.now)) }
    ensures small { (key : List ℕ) → IsKeyOf size (C.round_keys cipher.now) key
        → from_le_bytes w128 (authentication_key key nonce.now) < 2 ^ 128 }
    ensures encryption { (key : List ℕ) → IsKeyOf size (C.round_keys cipher.now) key
        → K.own_key message_key.new ≡ encryption_key key nonce.now }
{
    let mut keys = MustWipe::<DerivedKeysRoom>::zeroed();
    derive(cipher, size, nonce, keys.value_mut());
    put_authentication(&keys.value()[0], room);
    set_encryption_key(keys.value(), size, message_key);
    keys.wipe();
}

//! The form in which this build keeps a key: stored round keys for vector permutations.
//!
//! No other module of this crate names a form. A build in another form has another version of this
//! module and of `specs/Form.antt`, in `tools/dist_parts/without_shuffle/gcm_c`, and of `width`.
//! Each version has these names:
//!
//! - `KeptKey` is a key that is kept to encrypt. It is `repr(C)`, `Drop`, `NotClone` and `Zeroize`.
//!   Its field `length` says how many bytes the key has. It has methods `holds_key`, `key_length`
//!   and `set(key: &[u8])`. `set` accepts a key of 16, 24 or 32 bytes. It reads nothing of the
//!   struct, and leaves nothing of what the struct held.
//! - `Aes` is the struct of the library of blocks. `holds_key_of(aes)` says whether it holds a key.
//!   `put_key_of(aes, kept)` writes that key to `kept`, and reads nothing of what was there.
//! - `cipher_of(kept)` lends the key of a struct that holds one as a cipher, which is a
//!   `BuildCipher`.
//! - `GhashRoom` is room for what makes the tags of GCM. It is a `HashRoom`. `no_room_example` says
//!   what it is if it holds nothing.
//! - `ShortRoom` and `LongRoom` are room for what makes the tag of a message of AES-GCM-SIV, of a
//!   short one and of a longer one. Each is a `PolyvalRoom`.
//! - The head of `specs/Form.antt` says what the names of that file stand for.

ghost use Rattle.std.specs.Prelude.{◌≡◌, ◌↔◌, length, replicate, IsTrue};
ghost use Rattle.gcm_c.specs.Form.{key_in, key_of, no_room, HoldsKey, IsKept};

use crate::width::BuildWidth;
use aes_cipher::cipher::Encrypt;
use aes_hybrid::borrowed_cipher::BorrowedCipher;
use aes_hybrid::kept_key::KeptBothWays;
pub(crate) use aes_hybrid::kept_key::KeptKey;

/// Room for what makes tags: the multiples of H.
pub type GhashRoom = gcm::MultiplesRoom;

/// Room for what makes the tag of a short message of AES-GCM-SIV.
pub(crate) type ShortRoom = gcm::TableRoom;

/// Room for what makes the tag of a longer message of AES-GCM-SIV.
pub(crate) type LongRoom = gcm::MultiplesRoom;

/// A key schedule of the other library, for both directions: `struct fotsgure_aes`.
pub type Aes = KeptBothWays;

/// The cipher that borrows a key.
pub(crate) type BuildCipher<'a> = BorrowedCipher<'a, Encrypt, BuildWidth>;

// How many bytes a key and the multiples take by the header, with nothing between fields.
const _: () = prove!(size_of::<KeptKey>() == 244);

const _: () = prove!(size_of::<GhashRoom>() == 1536);

const _: () = prove!(size_of::<Aes>() == 484);

/// No effect; states what room is that holds nothing.
pub fn no_room_example()
    ensures { no_room ≡ replicate 96 (replicate 16 0) }
{}

/// Returns whether a struct of the library of blocks holds a key.
#[inline(always)]
pub(crate) fn holds_key_of(aes: &Aes) -> bool
    ensures { IsTrue result ↔ HoldsKey (key_of aes.now) }
{
    aes.key.holds_key()
}

/// Writes the key of a struct of the library of blocks.
#[inline(always)]
pub(crate) fn put_key_of(aes: &Aes, kept: &mut KeptKey)
    ensures { kept.new ≡ key_of aes.now }
{
    kept.length = aes.key.length;
    kept.round_keys = aes.key.round_keys;
}

/// Lends the key of a struct that holds one.
#[inline(always)]
pub(crate) fn cipher_of(kept: &KeptKey) -> BuildCipher<'_>
    requires kept { IsKept kept.now }
    requires holds { HoldsKey kept.now }
    ensures key { result ≡ key_in kept.now }
    ensures size { length result ≡ kept.now.length }
{
    kept.cipher()
}

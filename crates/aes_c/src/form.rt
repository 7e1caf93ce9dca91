//! The form in which this build keeps a key: stored round keys for vector permutations.
//!
//! No other module of this crate names a form. A build in another form has another version of this
//! module and of `specs/Form.antt`, in `tools/dist_parts/without_shuffle/aes_c`, and of `width`.
//! Each version has these names:
//!
//! - `KeptKey` is a key that is kept to encrypt. Its field `length` says how many bytes the key
//!   has. It has methods `holds_key` and `key_length`.
//! - `Aes` is the struct that a caller keeps, for both directions, with a field `key: KeptKey`.
//! - Both are `repr(C)`, `Drop`, `NotClone` and `Zeroize`, and have a method `set(key: &[u8])`. The
//!   method accepts a key of 16, 24 or 32 bytes. It reads nothing of the struct, and leaves nothing
//!   of what the struct held.
//! - `cipher_of(&aes.key)` lends a key as a cipher that encrypts, which is a `BuildCipher`.
//!   `inverse_cipher_of(aes)` lends it as a cipher that decrypts. The struct has to hold a key.
//! - `RoundWord` is the word on which single rounds are computed.
//! - The head of `specs/Form.antt` says what the names of that file stand for.

ghost use Rattle.std.specs.Prelude.{◌≡◌};
ghost use Rattle.aes_c.specs.Form.{key_in, HoldsKey, IsKept, IsMade};

use crate::width::BuildWidth;
use aes_cipher::cipher::{Decrypt, Encrypt};
use aes_hybrid::borrowed_cipher::BorrowedCipher;
use aes_hybrid::kept_key::KeptBothWays;
pub(crate) use aes_hybrid::kept_key::KeptKey;
use aes_soft::soft::blocks::BatchWord;

/// The word on which single rounds are computed. All of them use the same word, so that the library
/// has each circuit once.
pub(crate) type RoundWord = BatchWord;

/// A key schedule that the caller owns: `struct fotsgure_aes`. Its blocks are as secret as the key.
pub type Aes = KeptBothWays;

/// The cipher that encrypts.
pub(crate) type BuildCipher<'a> = BorrowedCipher<'a, Encrypt, BuildWidth>;

// How many bytes the struct has by the header, with nothing between its fields.
const _: () = prove!(size_of::<Aes>() == 484);

/// Lends the key of a struct that holds one, to encrypt.
#[inline(always)]
pub(crate) fn cipher_of(kept: &KeptKey) -> BuildCipher<'_>
    requires kept { IsKept kept.now }
    requires holds { HoldsKey kept.now }
    ensures { result ≡ key_in kept.now }
{
    kept.cipher()
}

/// Lends the key of a struct that holds one, to decrypt.
#[inline(always)]
pub(crate) fn inverse_cipher_of(aes: &Aes) -> BorrowedCipher<'_, Decrypt, BuildWidth>
    requires made { IsMade aes.now }
    requires holds { HoldsKey aes.now.key }
    ensures { result ≡ key_in aes.now.key }
{
    aes.inverse_cipher()
}

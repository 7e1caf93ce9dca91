//! Clones and conversions, which make a cipher with the key of another.

ghost use Rattle.std.specs.Prelude.{◌≡◌, ⊤};

use super::AesCipher;
use super::direction_sets::Allows;
use super::stored_keys::{MadeFrom, StoredKeys};
use crate::cipher::{Decrypt, Encrypt};
use std::alloc::AllocError;
use std::marker::PhantomData;

impl<S: StoredKeys, D> Clone for AesCipher<S, D> {
    ghost is_clone = { λ cipher copy. copy ≡ cipher };

    ghost is_infallible = { λ _. ⊤ };

    fn clone(&self) -> Result<AesCipher<S, D>, AllocError> {
        Ok(AesCipher {
            keys: self.keys.copy(),
            directions: PhantomData,
        })
    }
}

impl<S: StoredKeys, T: MadeFrom<S>, D: Allows<Decrypt>> From<&AesCipher<S, Encrypt>>
    for AesCipher<T, D> {
    ghost from_gives = { λ enc made. made ≡ enc.now };

    fn from(enc: &AesCipher<S, Encrypt>) -> AesCipher<T, D> {
        AesCipher {
            keys: T::made_from(&enc.keys),
            directions: PhantomData,
        }
    }
}

impl<S: StoredKeys, T: MadeFrom<S>, D: Allows<Decrypt>> From<AesCipher<S, Encrypt>>
    for AesCipher<T, D> {
    ghost from_gives = { λ enc made. made ≡ enc };

    fn from(enc: AesCipher<S, Encrypt>) -> AesCipher<T, D> {
        AesCipher::from(&enc)
    }
}

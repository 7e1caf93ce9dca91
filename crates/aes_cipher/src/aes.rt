//! The one type that nine names stand for: AES with a key of any size, in one direction or both,
//! over the form in which it keeps its round keys.

ghost use Rattle.std.specs.Prelude.{◌≡◌, ℕ, List, length, replicate, refl};
ghost use Rattle.aes_planes.specs.Fips197 as fips;
ghost use Rattle.aes_planes.proofs.Standard.CipherLaws.{two_expanded};

mod copies;
mod counted;
mod debug;
mod decrypt;
mod direction_sets;
mod encrypt;
mod key_sizes;
mod stored_keys;

use crate::cipher::{InvalidLength, KeyInit, KeySizeUser, RoundKeysUser};
use crate::zeroize::ZeroizeOnDrop;
use aes_planes::laws;
pub use counted::CountsLayers;
pub use direction_sets::{Allows, BothWays, Directions};
pub use key_sizes::{Bits128, Bits192, Bits256, KeySize, is_key_size};
use std::marker::{Model, PhantomData};
pub use stored_keys::{Decrypts, Encrypts, MadeFrom, Processes, StoredKeys};

/// AES with the stored round keys S, in the directions D. Contracts see a value as its key.
pub struct AesCipher<S: StoredKeys, D> {
    keys: S,
    directions: PhantomData<D>,
}

// The drop is written out, so that it is proved here once, and not in each crate that drops a
// value.
impl<S: StoredKeys, D> Drop for AesCipher<S, D> {
    #[inline(always)]
    fn drop(self) {
        let AesCipher {
            keys: _,
            directions: _,
        } = self;
    }
}

impl<S: StoredKeys, D> Model for AesCipher<S, D> {
    ghost Value = { List ℕ };

    ghost view = { λ cipher. S.key cipher.keys };

    ghost invariant = { λ cipher. S.AreKeyed cipher.keys };
}

impl<S: StoredKeys, D> AesCipher<S, D> {
    // Makes a value from the bytes of a key.
    #[inline(always)]
    fn from_bytes(key: &[u8]) -> AesCipher<S, D>
        requires { length key.now ≡ S.Size.SIZE }
        ensures { result ≡ key.now }
    {
        let mut cipher = AesCipher {
            keys: S::zeroed(),
            directions: PhantomData,
        };
        cipher.keys.expand_key(key);
        cipher
    }

    /// Wipes the round keys in place, and leaves the value of the zero key.
    pub fn zeroize(&mut self)
        ensures { self.new ≡ replicate S.Size.SIZE 0 }
    {
        self.keys.wipe();
        self.keys.expand_key(&[0; 32][..<S::Size as KeySize>::SIZE]);
    }
}

impl<S: StoredKeys, D> KeySizeUser for AesCipher<S, D> {
    type Key = <S::Size as KeySize>::Key;

    ghost KEY_SIZE = { S.Size.SIZE };

    ghost key_bytes = { S.Size.bytes };

    const KEY_SIZE: usize = <S::Size as KeySize>::SIZE;
}

impl<S: StoredKeys, D> RoundKeysUser for AesCipher<S, D> {
    ghost round_keys = { fips.key_expansion };

    fn round_keys_are_blocks(&self) {
        laws::expanded_keys();
        self.keys.key_has_its_size();
    }

    ghost two_round_keys = { two_expanded };
}

impl<S: StoredKeys, D> KeyInit for AesCipher<S, D> {
    ghost own_key = { λ key. key };

    fn new(key: &<S::Size as KeySize>::Key) -> AesCipher<S, D> {
        AesCipher::from_bytes(<S::Size as KeySize>::as_slice(key))
    }

    fn new_from_slice(key: &[u8]) -> Result<AesCipher<S, D>, InvalidLength> {
        if key.len() == <S::Size as KeySize>::SIZE {
            Ok(AesCipher::from_bytes(key))
        } else {
            Err(InvalidLength)
        }
    }

    fn key_has_its_size(&self) {
        self.keys.key_has_its_size();
    }

    ghost expanded = { λ key. refl };
}

impl<S: StoredKeys, D> ZeroizeOnDrop for AesCipher<S, D> {}

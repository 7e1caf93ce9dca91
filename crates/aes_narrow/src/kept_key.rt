//! A key as its stored round keys, in a struct that a caller keeps. The struct has C's layout, and
//! so no type parameter: `kept_word` names its words.

ghost use Rattle.std.specs.Prelude.{◌≡◌, ◌↔◌, length, IsTrue};
ghost use Rattle.aes_cipher.specs.KeySizes.{IsKeySize};
ghost use Rattle.aes_narrow.specs.KeptKey.{key_in, no_key, HoldsKey, IsKept, IsZeroAfter};

use crate::borrowed_words::BorrowedWords;
use crate::kept_word::KeptWord;
use crate::word_room::{expand_in_room, keys_in_room};
use aes_cipher::aes::is_key_size;
use aes_cipher::not_clone::NotClone;
use aes_cipher::zeroize::{Zeroize, zeroize_elements};
use aes_soft::soft::plane_room::PlaneRoom;

/// A key that is kept, for both directions. The words of the struct are as secret as the key.
#[repr(C)]
#[derive(Drop)]
pub struct KeptKey {
    /// How many bytes the key has: 16, 24 or 32; 0 if there is no key.
    pub length: KeptWord,
    /// The planes of the stored round keys, in the first 88, 104 or 120 words.
    pub round_keys: PlaneRoom<KeptWord>,
}

// The struct has nothing between its fields.
const _: () = prove!(size_of::<KeptKey>() == 121 * size_of::<KeptWord>());

impl NotClone for KeptKey {}

impl Zeroize for KeptKey {
    ghost ZERO = { no_key };

    #[inline(always)]
    fn zero() -> KeptKey {
        KeptKey {
            length: 0,
            round_keys: [0; 120],
        }
    }

    #[inline(always)]
    fn zeroize(&mut self) {
        self.length = 0;
        zeroize_elements(&mut self.round_keys);
    }
}

impl KeptKey {
    /// Returns whether the struct holds a key.
    #[inline(always)]
    pub fn holds_key(&self) -> bool
        ensures { IsTrue result ↔ HoldsKey self.now }
    {
        is_key_size(self.length as usize)
    }

    /// Returns how many bytes the key has, or 0 if the struct holds no key.
    #[inline(always)]
    pub fn key_length(&self) -> usize
        ensures key { HoldsKey self.now → result ≡ self.now.length }
        ensures none { ¬ HoldsKey self.now → result ≡ 0 }
    {
        if self.holds_key() {
            self.length as usize
        } else {
            0
        }
    }

    /// Expands a key into the struct (KeyExpansion, FIPS 197, 5.2). Nothing of what the struct held
    /// before is read or left: its words are the round keys of the new key, and zeros after them.
    #[inline(always)]
    pub fn set(&mut self, key: &[u8])
        requires { IsKeySize (length key.now) }
        ensures kept { IsKept self.new }
        ensures key { key_in self.new ≡ key.now }
        ensures length { self.new.length ≡ length key.now }
        ensures after { IsZeroAfter self.new }
    {
        self.round_keys = [0; 120];
        expand_in_room(&mut self.round_keys, key);
        self.length = key.len() as KeptWord;
    }

    /// Lends the key of a struct that holds one as a cipher for both directions.
    #[inline(always)]
    pub fn cipher(&self) -> BorrowedWords<'_, KeptWord>
        requires kept { IsKept self.now }
        requires holds { HoldsKey self.now }
        ensures key { result ≡ key_in self.now }
        ensures size { length result ≡ self.now.length }
    {
        BorrowedWords::new(keys_in_room(&self.round_keys, self.length as usize))
    }
}

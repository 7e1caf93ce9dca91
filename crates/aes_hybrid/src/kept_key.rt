//! A key as its stored round keys, in structs that a caller keeps. They have C's layout.

ghost use Rattle.std.specs.Prelude.{◌≡◌, ◌↔◌, length, IsTrue};
ghost use Rattle.aes_cipher.specs.KeySizes.{IsKeySize};
ghost use Rattle.aes_hybrid.specs.KeptKey.{key_in, no_key, no_key_both_ways, HoldsKey, IsKept};
ghost use Rattle.aes_hybrid.specs.KeptKey.{IsKeptBothWays, IsZeroAfter, IsZeroAfterBoth};

use crate::borrowed_cipher::BorrowedCipher;
use crate::widths::Width;
use aes_cipher::aes::is_key_size;
use aes_cipher::cipher::{Decrypt, Encrypt};
use aes_cipher::not_clone::NotClone;
use aes_cipher::zeroize::{Zeroize, zeroize_elements};
use aes_permute::lane_room::{LaneRoom, expand_in_room, invert_in_room, keys_in_room};

/// A key that is kept to encrypt. The blocks of the struct are as secret as the key.
#[repr(C)]
#[derive(Drop)]
pub struct KeptKey {
    /// How many bytes the key has: 16, 24 or 32; 0 if there is no key.
    pub length: u32,
    /// The stored round keys of Cipher, in the first 11, 13 or 15 blocks.
    pub round_keys: LaneRoom,
}

impl NotClone for KeptKey {}

impl Zeroize for KeptKey {
    ghost ZERO = { no_key };

    #[inline(always)]
    fn zero() -> KeptKey {
        KeptKey {
            length: 0,
            round_keys: [[0; 16]; 15],
        }
    }

    #[inline(always)]
    fn zeroize(&mut self) {
        self.length = 0;
        zeroize_elements(&mut self.round_keys);
    }
}

impl KeptKey {
    /// Returns whether the struct holds a key.
    #[inline(always)]
    pub fn holds_key(&self) -> bool
        ensures { IsTrue result ↔ HoldsKey self.now }
    {
        is_key_size(self.length as usize)
    }

    /// Returns how many bytes the key has, or 0 if the struct holds no key.
    #[inline(always)]
    pub fn key_length(&self) -> usize
        ensures key { HoldsKey self.now → result ≡ self.now.length }
        ensures none { ¬ HoldsKey self.now → result ≡ 0 }
    {
        if self.holds_key() {
            self.length as usize
        } else {
            0
        }
    }

    /// Expands a key into the struct (KeyExpansion, FIPS 197, 5.2). Nothing of what the struct held
    /// before is read or left: its blocks are the round keys of the new key, and zeros after them.
    #[inline(always)]
    pub fn set(&mut self, key: &[u8])
        requires { IsKeySize (length key.now) }
        ensures kept { IsKept self.new }
        ensures key { key_in self.new ≡ key.now }
        ensures length { self.new.length ≡ length key.now }
        ensures after { IsZeroAfter self.new }
    {
        self.round_keys = [[0; 16]; 15];
        expand_in_room(&mut self.round_keys, key);
        self.length = key.len() as u32;
    }

    /// Lends the key of a struct that holds one as a cipher that encrypts.
    #[inline(always)]
    pub fn cipher<W: Width>(&self) -> BorrowedCipher<'_, Encrypt, W>
        requires kept { IsKept self.now }
        requires holds { HoldsKey self.now }
        ensures key { result ≡ key_in self.now }
        ensures size { length result ≡ self.now.length }
    {
        BorrowedCipher::encrypting(keys_in_room(&self.round_keys, self.length as usize))
    }
}

/// A key that is kept for both directions. The blocks of the struct are as secret as the key.
#[repr(C)]
#[derive(Drop)]
pub struct KeptBothWays {
    /// The key, and its stored round keys of Cipher.
    pub key: KeptKey,
    /// The stored round keys of EqInvCipher.
    pub decrypting: LaneRoom,
}

impl NotClone for KeptBothWays {}

impl Zeroize for KeptBothWays {
    ghost ZERO = { no_key_both_ways };

    #[inline(always)]
    fn zero() -> KeptBothWays {
        KeptBothWays {
            key: KeptKey::zero(),
            decrypting: [[0; 16]; 15],
        }
    }

    #[inline(always)]
    fn zeroize(&mut self) {
        self.key.zeroize();
        zeroize_elements(&mut self.decrypting);
    }
}

impl KeptBothWays {
    /// Expands a key into the struct, for both directions. Nothing of what the struct held before
    /// is read or left.
    #[inline(always)]
    pub fn set(&mut self, key: &[u8])
        requires { IsKeySize (length key.now) }
        ensures kept { IsKeptBothWays self.new }
        ensures key { key_in self.new.key ≡ key.now }
        ensures length { self.new.key.length ≡ length key.now }
        ensures after { IsZeroAfterBoth self.new }
    {
        self.key.set(key);
        self.decrypting = [[0; 16]; 15];
        invert_in_room(&mut self.decrypting, &self.key.round_keys, key.len());
    }

    /// Lends the key of a struct that holds one as a cipher that decrypts.
    #[inline(always)]
    pub fn inverse_cipher<W: Width>(&self) -> BorrowedCipher<'_, Decrypt, W>
        requires kept { IsKeptBothWays self.now }
        requires holds { HoldsKey self.now.key }
        ensures { result ≡ key_in self.now.key }
    {
        let size = self.key.length as usize;
        let keys = keys_in_room(&self.key.round_keys, size);
        BorrowedCipher::new(keys, keys_in_room(&self.decrypting, size))
    }
}

//! A chain through a string that comes in pieces.

ghost use Rattle.std.specs.Prelude.{◌≡◌, ℕ, List, ◌++◌, ◌≤◌, length};
ghost use Rattle.cmac.specs.Pieces.{IsChaining};

use crate::chaining::chain;
use aes_cipher::cipher::{Block, BlockCipherEncrypt};
use aes_cipher::not_clone::NotClone;
use aes_cipher::zeroize::{Zeroize, zeroize_elements};
use std::slice::from_mut;

/// A chain through a string that comes in pieces, as it is kept between two calls. It is as secret
/// as the key.
#[repr(C)]
#[derive(Drop)]
pub struct ChainInPieces {
    /// How many bytes of the last block have come: 1 to 16, or 0 if no byte has.
    pub rest_length: u64,
    /// The value after the blocks before the last one.
    pub value: Block,
    /// The bytes of the last block that have come, at its beginning.
    pub rest: Block,
}

impl NotClone for ChainInPieces {}

impl Zeroize for ChainInPieces {
    ghost use Rattle.cmac.specs.Pieces.{no_chain};

    ghost ZERO = { no_chain };

    fn zero() -> ChainInPieces {
        ChainInPieces {
            rest_length: 0,
            value: [0; 16],
            rest: [0; 16],
        }
    }

    #[inline(always)]
    fn zeroize(&mut self) {
        self.rest_length = 0;
        zeroize_elements(from_mut(&mut self.value));
        zeroize_elements(from_mut(&mut self.rest));
    }
}

impl ChainInPieces {
    /// Returns how many bytes of the last block have come.
    #[inline(always)]
    pub fn rest_length(&self) -> usize
        ensures few { result ≤ 16 }
        ensures same { self.now.rest_length ≤ 16 → result ≡ self.now.rest_length }
    {
        self.rest_length.min(16) as usize
    }

    /// Takes a piece of the string, of any size. The last block stays as it is until more bytes
    /// come, since it may be the last one of the string.
    #[inline(never)]
    pub fn extend<C: BlockCipherEncrypt>(&mut self, cipher: &C, bytes: &[u8])
        ensures { (y s : List ℕ) → IsChaining (C.round_keys cipher.now) y s self.old
            → IsChaining (C.round_keys cipher.now) y (s ++ bytes.now) self.new }
    {
        let rest_length = self.rest_length();
        if bytes.len() <= 16 - rest_length {
            self.rest[rest_length..rest_length + bytes.len()].copy_from_slice(bytes);
            self.rest_length = (rest_length + bytes.len()) as u64;
            return;
        }
        let (first, others) = bytes.split_at(16 - rest_length);
        self.rest[rest_length..].copy_from_slice(first);
        let (whole, last) = others.split_at((others.len() - 1) / 16 * 16);
        chain(cipher, &mut self.value, &self.rest);
        chain(cipher, &mut self.value, whole);
        self.rest[..last.len()].copy_from_slice(last);
        self.rest_length = last.len() as u64;
    }
}

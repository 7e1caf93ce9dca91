//! What a wiped value is made of: words, and blocks of bytes.

ghost use Rattle.std.specs.Prelude.{◌≡◌, length, replicate};

use super::wipe;
use crate::cipher::Block;
use aes_planes::soft::word::Word;

/// An element of arrays and slices that can be overwritten with zeros.
pub trait Element: Copy {
    /// The element whose bits are all 0.
    ghost ZERO: { Self };

    /// Returns the element whose bits are all 0.
    fn zero() -> Self
        ensures { result ≡ ZERO };

    /// Returns some byte of the element. No clause says which byte: it is read so that a compiler
    /// can't leave out writes.
    fn some_byte(self) -> u8;
}

impl Element for u16 {
    ghost ZERO = { 0 };

    #[inline(always)]
    fn zero() -> u16 {
        0
    }

    #[inline(always)]
    fn some_byte(self) -> u8 {
        self.low_byte()
    }
}

impl Element for u32 {
    ghost ZERO = { 0 };

    #[inline(always)]
    fn zero() -> u32 {
        0
    }

    #[inline(always)]
    fn some_byte(self) -> u8 {
        self.low_byte()
    }
}

impl Element for u64 {
    ghost ZERO = { 0 };

    #[inline(always)]
    fn zero() -> u64 {
        0
    }

    #[inline(always)]
    fn some_byte(self) -> u8 {
        self.low_byte()
    }
}

impl Element for u128 {
    ghost ZERO = { 0 };

    #[inline(always)]
    fn zero() -> u128 {
        0
    }

    #[inline(always)]
    fn some_byte(self) -> u8 {
        self.low_byte()
    }
}

impl Element for Block {
    ghost ZERO = { replicate 16 0 };

    #[inline(always)]
    fn zero() -> Block {
        [0; 16]
    }

    #[inline(always)]
    fn some_byte(self) -> u8 {
        self[0]
    }
}

/// Overwrites every element with zeros.
#[inline(never)]
pub fn zeroize_elements<E: Element>(elements: &mut [E])
    ensures { elements.new ≡ replicate (length elements.old) E.ZERO }
{
    wipe(elements, E::zero(), |element| element.some_byte());
}

//! The sizes of keys and blocks.

ghost use Rattle.std.specs.Prelude.{◌≡◌, ℕ, List};
ghost use Rattle.std.proofs.Common.{refl};

use super::round_keys::RoundKeysUser;

/// A block of sixteen bytes. The byte of row `r` and column `c` is at place `r + 4 * c` (FIPS 197,
/// 3.4).
pub type Block = [u8; 16];

/// A type that is made from a key.
pub trait KeySizeUser {
    /// A key, as an array of KEY_SIZE bytes.
    type Key;

    /// How many bytes a key has.
    ghost KEY_SIZE: { ℕ };

    /// The bytes of a key.
    ghost key_bytes: { Self.Key → List ℕ };

    /// How many bytes a key has.
    const KEY_SIZE: usize;
}

/// A type that works on blocks of the standard.
pub trait BlockSizeUser {
    /// How many bytes a block has.
    ghost BLOCK_SIZE: { ℕ };

    /// How many bytes a block has: 16 (FIPS 197, 3.4).
    const BLOCK_SIZE: usize;

    /// A block has sixteen bytes.
    ghost sixteen: { BLOCK_SIZE ≡ 16 };
}

/// Round keys are blocks. Therefore every type that has round keys works on blocks.
impl<T: RoundKeysUser> BlockSizeUser for T {
    ghost BLOCK_SIZE = { 16 };

    const BLOCK_SIZE: usize = 16;

    ghost sixteen = { refl };
}

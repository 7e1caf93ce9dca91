//! How many blocks a backend works on at once.

ghost use Rattle.std.specs.Prelude.{ℕ, ◌≤◌};
ghost use Rattle.std.proofs.Common.{arith};

use super::round_keys::RoundKeysUser;
use super::sizes::BlockSizeUser;

/// A number of blocks, as a type.
pub trait BatchSize {
    /// How many blocks a batch has.
    ghost PAR_BLOCKS: { ℕ };

    /// How many blocks a batch has.
    const PAR_BLOCKS: usize;

    /// A batch has at least one block.
    ghost at_least_one: { 1 ≤ PAR_BLOCKS };
}

/// Four blocks, as two vectors of 256 bits hold them.
pub struct BatchOfFour;

impl BatchSize for BatchOfFour {
    ghost PAR_BLOCKS = { 4 };

    const PAR_BLOCKS: usize = 4;

    ghost at_least_one = { Prim.omega arith };
}

/// Eight blocks, as many as eight words of 128 bits hold.
pub struct BatchOfEight;

impl BatchSize for BatchOfEight {
    ghost PAR_BLOCKS = { 8 };

    const PAR_BLOCKS: usize = 8;

    ghost at_least_one = { Prim.omega arith };
}

/// Sixteen blocks, as many as eight words of 256 bits hold.
pub struct BatchOfSixteen;

impl BatchSize for BatchOfSixteen {
    ghost PAR_BLOCKS = { 16 };

    const PAR_BLOCKS: usize = 16;

    ghost at_least_one = { Prim.omega arith };
}

/// A type that names another type for the number of blocks in a batch.
///
/// A backend that borrows its round keys has a lifetime, and the toolchain refuses a constant with
/// a ghost number in an `impl` for such a type. So a backend names a type without a lifetime that
/// has the number.
pub trait BatchSizeUser: RoundKeysUser {
    /// The type that has the number.
    type Par: BatchSize;
}

/// A type that works on batches of blocks.
pub trait ParBlocksSizeUser: BlockSizeUser {
    /// How many blocks a batch has.
    ghost PAR_BLOCKS: { ℕ };

    /// How many blocks a batch has.
    const PAR_BLOCKS: usize;

    /// A batch has at least one block.
    ghost at_least_one: { 1 ≤ PAR_BLOCKS };
}

impl<T: BatchSizeUser> ParBlocksSizeUser for T {
    ghost PAR_BLOCKS = { T.Par.PAR_BLOCKS };

    const PAR_BLOCKS: usize = T::Par::PAR_BLOCKS;

    ghost at_least_one = { T.Par.at_least_one };
}

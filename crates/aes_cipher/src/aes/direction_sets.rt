//! The sets of directions that a cipher works in.

use crate::cipher::{Decrypt, Direction, Encrypt};

/// A set of directions: both, only encryption or only decryption.
pub trait Directions {
    /// How the name of a type ends.
    const SUFFIX: &'static str;
}

/// A set that contains the direction D.
pub trait Allows<D: Direction>: Directions {}

/// Encryption and decryption. The set of one direction is that direction itself.
pub struct BothWays;

impl Directions for BothWays {
    const SUFFIX: &'static str = "";
}

impl Directions for Encrypt {
    const SUFFIX: &'static str = "Enc";
}

impl Directions for Decrypt {
    const SUFFIX: &'static str = "Dec";
}

impl Allows<Encrypt> for BothWays {}

impl Allows<Decrypt> for BothWays {}

impl Allows<Encrypt> for Encrypt {}

impl Allows<Decrypt> for Decrypt {}

//! Errors, and the traits that they derive.

use aes_cipher::cipher::{InvalidLength, NotEqualError};
use aes_ctr::KeystreamEnd;
use aes_kat::Failed;
use std::fmt::Debug;

// Whether two errors are the same.
fn same<E: Debug + Clone + Copy + PartialEq + Eq>(a: E, b: E) -> bool {
    a == b
}

/// Compares each error with itself.
pub fn each_error() -> [bool; 4] {
    [
        same(InvalidLength, InvalidLength),
        same(NotEqualError, NotEqualError),
        same(KeystreamEnd, KeystreamEnd),
        same(Failed, Failed),
    ]
}

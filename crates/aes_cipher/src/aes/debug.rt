//! How a cipher prints: its name, and nothing of a key.

use super::AesCipher;
use super::direction_sets::Directions;
use super::key_sizes::KeySize;
use super::stored_keys::StoredKeys;
use crate::cipher::AlgorithmName;
use std::fmt;

impl<S: StoredKeys, D: Directions> fmt::Debug for AesCipher<S, D> {
    fn fmt<W: fmt::Write>(&self, f: &mut fmt::Formatter<W>) -> fmt::Result {
        f.write_str(<S::Size as KeySize>::NAME)?;
        f.write_str(D::SUFFIX)?;
        f.write_str(" { .. }")
    }
}

impl<S: StoredKeys, D: Directions> AlgorithmName for AesCipher<S, D> {
    fn write_alg_name<W: fmt::Write>(f: &mut fmt::Formatter<W>) -> fmt::Result {
        f.write_str(<S::Size as KeySize>::NAME)?;
        f.write_str(D::SUFFIX)
    }
}

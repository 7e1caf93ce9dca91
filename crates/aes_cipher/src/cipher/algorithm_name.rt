//! The names of algorithms.

use std::fmt;

/// A type that has the name of an algorithm.
pub trait AlgorithmName {
    /// Writes the name.
    ///
    /// # Errors
    ///
    /// `fmt::Error` if the formatter fails; part of the name may have been written.
    fn write_alg_name<W: fmt::Write>(f: &mut fmt::Formatter<W>) -> fmt::Result;
}

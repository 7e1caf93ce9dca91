//! The errors of calls on ciphers.

/// The slice that was given as a key doesn't have the length of a key.
#[derive(Debug, Clone, Copy, PartialEq, Eq)]
pub struct InvalidLength;

/// The slices to read from and to write to differ in length.
#[derive(Debug, Clone, Copy, PartialEq, Eq)]
pub struct NotEqualError;

//! The error of counter mode.

/// The keystream ends before the bytes do.
#[derive(Debug, Clone, Copy, PartialEq, Eq)]
pub struct KeystreamEnd;

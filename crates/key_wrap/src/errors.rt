//! The errors of key wrap.

/// Keys of this length are not wrapped, or the output has another length.
#[derive(Debug, Clone, Copy, PartialEq, Eq)]
pub struct InvalidCount;

/// Why a key isn't unwrapped.
#[derive(Debug, Clone, Copy, PartialEq, Eq)]
pub enum NotUnwrapped {
    /// No key becomes this many semiblocks, or the output has another length.
    InvalidCount,
    /// The key was not wrapped under this one, or was changed.
    Refused,
}

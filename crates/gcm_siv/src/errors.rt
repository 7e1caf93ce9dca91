//! Why a message is refused.

/// There is more text than AES-GCM-SIV allows, or more additional data.
#[derive(Debug, Clone, Copy, PartialEq, Eq)]
pub struct TooLong;

/// The message is refused: its tag is wrong, or it can't have been encrypted, since it is longer
/// than AES-GCM-SIV allows.
#[derive(Debug, Clone, Copy, PartialEq, Eq)]
pub struct Refused;

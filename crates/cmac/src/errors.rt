//! The errors of messages in pieces.

/// The call came in the wrong order: no message has begun.
#[derive(Debug, Clone, Copy, PartialEq, Eq)]
pub struct OutOfTurn;

/// Why the tag of a message in pieces isn't accepted.
#[derive(Debug, Clone, Copy, PartialEq, Eq)]
pub enum NotAccepted {
    /// The call came in the wrong order: no message has begun.
    OutOfTurn,
    /// The tag is wrong.
    Refused,
}

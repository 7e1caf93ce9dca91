//! The errors of CCM.

/// Why a message isn't encrypted.
#[derive(Debug, Clone, Copy, PartialEq, Eq)]
pub enum InvalidMessage {
    /// The tag doesn't have 4, 6, 8, 10, 12, 14 or 16 bytes.
    TagLength,
    /// The nonce doesn't have 7 to 13 bytes.
    NonceLength,
    /// There is more text than a nonce of this length allows.
    TooLong,
}

/// Why a message isn't decrypted.
#[derive(Debug, Clone, Copy, PartialEq, Eq)]
pub enum NotDecrypted {
    /// No message has such lengths.
    Invalid(InvalidMessage),
    /// The tag isn't that of the nonce, the additional data and the text.
    Refused,
}

//! Which lengths GCM allows (5.2.1.1).

ghost use Rattle.std.specs.Prelude.{◌↔◌, length, IsTrue};
ghost use Rattle.gcm.specs.Gcm.{IsHashedLength, IsTextLength};

/// How many bytes of text a message has at most (5.2.1.1).
pub const LONGEST_TEXT: u64 = (1 << 36) - 32;

/// How many bytes a nonce or additional data has at most (5.2.1.1).
pub const LONGEST_HASHED: u64 = (1 << 61) - 1;

// Whether GCM allows additional data and a text of these lengths.
pub(crate) fn are_allowed(additional: &[u8], text: &[u8]) -> bool
    ensures { IsTrue result ↔
        (IsTextLength (length text.now) × IsHashedLength (length additional.now)) }
{
    text.len() as u64 <= LONGEST_TEXT && additional.len() as u64 <= LONGEST_HASHED
}

//! The longest text and additional data, and which messages are short enough for one table.

ghost use Rattle.std.specs.Prelude.{◌↔◌, ◌+◌, ◌^◌, ◌≤◌, length, IsTrue};

/// How many bytes a text has at most, and additional data (RFC 8452, 4 and 5).
pub const LONGEST: u64 = 1 << 36;

// Whether AES-GCM-SIV allows additional data and a text of these lengths.
pub(crate) fn are_allowed(additional: &[u8], text: &[u8]) -> bool
    ensures { IsTrue result ↔ ((length text.now ≤ 2 ^ 36) × (length additional.now ≤ 2 ^ 36)) }
{
    text.len() as u64 <= LONGEST && additional.len() as u64 <= LONGEST
}

// The most bytes of additional data and text together in a short message, for which the multiples
// of one factor take less time than those of its powers.
const LONGEST_SHORT: usize = 160;

// Returns whether a message is short whose additional data and text have these lengths.
pub(crate) fn is_short(additional: usize, text: usize) -> bool
    ensures { IsTrue result ↔ (additional + text ≤ 160) }
{
    additional <= LONGEST_SHORT && text <= LONGEST_SHORT - additional
}

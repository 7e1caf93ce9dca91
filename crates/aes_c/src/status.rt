//! What calls return, `enum fotsgure_aes_status`, and the version.

/// The work is done.
pub const DONE: u32 = 0;

/// The key doesn't have 16, 24 or 32 bytes.
pub const KEY_LENGTH: u32 = 1;

/// The struct holds no key.
pub const NO_KEY: u32 = 2;

/// Input and output differ in length.
pub const UNEQUAL_COUNTS: u32 = 3;

/// The keystream ends before the bytes do.
pub const KEYSTREAM_END: u32 = 4;

/// Keys of this length are not wrapped, or the output is of another length.
pub const INVALID_COUNT: u32 = 5;

/// The key was not wrapped under this one, or was changed, or the tag is wrong.
pub const REFUSED: u32 = 6;

/// No tag has this many bytes.
pub const TAG_LENGTH: u32 = 7;

/// No nonce has this many bytes.
pub const NONCE_LENGTH: u32 = 8;

/// More text than a nonce of this length allows.
pub const TOO_LONG: u32 = 9;

/// The call came in the wrong order: a message in pieces is in another phase.
pub const OUT_OF_TURN: u32 = 10;

/// The version of the interface: 10000 times the first number, 100 times the second, plus the
/// third.
pub const VERSION: u32 = 400;

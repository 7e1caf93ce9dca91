//! What calls return: `enum fotsgure_gcm_status`.

/// The work is done.
pub const DONE: u32 = 0;

/// The key doesn't have 16, 24 or 32 bytes. A key of AES-GCM-SIV has 16 or 32.
pub const KEY_LENGTH: u32 = 1;

/// The struct holds no key.
pub const NO_KEY: u32 = 2;

/// The nonce is empty or has 2^61 bytes or more.
pub const NONCE_LENGTH: u32 = 3;

/// The tag doesn't have 16 bytes.
pub const TAG_LENGTH: u32 = 4;

/// There is more text, or more additional data, than the standard allows for one message.
pub const TOO_LONG: u32 = 5;

/// The tag isn't that of the key, the nonce, the additional data and the text.
pub const REFUSED: u32 = 6;

/// The counter of nonces has no nonce left.
pub const NONCES_END: u32 = 7;

/// The call came in the wrong order: the message is in another phase.
pub const OUT_OF_TURN: u32 = 8;

/// Input and output differ in length. (The header has 9 for a call in C.)
pub const UNEQUAL_LENGTHS: u32 = 10;

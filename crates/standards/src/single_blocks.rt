//! Single blocks under keys of each size.

use crate::blocks;
use crate::keys::{
    BY_128, BY_192, BY_256, KEY_128, KEY_192, KEY_256, KEY_A1, KEY_A2, KEY_A3, PLAIN, ZEROS_BY_128,
    ZEROS_BY_192, ZEROS_BY_256,
};

/// A key, a block, and the block encrypted.
pub type Example<'a> = (&'a [u8], u128, u128);

/// FIPS 197, appendices C.1 to C.3 and B; SP 800-38A, F.1.1, F.1.3 and F.1.5, the first block of
/// each; and blocks of zeros under keys of zeros, by OpenSSL.
pub const EXAMPLES: [Example<'static>; 10] = [
    (&KEY_128, PLAIN, BY_128),
    (&KEY_192, PLAIN, BY_192),
    (&KEY_256, PLAIN, BY_256),
    (
        &KEY_A1,
        0x3243f6a8885a308d313198a2e0370734,
        0x3925841d02dc09fbdc118597196a0b32,
    ),
    (&KEY_A1, blocks::PLAIN[0], blocks::ENCRYPTED_128[0]),
    (&KEY_A2, blocks::PLAIN[0], blocks::ENCRYPTED_192[0]),
    (&KEY_A3, blocks::PLAIN[0], blocks::ENCRYPTED_256[0]),
    (&[0; 16], 0, ZEROS_BY_128),
    (&[0; 24], 0, ZEROS_BY_192),
    (&[0; 32], 0, ZEROS_BY_256),
];

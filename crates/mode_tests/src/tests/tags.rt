//! CMAC: the tags of the standard, whole and in part, and what is refused.

use aes_cipher::cipher::{BlockCipherEncrypt, KeyInit};
use aes_hybrid::Aes128Enc;
use cmac::{is_tag, is_tag_start, tag};
use standards::blocks::{PLAIN, blocks};
use standards::keys::KEY_A1;

// The tags of SP 800-38B, D.1, of the first 0, 16, 40 and 64 bytes of the message there.
const TAGS: [(usize, u128); 4] = [
    (0, 0xbb1d6929e95937287fa37d129b756746),
    (16, 0x070a16b46b4d4144f79bdd9dd04a287c),
    (40, 0xdfa66747de9ae63030ca32611497c827),
    (64, 0x51f0bebf7e3b9d92fc49741779363cfe),
];

// Whether a cipher gives the tag of the first bytes of a message, accepts it and its beginning, and
// refuses it with a changed byte.
fn gives<C: BlockCipherEncrypt>(cipher: &C, message: &[u8], wanted: u128) -> bool {
    let expected = wanted.to_be_bytes();
    let mut changed = expected;
    changed[15] ^= 1;
    tag(cipher, message) == expected
        && is_tag(cipher, message, &expected)
        && !is_tag(cipher, message, &changed)
        && is_tag_start(cipher, message, &changed[..15])
}

#[test]
fn tags_of_the_standard(rt: HostRuntime) {
    let cipher = <Aes128Enc>::new(&KEY_A1);
    let message = blocks(&PLAIN);
    for (length, wanted) in TAGS {
        assert!(rt; gives(&cipher, &message.as_flattened()[..length.min(64)], wanted));
    }
}

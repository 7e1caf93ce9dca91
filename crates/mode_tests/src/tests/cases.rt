//! Cases of messages in hexadecimal digits, and what a mode has to do with them. GCM and
//! AES-GCM-SIV are tested alike.

ghost use Rattle.std.specs.Prelude.{◌<◌};

use aes_cipher::cipher::Block;

// The word of that number in a row of a table: digits, or `-` for no bytes.
pub(crate) fn word(row: &str, number: usize) -> &str {
    row.split_whitespace().nth(number).unwrap_or("")
}

// A message with its key, and what it becomes: the words of a row, in this order.
#[derive(Drop)]
pub(crate) struct Case<'a> {
    pub(crate) key: &'a str,
    nonce: &'a str,
    additional: &'a str,
    text: &'a str,
    encrypted: &'a str,
    tag: &'a str,
}

pub(crate) fn case_of(row: &str) -> Case<'_> {
    Case {
        key: word(row, 0),
        nonce: word(row, 1),
        additional: word(row, 2),
        text: word(row, 3),
        encrypted: word(row, 4),
        tag: word(row, 5),
    }
}

// A mode under a key. Tests compare results, so nothing is promised.
pub(crate) trait Mode {
    // Encrypts in place and returns the tag, or nothing of what is refused.
    fn seal(&self, nonce: &[u8; 12], additional: &[u8], text: &mut [u8]) -> Option<Block>;

    // Decrypts in place and returns whether the tag is right.
    fn open(&self, nonce: &[u8; 12], additional: &[u8], text: &mut [u8], tag: &Block) -> bool;
}

// A digit.
fn digit(c: u8) -> u8
    ensures { result < 16 }
{
    match c {
        b'0'..=b'9' => c - b'0',
        b'a'..=b'f' => c - b'a' + 10,
        _ => 0,
    }
}

// The bytes that digits write, as many as there is room for, and zeros.
pub(crate) fn decoded<const N: usize>(digits: &str) -> [u8; N] {
    let digits = digits.as_bytes();
    let mut bytes = [0; N];
    for i in 0..N.min(digits.len() / 2) {
        bytes[i] = 16 * digit(digits[2 * i]) + digit(digits[2 * i + 1]);
    }
    bytes
}

// Whether a message is refused after a change in the last byte of its tag, its nonce or its text,
// and if zeros follow its additional data.
fn refuses_changes<M: Mode>(
    mode: &M,
    case: &Case<'_>,
    additional: &[u8],
    text: &mut [u8],
    tag: &Block,
) -> bool {
    let nonce = decoded(case.nonce);
    let mut other_nonce = nonce;
    other_nonce[11] ^= 1;
    let mut other_tag = *tag;
    other_tag[15] ^= 1;
    let mut opened = mode.open(&nonce, additional, text, &other_tag);
    opened |= mode.open(&other_nonce, additional, text, tag);
    opened |= mode.open(&nonce, &decoded::<96>(case.additional), text, tag);
    let length = text.len();
    if length > 0 {
        text[length - 1] ^= 1;
        opened |= mode.open(&nonce, additional, text, tag);
        text[length - 1] ^= 1;
    }
    !opened
}

// Whether a mode encrypts a case as it should, refuses changes of it without a change of the text,
// and decrypts it again.
pub(crate) fn is_right<M: Mode>(mode: &M, case: &Case<'_>) -> bool {
    let nonce = decoded(case.nonce);
    let room: [u8; 96] = decoded(case.additional);
    let additional = &room[..(case.additional.len() / 2).min(96)];
    let length = (case.text.len() / 2).min(128);
    let plain: [u8; 128] = decoded(case.text);
    let tag = decoded(case.tag);
    let mut text = plain;
    let made = mode.seal(&nonce, additional, &mut text[..length]);
    let mut right = made == Some(tag);
    right &= refuses_changes(mode, case, additional, &mut text[..length], &tag);
    right &= text == decoded(case.encrypted);
    right &= mode.open(&nonce, additional, &mut text[..length], &tag);
    right & (text == plain)
}

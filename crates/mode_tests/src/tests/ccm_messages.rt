//! Messages of CCM, there and back: SP 800-38C, C.2 and C.4, and what is refused.

use super::cases::decoded;
use aes_cipher::cipher::KeyInit;
use aes_hybrid::Aes128Enc;
use ccm::{InvalidMessage, NotDecrypted, decrypt, encrypt};
use standards::bytes::counted;

// The additional data of the examples count up from 00 and start anew after ff, the nonce counts
// from 10 and the text from 20.
fn count_from(first: u8, bytes: &mut [u8]) {
    for i in 0..bytes.len() {
        bytes[i] = first.wrapping_add((i % 256) as u8);
    }
}

// Whether a text under the key of the examples becomes this one with this tag, is unchanged if the
// tag is another, and comes back.
fn goes_there_and_back<const T: usize, const N: usize>(
    nonce_length: usize,
    additional: &[u8],
    sealed: &[u8; N],
    expected: &[u8; T],
) -> bool {
    let cipher = <Aes128Enc>::new(&decoded("404142434445464748494a4b4c4d4e4f"));
    let mut nonce = [0; 13];
    count_from(0x10, &mut nonce);
    let nonce = &nonce[..nonce_length.min(13)];
    let mut plain = [0; N];
    count_from(0x20, &mut plain);
    let mut text = plain;
    let mut tag = [0; T];
    let mut right = encrypt(&cipher, nonce, additional, &mut text, &mut tag).is_ok();
    right &= text == *sealed && tag == *expected;
    if T > 0 {
        tag[0] ^= 1;
    }
    right &= decrypt(&cipher, nonce, additional, &mut text, &tag) == Err(NotDecrypted::Refused);
    right &= text == *sealed;
    right &= decrypt(&cipher, nonce, additional, &mut text, expected).is_ok();
    right & (text == plain)
}

// The additional data of the second have 65,536 bytes, so that their length is written in six.
#[test]
fn messages_of_the_standard(rt: HostRuntime) {
    let sealed: [u8; 16] = decoded("d2a1f0e051ea5f62081a7792073d593d");
    let tag: [u8; 6] = decoded("1fc64fbfaccd");
    assert!(rt; goes_there_and_back(8, &counted::<16>(), &sealed, &tag));
    let mut additional = [0; 65536];
    count_from(0, &mut additional);
    let sealed: [u8; 32] = decoded(
        "69915dad1e84c6376a68c2967e4dab615ae0fd1faec44cc484828529463ccf72",
    );
    let tag: [u8; 14] = decoded("b4ac6bec93e8598e7f0dadbcea5b");
    assert!(rt; goes_there_and_back(13, &additional, &sealed, &tag));
}

#[test]
fn errors_say_why(rt: HostRuntime) {
    let cipher = <Aes128Enc>::new(&[0; 16]);
    let tag = [0; 8];
    assert!(rt;
        decrypt(&cipher, &[0; 7], &[], &mut [1], &tag[..5])
            == Err(NotDecrypted::Invalid(InvalidMessage::TagLength))
    );
    assert!(rt;
        decrypt(&cipher, &[0; 6], &[], &mut [1], &tag)
            == Err(NotDecrypted::Invalid(InvalidMessage::NonceLength))
    );
}

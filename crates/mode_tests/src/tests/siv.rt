//! AES-GCM-SIV on messages of RFC 8452 at both key sizes, two of them with a counter that wraps, and
//! what is refused.

ghost use Rattle.std.specs.Prelude.{◌≡◌};
ghost use Rattle.gcm_siv.specs.GcmSiv.{IsSivKeySize};

use super::cases::{Mode, case_of, decoded, is_right};
use aes_cipher::cipher::{Block, BlockCipherEncrypt, KeyInit};
use aes_hybrid::{Aes128Enc, Aes256Enc};
use gcm_siv::GcmSiv;

impl<C: KeyInit + BlockCipherEncrypt + Drop> Mode for GcmSiv<C> {
    fn seal(&self, nonce: &[u8; 12], additional: &[u8], text: &mut [u8]) -> Option<Block> {
        self.encrypt(nonce, additional, text).ok()
    }

    fn open(&self, nonce: &[u8; 12], additional: &[u8], text: &mut [u8], tag: &Block) -> bool {
        self.decrypt(nonce, additional, text, tag).is_ok()
    }
}

// Whether ciphers of a type do as they should under the key of each case.
fn are_right<C: KeyInit + BlockCipherEncrypt + Drop>(rows: &[&str]) -> bool
    requires { IsSivKeySize C.KEY_SIZE }
{
    for row in rows {
        let case = case_of(row);
        let key: [u8; 32] = decoded(case.key);
        let is_right = match C::new_from_slice(&key[..(case.key.len() / 2).min(32)]) {
            Ok(cipher) => is_right(&GcmSiv::new(cipher), &case),
            Err(_) => false,
        };
        if !is_right {
            return false;
        }
    }
    true
}

// Section 8, and the last message of appendix C.1.
const CASES_128: [&str; 2] = [
    "ee8e1ed9ff2540ae8f2ba9f50bc2f27c 752abad3e0afb5f434dc4310 6578616d706c65 48656c6c6f20776f726c64 5d349ead175ef6b1def6fd \
     4fbcdeb7e4793f4a1d7e4faa70100af1",
    "f901cfe8a69615a93fdf7a98cad48179 6245709fb18853f68d833640 \
     7576f7028ec6eb5ea7e298342a94d4b202b370ef9768ec6561c4fe6b7e7296fa859c21 e42a3c02c25b64869e146d7b233987bddfc240871d \
     391cc328d484a4f46406181bcd62efd9b3ee197d05 2d15506c84a9edd65e13e9d24a2a6e70",
];

// The last message of appendix C.2, and appendix C.3, whose counters wrap.
const CASES_256: [&str; 3] = [
    "3c535de192eaed3822a2fbbe2ca9dfc88255e14a661b8aa82cc54236093bbc23 688089e55540db1872504e1c \
     734320ccc9d9bbbb19cb81b2af4ecbc3e72834321f7aa0f70b7282b4f33df23f167541 ced532ce4159b035277d4dfbb7db62968b13cd4eec \
     626660c26ea6612fb17ad91e8e767639edd6c9faee 9d6c7029675b89eaf4ba1ded1a286594",
    "0000000000000000000000000000000000000000000000000000000000000000 000000000000000000000000 - \
     000000000000000000000000000000004db923dc793ee6497c76dcc03a98e108 \
     f3f80f2cf0cb2dd9c5984fcda908456cc537703b5ba70324a6793a7bf218d3ea ffffffff000000000000000000000000",
    "0000000000000000000000000000000000000000000000000000000000000000 000000000000000000000000 - \
     eb3640277c7ffd1303c7a542d02d3e4c0000000000000000 18ce4f0b8cb4d0cac65fea8f79257b20888e53e72299e56d \
     ffffffff000000000000000000000000",
];

#[test]
fn messages_of_the_rfc(rt: HostRuntime) {
    assert!(rt; are_right::<Aes128Enc>(&CASES_128));
    assert!(rt; are_right::<Aes256Enc>(&CASES_256));
}

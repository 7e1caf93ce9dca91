//! GCM on whole messages: one of NIST's at each key size, and what is refused.

use super::cases::{Mode, case_of, decoded, is_right};
use aes_cipher::cipher::{Block, BlockCipherEncrypt, KeyInit};
use aes_hybrid::{Aes128Enc, Aes192Enc, Aes256Enc};
use gcm::Gcm;

impl<C: BlockCipherEncrypt> Mode for Gcm<C> {
    fn seal(&self, nonce: &[u8; 12], additional: &[u8], text: &mut [u8]) -> Option<Block> {
        self.encrypt(nonce, additional, text).ok()
    }

    fn open(&self, nonce: &[u8; 12], additional: &[u8], text: &mut [u8], tag: &Block) -> bool {
        self.decrypt(nonce, additional, text, tag).is_ok()
    }
}

// Whether a cipher of a type does as it should under the key of a case.
fn does_as<C: BlockCipherEncrypt + KeyInit + Drop>(row: &str) -> bool {
    let case = case_of(row);
    let key: [u8; 32] = decoded(case.key);
    match C::new_from_slice(&key[..(case.key.len() / 2).min(32)]) {
        Ok(cipher) => is_right(&Gcm::new(cipher), &case),
        Err(_) => false,
    }
}

// NIST's gcmEncryptExtIV128.rsp, 192 and 256: of text of 13 bytes with 90 more, the first case.
const CASES: [&str; 3] = [
    "e5b1e7a94e9e1fda0873571eec713429 5ddde829a81713346af8e5b7 \
     b0ce75da427fba93da6d3455b2b440a877599a6d8d6d2d66ee90b5cf9a33baaa8329a9ffaac290e8e33f2af2548c2a8a181b3d4d9f8fac860cc26b0d26b9cc53bc9f405afa73605ebeb376f2d1d7fcb065bab92f20f295556ade \
     850069e5ed768b5dc9ed7ad485 c211d9079d5562659db01e17d1 884893fb035d3d7237d47c363de62bb3",
    "ea319c2f397022a0d1b011e59b6524dffc609a2970c39c21 f88c737fd24ad5804c468bbb \
     f8ef7628b75b405a37a78959fedc0bd7f8d0b38ec66f0cbd2aed154cb9240e2102909855f0ddaa3f6805cba53b53826acc49b8d9e66d6ba0df26506bfc1570dd9634a56448568dd57a0a087b6f45f1448d956d90b1d0eed8d271 \
     c02dcc36a608b2d5e95f93821d 7c7dbe434a8463e2779b12e430 54d21140bd173e64f5932fbc3817654f",
    "ff9506b4d46ba54128876fadfcc673a4c927c618ea7d95cfcaa508cbc8f7fc66 3742ad2208a0484345eee1be \
     f1360a27fdc244be8739d85af6491c762a693aafe668c449515fdeeedb6a90aeee3891bbc8b69adc6a6426cb12fcdebc32c9f58c5259d128b91efa28620a3a9a0168b0ff5e76951cb41647ba4aa1f87fac0d97ac580e42cffc7e \
     7fd0d6cadc92cad27bb2d7d8c8 bdb8346b28eb4d7226493611a6 7484d827b767647f44c7f94a39f8175c",
];

#[test]
fn messages_of_nist(rt: HostRuntime) {
    assert!(rt; does_as::<Aes128Enc>(CASES[0]));
    assert!(rt; does_as::<Aes192Enc>(CASES[1]));
    assert!(rt; does_as::<Aes256Enc>(CASES[2]));
}

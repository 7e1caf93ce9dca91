//! Keys that `aes_narrow` keeps, on the standards' blocks.

use aes_cipher::aes::is_key_size;
use aes_cipher::cipher::{BlockCipherDecrypt, BlockCipherEncrypt};
use aes_cipher::zeroize::Zeroize;
use aes_narrow::kept_key::KeptKey;
use standards::single_blocks::EXAMPLES;

#[test]
fn kept_keys_encrypt_and_decrypt(rt: HostRuntime) {
    for (key, plain, encrypted) in EXAMPLES {
        assert!(rt; is_key_size(key.len()));
        let mut kept = KeptKey::zero();
        kept.set(key);
        let mut block = plain.to_be_bytes();
        kept.cipher().encrypt_block(&mut block);
        assert!(rt; u128::from_be_bytes(block) == encrypted);
        kept.cipher().decrypt_block(&mut block);
        assert!(rt; u128::from_be_bytes(block) == plain);
    }
}

//! Ciphers that work round by round, and the key expansion.

use crate::cipher_traits::{backend_decrypts, backend_encrypts};
use aes_planes::soft::word::Block;
use aes_rounds::rounds::{Aes, AesDec, AesEnc, expand_128, expand_192, expand_256};

// Each type of one number of round keys.
macro_rules! each_type {
    ($count:literal, $round_keys:expr, $block:expr) => {{
        let enc: AesEnc<$count> = AesEnc::<$count>::new($round_keys);
        let both: Aes<$count> = enc.as_encdec();
        let dec: AesDec<$count> = enc.as_dec();
        backend_encrypts(&enc, $block);
        backend_encrypts(&both, $block);
        backend_decrypts(&both, $block);
        backend_decrypts(&dec, $block);
        backend_encrypts(&Aes::<$count>::new($round_keys), $block);
        backend_decrypts(&AesDec::<$count>::new($round_keys), $block);
    }};
}

/// Ten rounds.
pub fn by_128(key: &[u8; 16], block: &mut Block) {
    let round_keys: [Block; 11] = expand_128(key);
    each_type!(11, &round_keys, block);
}

/// Twelve rounds.
pub fn by_192(key: &[u8; 24], block: &mut Block) {
    let round_keys: [Block; 13] = expand_192(key);
    each_type!(13, &round_keys, block);
}

/// Fourteen rounds.
pub fn by_256(key: &[u8; 32], block: &mut Block) {
    let round_keys: [Block; 15] = expand_256(key);
    each_type!(15, &round_keys, block);
}

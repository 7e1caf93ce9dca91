//! The callers of cipher block chaining, and the value at the end of a chain.

use aes::expansion::expand_128;
use aes::{Aes128, FixslicedAes};
use aes_callers::by_backend::ByBackend;
use aes_callers::chaining_value::{chaining_value, chaining_value_under};
use aes_callers::chains::cbc_there_and_back;
use aes_cipher::aes::{Bits128, Bits192, Bits256, BothWays, KeySize};
use aes_cipher::blocks::{block_of_number, blocks_equal};
use aes_cipher::cipher::{BlockCipherDecrypt, BlockCipherEncrypt, KeyInit};
use aes_rounds::rounds::Aes;
use standards::blocks::{PLAIN, blocks};
use standards::chains::IV;
use standards::keys::{KEY_A1, KEY_A2, KEY_A3};

// Whether the chained blocks of SP 800-38A, F.2, come back.
fn comes_back<C: BlockCipherEncrypt + BlockCipherDecrypt>(cipher: &C) -> bool {
    let mut row = blocks(&PLAIN);
    cbc_there_and_back(cipher, &IV.to_be_bytes(), &mut row);
    row == blocks(&PLAIN)
}

// Whether the chained blocks come back by the type of `aes` for a size. With the size as a
// parameter, it is proved once for all sizes.
fn comes_back_under<K: KeySize>(key: &K::Key) -> bool {
    comes_back(&FixslicedAes::<K, BothWays>::new(key))
}

#[test]
fn a_chain_comes_back(rt: HostRuntime) {
    assert!(rt; comes_back_under::<Bits128>(&KEY_A1));
    assert!(rt; comes_back_under::<Bits192>(&KEY_A2));
    assert!(rt; comes_back_under::<Bits256>(&KEY_A3));
    assert!(rt;
        comes_back(&ByBackend {
            backend: Aes::new(&expand_128(&KEY_A1))
        })
    );
}

// NIST's example of CMAC with a key of 16 bytes, on an empty message (SP 800-38B, D.1): its one
// block is the padding summed with the second subkey.
#[test]
fn chains_to_a_value(rt: HostRuntime) {
    let last = [block_of_number(0x80 << 120 ^ 0xf7ddac306ae266ccf90bc11ee46d513b)];
    let tag = block_of_number(0xbb1d6929e95937287fa37d129b756746);
    assert!(rt; blocks_equal(&chaining_value_under(&KEY_A1, &last), &tag));
    assert!(rt; blocks_equal(&chaining_value(&Aes128::new(&KEY_A1), &[]), &[0; 16]));
}

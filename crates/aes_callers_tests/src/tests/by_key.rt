//! Each of the nine names of each crate on the examples of FIPS 197, appendix C.

use aes_callers::by_key::{both_forms, planes};
use aes_cipher::aes::{Bits128, Bits192, Bits256, KeySize};
use aes_hybrid::widths::Width256;
use standards::keys::{BY_128, BY_192, BY_256, KEY_128, KEY_192, KEY_256, PLAIN};

#[test]
fn names_of_aes_answer(rt: HostRuntime) {
    let plain = PLAIN.to_be_bytes();
    let by_128 = BY_128.to_be_bytes();
    let by_192 = BY_192.to_be_bytes();
    let by_256 = BY_256.to_be_bytes();
    assert!(rt; planes::aes_128(&KEY_128, &plain).1 == by_128);
    assert!(rt; planes::aes_128_enc(&KEY_128, &plain).1 == by_128);
    assert!(rt; planes::aes_128_dec(&KEY_128, &by_128).1 == plain);
    assert!(rt; planes::aes_192(&KEY_192, &plain).1 == by_192);
    assert!(rt; planes::aes_192_enc(&KEY_192, &plain).1 == by_192);
    assert!(rt; planes::aes_192_dec(&KEY_192, &by_192).1 == plain);
    assert!(rt; planes::aes_256(&KEY_256, &plain).1 == by_256);
    assert!(rt; planes::aes_256_enc(&KEY_256, &plain).1 == by_256);
    assert!(rt; planes::aes_256_dec(&KEY_256, &by_256).1 == plain);
}

#[test]
fn names_of_aes_hybrid_answer(rt: HostRuntime) {
    let plain = PLAIN.to_be_bytes();
    let by_128 = BY_128.to_be_bytes();
    let by_192 = BY_192.to_be_bytes();
    let by_256 = BY_256.to_be_bytes();
    assert!(rt; both_forms::aes_128(&KEY_128, &plain).1 == by_128);
    assert!(rt; both_forms::aes_128_enc(&KEY_128, &plain).1 == by_128);
    assert!(rt; both_forms::aes_128_dec(&KEY_128, &by_128).1 == plain);
    assert!(rt; both_forms::aes_192(&KEY_192, &plain).1 == by_192);
    assert!(rt; both_forms::aes_192_enc(&KEY_192, &plain).1 == by_192);
    assert!(rt; both_forms::aes_192_dec(&KEY_192, &by_192).1 == plain);
    assert!(rt; both_forms::aes_256(&KEY_256, &plain).1 == by_256);
    assert!(rt; both_forms::aes_256_enc(&KEY_256, &plain).1 == by_256);
    assert!(rt; both_forms::aes_256_dec(&KEY_256, &by_256).1 == plain);
}

// Whether the types of `aes_hybrid` for a size answer too, with words of 256 bits.
fn wide_types_answer<K: KeySize>(key: &K::Key, encrypted: u128) -> bool {
    let plain = PLAIN.to_be_bytes();
    let block = encrypted.to_be_bytes();
    both_forms::of_both::<K, Width256>(key, &plain).1 == block
        && both_forms::of_enc::<K, Width256>(key, &plain).1 == block
        && both_forms::of_dec::<K, Width256>(key, &block).1 == plain
}

#[test]
fn wide_types_of_aes_hybrid_answer(rt: HostRuntime) {
    assert!(rt; wide_types_answer::<Bits128>(&KEY_128, BY_128));
    assert!(rt; wide_types_answer::<Bits192>(&KEY_192, BY_192));
    assert!(rt; wide_types_answer::<Bits256>(&KEY_256, BY_256));
}

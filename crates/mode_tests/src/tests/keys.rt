//! Key wrap, with padding and without: an example of the RFC of each, there and back, and what is
//! refused.

use super::cases::{decoded, word};
use aes_cipher::aes::{AesCipher, Bits192, Bits256, BothWays};
use aes_cipher::cipher::{BlockCipherDecrypt, BlockCipherEncrypt, KeyInit};
use aes_hybrid::BothWaysKeys;
use aes_hybrid::widths::Width128;
use key_wrap::{InvalidCount, NotUnwrapped, Semiblock, unwrap, unwrap_padded, wrap, wrap_padded};
use standards::keys::KEY_256;

// RFC 3394, 4.6.
const KEY: &str = "0011223344556677 8899aabbccddeeff 0001020304050607 08090a0b0c0d0e0f";

const WRAPPED: &str = "28c9f404c4b810f4 cbccb35cfb87f826 3f5786e2d80ed326 cbc7f0e71a99f43b \
    fb988b9b7a02dd21";

// The semiblocks whose digits are the words of a row.
fn semiblocks<const N: usize>(row: &str) -> [Semiblock; N] {
    let mut halves = [[0; 8]; N];
    for i in 0..N {
        halves[i] = decoded::<8>(word(row, i));
    }
    halves
}

// Whether the key of the RFC is wrapped and unwrapped, and refused after a change in any semiblock,
// with zeros in the output.
fn wraps<C: BlockCipherEncrypt + BlockCipherDecrypt>(cipher: &C) -> bool {
    let sealed = semiblocks(WRAPPED);
    let mut output = [[0; 8]; 5];
    let mut back = [[0; 8]; 4];
    let mut right = wrap(cipher, &semiblocks::<4>(KEY), &mut output) == Ok(()) && output == sealed;
    right &= unwrap(cipher, &sealed, &mut back) == Ok(()) && back == semiblocks(KEY);
    for i in 0..5 {
        let mut changed = sealed;
        changed[i][i] ^= 4;
        right &= unwrap(cipher, &changed, &mut back) == Err(NotUnwrapped::Refused);
        right &= back == [[0; 8]; 4];
    }
    right & (wrap(cipher, &sealed, &mut output) == Err(InvalidCount))
}

#[test]
fn wraps_a_key_of_the_rfc(rt: HostRuntime) {
    assert!(rt; wraps(&AesCipher::<BothWaysKeys<Bits256, Width128>, BothWays>::new(&KEY_256)));
}

// RFC 5649, 6: a key of seven bytes.
#[test]
fn pads_a_key_of_the_rfc(rt: HostRuntime) {
    let key = decoded("5840df6e29b02af1ab493b705bf16ea1ae8338f4dcc176a8");
    let cipher = AesCipher::<BothWaysKeys<Bits192, Width128>, BothWays>::new(&key);
    let data: [u8; 7] = decoded("466f7250617369");
    let mut sealed = [[0; 8]; 2];
    assert!(rt; wrap_padded(&cipher, &data, &mut sealed) == Ok(()));
    assert!(rt; sealed == semiblocks("afbeb0f07dfbf541 9200f2ccb50bb24f"));
    let mut back = [[6; 8]];
    assert!(rt; unwrap_padded(&cipher, &sealed, &mut back) == Ok(7));
    assert!(rt; back == semiblocks("466f725061736900"));
    sealed[1][7] ^= 1;
    assert!(rt; unwrap_padded(&cipher, &sealed, &mut back) == Err(NotUnwrapped::Refused));
    assert!(rt; back == [[0; 8]]);
    assert!(rt; wrap_padded(&cipher, &[], &mut sealed) == Err(InvalidCount));
}

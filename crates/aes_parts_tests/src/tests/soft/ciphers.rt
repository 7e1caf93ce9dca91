//! Schedules and ciphers of both layouts and three sizes, on every word, against values from
//! outside.

use super::block;
use crate::tests::words::{WordTrial, try_words};
use aes_planes::soft::sbox::Layers;
use aes_planes::soft::word::{Batch, Block, Word};
use aes_soft::soft::full::widen;
use aes_soft::soft::{compact, full};
use standards::blocks;
use standards::blocks::{ENCRYPTED_128, ENCRYPTED_192, ENCRYPTED_256};
use standards::keys::{
    BY_128, BY_192, BY_256, KEY_128, KEY_192, KEY_256, KEY_A1, KEY_A2, KEY_A3, PLAIN, ZEROS_BY_128,
    ZEROS_BY_192, ZEROS_BY_256,
};

// Blocks encrypted under a key, and decrypted again.
macro_rules! there_and_back {
    ($layout:ident, $size:ident, $word:ident, $key:expr, $blocks:expr) => {{
        let mut layers = Layers::new();
        let round_keys = $layout::$size::key_schedule::<$word>($key, &mut layers);
        let encrypted = $layout::$size::encrypt::<$word>(&round_keys, $blocks, &mut layers);
        let decrypted = $layout::$size::decrypt::<$word>(&round_keys, &encrypted, &mut layers);
        (encrypted, decrypted)
    }};
}

// A key of one size, under which each layout encrypts blocks and decrypts them again.
trait SizedKey {
    fn compact<W: Word>(&self, blocks: &W::Blocks) -> (W::Blocks, W::Blocks);

    fn full<W: Word>(&self, blocks: &W::Blocks) -> (W::Blocks, W::Blocks);
}

impl SizedKey for [u8; 16] {
    fn compact<W: Word>(&self, blocks: &W::Blocks) -> (W::Blocks, W::Blocks) {
        there_and_back!(compact, aes128, W, self, blocks)
    }

    fn full<W: Word>(&self, blocks: &W::Blocks) -> (W::Blocks, W::Blocks) {
        there_and_back!(full, aes128, W, self, blocks)
    }
}

impl SizedKey for [u8; 24] {
    fn compact<W: Word>(&self, blocks: &W::Blocks) -> (W::Blocks, W::Blocks) {
        there_and_back!(compact, aes192, W, self, blocks)
    }

    fn full<W: Word>(&self, blocks: &W::Blocks) -> (W::Blocks, W::Blocks) {
        there_and_back!(full, aes192, W, self, blocks)
    }
}

impl SizedKey for [u8; 32] {
    fn compact<W: Word>(&self, blocks: &W::Blocks) -> (W::Blocks, W::Blocks) {
        there_and_back!(compact, aes256, W, self, blocks)
    }

    fn full<W: Word>(&self, blocks: &W::Blocks) -> (W::Blocks, W::Blocks) {
        there_and_back!(full, aes256, W, self, blocks)
    }
}

// Whether both layouts encrypt eight blocks as wanted and decrypt them again, each in each slot of
// a word, beside seven others.
fn works<W: Word, K: SizedKey>(key: &K, plain: &[Block; 8], wanted: &[Block; 8]) -> bool {
    let mut is_right = true;
    for first in 0..8usize {
        let mut blocks = W::Blocks::zero();
        for slot in 0..W::Blocks::LEN {
            blocks.set(slot, plain[(first + slot % 8) % 8]);
        }
        let (compact_there, compact_back) = key.compact::<W>(&blocks);
        let (full_there, full_back) = key.full::<W>(&blocks);
        for slot in 0..W::Blocks::LEN {
            let i = (first + slot % 8) % 8;
            let is_encrypted = compact_there.get(slot) == wanted[i]
                && full_there.get(slot) == wanted[i];
            let is_decrypted = compact_back.get(slot) == plain[i]
                && full_back.get(slot) == plain[i];
            is_right = is_right && is_encrypted && is_decrypted;
        }
    }
    is_right
}

// Eight blocks, and their encryption under a key of each size.
#[derive(Drop)]
struct Encrypted {
    plain: [Block; 8],
    key_128: [u8; 16],
    by_128: [Block; 8],
    key_192: [u8; 24],
    by_192: [Block; 8],
    key_256: [u8; 32],
    by_256: [Block; 8],
}

impl WordTrial for Encrypted {
    fn passes<W: Word>(&self) -> bool {
        works::<W, _>(&self.key_128, &self.plain, &self.by_128)
            && works::<W, _>(&self.key_192, &self.plain, &self.by_192)
            && works::<W, _>(&self.key_256, &self.plain, &self.by_256)
    }
}

// Four blocks beside those of SP 800-38A, F.1.
const MORE: [u128; 4] = [
    0x00112233445566778899aabbccddeeff,
    0xffeeddccbbaa99887766554433221100,
    0x000102030405060708090a0b0c0d0e0f,
    0x00000000000000000000000000000001,
];

// `MORE` under the key of 16 bytes of F.1, by OpenSSL 3.0.
const MORE_BY_128: [u128; 4] = [
    0x8df4e9aac5c7573a27d8d055d6e4d64b,
    0x2f49671c7ab81b2f435d9b650e35b8c1,
    0x50fe67cc996d32b6da0937e99bafec60,
    0x57127d4034b1bebfaef466b9c7726fc6,
];

// `MORE` under the key of 24 bytes, by OpenSSL.
const MORE_BY_192: [u128; 4] = [
    0xeb1b03f2acb64bcf28c9991cc8a4fa50,
    0x753a182b1a858cb50fef422f827f9337,
    0xa609b38df3b1133dddff2718ba09565e,
    0xfeb3c2eea1ccddfa4fd29b0d3ef4173d,
];

// `MORE` under the key of 32 bytes, by OpenSSL.
const MORE_BY_256: [u128; 4] = [
    0xd83414223d20a0c928b136c884d07ea2,
    0x576436b0ed2a75ef808213d478aa53c1,
    0xb7bf3a5df43989dd97f0fa97ebce2f4a,
    0x91151e5d0b7a1f1bc0d7acd0ae3e51e4,
];

// Four blocks and four more, by their digits.
fn eight(first: &[u128; 4], more: &[u128; 4]) -> [Block; 8] {
    let [a, b, c, d] = blocks::blocks(first);
    let [e, f, g, h] = blocks::blocks(more);
    [a, b, c, d, e, f, g, h]
}

#[test]
fn encrypts_and_decrypts_different_blocks(rt: HostRuntime) {
    let encrypted = Encrypted {
        plain: eight(&blocks::PLAIN, &MORE),
        key_128: KEY_A1,
        by_128: eight(&ENCRYPTED_128, &MORE_BY_128),
        key_192: KEY_A2,
        by_192: eight(&ENCRYPTED_192, &MORE_BY_192),
        key_256: KEY_A3,
        by_256: eight(&ENCRYPTED_256, &MORE_BY_256),
    };
    try_words(&rt, &encrypted);
}

// FIPS 197, appendices C.1 to C.3.
#[test]
fn encrypts_and_decrypts_the_standards_block(rt: HostRuntime) {
    let encrypted = Encrypted {
        plain: [block(PLAIN); 8],
        key_128: KEY_128,
        by_128: [block(BY_128); 8],
        key_192: KEY_192,
        by_192: [block(BY_192); 8],
        key_256: KEY_256,
        by_256: [block(BY_256); 8],
    };
    try_words(&rt, &encrypted);
}

// The zero block under the zero keys, by OpenSSL.
#[test]
fn encrypts_and_decrypts_the_zero_block(rt: HostRuntime) {
    let encrypted = Encrypted {
        plain: [[0; 16]; 8],
        key_128: [0; 16],
        by_128: [block(ZEROS_BY_128); 8],
        key_192: [0; 24],
        by_192: [block(ZEROS_BY_192); 8],
        key_256: [0; 32],
        by_256: [block(ZEROS_BY_256); 8],
    };
    try_words(&rt, &encrypted);
}

// Round key 1 of the zero key is 62 63 63 63 in each column (FIPS 197, 5.2). With 0x63 added, it is
// 01 in row 0, and plane 0 is 0x000f. The words of round keys 2 and 3 were worked out in the same
// way.
fn are_of_the_zero_key(words: &[u16; 88], word_24: u16) -> bool {
    words[..8] == [0; 8]
        && words[8] == 0x000f
        && words[9..16] == [0; 7]
        && words[16] == 0xa550
        && words[24] == word_24
}

// On `u64` each bit stands four times.
#[test]
fn stores_the_round_keys_of_the_zero_key(rt: HostRuntime) {
    let mut layers = Layers::new();
    let compact = compact::aes128::key_schedule::<u16>(&[0; 16], &mut layers);
    let full = full::aes128::key_schedule::<u16>(&[0; 16], &mut layers);
    assert!(rt; are_of_the_zero_key(&compact, 0x96c5));
    assert!(rt; are_of_the_zero_key(&full, 0x6635));
    let of_four = full::aes128::key_schedule::<u64>(&[0; 16], &mut layers);
    assert!(rt; of_four[24] == 0x0ff00ff000ff0f0f);
    assert!(rt; widen::<u64, 88>(&full)[24] == 0x0ff00ff000ff0f0f);
}

#[test]
fn widens_round_keys_to_those_of_the_same_key(rt: HostRuntime) {
    let mut layers = Layers::new();
    let of_128 = full::aes128::key_schedule::<u16>(&KEY_128, &mut layers);
    let of_192 = full::aes192::key_schedule::<u16>(&KEY_192, &mut layers);
    let of_256 = full::aes256::key_schedule::<u16>(&KEY_256, &mut layers);
    assert!(rt;
        widen::<u32, 88>(&of_128) == full::aes128::key_schedule::<u32>(&KEY_128, &mut layers)
    );
    assert!(rt;
        widen::<u64, 104>(&of_192) == full::aes192::key_schedule::<u64>(&KEY_192, &mut layers)
    );
    assert!(rt;
        widen::<u128, 120>(&of_256) == full::aes256::key_schedule::<u128>(&KEY_256, &mut layers)
    );
}

//! The types that work round by round, on worked examples of the standard and through their bounds.

ghost use Rattle.std.specs.Prelude.{◌≡◌, ◌⊎◌};

use aes::FixslicedAes;
use aes::expansion::{expand_128, expand_192, expand_256};
use aes::hazmat::Block8;
use aes_cipher::aes::{Bits256, KeySize};
use aes_cipher::cipher::{
    BlockCipherDecBackend, BlockCipherEncBackend, BlockCipherEncrypt, Encrypt, KeyInit,
    RoundKeysUser,
};
use aes_planes::soft::word::Block;
use aes_rounds::rounds::{Aes, AesDec, AesEnc};
use standards::blocks::blocks;
use standards::expansions::{ROUND_KEYS_A1, ROUND_KEYS_A2, ROUND_KEYS_A3};
use standards::keys::{KEY_128, KEY_192, KEY_256, KEY_A1, KEY_A2, KEY_A3, PLAIN};

// The eight blocks of `eight_blocks` encrypted under the key of 16 bytes 00 to 0f: the first is of
// FIPS 197, appendix C.1, all are what OpenSSL answers.
const ENCRYPTED_128: [u128; 8] = [
    0x69c4e0d86a7b0430d8cdb78070b4c55a,
    0xa9541c06f1c21125e44013531e18f406,
    0xecb43335dce496e839f75536304d1630,
    0x042735ab9246a07bdeb21dfeb6ad1192,
    0x9662f54d756d02c274271598b73e0da6,
    0x02fae729219b2edd2dae2781f25be87e,
    0xcb136c6a2138d878218a4a0d65563358,
    0x4605a49219c3459631f29dcff0a6f7da,
];

// The eight blocks encrypted under the key of 24 bytes 00 to 17 (appendix C.2).
const ENCRYPTED_192: [u128; 8] = [
    0xdda97ca4864cdfe06eaf70a0ec0d7191,
    0x2338b5561b17d2fbb2b8cccf212107da,
    0x56db4857ec1a35f98c9ce3ddbc6c9d0a,
    0x38988fd35904763f1207b2abc98ec844,
    0xd880c3ba12bef949a296e7c6b3ad81ab,
    0x2549472cf12fec81110f48b6a7931d48,
    0x0fc2343f54db55c38452329331f25dfa,
    0x5e18ee87658eead543bbdd07c6f5c612,
];

// The eight blocks encrypted under the key of 32 bytes 00 to 1f (appendix C.3).
const ENCRYPTED_256: [u128; 8] = [
    0x8ea2b7ca516745bfeafc49904b496089,
    0x35885e82c64f7b791d932044771160ca,
    0x60582a35cd24c679b64233f5e5054f3b,
    0xebd7bd74d11d1e83e20888a827d5f130,
    0x62e25990acdb371870fb426e39063aea,
    0xa770e3e099ae756e6f46866904a3ac64,
    0xab36cee89fe0cfb391927d0f096ceeea,
    0x25392f1e278c76e7a85ea6ff6b223ece,
];

// Eight different blocks: the first is that of FIPS 197, appendix C, and block i adds i to each of
// its bytes.
fn eight_blocks() -> Block8 {
    let mut blocks = [[0; 16]; 8];
    for i in 0..8u8 {
        blocks[i as usize] = PLAIN.to_be_bytes();
        for j in 0..16usize {
            blocks[i as usize][j] ^= i;
        }
    }
    blocks
}

// A list of round keys that is no expansion: the multiples of a number, from 0 on.
fn any_round_keys<const RK: usize>() -> [Block; RK] {
    let mut round_keys = [[0; 16]; RK];
    for i in 0..RK {
        round_keys[i] = 0x0f1e2d3c4b5a69788796a5b4c3d2e1f1_u128
            .wrapping_mul(i as u128)
            .to_be_bytes();
    }
    round_keys
}

// The blocks encrypted one by one, and as a batch.
fn encrypted<B: BlockCipherEncBackend>(backend: &B, blocks: &Block8) -> [Block8; 2]
    requires { B.PAR_BLOCKS ≡ 8 }
{
    let mut one_by_one = *blocks;
    for i in 0..8usize {
        backend.encrypt_block(&mut one_by_one[i]);
    }
    let mut at_once = *blocks;
    backend.encrypt_par_blocks(&mut at_once);
    [one_by_one, at_once]
}

// The blocks decrypted one by one, and as a batch.
fn decrypted<B: BlockCipherDecBackend>(backend: &B, blocks: &Block8) -> [Block8; 2]
    requires { B.PAR_BLOCKS ≡ 8 }
{
    let mut one_by_one = *blocks;
    for i in 0..8usize {
        backend.decrypt_block(&mut one_by_one[i]);
    }
    let mut at_once = *blocks;
    backend.decrypt_par_blocks(&mut at_once);
    [one_by_one, at_once]
}

// A block there and back, which the contracts alone tell.
fn restored<const RK: usize>(round_keys: &[Block; RK], block: &mut Block)
    requires { (RK ≡ 11) ⊎ (RK ≡ 13) ⊎ (RK ≡ 15) }
    ensures { block.new ≡ block.old }
{
    let cipher = AesEnc::new(round_keys);
    cipher.ciphers_undo_each_other();
    cipher.encrypt_block(block);
    cipher.as_dec().decrypt_block(block);
}

// Whether every type encrypts the blocks as expected and decrypts them again.
fn there_and_back<const RK: usize>(
    round_keys: &[Block; RK],
    plain: &Block8,
    wanted: &Block8,
) -> bool
    requires { (RK ≡ 11) ⊎ (RK ≡ 13) ⊎ (RK ≡ 15) }
{
    let cipher = AesEnc::new(round_keys);
    encrypted(&cipher, plain) == [*wanted, *wanted]
        && encrypted(&cipher.as_encdec(), plain) == [*wanted, *wanted]
        && encrypted(&Aes::new(round_keys), plain) == [*wanted, *wanted]
        && decrypted(&cipher.as_dec(), wanted) == [*plain, *plain]
        && decrypted(&cipher.as_encdec(), wanted) == [*plain, *plain]
        && decrypted(&Aes::new(round_keys), wanted) == [*plain, *plain]
        && decrypted(&AesDec::new(round_keys), wanted) == [*plain, *plain]
}

#[test]
fn answers_as_openssl_does(rt: HostRuntime) {
    let plain = eight_blocks();
    assert!(rt; there_and_back(&expand_128(&KEY_128), &plain, &blocks(&ENCRYPTED_128)));
    assert!(rt; there_and_back(&expand_192(&KEY_192), &plain, &blocks(&ENCRYPTED_192)));
    assert!(rt; there_and_back(&expand_256(&KEY_256), &plain, &blocks(&ENCRYPTED_256)));
}

// Encrypts a slice of blocks by another implementation, on words of eight blocks.
fn encrypt_on_planes<K: KeySize>(key: &K::Key, blocks: &mut [Block]) {
    FixslicedAes::<K, Encrypt>::new(key).encrypt_blocks(blocks);
}

#[test]
fn agrees_with_the_type_for_keys_of_32_bytes(rt: HostRuntime) {
    let plain = eight_blocks();
    let mut wanted = plain;
    encrypt_on_planes::<Bits256>(&KEY_256, &mut wanted);
    assert!(rt; there_and_back(&expand_256(&KEY_256), &plain, &wanted));
}

// FIPS 197, appendices A.1 to A.3, and the last round key of C.1.
#[test]
fn expands_keys_of_the_standard(rt: HostRuntime) {
    assert!(rt; expand_128(&KEY_A1) == blocks(&ROUND_KEYS_A1));
    assert!(rt; expand_192(&KEY_A2) == blocks(&ROUND_KEYS_A2));
    assert!(rt; expand_256(&KEY_A3) == blocks(&ROUND_KEYS_A3));
    assert!(rt;
        u128::from_be_bytes(expand_128(&KEY_128)[10]) == 0x13111d7fe3944a17f307a78b4d2b30c5
    );
}

// Under round keys of zeros equal bytes stay equal, so that a round is the S-box alone. The S-box
// (FIPS 197, figure 7) ten, twelve and fourteen times on 00 is 36, 6b and d2.
#[test]
fn takes_round_keys_of_zeros(rt: HostRuntime) {
    let zeros = [[0; 16]; 8];
    assert!(rt; there_and_back(&[[0; 16]; 11], &zeros, &[[0x36; 16]; 8]));
    assert!(rt; there_and_back(&[[0; 16]; 13], &zeros, &[[0x6b; 16]; 8]));
    assert!(rt; there_and_back(&[[0; 16]; 15], &zeros, &[[0xd2; 16]; 8]));
}

// Whether the last of the eight blocks becomes `wanted` under the round keys, and all types agree
// on each of them, there and back.
fn all_agree<const RK: usize>(round_keys: &[Block; RK], wanted: u128) -> bool
    requires { (RK ≡ 11) ⊎ (RK ≡ 13) ⊎ (RK ≡ 15) }
{
    let plain = eight_blocks();
    let [one_by_one, _] = encrypted(&AesEnc::new(round_keys), &plain);
    u128::from_be_bytes(one_by_one[7]) == wanted && there_and_back(round_keys, &plain, &one_by_one)
}

// The values were computed by the definitions of FIPS 197, 5.1, in Python.
#[test]
fn takes_lists_that_are_no_expansions(rt: HostRuntime) {
    assert!(rt; all_agree(&any_round_keys::<11>(), 0xd2bdd1cc4e04650a80014564b6cbc07e));
    assert!(rt; all_agree(&any_round_keys::<13>(), 0xfa14d6498d5779aff01750a24f04843e));
    assert!(rt; all_agree(&any_round_keys::<15>(), 0x2ed4432cf50ede08a34fc4cd8a7d01aa));
}

#[test]
fn restores_a_block(rt: HostRuntime) {
    let mut block = KEY_128;
    restored(&any_round_keys::<13>(), &mut block);
    assert!(rt; block == KEY_128);
}

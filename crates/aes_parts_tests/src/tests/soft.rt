//! Single rounds on the standard's worked values. The ciphers have a file of their own.

ghost use Rattle.std.specs.Prelude.{◌≡◌, ◌%◌};

use aes_planes::soft::word::{Block, Word};
use aes_soft::soft::hazmat::{
    cipher_round, cipher_round_par, equiv_inv_cipher_round, equiv_inv_cipher_round_par,
    inv_mix_columns, mix_columns,
};
use standards::keys::PLAIN;
use standards::rounds::{
    INVERSE_MIXED, INVERSE_ROUND_KEYS, INVERSE_STATES, MIXED, ROUND_KEYS, STATES,
};

mod backend;
mod ciphers;

// A block by its hexadecimal digits.
fn block(digits: u128) -> Block {
    digits.to_be_bytes()
}

// A round of the cipher, and one of the equivalent inverse cipher, on a block and a round key.
fn rounds<W: Word>(start: Block, round_key: &Block) -> [Block; 2] {
    let mut forward = start;
    cipher_round::<W>(&mut forward, round_key);
    let mut back = start;
    equiv_inv_cipher_round::<W>(&mut back, round_key);
    [forward, back]
}

// MixColumns and InvMixColumns of a block.
fn mixed<W: Word>(start: Block) -> [Block; 2] {
    let mut forward = start;
    mix_columns::<W>(&mut forward);
    let mut back = start;
    inv_mix_columns::<W>(&mut back);
    [forward, back]
}

// A block after a round of each cipher under the zero key, with the columns mixed back in between.
fn around<W: Word>(start: Block) -> Block {
    let zero = [0; 16];
    let mut state = start;
    cipher_round::<W>(&mut state, &zero);
    inv_mix_columns::<W>(&mut state);
    equiv_inv_cipher_round::<W>(&mut state, &zero);
    mix_columns::<W>(&mut state);
    state
}

// FIPS 197, appendix C.1, rounds 1 to 8 of the cipher. S of 0 is 0x63, and equal bytes stay as they
// are under the other steps.
#[test]
fn makes_rounds_of_the_cipher(rt: HostRuntime) {
    for i in 0..8usize {
        let [forward, _] = rounds::<u16>(block(STATES[i]), &block(ROUND_KEYS[i]));
        assert!(rt; forward == block(STATES[i + 1]), "round {i}");
    }
    assert!(rt; rounds::<u16>([0; 16], &[0; 16])[0] == [0x63; 16]);
}

// FIPS 197, appendix C.1, rounds 1 to 8 of the equivalent inverse cipher.
#[test]
fn makes_rounds_of_the_equivalent_inverse_cipher(rt: HostRuntime) {
    for i in 0..8usize {
        let [_, back] = rounds::<u16>(block(INVERSE_STATES[i]), &block(INVERSE_ROUND_KEYS[i]));
        assert!(rt; back == block(INVERSE_STATES[i + 1]), "round {i}");
    }
    assert!(rt; rounds::<u16>([0x63; 16], &[0; 16])[1] == [0; 16]);
}

// FIPS 197, appendix C.1: round 1 of the cipher, and round 1 of the inverse cipher.
#[test]
fn mixes_columns_both_ways(rt: HostRuntime) {
    let [forward, _] = mixed::<u16>(block(MIXED[0]));
    assert!(rt; forward == block(MIXED[1]));
    let [_, back] = mixed::<u16>(block(INVERSE_MIXED[0]));
    assert!(rt; back == block(INVERSE_MIXED[1]));
    assert!(rt; mixed::<u16>([0x63; 16]) == [[0x63; 16], [0x63; 16]]);
}

#[test]
fn comes_back_around_under_the_zero_key(rt: HostRuntime) {
    let start = block(PLAIN);
    assert!(rt; around::<u16>(start) == start);
}

// A round of each cipher on eight blocks at once, each under its own round key.
fn rounds_at_once<W: Word>(start: [Block; 8], round_keys: &[Block; 8]) -> [[Block; 8]; 2]
    requires { 8 % W.BLOCKS ≡ 0 }
{
    let mut forward = start;
    cipher_round_par::<W>(&mut forward, round_keys);
    let mut back = start;
    equiv_inv_cipher_round_par::<W>(&mut back, round_keys);
    [forward, back]
}

// Against the single calls; the first block is that of FIPS 197, appendix C.1, round 1 of the
// cipher.
#[test]
fn makes_eight_rounds_at_once(rt: HostRuntime) {
    let mut blocks = [[0u8; 16]; 8];
    let mut keys = [[0u8; 16]; 8];
    for i in 0..8usize {
        blocks[i] = block(STATES[0] + 77 * i as u128);
        keys[i] = block(ROUND_KEYS[0] - 991 * i as u128);
    }
    let wanted = rounds_at_once::<u16>(blocks, &keys);
    for i in 0..8usize {
        assert!(rt; wanted[0][i] == rounds::<u16>(blocks[i], &keys[i])[0]);
        assert!(rt; wanted[1][i] == rounds::<u16>(blocks[i], &keys[i])[1]);
    }
    assert!(rt; wanted[0][0] == block(STATES[1]));
    assert!(rt; rounds_at_once::<u32>(blocks, &keys) == wanted);
    assert!(rt; rounds_at_once::<u64>(blocks, &keys) == wanted);
    assert!(rt; rounds_at_once::<u128>(blocks, &keys) == wanted);
}

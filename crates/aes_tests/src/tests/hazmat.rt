//! Single rounds of `aes` on the rounds of FIPS 197, appendix C.1.

ghost use Rattle.std.specs.Prelude.{◌+◌, ◌≤◌, length};

use aes::hazmat::{
    Block8, cipher_round, cipher_round_par, equiv_inv_cipher_round, equiv_inv_cipher_round_par,
    inv_mix_columns, mix_columns,
};
use standards::rounds::{
    INVERSE_MIXED, INVERSE_ROUND_KEYS, INVERSE_STATES, MIXED, ROUND_KEYS, STATES,
};

// Eight of the numbers as blocks, from a place on.
fn eight(numbers: &[u128], from: usize) -> Block8
    requires { from + 8 ≤ length numbers.now }
{
    let mut blocks = [[0; 16]; 8];
    for i in 0..8usize {
        blocks[i] = numbers[from + i].to_be_bytes();
    }
    blocks
}

#[test]
fn makes_the_rounds_of_the_standard(rt: HostRuntime) {
    for i in 0..8usize {
        let mut block = STATES[i].to_be_bytes();
        cipher_round(&mut block, &ROUND_KEYS[i].to_be_bytes());
        assert!(rt; u128::from_be_bytes(block) == STATES[i + 1], "round {i}");
        let mut block = INVERSE_STATES[i].to_be_bytes();
        equiv_inv_cipher_round(&mut block, &INVERSE_ROUND_KEYS[i].to_be_bytes());
        assert!(rt;
            u128::from_be_bytes(block) == INVERSE_STATES[i + 1],
            "inverse round {i}"
        );
    }
}

// All eight rounds at once: each state becomes the next one, under its own round key.
#[test]
fn makes_eight_rounds_at_once(rt: HostRuntime) {
    let mut blocks = eight(&STATES, 0);
    cipher_round_par(&mut blocks, &eight(&ROUND_KEYS, 0));
    assert!(rt; blocks == eight(&STATES, 1));
    let mut blocks = eight(&INVERSE_STATES, 0);
    equiv_inv_cipher_round_par(&mut blocks, &eight(&INVERSE_ROUND_KEYS, 0));
    assert!(rt; blocks == eight(&INVERSE_STATES, 1));
}

#[test]
fn mixes_the_columns_of_the_standard(rt: HostRuntime) {
    let mut block = MIXED[0].to_be_bytes();
    mix_columns(&mut block);
    assert!(rt; u128::from_be_bytes(block) == MIXED[1]);
    let mut block = INVERSE_MIXED[0].to_be_bytes();
    inv_mix_columns(&mut block);
    assert!(rt; u128::from_be_bytes(block) == INVERSE_MIXED[1]);
}

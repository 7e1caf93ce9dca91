//! Shifts, column mixing and round keys on the standard's examples.

ghost use Rattle.std.specs.Prelude.{◌<◌};

use super::{packed, unpacked};
use crate::tests::words::{WordTrial, try_words};
use aes_cipher::blocks::sum_of_blocks;
use aes_planes::soft::key_columns::{
    add_round_constant_bit, straddle_columns, summed_columns, xor_columns,
};
use aes_planes::soft::mix_columns::{
    inv_mix_columns_0, inv_mix_columns_1, inv_mix_columns_2, inv_mix_columns_3, mix_columns_0,
    mix_columns_1, mix_columns_2, mix_columns_3,
};
use aes_planes::soft::round_keys::{round_key, store_round_key};
use aes_planes::soft::sbox::{Layers, sub_bytes, sub_bytes_nots};
use aes_planes::soft::shifts::{
    inv_shift_rows_1, inv_shift_rows_2, inv_shift_rows_3, shift_rows_1, shift_rows_2, shift_rows_3,
};
use aes_planes::soft::sums::add_round_key;
use aes_planes::soft::word::{Batch, Block, Word};
use standards::expansions::ROUND_KEYS_A1;
use standards::keys::KEY_A1;

// Round key 1 of the key of FIPS 197, appendix A.1.
fn round_key_1() -> Block {
    ROUND_KEYS_A1[1].to_be_bytes()
}

// The state in round 1 of FIPS 197, appendix B: after SubBytes, ShiftRows, MixColumns and
// AddRoundKey.
const SUBSTITUTED: Block = [
    0xd4, 0x27, 0x11, 0xae, 0xe0, 0xbf, 0x98, 0xf1, 0xb8, 0xb4, 0x5d, 0xe5, 0x1e, 0x41, 0x52, 0x30,
];

const SHIFTED: Block = [
    0xd4, 0xbf, 0x5d, 0x30, 0xe0, 0xb4, 0x52, 0xae, 0xb8, 0x41, 0x11, 0xf1, 0x1e, 0x27, 0x98, 0xe5,
];

const MIXED: Block = [
    0x04, 0x66, 0x81, 0xe5, 0xe0, 0xcb, 0x19, 0x9a, 0x48, 0xf8, 0xd3, 0x7a, 0x28, 0x06, 0x26, 0x4c,
];

const ADDED: Block = [
    0xa4, 0x9c, 0x7f, 0xf2, 0x68, 0x9f, 0x35, 0x2b, 0x6b, 0x5b, 0xea, 0x43, 0x02, 0x6a, 0x50, 0x49,
];

// The rows of SUBSTITUTED shifted two and three times.
const SHIFTED_TWICE: Block = [
    0xd4, 0xb4, 0x11, 0xe5, 0xe0, 0x41, 0x98, 0x30, 0xb8, 0x27, 0x5d, 0xae, 0x1e, 0xbf, 0x52, 0xf1,
];

const SHIFTED_THRICE: Block = [
    0xd4, 0x41, 0x5d, 0xf1, 0xe0, 0x27, 0x52, 0xe5, 0xb8, 0xbf, 0x11, 0x30, 0x1e, 0xb4, 0x98, 0xae,
];

// The rows of MIXED shifted back once, twice and three times.
const MIXED_BACK: Block = [
    0x04, 0x06, 0xd3, 0x9a, 0xe0, 0x66, 0x26, 0x7a, 0x48, 0xcb, 0x81, 0x4c, 0x28, 0xf8, 0x19, 0xe5,
];

const MIXED_BACK_TWICE: Block = [
    0x04, 0xf8, 0x81, 0x7a, 0xe0, 0x06, 0x19, 0x4c, 0x48, 0x66, 0xd3, 0xe5, 0x28, 0xcb, 0x26, 0x9a,
];

const MIXED_BACK_THRICE: Block = [
    0x04, 0xcb, 0xd3, 0x4c, 0xe0, 0xf8, 0x26, 0xe5, 0x48, 0x06, 0x81, 0x9a, 0x28, 0x66, 0x19, 0x7a,
];

// A block for each number of deferred shifts, and the block with its columns mixed: the rows of
// SHIFTED and MIXED, shifted back that many times. Four shifts change nothing, so SUBSTITUTED
// shifted three times is SHIFTED shifted back twice.
const DEFERRED: [Block; 4] = [SHIFTED, SUBSTITUTED, SHIFTED_THRICE, SHIFTED_TWICE];

const DEFERRED_MIXED: [Block; 4] = [MIXED, MIXED_BACK, MIXED_BACK_TWICE, MIXED_BACK_THRICE];

// The block with its rows shifted once, twice and three times.
fn shifts<W: Word>(block: Block) -> [Block; 3] {
    let [mut once, mut twice, mut thrice] = [packed::<W>(block); 3];
    shift_rows_1(&mut once);
    shift_rows_2(&mut twice);
    shift_rows_3(&mut thrice);
    [unpacked(&once), unpacked(&twice), unpacked(&thrice)]
}

// Three blocks, with the rows shifted back once, twice and three times.
fn shifts_back<W: Word>(blocks: [Block; 3]) -> [Block; 3] {
    let mut once = packed::<W>(blocks[0]);
    inv_shift_rows_1(&mut once);
    let mut twice = packed::<W>(blocks[1]);
    inv_shift_rows_2(&mut twice);
    let mut thrice = packed::<W>(blocks[2]);
    inv_shift_rows_3(&mut thrice);
    [unpacked(&once), unpacked(&twice), unpacked(&thrice)]
}

// The columns of four blocks mixed, with no shift deferred, one, two and three.
fn mixes<W: Word>(blocks: [Block; 4]) -> [Block; 4] {
    let mut none = packed::<W>(blocks[0]);
    mix_columns_0(&mut none);
    let mut one = packed::<W>(blocks[1]);
    mix_columns_1(&mut one);
    let mut two = packed::<W>(blocks[2]);
    mix_columns_2(&mut two);
    let mut three = packed::<W>(blocks[3]);
    mix_columns_3(&mut three);
    [
        unpacked(&none),
        unpacked(&one),
        unpacked(&two),
        unpacked(&three),
    ]
}

// Undoes `mixes`.
fn mixes_back<W: Word>(blocks: [Block; 4]) -> [Block; 4] {
    let mut none = packed::<W>(blocks[0]);
    inv_mix_columns_0(&mut none);
    let mut one = packed::<W>(blocks[1]);
    inv_mix_columns_1(&mut one);
    let mut two = packed::<W>(blocks[2]);
    inv_mix_columns_2(&mut two);
    let mut three = packed::<W>(blocks[3]);
    inv_mix_columns_3(&mut three);
    [
        unpacked(&none),
        unpacked(&one),
        unpacked(&two),
        unpacked(&three),
    ]
}

// The sum of a block and a round key.
fn added<W: Word>(block: Block, key: Block) -> Block {
    let mut planes = packed::<W>(block);
    add_round_key(&mut planes, &packed::<W>(key));
    unpacked(&planes)
}

// The block of the last slot.
fn last_of<W: Word>(planes: &[W; 8]) -> Block {
    let blocks = W::inv_bitslice(planes);
    let mut last = [0; 16];
    for i in 0..W::Blocks::LEN {
        last = blocks.get(i);
    }
    last
}

// The round key after a key of 16 bytes, in words that stand after the key's and in planes of its
// own.
fn next_round_key<W: Word>(key: Block) -> [Block; 2] {
    let mut words = [W::zero(); 16];
    let before = W::in_every_slot(&key);
    store_round_key(&mut words, 0, &before);
    let mut planes = before;
    sub_bytes(&mut planes, &mut Layers::new());
    sub_bytes_nots(&mut planes);
    add_round_constant_bit(&mut planes, 0);
    store_round_key(&mut words, 1, &planes);
    xor_columns(&mut words, 8, 8, W::ror_distance(1, 3));
    let own = summed_columns(&before, &planes, W::ror_distance(1, 3));
    [last_of(&round_key(&words, 1)), last_of(&own)]
}

// The last two columns of one block and the first two of another.
fn straddled<W: Word>(left: &Block, right: &Block) -> Block {
    last_of(&straddle_columns(&W::in_every_slot(left), &W::in_every_slot(right)))
}

// The zero block with one bit of a round constant added.
fn constant<W: Word>(bit: usize) -> Block
    requires { bit < 8 }
{
    let mut planes = [W::zero(); 8];
    add_round_constant_bit(&mut planes, bit);
    last_of(&planes)
}

struct ShiftedRows;

impl WordTrial for ShiftedRows {
    fn passes<W: Word>(&self) -> bool {
        let shifted = [SHIFTED, SHIFTED_TWICE, SHIFTED_THRICE];
        shifts::<W>(SUBSTITUTED) == shifted && shifts_back::<W>(shifted) == [SUBSTITUTED; 3]
    }
}

#[test]
fn shifts_rows(rt: HostRuntime) {
    try_words(&rt, &ShiftedRows);
}

struct MixedColumns;

impl WordTrial for MixedColumns {
    fn passes<W: Word>(&self) -> bool {
        mixes::<W>(DEFERRED) == DEFERRED_MIXED && mixes_back::<W>(DEFERRED_MIXED) == DEFERRED
    }
}

#[test]
fn mixes_columns(rt: HostRuntime) {
    try_words(&rt, &MixedColumns);
}

struct Adds;

impl WordTrial for Adds {
    fn passes<W: Word>(&self) -> bool {
        added::<W>(MIXED, round_key_1()) == ADDED
    }
}

#[test]
fn adds_a_round_key(rt: HostRuntime) {
    try_words(&rt, &Adds);
    assert!(rt; sum_of_blocks(&MIXED, &round_key_1()) == ADDED);
}

struct MakesRoundKeys;

impl WordTrial for MakesRoundKeys {
    fn passes<W: Word>(&self) -> bool {
        next_round_key::<W>(KEY_A1) == [round_key_1(); 2]
    }
}

#[test]
fn makes_a_round_key(rt: HostRuntime) {
    try_words(&rt, &MakesRoundKeys);
}

struct Straddles;

impl WordTrial for Straddles {
    fn passes<W: Word>(&self) -> bool {
        let mut want = [0; 16];
        for i in 0..8usize {
            want[i] = KEY_A1[8 + i];
            want[8 + i] = round_key_1()[i];
        }
        straddled::<W>(&KEY_A1, &round_key_1()) == want
    }
}

#[test]
fn straddles_columns(rt: HostRuntime) {
    try_words(&rt, &Straddles);
}

struct Constants;

impl WordTrial for Constants {
    fn passes<W: Word>(&self) -> bool {
        let values = [0x01, 0x02, 0x04, 0x08, 0x10, 0x20, 0x40, 0x80];
        let mut right = true;
        for bit in 0..8usize {
            let mut want = [0u8; 16];
            want[13] = values[bit];
            right &= constant::<W>(bit) == want;
        }
        right
    }
}

#[test]
fn adds_each_bit_of_a_constant(rt: HostRuntime) {
    try_words(&rt, &Constants);
}

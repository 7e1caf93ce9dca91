//! Each call of a cipher on a round that the standard works out.

ghost use Rattle.std.specs.Prelude.{◌<◌, ◌≤◌, length};

use super::closures::{Five, OneAndBatch};
use super::one_round::{BorrowedRound, OneRound};
use aes_cipher::cipher::{
    AlgorithmName, Block, BlockCipherDecBackend, BlockCipherDecClosure, BlockCipherDecrypt,
    BlockCipherEncBackend, BlockCipherEncClosure, BlockCipherEncrypt, BlockSizeUser, NotEqualError,
    ParBlocksSizeUser,
};
use standards::expansions::ROUND_KEYS_A1;
use std::fmt;
use std::test::Fail;

// FIPS 197, appendix B: the state that round 9 adds its round key to, and the output.
const INPUT: Block = [
    0x47, 0x37, 0x94, 0xed, 0x40, 0xd4, 0xe4, 0xa5, 0xa3, 0x70, 0x3a, 0xa6, 0x4c, 0x9f, 0x42, 0xbc,
];

const OUTPUT: Block = [
    0x39, 0x25, 0x84, 0x1d, 0x02, 0xdc, 0x09, 0xfb, 0xdc, 0x11, 0x85, 0x97, 0x19, 0x6a, 0x0b, 0x32,
];

// The cipher that is left of that example, which has round keys 9 and 10 of the key of appendix
// A.1.
pub(crate) fn rest_of_the_example() -> OneRound {
    OneRound {
        first: ROUND_KEYS_A1[9].to_be_bytes(),
        last: ROUND_KEYS_A1[10].to_be_bytes(),
    }
}

// Five blocks that differ, the example's among them.
fn five() -> [Block; 5] {
    [[1; 16], INPUT, [2; 16], [3; 16], OUTPUT]
}

// Each block, encrypted by itself.
fn encrypted_one_by_one(blocks: [Block; 5]) -> [Block; 5] {
    let cipher = rest_of_the_example();
    let mut done = blocks;
    for i in 0..5 {
        cipher.encrypt_block(&mut done[i]);
    }
    done
}

#[test]
fn works_out_the_example(rt: HostRuntime) {
    let cipher = rest_of_the_example();
    assert!(rt; OneRound::BLOCK_SIZE == 16);
    let mut block = INPUT;
    cipher.encrypt_block(&mut block);
    assert!(rt; block == OUTPUT);
    cipher.decrypt_block(&mut block);
    assert!(rt; block == INPUT);
    let mut other = [0xee; 16];
    cipher.encrypt_block_b2b(&INPUT, &mut other);
    assert!(rt; other == OUTPUT);
    cipher.decrypt_block_b2b(&OUTPUT, &mut other);
    assert!(rt; other == INPUT);
}

#[test]
fn works_on_slices_block_by_block(rt: HostRuntime) {
    let cipher = rest_of_the_example();
    let wanted = encrypted_one_by_one(five());
    let mut blocks = five();
    cipher.encrypt_blocks(&mut blocks);
    assert!(rt; blocks == wanted);
    assert!(rt; blocks[1] == OUTPUT);
    cipher.decrypt_blocks(&mut blocks);
    assert!(rt; blocks == five());
    let mut output = [[0xee; 16]; 5];
    assert!(rt; cipher.encrypt_blocks_b2b(&five(), &mut output) == Ok(()));
    assert!(rt; output == wanted);
    assert!(rt; cipher.decrypt_blocks_b2b(&wanted, &mut output) == Ok(()));
    assert!(rt; output == five());
}

// Blocks that are input, and as many that show whether they were written.
const SENT: [Block; 3] = [INPUT, [1; 16], OUTPUT];

const UNWRITTEN: [Block; 3] = [[0xee; 16]; 3];

// Whether an answer and an output are right where the lengths were equal or not.
fn is_right(
    answer: Result<(), NotEqualError>,
    output: &[Block; 3],
    equal: bool,
    length: usize,
) -> bool {
    answer.is_ok() == equal && (*output == UNWRITTEN) == (!equal || length == 0)
}

// Whether the lengths of input and output decide what encryption answers and writes.
fn encrypts_equal_lengths(from: usize, to: usize) -> bool
    requires from { from ≤ 3 }
    requires to { to ≤ 3 }
{
    let mut output = UNWRITTEN;
    let (written, _) = output.split_at_mut(to);
    let answer = rest_of_the_example().encrypt_blocks_b2b(&SENT[..from], written);
    is_right(answer, &output, from == to, to)
}

// Whether the lengths of input and output decide what decryption answers and writes.
fn decrypts_equal_lengths(from: usize, to: usize) -> bool
    requires from { from ≤ 3 }
    requires to { to ≤ 3 }
{
    let mut output = UNWRITTEN;
    let (written, _) = output.split_at_mut(to);
    let answer = rest_of_the_example().decrypt_blocks_b2b(&SENT[..from], written);
    is_right(answer, &output, from == to, to)
}

#[test]
fn leaves_the_output_of_another_length(rt: HostRuntime) {
    for from in 0..4usize {
        for to in 0..4usize {
            assert!(rt; encrypts_equal_lengths(from, to), "{from} to {to}");
            assert!(rt; decrypts_equal_lengths(from, to), "{from} to {to}");
        }
    }
}

#[test]
fn lends_closures_a_backend(rt: HostRuntime) {
    let cipher = rest_of_the_example();
    assert!(rt; BorrowedRound::PAR_BLOCKS == 3);
    let mut closure = Five { blocks: five() };
    cipher.encrypt_with_backend(&mut closure);
    assert!(rt; closure.blocks == encrypted_one_by_one(five()));
    let mut closure = Five { blocks: five() };
    cipher.encrypt_with_backend_for(5, &mut closure);
    assert!(rt; closure.blocks == encrypted_one_by_one(five()));
    let mut closure = OneAndBatch {
        one: OUTPUT,
        batch: [[4; 16], OUTPUT, [5; 16]],
        fits: false,
    };
    cipher.decrypt_with_backend(&mut closure);
    assert!(rt; closure.one == INPUT);
    assert!(rt; closure.fits);
    assert!(rt; closure.batch[1] == INPUT);
    cipher.encrypt_blocks(&mut closure.batch);
    assert!(rt; closure.batch == [[4; 16], OUTPUT, [5; 16]]);
    let mut closure = OneAndBatch {
        one: OUTPUT,
        batch: [OUTPUT; 3],
        fits: false,
    };
    cipher.decrypt_with_backend_for(4, &mut closure);
    assert!(rt; closure.one == INPUT);
    assert!(rt; closure.batch == [INPUT; 3]);
}

// A name of an algorithm, as text.
struct Name;

impl fmt::Display for Name {
    fn fmt<W: fmt::Write>(&self, f: &mut fmt::Formatter<W>) -> fmt::Result {
        OneRound::write_alg_name(f)
    }
}

#[test]
fn writes_its_name(rt: HostRuntime) -> Result<(), Fail> {
    let text = format!(in rt.alloc(); "{}", Name)?;
    assert!(rt; text.as_str() == "OneRound");
    Ok(())
}

// Encrypts blocks and decrypts them again, by ciphers that are handed over.
fn encrypt_and_decrypt<E: BlockCipherEncrypt + Drop, D: BlockCipherDecrypt + Drop>(
    encrypting: E,
    decrypting: D,
    blocks: &mut [Block; 5],
) -> [Block; 5] {
    encrypting.encrypt_blocks(blocks);
    let encrypted = *blocks;
    decrypting.decrypt_blocks(blocks);
    encrypted
}

#[test]
fn works_where_it_is_lent(rt: HostRuntime) {
    let cipher = rest_of_the_example();
    let wanted = encrypted_one_by_one(five());
    let mut blocks = five();
    assert!(rt; encrypt_and_decrypt(&cipher, &cipher, &mut blocks) == wanted);
    assert!(rt; blocks == five());
    let lent = &cipher;
    let mut block = INPUT;
    BlockCipherEncrypt::encrypt_block(&lent, &mut block);
    assert!(rt; block == OUTPUT);
    BlockCipherDecrypt::decrypt_block(&lent, &mut block);
    assert!(rt; block == INPUT);
    let mut closure = Five { blocks: five() };
    BlockCipherEncrypt::encrypt_with_backend(&lent, &mut closure);
    assert!(rt; closure.blocks == wanted);
    let mut closure = Five { blocks: five() };
    BlockCipherEncrypt::encrypt_with_backend_for(&lent, 5, &mut closure);
    assert!(rt; closure.blocks == wanted);
    let mut closure = OneAndBatch {
        one: OUTPUT,
        batch: [[4; 16], OUTPUT, [5; 16]],
        fits: false,
    };
    BlockCipherDecrypt::decrypt_with_backend(&lent, &mut closure);
    assert!(rt; closure.one == INPUT);
    let mut closure = OneAndBatch {
        one: OUTPUT,
        batch: [OUTPUT; 3],
        fits: false,
    };
    BlockCipherDecrypt::decrypt_with_backend_for(&lent, 4, &mut closure);
    assert!(rt; closure.batch == [INPUT; 3]);
}

#[test]
fn lends_a_backend_on(rt: HostRuntime) {
    let cipher = rest_of_the_example();
    let backend = &BorrowedRound { cipher: &cipher };
    let mut closure = Five { blocks: five() };
    closure.call(&backend);
    assert!(rt; closure.blocks == encrypted_one_by_one(five()));
    let mut batch = [INPUT, [6; 16], [7; 16]];
    BlockCipherEncBackend::encrypt_first_blocks(&backend, 1, &mut batch);
    assert!(rt; batch[0] == OUTPUT);
    let mut batch = [[6; 16], INPUT, [7; 16]];
    backend.encrypt_first_blocks(2, &mut batch);
    assert!(rt; batch[1] == OUTPUT);
    let mut closure = OneAndBatch {
        one: OUTPUT,
        batch: [[4; 16], OUTPUT, [5; 16]],
        fits: false,
    };
    closure.call(&backend);
    assert!(rt; closure.one == INPUT);
    assert!(rt; closure.fits);
    assert!(rt; closure.batch[1] == INPUT);
}

//! The words after a command: bytes in hexadecimal digits of either case.
ghost use Rattle.std.specs.Prelude.{◌≡◌, ◌≤◌, ◌*◌, true, is_ok, length, take, MatchResult};
ghost use Rattle.std.specs.List.{list_all};
ghost use Rattle.hex.specs.Hex.{decode_of, is_hex_digit};
ghost use Rattle.aes_kat.specs.Reply.{block_operand, blocks_operand, key_operand};
ghost use Rattle.aes_kat.specs.Private.Keys.{key_bytes};
ghost use Rattle.aes_kat.specs.Private.Steps.{decoded};

use crate::faults::Fault;
use crate::keys::Key;
use aes::Block;

// The number of bytes of a block.
const BLOCK_SIZE: usize = 16;

// The most blocks that a line may have.
pub(crate) const MOST_BLOCKS: usize = 64;

// Whether a byte is a hexadecimal digit.
fn is_digit(byte: u8) -> bool
    ensures { result ≡ is_hex_digit byte }
{
    matches!(byte, b'0'..=b'9' | b'a'..=b'f' | b'A'..=b'F')
}

// Whether every byte of a word is a digit. It reads all bytes. To stop early it would branch at
// each digit, and no processor foresees which of the digits are letters.
#[tactic(auto, using(std::proofs::lemmas::List::Folds::list_all_more))]
fn are_digits(word: &[u8]) -> bool
    ensures { result ≡ list_all is_hex_digit word.now }
{
    let mut right = true;
    for i in 0..word.len() {
        right &= is_digit(word[i]);
    }
    right
}

// Whether a word is pairs of digits.
#[tactic(auto, using(crate::proofs::OperandBytes::all_digits))]
pub(crate) fn is_hex(word: &[u8]) -> bool
    ensures { result ≡ is_ok (decode_of word.now) }
{
    word.len() % 2 == 0 && are_digits(word)
}

// The bytes of a word, which has two digits for each.
fn bytes_of<const SIZE: usize>(word: &[u8]) -> [u8; SIZE]
    requires digits { is_ok (decode_of word.now) ≡ true }
    requires sized { length word.now ≡ 2 * SIZE }
    ensures { result ≡ decoded word.now }
{
    let mut bytes = [0u8; SIZE];
    hex::decode_to_slice(word, &mut bytes).unwrap();
    bytes
}

// The key of a word.
#[tactic(auto, using(crate::proofs::OperandBytes::length_decoded))]
pub(crate) fn key_operand(word: &[u8]) -> Result<Key, Fault>
    requires { is_ok (decode_of word.now) ≡ true }
    ensures { MatchResult result
        (λ key. key_operand (decoded word.now) ≡ Ok (key_bytes key))
        (λ fault. key_operand (decoded word.now) ≡ Err fault) }
{
    // Two digits are a byte.
    match word.len() {
        32 => Ok(Key::Bits128(bytes_of(word))),
        48 => Ok(Key::Bits192(bytes_of(word))),
        64 => Ok(Key::Bits256(bytes_of(word))),
        _ => Err(Fault::Key),
    }
}

// The block of a word.
#[tactic(auto, using(crate::proofs::OperandBytes::length_decoded))]
pub(crate) fn block_operand(word: &[u8]) -> Result<Block, Fault>
    requires { is_ok (decode_of word.now) ≡ true }
    ensures { result ≡ block_operand (decoded word.now) }
{
    if word.len() / 2 != BLOCK_SIZE {
        return Err(Fault::Block);
    }
    Ok(bytes_of(word))
}

// Decodes the blocks of a word to the front of `blocks`, and returns how many they are.
#[tactic(auto, using(crate::proofs::OperandBytes::length_decoded))]
pub(crate) fn blocks_operand(word: &[u8], blocks: &mut [Block; MOST_BLOCKS]) -> Result<usize, Fault>
    requires { is_ok (decode_of word.now) ≡ true }
    ensures { MatchResult result
        (λ count. (count ≤ 64) × (blocks_operand (decoded word.now) ≡ Ok (take count blocks.new)))
        (λ fault. blocks_operand (decoded word.now) ≡ Err fault) }
{
    let mut buffer = [0u8; BLOCK_SIZE * MOST_BLOCKS];
    let size = word.len() / 2;
    if size % BLOCK_SIZE != 0 || size > buffer.len() {
        return Err(Fault::Block);
    }
    let bytes = &mut buffer[..size];
    hex::decode_to_slice(word, bytes).unwrap();
    let (whole, _) = bytes.as_chunks::<BLOCK_SIZE>();
    let count = whole.len();
    blocks[..count].copy_from_slice(whole);
    Ok(count)
}

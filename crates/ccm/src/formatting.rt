//! The blocks of a message that its lengths and its nonce determine (SP 800-38C, appendix A).

ghost use Rattle.std.specs.Prelude.{◌≡◌, ◌↔◌, ◌+◌, ◌<◌, ◌≤◌, ◌∷◌, ◌++◌, length, replicate};
ghost use Rattle.std.specs.Prelude.{IsTrue, IsErrOf, IsOk, ◌^◌, ◌-◌};
ghost use Rattle.ccm.specs.Ccm.{counter_block, encoded_length, first_block, flags, Fits};
ghost use Rattle.ccm.specs.Ccm.{IsNonceLength};
ghost use Rattle.ccm.specs.Ccm.{IsTagLength};

use crate::errors::InvalidMessage;
use aes_cipher::cipher::Block;

// The least and the most bytes of a tag.
const SHORTEST_TAG: usize = 4;

const LONGEST_TAG: usize = 16;

// The least and the most bytes of a nonce.
const SHORTEST_NONCE: usize = 7;

const LONGEST_NONCE: usize = 13;

// The least length of additional data that is written in six bytes, and the least that is written
// in ten (A.2.2).
const IN_SIX_BYTES: u64 = (1 << 16) - (1 << 8);

const IN_TEN_BYTES: u64 = 1 << 32;

// What is added to the flags of the first block if there are additional data (A.2.1).
const WITH_ADDITIONAL: u8 = 64;

// Whether the length of a text of this many bytes fits into 15 - n bytes, where the nonce has n.
#[tactic(auto, using(crate::proofs::Bytes::quotient_zero))]
fn fits(nonce: usize, text: usize) -> bool
    requires shortest { 7 ≤ nonce }
    requires longest { nonce ≤ 13 }
    ensures { IsTrue result ↔ Fits nonce text }
{
    nonce == SHORTEST_NONCE || (text as u64) >> (8 * (15 - nonce)) == 0
}

/// Returns the first reason why a message can't have such lengths, if there is one.
pub(crate) fn check(nonce: usize, text: usize, tag: usize) -> Result<(), InvalidMessage>
    ensures tag { IsErrOf result InvalidMessage.TagLength ↔ ¬ IsTagLength tag }
    ensures nonce { IsErrOf result InvalidMessage.NonceLength
        ↔ IsTagLength tag × ¬ IsNonceLength nonce }
    ensures long { IsErrOf result InvalidMessage.TooLong
        ↔ IsTagLength tag × (IsNonceLength nonce × ¬ Fits nonce text) }
    ensures done { IsOk result ↔ IsTagLength tag × (IsNonceLength nonce × Fits nonce text) }
{
    if tag < SHORTEST_TAG || tag > LONGEST_TAG || tag % 2 != 0 {
        return Err(InvalidMessage::TagLength);
    }
    if nonce < SHORTEST_NONCE || nonce > LONGEST_NONCE {
        return Err(InvalidMessage::NonceLength);
    }
    if !fits(nonce, text) {
        return Err(InvalidMessage::TooLong);
    }
    Ok(())
}

// A byte, a nonce, and zeros that fill the block.
fn framed(first: u8, nonce: &[u8]) -> Block
    requires shortest { 7 ≤ length nonce.now }
    requires longest { length nonce.now ≤ 13 }
    ensures { result ≡ first ∷ nonce.now ++ replicate (15 - length nonce.now) 0 }
{
    let mut block = [0; 16];
    block[0] = first;
    block[1..nonce.len() + 1].copy_from_slice(nonce);
    block
}

/// Returns the first counter block of a nonce, Ctr_0 (A.3).
pub(crate) fn first_counter(nonce: &[u8]) -> Block
    requires shortest { 7 ≤ length nonce.now }
    requires longest { length nonce.now ≤ 13 }
    ensures { result ≡ counter_block nonce.now 0 }
{
    framed((14 - nonce.len()) as u8, nonce)
}

// The flags of the first block (A.2.1).
#[tactic(auto, unfolding(crate::specs::Ccm::flags))]
fn flags(nonce: usize, tag: usize, additional: usize) -> u8
    requires shortest { 7 ≤ nonce }
    requires longest { nonce ≤ 13 }
    requires tag { tag ≤ 16 }
    ensures { result ≡ flags nonce tag additional }
{
    let sizes = (8 * (tag.saturating_sub(2) / 2) + (14 - nonce)) as u8;
    if additional == 0 {
        sizes
    } else {
        WITH_ADDITIONAL + sizes
    }
}

/// Returns the first block that is authenticated, B_0 (A.2.1).
pub(crate) fn first_block(nonce: &[u8], tag: usize, additional: usize, text: usize) -> Block
    requires shortest { 7 ≤ length nonce.now }
    requires longest { length nonce.now ≤ 13 }
    requires tag { tag ≤ 16 }
    ensures { result ≡ first_block nonce.now tag additional text }
{
    let bytes = (text as u64).to_be_bytes();
    let mut block = framed(flags(nonce.len(), tag, additional), nonce);
    block[nonce.len() + 1..].copy_from_slice(&bytes[nonce.len() - 7..]);
    block
}

/// Writes the length of additional data into an empty block, and returns how many bytes it takes
/// (A.2.2).
pub(crate) fn put_length(additional: u64, block: &mut Block) -> usize
    requires some { 0 < additional }
    requires empty { block.old ≡ replicate 16 0 }
    ensures size { result ≡ length (encoded_length additional) }
    ensures some { 0 < result }
    ensures few { result ≤ 10 }
    ensures length { block.new ≡ encoded_length additional ++ replicate (16 - result) 0 }
{
    let bytes = additional.to_be_bytes();
    if additional < IN_SIX_BYTES {
        block[..2].copy_from_slice(&bytes[6..]);
        return 2;
    }
    block[0] = 0xff;
    if additional < IN_TEN_BYTES {
        block[1] = 0xfe;
        block[2..6].copy_from_slice(&bytes[4..]);
        return 6;
    }
    block[1] = 0xff;
    block[2..10].copy_from_slice(&bytes);
    10
}

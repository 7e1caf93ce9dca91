//! The reply to one line.
ghost use Rattle.std.specs.Prelude.{◌≡◌, ◌≤◌, [], true, is_ok, take};
ghost use Rattle.hex.specs.Hex.{decode_of};
ghost use Rattle.aes_kat.specs.Reply.{answer_of, outcome_of, reply_to, is_fault};
ghost use Rattle.aes_kat.specs.Private.Steps.{decoded, IsAnswered};

use crate::command_names::Command;
use crate::digits::{write_block, write_joined, write_spaced};
use crate::faults::Fault;
use crate::keys::Key;
use crate::operands::{MOST_BLOCKS, block_operand, blocks_operand, is_hex, key_operand};
use crate::parsing::{Request, parse};
use aes::expansion::{expand_128, expand_192, expand_256};
use aes::hazmat;

// As many bytes as the longest reply has: the digits of 64 blocks.
pub(crate) type ReplyBuffer = [u8; 2048];

// Answers `enc KEY BLOCKS`.
#[tactic(auto, unfolding(crate::specs::Reply::answer_of))]
fn answer_enc(key: &[u8], blocks: &[u8], out: &mut ReplyBuffer) -> Result<usize, Fault>
    requires key_digits { is_ok (decode_of key.now) ≡ true }
    requires block_digits { is_ok (decode_of blocks.now) ≡ true }
    ensures { IsAnswered (answer_of Command.Encrypt (decoded key.now) (decoded blocks.now))
        result out.new }
{
    let key = key_operand(key)?;
    let mut buffer = [[0u8; 16]; MOST_BLOCKS];
    let count = blocks_operand(blocks, &mut buffer)?;
    key.encrypt(&mut buffer[..count]);
    Ok(write_joined(&buffer[..count], out))
}

// Answers `dec KEY BLOCKS`.
#[tactic(auto, unfolding(crate::specs::Reply::answer_of))]
fn answer_dec(key: &[u8], blocks: &[u8], out: &mut ReplyBuffer) -> Result<usize, Fault>
    requires key_digits { is_ok (decode_of key.now) ≡ true }
    requires block_digits { is_ok (decode_of blocks.now) ≡ true }
    ensures { IsAnswered (answer_of Command.Decrypt (decoded key.now) (decoded blocks.now))
        result out.new }
{
    let key = key_operand(key)?;
    let mut buffer = [[0u8; 16]; MOST_BLOCKS];
    let count = blocks_operand(blocks, &mut buffer)?;
    key.decrypt(&mut buffer[..count]);
    Ok(write_joined(&buffer[..count], out))
}

// Answers `sched KEY`.
#[tactic(auto, unfolding(crate::specs::Reply::answer_of))]
fn answer_sched(key: &[u8], out: &mut ReplyBuffer) -> Result<usize, Fault>
    requires { is_ok (decode_of key.now) ≡ true }
    ensures { IsAnswered (answer_of Command.Schedule (decoded key.now) []) result out.new }
{
    Ok(match key_operand(key)? {
        Key::Bits128(key) => write_spaced(&expand_128(&key), out),
        Key::Bits192(key) => write_spaced(&expand_192(&key), out),
        Key::Bits256(key) => write_spaced(&expand_256(&key), out),
    })
}

// Answers what a line asks for.
#[tactic(auto, unfolding(crate::specs::Reply::answer_of))]
fn answer_asked(asked: &Request<'_>, out: &mut ReplyBuffer) -> Result<usize, Fault>
    requires first_digits { is_ok (decode_of asked.now.first.now) ≡ true }
    requires second_digits { is_ok (decode_of asked.now.second.now) ≡ true }
    ensures { IsAnswered
        (answer_of asked.now.command (decoded asked.now.first.now) (decoded asked.now.second.now))
        result out.new }
{
    match asked.command {
        Command::Encrypt => answer_enc(asked.first, asked.second, out),
        Command::Decrypt => answer_dec(asked.first, asked.second, out),
        Command::Round => {
            let mut block = block_operand(asked.first)?;
            let key = block_operand(asked.second)?;
            hazmat::cipher_round(&mut block, &key);
            Ok(write_block(&block, 0, out))
        }
        Command::InverseRound => {
            let mut block = block_operand(asked.first)?;
            let key = block_operand(asked.second)?;
            hazmat::equiv_inv_cipher_round(&mut block, &key);
            Ok(write_block(&block, 0, out))
        }
        Command::Mix => {
            let mut block = block_operand(asked.first)?;
            hazmat::mix_columns(&mut block);
            Ok(write_block(&block, 0, out))
        }
        Command::InverseMix => {
            let mut block = block_operand(asked.first)?;
            hazmat::inv_mix_columns(&mut block);
            Ok(write_block(&block, 0, out))
        }
        Command::Schedule => answer_sched(asked.first, out),
    }
}

// Writes the answer to a line at the front of `out`.
#[tactic(auto, unfolding(crate::specs::Reply::outcome_of))]
fn answer(line: &[u8], out: &mut ReplyBuffer) -> Result<usize, Fault>
    ensures { IsAnswered (outcome_of line.now) result out.new }
{
    let asked = parse(line)?;
    if !is_hex(asked.first) || !is_hex(asked.second) {
        return Err(Fault::Hex);
    }
    answer_asked(&asked, out)
}

/// Writes the reply to a line, without its line end, at the front of `out`, which is as long as the
/// longest reply.
///
/// Returns the length of the reply, and whether it reports a fault.
#[tactic(auto, unfolding(crate::specs::Reply::reply_to, crate::specs::Reply::is_fault))]
pub fn reply(line: &[u8], out: &mut ReplyBuffer) -> (usize, bool)
    ensures fits { result.0 ≤ 2048 }
    ensures text { take result.0 out.new ≡ reply_to line.now }
    ensures fault { result.1 ≡ is_fault line.now }
{
    match answer(line, out) {
        Ok(length) => (length, false),
        Err(fault) => {
            let message = fault.message();
            out[..message.len()].copy_from_slice(message);
            (message.len(), true)
        }
    }
}

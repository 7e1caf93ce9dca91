//! Runs: from the bytes of a reader to the bytes of a writer.
ghost use Rattle.std.specs.Prelude.{◌≡◌, ◌++◌, ◌∷◌, [], OnOk, OnErr, IfOk, vec_len};
ghost use Rattle.std.specs.Io.KnownBytes.{Appends};
ghost use Rattle.aes_kat.specs.Lines.{Lacks};
ghost use Rattle.aes_kat.specs.Status.{status_of};
ghost use Rattle.aes_kat.specs.Reply.{reply_to, is_fault};
ghost use Rattle.aes_kat.specs.Answers.{answers_to, has_fault, AppendsBeginning, Runs};
ghost use Rattle.aes_kat.specs.Private.Progress.{Gathers, Advances, StopsWithin};

use crate::replies::{ReplyBuffer, reply};
use crate::split::split_once;
use std::alloc::{AllocError, Allocator, Global};
use std::io;
use std::io::{Read, Write};

/// Reading, writing or an allocation failed.
#[derive(Debug, Clone, Copy, PartialEq, Eq)]
pub struct Failed;

impl From<AllocError> for Failed {
    fn from(_: AllocError) -> Failed {
        Failed
    }
}

impl From<io::Error> for Failed {
    fn from(_: io::Error) -> Failed {
        Failed
    }
}

const LINE_END: u8 = b'\n';

// How many bytes one read may give.
const CHUNK: usize = 64 * 1024;

// Writes all of `bytes`. It fails if a write takes no byte, and also if a write was interrupted.
fn write_whole<W: Write>(output: &mut W, bytes: &[u8]) -> Result<(), Failed>
    ensures all { OnOk result (Appends (W.contents output.old) (W.contents output.new) bytes.now) }
    ensures beginning { OnErr result
        (AppendsBeginning (W.contents output.old) (W.contents output.new) bytes.now) }
{
    let mut rest = bytes;
    while !rest.is_empty() {
        let count = output.write(rest)?;
        if count == 0 {
            return Err(Failed);
        }
        rest = &rest[count..];
    }
    Ok(())
}

// Appends the reply to a line and its line end to `answers`.
fn append_reply_line<A: Allocator>(line: &[u8], answers: &mut Vec<u8, A>) -> Result<bool, Failed>
    ensures text { OnOk result (answers.new.items
        ≡ answers.old.items ++ (reply_to line.now ++ 10 ∷ [])) }
    ensures fault { IfOk result (λ fault. fault ≡ is_fault line.now) }
{
    let mut text: ReplyBuffer = [0; 2048];
    let (length, fault) = reply(line, &mut text);
    answers.extend_from_slice(&text[..length])?;
    answers.extend_from_slice(&[LINE_END])?;
    Ok(fault)
}

// Answers each line that ends in `chunk`. `line` has the beginning of the first line, and
// afterwards the beginning of the line after the last answered one.
fn gather<A: Allocator>(
    chunk: &[u8],
    line: &mut Vec<u8, A>,
    answers: &mut Vec<u8, A>,
) -> Result<bool, Failed>
    requires { Lacks 10 line.old.items }
    ensures begun { OnOk result (Lacks 10 line.new.items) }
    ensures gathers { IfOk result (λ fault. Gathers answers.old.items answers.new.items
        (line.old.items ++ chunk.now) line.new.items fault) }
{
    let mut rest = chunk;
    let mut fault = false;
    while let Some((front, after)) = split_once(rest, LINE_END) {
        line.extend_from_slice(front)?;
        fault |= append_reply_line(line.as_slice(), answers)?;
        line.clear();
        rest = after;
    }
    line.extend_from_slice(rest)?;
    Ok(fault)
}

// Writes the answers to the lines that end in `chunk`.
fn feed<A: Allocator, W: Write>(
    chunk: &[u8],
    line: &mut Vec<u8, A>,
    answers: &mut Vec<u8, A>,
    output: &mut W,
) -> Result<bool, Failed>
    requires { Lacks 10 line.old.items }
    ensures begun { OnOk result (Lacks 10 line.new.items) }
    ensures written { IfOk result (λ fault. Advances (W.contents output.old) (W.contents output.new)
        (line.old.items ++ chunk.now) line.new.items fault) }
    ensures stopped { OnErr result (StopsWithin (W.contents output.old) (W.contents output.new)
        (line.old.items ++ chunk.now)) }
{
    answers.clear();
    let fault = gather(chunk, line, answers)?;
    write_whole(output, answers.as_slice())?;
    Ok(fault)
}

// Answers what follows the last line end of the input.
#[tactic(auto, using(crate::proofs::Progress::rest_calls))]
fn answer_rest<A: Allocator>(line: &[u8], answers: &mut Vec<u8, A>) -> Result<bool, Failed>
    requires { Lacks 10 line.now }
    ensures text { OnOk result (answers.new.items ≡ answers.old.items ++ answers_to line.now) }
    ensures fault { IfOk result (λ fault. fault ≡ has_fault line.now) }
{
    if line.is_empty() {
        return Ok(false);
    }
    append_reply_line(line, answers)
}

// Writes the answer to what follows the last line end of the input, and flushes.
fn finish<A: Allocator, W: Write>(
    line: &[u8],
    answers: &mut Vec<u8, A>,
    output: &mut W,
) -> Result<bool, Failed>
    requires { Lacks 10 line.now }
    ensures written { OnOk result
        (Appends (W.contents output.old) (W.contents output.new) (answers_to line.now)) }
    ensures fault { IfOk result (λ fault. fault ≡ has_fault line.now) }
    ensures stopped { OnErr result
        (AppendsBeginning (W.contents output.old) (W.contents output.new) (answers_to line.now)) }
{
    answers.clear();
    let fault = answer_rest(line, answers)?;
    write_whole(output, answers.as_slice())?;
    output.flush()?;
    Ok(fault)
}

// A buffer of `size` zeros. No clause says that they are zeros, since a proof that reads them all
// needs gigabytes.
fn zeros<A: Allocator>(alloc: A, size: usize) -> Result<Vec<u8, A>, Failed>
    ensures { IfOk result (λ room. vec_len room ≡ size) }
{
    Ok(Vec::from_elem(alloc, 0u8, size)?)
}

/// Answers each line of the input to its end, and returns whether some line was invalid.
///
/// The answers to the lines that end in one read are written before the next read.
///
/// # Errors
///
/// `Failed` if a read or a write fails, if an allocation fails, or if `u64::MAX` reads don't reach
/// the end. An interrupted read or write fails, and so does a write that takes no byte. What was
/// written is then a beginning of the answers.
pub fn run<R: Read, W: Write>(alloc: Global, input: &mut R, output: &mut W) -> Result<bool, Failed>
    ensures { Runs result (R.remaining input.old) (R.remaining input.new)
        (W.contents output.old) (W.contents output.new) }
{
    run_in(alloc, input, output)
}

/// Answers each line of the input to its end as [`run`] does, over any memory.
///
/// # Errors
///
/// Those of `run`.
pub fn run_in<A: Allocator, R: Read, W: Write>(
    alloc: A,
    input: &mut R,
    output: &mut W,
) -> Result<bool, Failed>
    ensures { Runs result (R.remaining input.old) (R.remaining input.new)
        (W.contents output.old) (W.contents output.new) }
{
    let mut room = zeros(&alloc, CHUNK)?;
    let chunk = room.as_mut_slice();
    let mut line = Vec::new(&alloc);
    let mut answers = Vec::new(&alloc);
    let mut fault = false;
    'reads: for _ in 0..u64::MAX {
        let count = input.read(chunk)?;
        if count == 0 {
            let last = finish(line.as_slice(), &mut answers, output)?;
            return Ok(fault | last);
        }
        let more = feed(&chunk[..count], &mut line, &mut answers, output)?;
        fault |= more;
    }
    Err(Failed)
}

/// Returns the program's exit status: 0 if every line was answered, 1 if some line was invalid, 2
/// if the run failed.
pub fn status(answer: &Result<bool, Failed>) -> u8
    ensures { result ≡ status_of answer.now }
{
    match answer {
        Ok(false) => 0,
        Ok(true) => 1,
        Err(Failed) => 2,
    }
}

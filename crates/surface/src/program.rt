//! The engine of the program.

use aes_kat::{Failed, reply, run, status};
use std::alloc::Global;
use std::io::{Read, Write};

/// Answers every line, and returns the exit status.
pub fn run_to_status<R: Read, W: Write>(alloc: Global, input: &mut R, output: &mut W) -> u8 {
    let answer: Result<bool, Failed> = run::<R, W>(alloc, input, output);
    status(&answer)
}

/// Answers one line.
pub fn one_line(line: &[u8], out: &mut [u8; 2048]) -> (usize, bool) {
    reply(line, out)
}

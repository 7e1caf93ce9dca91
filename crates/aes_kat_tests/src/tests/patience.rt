//! Long runs. No number of reads, of writes or of bytes makes a run fail, which no clause says.
use super::outside::{drip_of, nibble_of};
use aes_kat::{run, status};
use std::alloc::Global;
use std::io;
use std::io::{Read, Write};
use std::test::Fail;

const LINE: &[u8] = b"mix 00\n";

const ANSWER: &[u8] = b"error block\n";

// Gives a line a call, `times` times.
#[derive(Drop)]
struct Repeated<'a> {
    line: &'a [u8],
    times: usize,
}

impl Read for Repeated<'_> {
    fn read(&mut self, buf: &mut [u8]) -> io::Result<usize> {
        if self.times == 0 {
            return Ok(0);
        }
        self.times = self.times.saturating_sub(1);
        let count = self.line.len().min(buf.len());
        buf[..count].copy_from_slice(&self.line[..count]);
        Ok(count)
    }
}

// Counts whole answers, and whatever else is written.
#[derive(Drop)]
struct Counted {
    answers: usize,
    others: usize,
}

impl Write for Counted {
    fn write(&mut self, buf: &[u8]) -> io::Result<usize> {
        for part in buf.chunks(ANSWER.len()) {
            if part == ANSWER {
                self.answers = self.answers.saturating_add(1);
            } else {
                self.others = self.others.saturating_add(1);
            }
        }
        Ok(buf.len())
    }

    fn flush(&mut self) -> io::Result<()> {
        Ok(())
    }
}

// LINE, `times` times.
fn lines(alloc: Global, times: usize) -> Result<Vec<u8>, Fail> {
    let mut text = Vec::new(alloc);
    for _ in 0..times {
        text.extend_from_slice(LINE)?;
    }
    Ok(text)
}

// 70,000 reads of a byte, and 120,000 writes of a byte.
#[test]
fn reads_and_writes_byte_by_byte(rt: HostRuntime) -> Result<(), Fail> {
    let text = lines(rt.alloc(), 10_000)?;
    let mut input = drip_of(text.as_slice(), 1);
    let mut output = nibble_of(rt.alloc(), 1);
    let answer = run(rt.alloc(), &mut input, &mut output);
    assert!(rt; status(&answer) == 1);
    assert!(rt; input.calls == 70_001);
    assert!(rt; output.calls == 120_000);
    assert!(rt; output.got.len() == 120_000);
    for line in output.got.as_slice().chunks(ANSWER.len()) {
        assert!(rt; line == ANSWER);
    }
    Ok(())
}

// 10,000 lines of 1,001 bytes.
#[test]
fn answers_ten_megabytes(rt: HostRuntime) -> Result<(), Fail> {
    let mut line = [b'0'; 1001];
    line[..4].copy_from_slice(b"mix ");
    line[1000] = b'\n';
    let mut input = Repeated {
        line: &line,
        times: 10_000,
    };
    let mut output = Counted {
        answers: 0,
        others: 0,
    };
    let answer = run(rt.alloc(), &mut input, &mut output);
    assert!(rt; status(&answer) == 1);
    assert!(rt; output.answers == 10_000);
    assert!(rt; output.others == 0);
    Ok(())
}

// A line of 10,000,000 digits, which are no 64 blocks.
#[test]
fn answers_a_line_of_ten_megabytes(rt: HostRuntime) -> Result<(), Fail> {
    let mut text = Vec::new(rt.alloc());
    text.extend_from_slice(b"enc 000102030405060708090a0b0c0d0e0f ")?;
    for _ in 0..10_000_000 {
        text.push(b'0')?;
    }
    let mut input = text.as_slice();
    let mut output = Vec::new(rt.alloc());
    let answer = run(rt.alloc(), &mut input, &mut output);
    assert!(rt; status(&answer) == 1);
    assert!(rt; output.as_slice() == ANSWER);
    Ok(())
}

// 20,000 lines of 7 bytes are three reads and the last, and no more writes.
#[test]
fn makes_few_writes_of_many_lines(rt: HostRuntime) -> Result<(), Fail> {
    let text = lines(rt.alloc(), 20_000)?;
    let mut input = text.as_slice();
    let mut output = nibble_of(rt.alloc(), usize::MAX);
    let answer = run(rt.alloc(), &mut input, &mut output);
    assert!(rt; status(&answer) == 1);
    assert!(rt; output.calls <= 4);
    assert!(rt; output.got.len() == 20_000 * ANSWER.len());
    Ok(())
}

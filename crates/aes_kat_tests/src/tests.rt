//! The examples of the line protocol, on `run` over memory.
mod failures;
mod outside;
mod patience;
mod rows;

use aes_kat::{examples, parts_are_unique, reply, run, status};
use rows::{ANSWERED, AT_FAULT, TEXTS};
use std::alloc::Global;
use std::process::Abort;
use std::test::Fail;

// What `run` writes for a text, and the status.
fn answers(alloc: Global, text: &[u8]) -> (Vec<u8>, u8) {
    let mut input = text;
    let mut output = Vec::new(alloc);
    let answer = run(alloc, &mut input, &mut output);
    let status = status(&answer);
    (output, status)
}

// Checks that a line alone, with its line end and without, has its answer and the status.
fn check<R: Abort + AllocGlobal>(
    rt: &R,
    line: &[u8],
    answer: &[u8],
    wanted: u8,
) -> Result<(), Fail> {
    let mut want = Vec::new(rt.alloc());
    want.extend_from_slice(answer)?;
    want.push(b'\n')?;
    let mut text = Vec::new(rt.alloc());
    text.extend_from_slice(line)?;
    if line.len() > 0 {
        let (open, status) = answers(rt.alloc(), text.as_slice());
        assert!(rt; open.as_slice() == want.as_slice() && status == wanted);
    }
    text.push(b'\n')?;
    let (closed, status) = answers(rt.alloc(), text.as_slice());
    assert!(rt; closed.as_slice() == want.as_slice() && status == wanted);
    Ok(())
}

#[test]
fn answers_lines(rt: HostRuntime) -> Result<(), Fail> {
    for (line, answer) in ANSWERED {
        check(&rt, line.as_bytes(), answer.as_bytes(), 0)?;
    }
    Ok(())
}

#[test]
fn reports_faults(rt: HostRuntime) -> Result<(), Fail> {
    for (answer, lines) in AT_FAULT {
        for line in lines {
            check(&rt, *line, answer.as_bytes(), 1)?;
        }
    }
    Ok(())
}

#[test]
fn answers_line_by_line(rt: HostRuntime) {
    for (text, want, want_status) in TEXTS {
        let (output, status) = answers(rt.alloc(), text.as_bytes());
        assert!(&rt; output.as_slice() == want.as_bytes(), "at {text}");
        assert!(&rt; status == want_status, "at {text}");
    }
}

// A front, and a word again and again.
fn repeated(alloc: Global, front: &[u8], word: &[u8], count: usize) -> Result<Vec<u8>, Fail> {
    let mut text = Vec::new(alloc);
    text.extend_from_slice(front)?;
    for _ in 0..count {
        text.extend_from_slice(word)?;
    }
    Ok(text)
}

// FIPS 197, appendix C.1.
const ENC: &[u8] = b"enc 000102030405060708090a0b0c0d0e0f ";

const DEC: &[u8] = b"dec 000102030405060708090a0b0c0d0e0f ";

const PLAIN: &[u8] = b"00112233445566778899aabbccddeeff";

const ENCRYPTED: &[u8] = b"69c4e0d86a7b0430d8cdb78070b4c55a";

#[test]
fn works_on_up_to_64_blocks(rt: HostRuntime) -> Result<(), Fail> {
    for count in [2, 17, 63, 64] {
        let line = repeated(rt.alloc(), ENC, PLAIN, count)?;
        let want = repeated(rt.alloc(), &[], ENCRYPTED, count)?;
        check(&rt, line.as_slice(), want.as_slice(), 0)?;
        let line = repeated(rt.alloc(), DEC, ENCRYPTED, count)?;
        let want = repeated(rt.alloc(), &[], PLAIN, count)?;
        check(&rt, line.as_slice(), want.as_slice(), 0)?;
    }
    Ok(())
}

// 65 blocks are one too many; so are 1,048,576 digits.
#[test]
fn refuses_more_than_64_blocks(rt: HostRuntime) -> Result<(), Fail> {
    for digits in [65 * 32, 1_048_576] {
        let line = repeated(rt.alloc(), ENC, b"0", digits)?;
        check(&rt, line.as_slice(), b"error block", 1)?;
    }
    Ok(())
}

// MixColumns doesn't change columns of equal bytes.
#[test]
fn replies_at_the_front(rt: HostRuntime) {
    let mut out = [b'-'; 2048];
    let answered = reply(b"mix 63636363636363636363636363636363", &mut out);
    assert!(rt; answered == (32, false));
    assert!(rt;
        out.as_slice()
            .starts_with(b"63636363636363636363636363636363-")
    );
    assert!(rt; reply(b"mix 0", &mut out) == (9, true));
    assert!(rt; out.as_slice().starts_with(b"error hex"));
}

// The law and the examples are the contracts of functions that do nothing.
#[test]
fn laws_and_examples_can_be_called() {
    parts_are_unique();
    examples::cipher_replies();
    examples::round_replies();
    examples::schedule_reply();
    examples::fault_replies();
    examples::size_examples();
    examples::text_answers();
}

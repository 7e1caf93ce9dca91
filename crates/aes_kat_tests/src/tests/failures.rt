//! A run whose input, output or memory fails. It answers `Failed`, and what it wrote is a beginning
//! of the answers.
use super::outside::{drip_of, nibble_of};
use aes_kat::{run, run_in, status};
use bumpalo::Bump;
use std::io::ErrorKind;
use std::test::Fail;

// Three lines that are answered, and a fault: FIPS 197, appendix C.1, and columns of equal bytes,
// which neither mixing changes.
const INPUT: &[u8] = b"mix 63636363636363636363636363636363\n\
    enc 000102030405060708090a0b0c0d0e0f 00112233445566778899aabbccddeeff\n\
    enc 00 00\ninvmix 63636363636363636363636363636363";

const OUTPUT: &[u8] = b"63636363636363636363636363636363\n69c4e0d86a7b0430d8cdb78070b4c55a\n\
    error key\n63636363636363636363636363636363\n";

#[test]
fn answers_alike_at_every_pace(rt: HostRuntime) -> Result<(), Fail> {
    for (read, write) in [(1, 1), (1, 4096), (4096, 1), (7, 5)] {
        let mut input = drip_of(INPUT, read);
        let mut output = nibble_of(rt.alloc(), write);
        let answer = run(rt.alloc(), &mut input, &mut output);
        assert!(rt; status(&answer) == 1, "at {read} and {write}");
        assert!(rt; output.got.as_slice() == OUTPUT, "at {read} and {write}");
    }
    Ok(())
}

#[test]
fn stops_where_a_read_fails(rt: HostRuntime) -> Result<(), Fail> {
    for bad in 1..INPUT.len() + 2 {
        for kind in [ErrorKind::BrokenPipe, ErrorKind::Interrupted] {
            let mut input = drip_of(INPUT, 1);
            input.bad = bad;
            input.kind = kind;
            let mut output = Vec::new(rt.alloc());
            let answer = run(rt.alloc(), &mut input, &mut output);
            assert!(rt; status(&answer) == 2, "at {bad}");
            assert!(rt; input.calls == bad);
            assert!(rt; OUTPUT.starts_with(output.as_slice()), "at {bad}");
        }
    }
    Ok(())
}

#[test]
fn stops_where_a_write_fails(rt: HostRuntime) -> Result<(), Fail> {
    for bad in 1..OUTPUT.len() + 1 {
        for fault in [
            None,
            Some(ErrorKind::Interrupted),
            Some(ErrorKind::BrokenPipe),
        ] {
            let mut input = INPUT;
            let mut output = nibble_of(rt.alloc(), 1);
            output.bad = bad;
            output.fault = fault;
            let answer = run(rt.alloc(), &mut input, &mut output);
            assert!(rt; status(&answer) == 2, "at {bad}");
            assert!(rt; output.calls == bad);
            assert!(rt; OUTPUT.starts_with(output.got.as_slice()), "at {bad}");
            assert!(rt; output.got.len() == bad - 1);
        }
    }
    Ok(())
}

#[test]
fn fails_where_the_flush_fails(rt: HostRuntime) -> Result<(), Fail> {
    let mut input = INPUT;
    let mut output = nibble_of(rt.alloc(), 4096);
    output.flushes = false;
    let answer = run(rt.alloc(), &mut input, &mut output);
    assert!(rt; status(&answer) == 2);
    assert!(rt; output.got.as_slice() == OUTPUT);
    Ok(())
}

// No clause says that the run flushes at its end. This writer holds bytes back, and has then given
// out all of them.
#[test]
fn flushes_all_that_was_written(rt: HostRuntime) -> Result<(), Fail> {
    let mut input = INPUT;
    let mut output = nibble_of(rt.alloc(), 50);
    let answer = run(rt.alloc(), &mut input, &mut output);
    assert!(rt; status(&answer) == 1);
    assert!(rt; output.flushed == OUTPUT.len());
    Ok(())
}

// The first read gives a line and the beginning of the next, and the second one fails.
#[test]
fn writes_answers_before_the_next_read(rt: HostRuntime) -> Result<(), Fail> {
    let mut input = drip_of(INPUT, 40);
    input.bad = 2;
    let mut output = nibble_of(rt.alloc(), 4096);
    let answer = run(rt.alloc(), &mut input, &mut output);
    assert!(rt; status(&answer) == 2);
    assert!(rt; output.got.as_slice() == b"63636363636363636363636363636363\n".as_slice());
    Ok(())
}

// The bytes that one read of a run needs: its first allocation.
const FIRST_ALLOCATION: usize = 64 * 1024;

// An arena of one chunk gives out no byte twice during a run, so each allocation needs more of the
// arena than all those before it. Each run here has one byte more. So every allocation is refused
// in some run, until none is.
#[test]
fn stops_where_each_allocation_is_refused(rt: HostRuntime) -> Result<(), Fail> {
    let mut refused = 0usize;
    let mut answered = 0usize;
    for left in FIRST_ALLOCATION - 8..FIRST_ALLOCATION + 1024 {
        let arena = Bump::try_with_capacity(rt.alloc(), 2 * FIRST_ALLOCATION)?;
        arena.set_allocation_limit(Some(0));
        let filled = arena.chunk_capacity().saturating_sub(left);
        let _ = arena.try_alloc_slice_fill_clone(filled, 0u8)?;
        let mut input = drip_of(INPUT, 9);
        let mut output = Vec::new(rt.alloc());
        let answer = run_in(&arena, &mut input, &mut output);
        if status(&answer) == 2 {
            refused = refused.saturating_add(1);
            assert!(rt; answered == 0, "at {left}");
            assert!(rt; OUTPUT.starts_with(output.as_slice()), "at {left}");
        } else {
            answered = answered.saturating_add(1);
            assert!(rt; output.as_slice() == OUTPUT, "at {left}");
        }
    }
    assert!(rt; refused > 100);
    assert!(rt; answered > 100);
    Ok(())
}

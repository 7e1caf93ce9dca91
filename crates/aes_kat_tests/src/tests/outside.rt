//! Readers and writers that give and take little, or fail.
use std::alloc::Global;
use std::io;
use std::io::{ErrorKind, Read, Write};

// Gives at most `size` bytes a call, and fails at the call `bad`.
#[derive(Drop)]
pub(super) struct Drip<'a> {
    pub(super) left: &'a [u8],
    pub(super) size: usize,
    pub(super) calls: usize,
    pub(super) bad: usize,
    pub(super) kind: ErrorKind,
}

impl Read for Drip<'_> {
    fn read(&mut self, buf: &mut [u8]) -> io::Result<usize> {
        self.calls = self.calls.saturating_add(1);
        if self.calls == self.bad {
            return Err(io::Error::from(self.kind));
        }
        let count = self.left.len().min(self.size).min(buf.len());
        let (given, left) = self.left.split_at(count);
        buf[..count].copy_from_slice(given);
        self.left = left;
        Ok(count)
    }
}

// Takes at most `size` bytes a call, and at the call `bad` none, or fails.
#[derive(Drop)]
pub(super) struct Nibble {
    pub(super) got: Vec<u8>,
    pub(super) size: usize,
    pub(super) calls: usize,
    pub(super) bad: usize,
    pub(super) fault: Option<ErrorKind>,
    pub(super) flushes: bool,
    // How many bytes there were at the last flush.
    pub(super) flushed: usize,
}

impl Write for Nibble {
    fn write(&mut self, buf: &[u8]) -> io::Result<usize> {
        self.calls = self.calls.saturating_add(1);
        if self.calls == self.bad {
            return match self.fault {
                Some(kind) => Err(io::Error::from(kind)),
                None => Ok(0),
            };
        }
        let count = buf.len().min(self.size);
        self.got.extend_from_slice(&buf[..count])?;
        Ok(count)
    }

    fn flush(&mut self) -> io::Result<()> {
        if !self.flushes {
            return Err(io::Error::from(ErrorKind::Other));
        }
        self.flushed = self.got.len();
        Ok(())
    }
}

pub(super) fn drip_of(left: &[u8], size: usize) -> Drip<'_> {
    Drip {
        left,
        size,
        calls: 0,
        bad: 0,
        kind: ErrorKind::Other,
    }
}

pub(super) fn nibble_of(alloc: Global, size: usize) -> Nibble {
    Nibble {
        got: Vec::new(alloc),
        size,
        calls: 0,
        bad: 0,
        fault: None,
        flushes: true,
        flushed: 0,
    }
}

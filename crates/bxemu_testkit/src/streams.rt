//! Readers and writers over memory, of whose calls some are interrupted, and one fails. Calls are counted from 0.

use std::alloc::Global;
use std::io;
use std::io::{ErrorKind, Read, Write};

/// Which calls are interrupted.
#[derive(Clone, Copy, Drop)]
pub enum Interrupted {
    Never,
    /// So many at the beginning.
    First(u32),
    /// The first, and then every second one.
    EachSecond,
}

/// A reader of a text with so many bytes `x` behind it, that gives at most so many bytes a call.
#[derive(Drop)]
pub struct FailingReader<'a> {
    pub text: &'a [u8],
    pub more: usize,
    pub piece: usize,
    pub interrupted: Interrupted,
    pub fails_at: u32,
    /// How often it was asked.
    pub calls: u32,
}

impl<'a> FailingReader<'a> {
    /// A reader that gives all that it is asked for, and never fails.
    pub fn new(text: &'a [u8]) -> FailingReader<'a> {
        FailingReader {
            text,
            more: 0,
            piece: usize::MAX,
            interrupted: Interrupted::Never,
            fails_at: u32::MAX,
            calls: 0,
        }
    }

    /// The same that gives one byte a call.
    pub fn by_bytes(text: &'a [u8], fails_at: u32) -> FailingReader<'a> {
        FailingReader {
            piece: 1,
            fails_at,
            ..FailingReader::new(text)
        }
    }
}

fn is_interrupted(interrupted: Interrupted, call: u32) -> bool {
    match interrupted {
        Interrupted::Never => false,
        Interrupted::First(calls) => call < calls,
        Interrupted::EachSecond => call % 2 == 0,
    }
}

impl Read for FailingReader<'_> {
    fn read(&mut self, buf: &mut [u8]) -> io::Result<usize> {
        let call = self.calls;
        self.calls = call.saturating_add(1);
        if call == self.fails_at {
            return Err(io::Error::from(ErrorKind::Other));
        }
        if is_interrupted(self.interrupted, call) {
            return Err(io::Error::from(ErrorKind::Interrupted));
        }
        let room = self.piece.min(buf.len());
        let given = &mut buf[..room];
        if !self.text.is_empty() {
            return self.text.read(given);
        }
        let count = room.min(self.more);
        given[..count].fill(b'x');
        self.more -= count;
        Ok(count)
    }
}

/// A writer that takes at most so many bytes a call, and fails from one call on.
#[derive(Drop)]
pub struct FailingWriter {
    pub written: Vec<u8>,
    pub piece: usize,
    pub calls_left: u32,
}

impl FailingWriter {
    /// A writer of so many calls.
    pub fn new(alloc: Global, piece: usize, calls_left: u32) -> FailingWriter {
        FailingWriter {
            written: Vec::new(alloc),
            piece,
            calls_left,
        }
    }
}

impl Write for FailingWriter {
    fn write(&mut self, buf: &[u8]) -> io::Result<usize> {
        let Some(left) = self.calls_left.checked_sub(1) else {
            return Err(io::Error::from(ErrorKind::Other));
        };
        self.calls_left = left;
        let count = self.piece.min(buf.len());
        self.written.extend_from_slice(&buf[..count])?;
        Ok(count)
    }

    fn flush(&mut self) -> io::Result<()> {
        Ok(())
    }
}

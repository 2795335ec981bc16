//! Readers and writers that fail, that are asked too often, and long lines.

use crate::samples::{LOOP, is_told, tell};
use bx_debugger::debug_text;
use bx_engine::{INPUT_LIMIT, MOST_ASKS};
use std::alloc::{AllocError, Global};
use std::cell::Cell;
use std::io;
use std::io::{ErrorKind, Read, Write};
use std::test::Fail;

/// A reader that gives one byte at a time, is interrupted before each, and fails once it has given so many.
#[derive(Drop)]
struct Dripping<'a> {
    text: &'a [u8],
    room: usize,
    rests: bool,
}

impl Read for Dripping<'_> {
    fn read(&mut self, buf: &mut [u8]) -> io::Result<usize> {
        self.rests = !self.rests;
        if self.rests {
            return Err(io::Error::from(ErrorKind::Interrupted));
        }
        if self.room == 0 {
            return Err(io::Error::from(ErrorKind::Other));
        }
        if self.text.is_empty() || buf.is_empty() {
            return Ok(0);
        }
        self.room -= 1;
        buf[0] = self.text[0];
        self.text = &self.text[1..];
        Ok(1)
    }
}

/// Whether a session over `LOOP` that reads a text so, with that much room, tells this.
fn drips_to(alloc: Global, text: &[u8], room: usize, want: &str) -> Result<bool, AllocError> {
    let mut commands = Dripping {
        text,
        room,
        rests: false,
    };
    is_told(alloc, LOOP, "m:f", &mut commands, want)
}

/// Room, and what is told with no more.
const READS: [(usize, &str); 7] = [
    (0, "bxemu: read -\n"),
    (7, "bxemu: read -\n"),
    (8, "at 2 of 2: done\nbxemu: read -\n"),
    (14, "at 2 of 2: done\nbxemu: read -\n"),
    (15, "at 2 of 2: done\nat 1 of 2\nbxemu: read -\n"),
    (24, "at 2 of 2: done\nat 1 of 2\nbxemu: read -\n"),
    (25, "at 2 of 2: done\nat 1 of 2\nat 2 of 2\n"),
];

/// How many rows, from the first on, are so.
fn right_reads(alloc: Global, rows: &[(usize, &str)]) -> Result<usize, AllocError> {
    for (number, (room, want)) in rows.iter().enumerate() {
        if !drips_to(alloc, b"go r0*2\nback 1\nforward 1", *room, want)? {
            return Ok(number);
        }
    }
    Ok(rows.len())
}

#[test]
fn readers_that_fail_at_each_read(rt: HostRuntime) -> Result<(), Fail> {
    assert_eq!(rt; right_reads(rt.alloc(), &READS)?, READS.len());
    Ok(())
}

#[test]
fn a_reader_is_not_asked_behind_a_line_that_quits(rt: HostRuntime) -> Result<(), Fail> {
    assert!(rt; drips_to(rt.alloc(), b"go r0*2\nquit\n", 13, "at 2 of 2: done\n")?);
    Ok(())
}

/// A reader of a text with so many more bytes behind it that end no line.
#[derive(Drop)]
struct Filled<'a> {
    text: &'a [u8],
    more: usize,
}

impl Read for Filled<'_> {
    fn read(&mut self, buf: &mut [u8]) -> io::Result<usize> {
        if !self.text.is_empty() {
            return self.text.read(buf);
        }
        let count = buf.len().min(self.more);
        buf[..count].fill(b'x');
        self.more -= count;
        Ok(count)
    }
}

/// How many more bytes, and what is told.
const FILLS: [(usize, &str); 2] = [
    (
        INPUT_LIMIT - 8,
        "at 2 of 2: done\nrefused R33 BadCommand line 2\n",
    ),
    (
        INPUT_LIMIT - 7,
        "at 2 of 2: done\nbxemu: R16 TooLarge in -\n",
    ),
];

/// How many rows, from the first on, are so.
fn right_fills(alloc: Global, rows: &[(usize, &str)]) -> Result<usize, AllocError> {
    for (number, (more, want)) in rows.iter().enumerate() {
        let mut commands = Filled {
            text: b"go r0*2\n",
            more: *more,
        };
        if !is_told(alloc, LOOP, "m:f", &mut commands, want)? {
            return Ok(number);
        }
    }
    Ok(rows.len())
}

#[test]
fn lines_as_long_as_an_input_may_be(rt: HostRuntime) -> Result<(), Fail> {
    assert_eq!(rt; right_fills(rt.alloc(), &FILLS)?, FILLS.len());
    Ok(())
}

/// A writer that takes one byte at a time, and fails once there is no room.
#[derive(Drop)]
struct Narrow {
    room: usize,
}

impl Write for Narrow {
    fn write(&mut self, buf: &[u8]) -> io::Result<usize> {
        if self.room == 0 {
            return Err(io::Error::from(ErrorKind::Other));
        }
        let count = buf.len().min(1);
        self.room -= count;
        Ok(count)
    }

    fn flush(&mut self) -> io::Result<()> {
        Ok(())
    }
}

/// Whether the line of a session's failure is this, whose reader and writer these are.
fn ends_by<C: Read, W: Write>(
    alloc: Global,
    commands: &mut C,
    writer: &mut W,
    want: &str,
) -> Result<bool, AllocError> {
    let mut line = Vec::new(alloc);
    let ended = debug_text(alloc, &mut [LOOP.as_bytes()], "m:f", commands, writer);
    tell(alloc, ended, &mut line)?;
    Ok(line.as_slice() == want.as_bytes())
}

/// How many writers, from one without room on, fail below 26 bytes of room alone.
fn right_rooms(alloc: Global, count: usize) -> Result<usize, AllocError> {
    for room in 0..count {
        let mut commands = b"go r0*2\nback 1\n".as_slice();
        let want = if room < 26 { "bxemu: write\n" } else { "" };
        if !ends_by(alloc, &mut commands, &mut Narrow { room }, want)? {
            return Ok(room);
        }
    }
    Ok(count)
}

#[test]
fn writers_that_fail_at_each_write(rt: HostRuntime) -> Result<(), Fail> {
    assert_eq!(rt; right_rooms(rt.alloc(), 27)?, 27);
    Ok(())
}

/// A reader that gives a line at a time, and fails where an answer was not flushed.
#[derive(Drop)]
struct Asking<'a> {
    lines: &'a [&'a [u8]],
    asked: usize,
    waiting: &'a Cell<bool>,
}

impl Read for Asking<'_> {
    fn read(&mut self, buf: &mut [u8]) -> io::Result<usize> {
        if self.waiting.get() {
            return Err(io::Error::from(ErrorKind::Other));
        }
        let Some(line) = self.lines.get(self.asked) else {
            return Ok(0);
        };
        self.asked += 1;
        let mut line = *line;
        line.read(buf)
    }
}

/// A writer that knows whether what it took was flushed.
#[derive(Drop)]
struct Flushed<'a> {
    waiting: &'a Cell<bool>,
}

impl Write for Flushed<'_> {
    fn write(&mut self, buf: &[u8]) -> io::Result<usize> {
        self.waiting.set(true);
        Ok(buf.len())
    }

    fn flush(&mut self) -> io::Result<()> {
        self.waiting.set(false);
        Ok(())
    }
}

const LINES: [&[u8]; 3] = [b"go r0\n", b"back 1\nsho", b"w\n"];

/// Whether a session answers all those lines, and each answer is flushed before more is asked for.
fn flushes(alloc: Global) -> Result<bool, AllocError> {
    let waiting = Cell::new(false);
    let mut commands = Asking {
        lines: &LINES,
        asked: 0,
        waiting: &waiting,
    };
    let mut writer = Flushed { waiting: &waiting };
    Ok(ends_by(alloc, &mut commands, &mut writer, "")? && !waiting.get())
}

#[test]
fn answers_are_flushed_before_more_is_asked_for(rt: HostRuntime) -> Result<(), Fail> {
    assert!(rt; flushes(rt.alloc())?);
    Ok(())
}

/// A reader of a text that is interrupted so often before it, ends or fails behind it, and counts how often it is asked.
#[derive(Drop)]
struct Counted<'a> {
    text: &'a [u8],
    interrupted: u32,
    fails: bool,
    asked: u32,
}

impl Read for Counted<'_> {
    fn read(&mut self, buf: &mut [u8]) -> io::Result<usize> {
        self.asked = self.asked.wrapping_add(1);
        if self.interrupted > 0 {
            self.interrupted -= 1;
            return Err(io::Error::from(ErrorKind::Interrupted));
        }
        if self.fails && self.text.is_empty() {
            return Err(io::Error::from(ErrorKind::Other));
        }
        self.text.read(buf)
    }
}

/// A text, how often its reader is interrupted, whether it fails, how often it is asked, and what is told.
type AskRow<'a> = (&'a str, u32, bool, u32, &'a str);

const ASKS: [AskRow<'static>; 8] = [
    ("", 0, false, 1, ""),
    ("step r0\n", 0, false, 2, "at 1 of 1\n"),
    ("step r0", 3, false, 5, "at 1 of 1\n"),
    ("step r0\nquit\n", 2, false, 3, "at 1 of 1\n"),
    ("quit", 0, false, 2, ""),
    ("", 0, true, 1, "bxemu: read -\n"),
    ("step r0\nback", 1, true, 3, "at 1 of 1\nbxemu: read -\n"),
    (
        "step r0\n",
        MOST_ASKS - 1,
        false,
        MOST_ASKS,
        "at 1 of 1\nbxemu: read -\n",
    ),
];

/// How many rows, from the first on, are so.
fn right_asks(alloc: Global, rows: &[AskRow<'_>]) -> Result<usize, AllocError> {
    for (number, (text, interrupted, fails, asked, want)) in rows.iter().enumerate() {
        let mut commands = Counted {
            text: text.as_bytes(),
            interrupted: *interrupted,
            fails: *fails,
            asked: 0,
        };
        if !is_told(alloc, LOOP, "m:f", &mut commands, want)? || commands.asked != *asked {
            return Ok(number);
        }
    }
    Ok(rows.len())
}

#[test]
fn a_reader_is_asked_so_often_and_no_more(rt: HostRuntime) -> Result<(), Fail> {
    assert_eq!(rt; MOST_ASKS, 33_554_434);
    assert_eq!(rt; right_asks(rt.alloc(), &ASKS)?, ASKS.len());
    Ok(())
}

//! A runtime whose words, files and clock are a test's own, and what a program is lent to write on.

use std::alloc::{Allocator, Global};
use std::env::FillError;
use std::fmt::{Display, Write as _};
use std::fs::{Metadata, OpenFile, OpenOptions};
use std::io::{ErrorKind, IsTerminal, Read, Seek, SeekFrom, Write};
use std::rt::{Env, Files};
use std::sync::Wait;
use std::sync::atomic::{AtomicU64, Ordering};
use std::thread::Threads;
use std::time::{Clock, Duration};
use std::{fmt, io};

/// What no test asks for.
fn unsupported() -> io::Error {
    io::Error::from(ErrorKind::Unsupported)
}

/// A runtime that is called by a line of words, parted by spaces, and holds files by their names: one without a text opens, and
/// fails when it is read. Its clock stands still. Of what is printed it counts the bytes, unless it can't print.
#[derive(Drop)]
pub struct Desk<'a, R> {
    pub rt: &'a R,
    pub alloc: Global,
    pub line: &'a [u8],
    pub files: &'a [(&'a str, Option<&'a str>)],
    pub prints: bool,
    pub printed: AtomicU64,
    pub told: AtomicU64,
}

impl<R: Wait> Wait for Desk<'_, R> {}

impl<R: Threads> Threads for Desk<'_, R> {}

impl<R> Alloc for Desk<'_, R> {
    type A = Global;

    fn alloc(&self) -> Global {
        self.alloc
    }
}

impl<R> Clock for Desk<'_, R> {
    fn monotonic(&self) -> io::Result<Duration> {
        Ok(Duration::from_millis(0))
    }

    fn since_1970(&self) -> io::Result<Duration> {
        Err(unsupported())
    }
}

impl<R> Env for Desk<'_, R> {
    fn arg(&self, i: usize, buf: &mut [u8]) -> Result<usize, FillError> {
        let Some(word) = self.line.split(|byte| *byte == b' ').nth(i) else {
            return Err(FillError::NotPresent);
        };
        if word.len() > buf.len() {
            return Err(FillError::TooLong);
        }
        buf[..word.len()].copy_from_slice(word);
        Ok(word.len())
    }

    fn var(&self, _name: &str, _buf: &mut [u8]) -> Result<usize, FillError> {
        Err(FillError::NotPresent)
    }

    fn var_at(&self, _i: usize, _buf: &mut [u8]) -> Result<usize, FillError> {
        Err(FillError::NotPresent)
    }
}

/// Counts the bytes of what is shown.
#[derive(Clone, Copy, Drop)]
struct Bytes {
    count: u64,
}

impl fmt::Write for Bytes {
    fn write_str(&mut self, text: &str) -> fmt::Result {
        self.count = self.count.saturating_add(text.len() as u64);
        Ok(())
    }
}

/// Adds the bytes of what is shown, unless it can't be.
fn add<D: Display + Drop>(prints: bool, counted: &AtomicU64, value: D) -> io::Result<()> {
    if !prints {
        return Err(unsupported());
    }
    let mut bytes = Bytes { count: 0 };
    let _ = write!(bytes, "{value}");
    counted.fetch_add(bytes.count, Ordering::SeqCst);
    Ok(())
}

impl<R> Print for Desk<'_, R> {
    fn print<D: Display + Drop>(&self, value: D) -> io::Result<()> {
        add(self.prints, &self.printed, value)
    }

    fn println<D: Display + Drop>(&self, value: D) -> io::Result<()> {
        add(self.prints, &self.printed, value)
    }

    fn write_all(&self, _bytes: &[u8]) -> io::Result<()> {
        Err(unsupported())
    }
}

impl<R> Eprint for Desk<'_, R> {
    fn eprint<D: Display + Drop>(&self, value: D) -> io::Result<()> {
        add(self.prints, &self.told, value)
    }

    fn eprintln<D: Display + Drop>(&self, value: D) -> io::Result<()> {
        add(self.prints, &self.told, value)
    }
}

/// A file that is open: what is left of its text, where it can be read.
#[derive(Drop)]
pub struct Opened<'a> {
    left: Option<&'a [u8]>,
}

impl Read for Opened<'_> {
    fn read(&mut self, buf: &mut [u8]) -> io::Result<usize> {
        match &mut self.left {
            Some(text) => text.read(buf),
            None => Err(io::Error::from(ErrorKind::Other)),
        }
    }
}

impl Write for Opened<'_> {
    fn write(&mut self, _buf: &[u8]) -> io::Result<usize> {
        Err(unsupported())
    }

    fn flush(&mut self) -> io::Result<()> {
        Err(unsupported())
    }
}

impl Seek for Opened<'_> {
    fn seek(&mut self, _to: SeekFrom) -> io::Result<u64> {
        Err(unsupported())
    }
}

impl OpenFile for Opened<'_> {
    fn metadata(&self) -> io::Result<Metadata> {
        Err(unsupported())
    }

    fn set_len(&self, _size: u64) -> io::Result<()> {
        Err(unsupported())
    }

    fn sync_all(&self) -> io::Result<()> {
        Err(unsupported())
    }

    fn sync_data(&self) -> io::Result<()> {
        Err(unsupported())
    }
}

impl<'a, R> Files for Desk<'a, R> {
    type File = Opened<'a>;

    type Dir = Opened<'a>;

    fn open_file(&self, _how: &OpenOptions, path: &str) -> io::Result<Opened<'a>> {
        for (name, text) in self.files {
            if *name == path {
                return Ok(Opened {
                    left: text.map(str::as_bytes),
                });
            }
        }
        Err(io::Error::from(ErrorKind::NotFound))
    }

    fn open_dir(&self, _path: &str) -> io::Result<Opened<'a>> {
        Err(unsupported())
    }

    fn metadata(&self, _path: &str) -> io::Result<Metadata> {
        Err(unsupported())
    }

    fn symlink_metadata(&self, _path: &str) -> io::Result<Metadata> {
        Err(unsupported())
    }

    fn copy(&self, _from: &str, _to: &str) -> io::Result<u64> {
        Err(unsupported())
    }

    fn rename(&self, _from: &str, _to: &str) -> io::Result<()> {
        Err(unsupported())
    }

    fn remove_file(&self, _path: &str) -> io::Result<()> {
        Err(unsupported())
    }

    fn create_dir(&self, _path: &str) -> io::Result<()> {
        Err(unsupported())
    }

    fn remove_dir(&self, _path: &str) -> io::Result<()> {
        Err(unsupported())
    }

    fn remove_dir_all<B: Allocator>(&self, _alloc: B, _path: &str) -> io::Result<()> {
        Err(unsupported())
    }
}

/// What is written to, where there is room for so many bytes; behind them it fails.
#[derive(Drop)]
pub struct Sheet {
    pub text: Vec<u8>,
    pub room: usize,
    pub terminal: bool,
}

impl Sheet {
    pub fn new(alloc: Global, room: usize, terminal: bool) -> Sheet {
        Sheet {
            text: Vec::new(alloc),
            room,
            terminal,
        }
    }
}

impl Write for Sheet {
    fn write(&mut self, buf: &[u8]) -> io::Result<usize> {
        if self.room < buf.len() {
            return Err(io::Error::from(ErrorKind::Other));
        }
        self.text.extend_from_slice(buf)?;
        self.room -= buf.len();
        Ok(buf.len())
    }

    fn flush(&mut self) -> io::Result<()> {
        Ok(())
    }
}

impl IsTerminal for Sheet {
    fn is_terminal(&self) -> bool {
        self.terminal
    }
}

/// Lines to be read, from a terminal or not.
#[derive(Drop)]
pub struct Lines<'a> {
    pub text: &'a [u8],
    pub terminal: bool,
}

impl<'a> Read for Lines<'a> {
    fn read(&mut self, bytes: &mut [u8]) -> io::Result<usize> {
        self.text.read(bytes)
    }
}

impl<'a> IsTerminal for Lines<'a> {
    fn is_terminal(&self) -> bool {
        self.terminal
    }
}

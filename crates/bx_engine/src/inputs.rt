//! One input, read whole.
ghost use Rattle.std.specs.Prelude.{◌≡◌, ◌<◌, ◌≤◌, ◌++◌, List, ℕ, IfErr, IfOk, length};
ghost use Rattle.std.specs.Io.KnownBytes.{Consumes, IsAtEnd};
ghost use Rattle.bx_engine.specs.Inputs.{IsUnread, IsWhole, StopsAt, failure_in};

use crate::failures::Failure;
use bx_terms::Fault;
use std::alloc::Global;
use std::io::{ErrorKind, Read};

/// The most bytes that an input may have.
pub const INPUT_LIMIT: usize = 16_777_216;

/// The most times that a reader is asked for more.
pub const MOST_ASKS: u32 = 33_554_434;

const _: () = prove!(MOST_ASKS == 33_554_434);

/// The bytes that a reader is asked for at a time.
const CHUNK: usize = 65_536;

/// Why an input was not read whole.
#[derive(Clone, Copy, Debug, PartialEq, Eq)]
pub enum Unread {
    /// It has more bytes than the limit.
    TooLarge,
    /// The reader failed, or was asked too many times.
    Failed,
    /// Memory ran out.
    Memory,
}

impl Unread {
    /// The failure that this is, where the input is the file of that number.
    pub fn in_file(self, file: usize) -> Failure
        ensures { result ≡ failure_in file self }
    {
        match self {
            Unread::TooLarge => Failure::Refused(Fault::TooLarge, Some(file)),
            Unread::Failed => Failure::Read(file),
            Unread::Memory => Failure::Refused(Fault::Memory, None),
        }
    }
}

/// All that a reader has, of at most `INPUT_LIMIT` bytes.
///
/// A reader is asked at most 33,554,434 times, interrupted calls among them; then it counts as one
/// that failed. After an error the reader has moved, by what stands in the clause.
pub fn read_input<R: Read>(alloc: Global, reader: &mut R) -> Result<Vec<u8>, Unread>
    ensures ok { IfOk result (λ bytes.
        IsWhole (R.remaining reader.old) (R.remaining reader.new) bytes.items) }
    ensures err { IfErr result (IsUnread (R.remaining reader.old) (R.remaining reader.new)) }
{
    let mut bytes = Vec::new(alloc);
    let mut chunk = [0; CHUNK];
    for _ in 0..MOST_ASKS {
        match ask(reader, &mut chunk, &mut bytes) {
            Ok(Turn::More) => {}
            Ok(Turn::End) => return Ok(bytes),
            Err(unread) => return Err(unread),
        }
    }
    Err(Unread::Failed)
}

/// What asking a reader once came to.
#[derive(Clone, Copy, Debug, PartialEq, Eq)]
enum Turn {
    /// There may be more.
    More,
    /// The reader is at its end.
    End,
}

/// Asks a reader once for as many bytes as the chunk has room for, and puts them behind `bytes`.
fn ask<R: Read>(reader: &mut R, chunk: &mut [u8], bytes: &mut Vec<u8>) -> Result<Turn, Unread>
    requires room { 0 < length chunk.old }
    requires within { length bytes.old.items ≤ INPUT_LIMIT }
    ensures ok { IfOk result (λ _. (more : List ℕ)
        × Consumes (R.remaining reader.old) (R.remaining reader.new) more
        × (bytes.new.items ≡ bytes.old.items ++ more) × (length bytes.new.items ≤ INPUT_LIMIT)) }
    ensures end { IfOk result (λ turn. turn ≡ Turn.End → IsAtEnd (R.remaining reader.new)) }
    ensures err { IfErr result (λ unread. (more : List ℕ)
        × Consumes (R.remaining reader.old) (R.remaining reader.new) more
        × StopsAt unread (bytes.old.items ++ more)) }
{
    let n = match reader.read(chunk) {
        Ok(n) => n,
        Err(error) if error.kind() == ErrorKind::Interrupted => return Ok(Turn::More),
        Err(_) => return Err(Unread::Failed),
    };
    if n == 0 {
        return Ok(Turn::End);
    }
    if n > INPUT_LIMIT - bytes.len() {
        return Err(Unread::TooLarge);
    }
    match bytes.extend_from_slice(&chunk[..n]) {
        Ok(()) => Ok(Turn::More),
        Err(_) => Err(Unread::Memory),
    }
}

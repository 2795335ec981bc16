//! Lines of commands, read piece by piece and answered one by one.

ghost use Rattle.std.specs.Prelude.{◌≡◌, ◌<◌, ◌≤◌, [], ◌∷◌, OnOk, length};
ghost use Rattle.std.specs.Io.KnownBytes.{Appends};
ghost use Rattle.bx_debugger.specs.Talks.{Feeds, Finishes, Replies, Talks, Turns, begins};

use crate::prompts::Prompt;
use crate::replies::answer_line;
use bx_debug::Session;
use bx_engine::{Failure, INPUT_LIMIT, MOST_ASKS, Sources};
use bx_terms::Fault;
use std::alloc::Global;
use std::io;
use std::io::{ErrorKind, Read, Write};
use std::marker::Model;

/// The bytes that a reader is asked for at a time.
const PIECE: usize = 4096;

/// Whether more is to be read.
#[derive(Clone, Copy, Debug, PartialEq, Eq)]
pub(crate) enum Next {
    /// There may be more lines.
    More,
    /// The reader is at its end, or a line quits.
    Over,
}

/// A session, where the items of its code stand, the line that has begun and its number from 1, and how many bytes more may come.
#[derive(Drop)]
pub(crate) struct Talk<'a> {
    session: Session<'a>,
    sources: &'a Sources,
    number: usize,
    line: Vec<u8>,
    left: usize,
}

impl<'a> Model for Talk<'a> {
    ghost use Rattle.std.specs.Prelude.{◌+◌, ◌≤◌};
    ghost use Rattle.bx_terms.specs.TreeCode.{tree_code};
    ghost use Rattle.bx_terms.specs.contracts.kinds.Trap as traps;
    ghost use Rattle.bx_load.specs.contracts.image.Image as images;
    ghost use Rattle.bx_proc.specs.contracts.process.Proc as process;
    ghost use Rattle.bx_world.specs.contracts.choices.Choice as made;
    ghost use Rattle.bx_world.specs.contracts.lanes.Lanes as lane;
    ghost use Rattle.bx_world.specs.World.{state_code};
    ghost use Rattle.bx_debug.specs.Sessions.{history_code};
    ghost use Rattle.bx_debugger.specs.Talks.{Hearing, hearing_code};

    ghost Value = { Hearing };

    ghost coded = { hearing_code (history_code images.the_row.coded
        (state_code process.the_row.coded tree_code lane.the_row.coded traps.the_row.coded)
        made.the_row.coded) };

    ghost view = { λ t. record {
      session = t.session;
      sources = t.sources.now;
      number = t.number;
      line = t.line.items;
      left =
          t.left;
    } };

    ghost invariant = { λ t. t.number + t.left ≤ 16777217 };
}

impl<'a> Talk<'a> {
    /// Nothing was read yet.
    pub(crate) fn new(alloc: Global, session: Session<'a>, sources: &'a Sources) -> Talk<'a>
        ensures { result ≡ begins sources.entry.now session.entry }
    {
        Talk {
            session,
            sources,
            number: 1,
            line: Vec::new(alloc),
            left: INPUT_LIMIT,
        }
    }

    /// Answers the lines that a reader gives, each before the next is asked for, up to one that quits or to the reader's end.
    ///
    /// `file` is the reader's number in a failure. The reader is asked at most `MOST_ASKS` times, and then counts as one that failed.
    pub(crate) fn answer_all<C: Read, W: Write, P: Prompt>(
        self,
        alloc: Global,
        file: usize,
        commands: &mut C,
        writer: &mut W,
        prompt: &P,
    ) -> Result<(), Failure>
        ensures { Talks file self.entry (W.contents writer.old) (W.contents writer.new)
            (C.remaining commands.old) (C.remaining commands.new) result }
    {
        let mut talk = self;
        let mut chunk = [0; PIECE];
        for _ in 0..MOST_ASKS {
            prompt.ask(talk.session.at(), talk.session.len());
            match talk.turn(alloc, file, commands, &mut chunk, writer) {
                Ok(Next::More) => {}
                Ok(Next::Over) => return Ok(()),
                Err(failure) => return Err(failure),
            }
        }
        Err(Failure::Read(file))
    }

    /// Asks a reader once, and answers each line that what it gave ends.
    fn turn<C: Read, W: Write>(
        &mut self,
        alloc: Global,
        file: usize,
        commands: &mut C,
        chunk: &mut [u8],
        writer: &mut W,
    ) -> Result<Next, Failure>
        requires { 0 < length chunk.old }
        ensures { Turns file self.old self.new (W.contents writer.old) (W.contents writer.new)
            (C.remaining commands.old) (C.remaining commands.new) result }
    {
        let count = match commands.read(chunk) {
            Ok(count) => count,
            Err(error) if error.kind() == ErrorKind::Interrupted => return Ok(Next::More),
            Err(_) => return Err(Failure::Read(file)),
        };
        if count == 0 {
            return self.finish(alloc, writer);
        }
        let within = count.min(self.left);
        match self.feed(alloc, &chunk[..within], writer) {
            Ok(Next::More) => {}
            Ok(Next::Over) => return Ok(Next::Over),
            Err(failure) => return Err(failure),
        }
        if within < count {
            return Err(Failure::Refused(Fault::TooLarge, Some(file)));
        }
        Ok(Next::More)
    }

    /// Hears these bytes, and answers each line that they end.
    fn feed<W: Write>(
        &mut self,
        alloc: Global,
        bytes: &[u8],
        writer: &mut W,
    ) -> Result<Next, Failure>
        requires { length bytes.now ≤ self.old.left }
        ensures { Feeds (W.contents writer.old) (W.contents writer.new) self.old self.new bytes.now
            result }
    {
        for byte in bytes {
            match self.hear(alloc, *byte, writer) {
                Ok(Next::More) => {}
                Ok(Next::Over) => return Ok(Next::Over),
                Err(failure) => return Err(failure),
            }
        }
        Ok(Next::More)
    }

    /// Hears one byte, and answers the line where it ends one.
    fn hear<W: Write>(&mut self, alloc: Global, byte: u8, writer: &mut W) -> Result<Next, Failure>
        requires { 0 < self.old.left }
        ensures { Feeds (W.contents writer.old) (W.contents writer.new) self.old self.new
            (byte ∷ []) result }
    {
        self.left -= 1;
        if byte != b'\n' {
            let Ok(()) = self.line.push(byte) else {
                return Err(Failure::Refused(Fault::Memory, None));
            };
            return Ok(Next::More);
        }
        match self.answer(alloc, writer) {
            Ok(Next::More) => {}
            Ok(Next::Over) => return Ok(Next::Over),
            Err(failure) => return Err(failure),
        }
        self.line.clear();
        self.number += 1;
        Ok(Next::More)
    }

    /// Answers the last line, where it lacks its line feed.
    fn finish<W: Write>(&mut self, alloc: Global, writer: &mut W) -> Result<Next, Failure>
        ensures { Finishes (W.contents writer.old) (W.contents writer.new) self.old result }
    {
        if !self.line.is_empty() {
            self.answer(alloc, writer)?;
        }
        Ok(Next::Over)
    }

    /// Answers the line that was read, and flushes what was written; a line that quits is answered nothing.
    fn answer<W: Write>(&mut self, alloc: Global, writer: &mut W) -> Result<Next, Failure>
        ensures { Replies (W.contents writer.old) (W.contents writer.new) self.old self.new result }
    {
        if self.line.as_slice() == b"quit".as_slice() {
            return Ok(Next::Over);
        }
        let sources = self.sources;
        let Ok(text) = answer_line(alloc, &mut self.session, sources, self.number, &self.line)
        else {
            return Err(Failure::Refused(Fault::Memory, None));
        };
        match send(text.as_bytes(), writer) {
            Ok(()) => Ok(Next::More),
            Err(_) => Err(Failure::Write),
        }
    }
}

/// Writes a text, and flushes it.
fn send<W: Write>(text: &[u8], writer: &mut W) -> io::Result<()>
    ensures { OnOk result (Appends (W.contents writer.old) (W.contents writer.new) text.now) }
{
    writer.write_all(text)?;
    writer.flush()
}

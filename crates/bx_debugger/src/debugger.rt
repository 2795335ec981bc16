//! `debug`: a session at a start over listings, told line by line what to do.

ghost use Rattle.std.specs.Prelude.{◌≡◌, List, ℕ, IsOk, Some, length, map};
ghost use Rattle.bx_terms.specs.Outcomes.{Gives};
ghost use Rattle.bx_debugger.specs.Opening.{session_at, session_of};
ghost use Rattle.bx_debugger.specs.Talks.{Debugs, DebugsAny};

use crate::prompts::{NoPrompt, Prompt};
use crate::talks::Talk;
use bx_debug::Session;
use bx_engine::{Failure, Start, entry_in, located_image_of, start_of};
use bx_load::Image;
use bx_terms::Fault;
use std::alloc::Global;
use std::io::{Read, Write};

/// Opens a session at the start `M:F` over the modules of the listings, and answers each line of commands before the next is asked
/// for, until one quits or there are no more.
///
/// The failure is the first of these: the start is no such thing; a listing, in the order given, can't be read or is refused when it
/// is read or assembled; the listings can't be loaded together; `NoEntry`, where the module does not export that function of no
/// arguments. Nothing is read of the commands then, and nothing is written. While lines are read, a reader of commands that fails, one
/// that gives more than `INPUT_LIMIT` bytes, and memory that runs out end it behind the answers to the lines before; a writer can fail
/// only at an answer. In a failure the commands are the file behind the listings.
pub fn debug_text<R: Read, C: Read, W: Write>(
    alloc: Global,
    listings: &mut [R],
    start: &str,
    commands: &mut C,
    writer: &mut W,
) -> Result<(), Failure>
    ensures talked { (given : List (List ℕ)) → map R.remaining listings.old ≡ map (λ text. Some text) given
        → Debugs start.now given (session_of start.now given) (W.contents writer.old) (W.contents writer.new)
        (C.remaining commands.old) (C.remaining commands.new) result }
    ensures unknown { DebugsAny (length listings.old) (W.contents writer.old) (W.contents writer.new)
        (C.remaining commands.old) (C.remaining commands.new) result }
{
    let silent = Prompted { prompt: &NoPrompt };
    silent.debug_text(alloc, listings, start, commands, writer)
}

/// A debugger that prompts for commands.
#[derive(Clone, Copy)]
pub struct Prompted<'a, P: Prompt> {
    pub prompt: &'a P,
}

impl<'a, P: Prompt> Prompted<'a, P> {
    /// Does what `debug_text` does, and calls its prompt before the commands are asked for more.
    pub fn debug_text<R: Read, C: Read, W: Write>(
        &self,
        alloc: Global,
        listings: &mut [R],
        start: &str,
        commands: &mut C,
        writer: &mut W,
    ) -> Result<(), Failure>
        ensures talked { (given : List (List ℕ)) → map R.remaining listings.old ≡ map (λ text. Some text) given
            → Debugs start.now given (session_of start.now given) (W.contents writer.old) (W.contents writer.new)
            (C.remaining commands.old) (C.remaining commands.new) result }
        ensures unknown { DebugsAny (length listings.old) (W.contents writer.old) (W.contents writer.new)
            (C.remaining commands.old) (C.remaining commands.new) result }
    {
        let start = match start_of(alloc, start) {
            Ok(start) => start,
            Err(failure) => return Err(failure),
        };
        let file = listings.len();
        let (image, sources) = match located_image_of(alloc, listings) {
            Ok(program) => program,
            Err(failure) => return Err(failure),
        };
        let session = match session_at(alloc, &image, &start) {
            Ok(session) => session,
            Err(fault) => return Err(Failure::Refused(fault, None)),
        };
        let talk = Talk::new(alloc, session, &sources);
        talk.answer_all(alloc, file, commands, writer, self.prompt)
    }
}

/// A session at the start that was named; `NoEntry` where the module does not export that function of no arguments.
fn session_at<'a>(alloc: Global, image: &'a Image, start: &Start) -> Result<Session<'a>, Fault>
    ensures { Gives (IsOk (session_at image.entry.now start.now)) (λ session. session) result
        (session_at image.entry.now start.now) }
{
    match entry_in(image, start) {
        Some((module, function)) => Session::new(alloc, image, module, function),
        None => Err(Fault::NoEntry),
    }
}

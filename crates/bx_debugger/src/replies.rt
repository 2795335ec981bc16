//! What a session answers to a line.

ghost use Rattle.std.specs.Prelude.{◌≡◌, ◌++◌, IfOk, IsSome, None, Result, Some, codes, slice_get, string_bytes};
ghost use Rattle.bx_terms.specs.Refusals.{refusal};
ghost use Rattle.bx_terms.specs.declared.faults.Fault.{Fault};
ghost use Rattle.bx_world.specs.Seen.{seen};
ghost use Rattle.bx_world.specs.Texts.{outcome_lines};
ghost use Rattle.bx_debug.specs.Sessions.{History, behind, world_of};
ghost use Rattle.bx_debugger.specs.Answers.{Moves, answered, looked, moved, planned, ran, refused_line, refused_text, replied, traced, went_line};
ghost use Rattle.bx_debugger.specs.Functions.{list_answer};
ghost use Rattle.bx_debugger.specs.Help.{help_answer};
ghost use Rattle.bx_debugger.specs.Open.{open_answer};
ghost use Rattle.bx_debugger.specs.Program.{program_of};
ghost use Rattle.bx_debugger.specs.Signals.{signals_answer};
ghost use Rattle.bx_debugger.specs.Stops.{standing, stopped_line};
ghost use Rattle.bx_debugger.specs.Where.{where_answer};

use crate::commands::{Command, command_of};
use crate::help::push_help;
use crate::holdings::push_look;
use crate::listings::push_list;
use crate::open_lines::push_open;
use crate::pauses::{pause_words, stop_words};
use crate::programs::Program;
use crate::signal_lines::push_signals;
use crate::standings::push_where;
use crate::traces::push_trace;
use bx_debug::{Bound, Session, Stop};
use bx_engine::{Sources, push_plan};
use bx_terms::{Fault, Place};
use bx_world::outcome_text;
use std::alloc::{AllocError, Global};

/// How many choices a line of a plan makes at most.
const MOST_CHOICES: usize = 100_000;

/// Does what a line orders, and gives the text of the answer; `number` is the line's, from 1. The items of the session's code stand
/// where `sources` says.
///
/// It can only run out of memory.
pub(crate) fn answer_line(
    alloc: Global,
    session: &mut Session<'_>,
    sources: &Sources,
    number: usize,
    line: &[u8],
) -> Result<String, Fault>
    ensures { IfOk result (λ text. (string_bytes text, session.new) ≡ answered sources.now number
        line.now session.old) }
{
    match command_of(alloc, session.image(), line)? {
        Some(command) => reply(alloc, session, sources, number, &command),
        None => refusal_line(alloc, number, &Fault::BadCommand { line: number }),
    }
}

/// Does what a command says, and gives the text of the answer.
fn reply(
    alloc: Global,
    session: &mut Session<'_>,
    sources: &Sources,
    number: usize,
    command: &Command,
) -> Result<String, Fault>
    ensures { IfOk result (λ text. (string_bytes text, session.new) ≡ replied sources.now number
        command.now session.old) }
{
    match command {
        Command::Step(choice) => {
            let done = session.step(alloc, *choice);
            moved_line(alloc, session, number, done)
        }
        Command::Back(count) => {
            let done = session.back(alloc, *count as usize);
            moved_line(alloc, session, number, done)
        }
        Command::Forward(count) => {
            let done = session.forward(alloc, *count as usize);
            moved_line(alloc, session, number, done)
        }
        Command::Go(choices) => {
            let stop = session.go(alloc, choices)?;
            went_line(alloc, session, &stop)
        }
        Command::Until(pid) => ran_line(alloc, session, sources, number, (*pid, Bound::Event)),
        Command::Run(pid) => ran_line(alloc, session, sources, number, (*pid, Bound::Meeting)),
        Command::Swap(choice) => {
            let done = session.swap(alloc, *choice as usize);
            moved_line(alloc, session, number, done)
        }
        Command::Tidy => {
            let done = session.tidy(alloc);
            moved_line(alloc, session, number, done)
        }
        Command::Undo(choice) => {
            let done = session.undo(alloc, *choice as usize);
            moved_line(alloc, session, number, done)
        }
        Command::Break(place) => {
            session.set_break(alloc, *place)?;
            Ok(String::from_str(alloc, "ok\n")?)
        }
        Command::Clear(place) => {
            session.clear_break(*place);
            Ok(String::from_str(alloc, "ok\n")?)
        }
        Command::Show => shown_lines(alloc, session),
        Command::Look(pid) => looked(alloc, session, sources, number, *pid),
        Command::Where => Ok(standings(alloc, session, sources)?),
        Command::Signals => Ok(signal_lines(alloc, session)?),
        Command::Open => Ok(open_lines(alloc, session, sources)?),
        Command::Items(first, past) => {
            let program = Program::new(session.image(), sources);
            Ok(item_lines(alloc, &program, *first, *past)?)
        }
        Command::Trace(count) => traced(alloc, session, sources, number, *count),
        Command::Plan(name) => planned(alloc, session, number, name.as_str()),
        Command::Help => Ok(help_lines(alloc)?),
    }
}

/// The answer to `look P`: what the process holds, or that there is none.
fn looked(
    alloc: Global,
    session: &Session<'_>,
    sources: &Sources,
    number: usize,
    pid: u32,
) -> Result<String, Fault>
    ensures { IfOk result (λ text. string_bytes text
        ≡ looked number (program_of sources.now session.now) pid (slice_get (world_of session.now).processes pid)) }
{
    let Some(shown) = session.world().process(pid) else {
        return refusal_line(alloc, number, &Fault::BadCommand { line: number });
    };
    let program = Program::new(session.image(), sources);
    let mut out = String::new(alloc);
    push_look(alloc, &mut out, &program, pid, &shown)?;
    Ok(out)
}

/// The answer to a move: where the session stands, or why it was refused.
fn moved_line(
    alloc: Global,
    session: &Session<'_>,
    number: usize,
    done: Result<(), Fault>,
) -> Result<String, Fault>
    ensures { IfOk result (λ text. (before : History) → (said : Result (History × Unit {0}) Fault) → Moves before session.now done said
        → (string_bytes text, session.now) ≡ moved number before said) }
{
    match done {
        Ok(()) => Ok(standing_line(alloc, session)?),
        Err(fault) => refusal_line(alloc, number, &fault),
    }
}

/// Where the session stands: `at K of N`.
fn standing_line(alloc: Global, session: &Session<'_>) -> Result<String, AllocError>
    ensures { IfOk result (λ text. string_bytes text ≡ standing session.now ++ codes "\n") }
{
    let at = session.at();
    let len = session.len();
    let text = format!(in alloc; "at {at} of {len}\n")?;
    Ok(text)
}

/// A refusal by number and name, and the line that was refused. Out of memory is none, and is handed on.
fn refusal_line(alloc: Global, number: usize, fault: &Fault) -> Result<String, Fault>
    ensures text { IfOk result (λ text. string_bytes text ≡ refused_line number fault.now) }
    ensures refusal { IfOk result (λ _. IsSome (refusal fault.now)) }
{
    let Some(refusal) = fault.number() else {
        return Err(Fault::Memory);
    };
    let text = titled_line(alloc, number, refusal, fault.name())?;
    Ok(text)
}

/// `refused R22 BeforeStart line 5`.
fn titled_line(alloc: Global, number: usize, refusal: u8, name: &str) -> Result<String, AllocError>
    ensures { IfOk result (λ text. string_bytes text ≡ refused_text number
        (Some (refusal, name.now))) }
{
    let text = format!(in alloc; "refused R{refusal} {name} line {number}\n")?;
    Ok(text)
}

/// The answer to `go`: where the session stands, and why it stopped there.
fn went_line(alloc: Global, session: &Session<'_>, stop: &Stop) -> Result<String, Fault>
    ensures { IfOk result (λ text. string_bytes text ≡ went_line (session.now, stop.now)) }
{
    let words = stop_words(alloc, session.image(), stop)?;
    Ok(stopped_line(alloc, session, words.as_str())?)
}

/// Where the session stands, and why: `at K of N: WHY`.
fn stopped_line(alloc: Global, session: &Session<'_>, why: &str) -> Result<String, AllocError>
    ensures { IfOk result (λ text. string_bytes text ≡ stopped_line session.now why.now) }
{
    let at = session.at();
    let len = session.len();
    let text = format!(in alloc; "at {at} of {len}: {why}\n")?;
    Ok(text)
}

/// Runs a process up to that bound, and gives the answer: where the session stands and why it went no further, or that there is no
/// such process.
fn ran_line(
    alloc: Global,
    session: &mut Session<'_>,
    sources: &Sources,
    number: usize,
    order: (u32, Bound),
) -> Result<String, Fault>
    ensures { IfOk result (λ text. (string_bytes text, session.new)
        ≡ ran sources.now number order.1 order.0 session.old (slice_get (world_of session.old).processes order.0)) }
{
    let (pid, bound) = order;
    let Some(_) = session.world().process(pid) else {
        return refusal_line(alloc, number, &Fault::BadCommand { line: number });
    };
    let pause = session.run(alloc, pid, bound)?;
    let words = pause_words(alloc, session, sources, order, &pause)?;
    Ok(stopped_line(alloc, session, words.as_str())?)
}

/// The outcome of the choices before the position.
fn shown_lines(alloc: Global, session: &Session<'_>) -> Result<String, Fault>
    ensures { IfOk result (λ text. string_bytes text
        ≡ outcome_lines session.now.image.atoms session.now.at None (seen (world_of session.now))) }
{
    let outcome = session.world().outcome(alloc)?;
    outcome_text(
        alloc,
        session.image().atoms(),
        session.at() as u64,
        None,
        &outcome,
    )
}

/// How each process stands.
fn standings(alloc: Global, session: &Session<'_>, sources: &Sources) -> Result<String, AllocError>
    ensures { IfOk result (λ text. string_bytes text
        ≡ where_answer (program_of sources.now session.now) (world_of session.now).processes) }
{
    let program = Program::new(session.image(), sources);
    let mut out = String::new(alloc);
    push_where(alloc, &mut out, &program, session.world())?;
    Ok(out)
}

/// The signals that wait.
fn signal_lines(alloc: Global, session: &Session<'_>) -> Result<String, AllocError>
    ensures { IfOk result (λ text. string_bytes text
        ≡ signals_answer session.now.image.atoms (world_of session.now).lanes.channels) }
{
    let mut out = String::new(alloc);
    let channels = session.world().channels();
    push_signals(alloc, &mut out, session.image().atoms(), channels)?;
    Ok(out)
}

/// The choices that are enabled, each with what it would meet.
fn open_lines(alloc: Global, session: &Session<'_>, sources: &Sources) -> Result<String, AllocError>
    ensures { IfOk result (λ text. string_bytes text
        ≡ open_answer (program_of sources.now session.now) (world_of session.now)) }
{
    let program = Program::new(session.image(), sources);
    let mut out = String::new(alloc);
    push_open(alloc, &mut out, &program, session.world())?;
    Ok(out)
}

/// The items from an address up to a number.
fn item_lines(
    alloc: Global,
    program: &Program<'_>,
    first: Place,
    past: u32,
) -> Result<String, AllocError>
    ensures { IfOk result
        (λ text. string_bytes text ≡ list_answer program.now first.«module» first.item past) }
{
    let mut out = String::new(alloc);
    push_list(alloc, &mut out, program, first, past)?;
    Ok(out)
}

/// The last choices before the position, of which there must be so many.
fn traced(
    alloc: Global,
    session: &Session<'_>,
    sources: &Sources,
    number: usize,
    count: u32,
) -> Result<String, Fault>
    ensures { IfOk result (λ text. string_bytes text
        ≡ traced number (program_of sources.now session.now) count session.now) }
{
    let at = session.at();
    let count = count as usize;
    if count > at {
        return refusal_line(alloc, number, &Fault::BeforeStart);
    }
    let program = Program::new(session.image(), sources);
    let mut out = String::new(alloc);
    push_trace(alloc, &mut out, &program, session, at - count)?;
    Ok(out)
}

/// The choices before the position as a line of a plan, which takes 100,000 at most.
fn planned(alloc: Global, session: &Session<'_>, number: usize, name: &str) -> Result<String, Fault>
    ensures { IfOk result
        (λ text. string_bytes text ≡ planned number name.now (behind session.now)) }
{
    let choices = session.schedule().all().front(session.at());
    if choices.len() > MOST_CHOICES {
        return refusal_line(alloc, number, &Fault::TooLong { line: number });
    }
    let mut out = String::new(alloc);
    push_plan(alloc, &mut out, name, choices)?;
    Ok(out)
}

/// The commands.
fn help_lines(alloc: Global) -> Result<String, AllocError>
    ensures { IfOk result (λ text. string_bytes text ≡ help_answer) }
{
    let mut out = String::new(alloc);
    push_help(&mut out)?;
    Ok(out)
}

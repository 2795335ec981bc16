//! The program over a runtime: its words, its files, and the status that it ends with.
ghost use Rattle.std.specs.Prelude.{◌≡◌, ◌≢◌, ◌≤◌, ◌↔◌, ◌⊎◌, ◌++◌, ◌∷◌, [], IfErr, IfOk, IsOk, IsOkAnd, IsSomeAnd, codes, map, option_map, option_to_list, string_bytes};
ghost use Rattle.std.specs.Io.KnownBytes.{Keeps};
ghost use Rattle.std.specs.IoError.{error_kind};
ghost use Rattle.std.specs.declared.io.ErrorKind.TheVariants.{OutOfMemory};
ghost use Rattle.clap.specs.Words.{kind_of, subcommand_of};
ghost use Rattle.bx_terms.specs.declared.faults.Fault.TheVariants.{Memory};
ghost use Rattle.bxemu.specs.CommandLines.{IsMistaken, RefusesWords, TellsByLine, names_in, program};
ghost use Rattle.bxemu.specs.Statuses.{EndsByKind, by_name, status_after};

use crate::commands::{Order, command_of};
use crate::opened::{Opened, open_all, open_with_plan};
use crate::progress::Progress;
use crate::prompt::Asking;
use bx_board::{FreeGate, Gate};
use bx_chart::chart_text;
use bx_debugger::{Prompted, debug_text};
use bx_engine::{Failure, Form, Workers, dis_text, fault_line, start_of, tidy_text};
use bx_terms::Fault;
use clap::Error;
use clap::error::ErrorKind;
use std::alloc::{AllocError, Global};
use std::io::{IsTerminal, Read, Write};
use std::rt::{Env, Files};
use std::sync::Wait;
use std::thread::Threads;
use std::time::Clock;
use std::{env, io};

/// What an order runs: its start, and the names of its files.
#[derive(Clone, Copy)]
struct Task<'a> {
    start: &'a str,
    names: &'a [String],
}

/// Where a session's lines come from, and where its answers go.
#[derive(Drop)]
struct Talk<'t, I, O> {
    input: &'t mut I,
    output: &'t mut O,
}

/// Does what the command line orders, with its text on `output` and lines on `errors`, and gives the status to end with,
/// 0 to 4. `input` is read for a session, and for a plan whose file is `-`.
pub fn status_of_program<R, I, O, W>(rt: &R, input: &mut I, output: &mut O, errors: &mut W) -> u8
where
    R: Files + Env + Print + Eprint + Clock + AllocGlobal + Threads + Wait + Sync,
    I: Read + IsTerminal,
    O: Write,
    W: Write + IsTerminal,
    ensures { result ≤ 4 }
{
    let words = words_of(rt);
    status_of_words(rt, &words, input, output, errors)
}

/// Does what the words of a command line order, and gives the status to end with. Where it is none of 0 and 4, nothing was
/// written to `output`, unless the words order a session, whose answers go out line by line. Words that order nothing end with
/// 2 or 3, unless they may ask for a help; words that cannot be read with 3 where memory ran out, and else with 2.
fn status_of_words<R, I, O, W>(
    rt: &R,
    words: &io::Result<Vec<String>>,
    input: &mut I,
    output: &mut O,
    errors: &mut W,
) -> u8
where
    R: Files + Print + Eprint + Clock + AllocGlobal + Threads + Wait + Sync,
    I: Read + IsTerminal,
    O: Write,
    W: Write + IsTerminal,
    ensures few { result ≤ 4 }
    ensures unwritten { (result ≡ 0) ⊎ (result ≡ 4)
        ⊎ IsOkAnd words.now (λ words. IsSomeAnd (subcommand_of program (map string_bytes words.items)) (λ named. named.0 ≡ codes "debug"))
        ⊎ Keeps (O.contents output.old) (O.contents output.new) }
    ensures refused { IfOk words.now (λ words. IsMistaken (map string_bytes words.items)
        → RefusesWords (map string_bytes words.items) result) }
    ensures unread { IfErr words.now (λ error. (error_kind error ≡ OutOfMemory → result ≡ 3)
        × (error_kind error ≢ OutOfMemory → result ≡ 2)) }
{
    let words = match words {
        Ok(words) => words,
        Err(error) => return refuse_words(error, errors),
    };
    match command_of(rt.alloc(), words.as_slice()) {
        Ok(order) => status_of_order(rt, &order, input, output, errors),
        Err(error) => explain(rt, &error, errors),
    }
}

/// Does what an order says, and gives the status to end with. Where it is none of 0 and 4, nothing was written to `output`, but
/// for a session, whose answers go out line by line. A campaign is watched where `errors` is a terminal, and a session's lines are
/// asked for there where `input` is one too.
fn status_of_order<R, I, O, W>(
    rt: &R,
    order: &Order<'_>,
    input: &mut I,
    output: &mut O,
    errors: &mut W,
) -> u8
where
    R: Files + Eprint + Clock + AllocGlobal + Threads + Wait + Sync,
    I: Read + IsTerminal,
    O: Write,
    W: Write + IsTerminal,
    ensures few { result ≤ 4 }
    ensures unwritten { (result ≡ 0) ⊎ (result ≡ 4) ⊎ TellsByLine order.now ⊎ Keeps
        (O.contents output.old) (O.contents output.new) }
{
    let Ok(names) = files_of(rt.alloc(), order) else {
        return fault_line(&memory(), &[], errors);
    };
    let names = names.as_slice();
    match order {
        Order::Run { start, form, .. } => {
            let ended = run(rt, *form, Task { start, names }, input, output);
            told(&ended, names, errors)
        }
        Order::Campaign {
            start,
            workers,
            form,
            ..
        } if errors.is_terminal() => {
            let gate = Progress::new(rt);
            let workers = Workers::new(rt, *workers, *form, &gate);
            let ended = campaign(rt, &workers, Task { start, names }, input, output);
            told(&ended, names, errors)
        }
        Order::Campaign {
            start,
            workers,
            form,
            ..
        } => {
            let workers = Workers::new(rt, *workers, *form, &FreeGate);
            let ended = campaign(rt, &workers, Task { start, names }, input, output);
            told(&ended, names, errors)
        }
        Order::Tidy { start, .. } => {
            let ended = tidy(rt, Task { start, names }, input, output);
            told(&ended, names, errors)
        }
        Order::Chart {
            start,
            schedule,
            ..
        } => {
            let ended = chart(rt, *schedule, Task { start, names }, input, output);
            told(&ended, names, errors)
        }
        Order::Debug { start, .. } => {
            let asks = input.is_terminal() && errors.is_terminal();
            let ended = debug(rt, start, names, asks, Talk { input, output });
            told(&ended, names, errors)
        }
        Order::Dis { .. } => told(&dis(rt, names, output), names, errors),
    }
}

/// What an order names, in the order by which a failure numbers it. The lines of a session stand behind its listings.
fn files_of(alloc: Global, order: &Order<'_>) -> Result<Vec<String>, AllocError>
    ensures { IfOk result (λ names. map string_bytes names.items ≡ names_in order.now) }
{
    match order {
        Order::Run { plan, files, .. } => names_of(alloc, files.as_slice(), plan),
        Order::Campaign { plan, files, .. } => names_of(alloc, files.as_slice(), plan),
        Order::Tidy { plan, files, .. } => names_of(alloc, files.as_slice(), plan),
        Order::Chart {
            plan,
            schedule,
            files,
            ..
        } => names_with(alloc, files.as_slice(), plan, *schedule),
        Order::Debug { files, .. } => names_of(alloc, files.as_slice(), "-"),
        Order::Dis { file } => names_of(alloc, &[], file),
    }
}

/// The status that an order ends with: 0 where it was done, and else that of its failure, whose line is written to `errors`.
fn told<W: Write>(ended: &Result<(), Failure>, names: &[String], errors: &mut W) -> u8
    ensures status { result ≡ status_after ended.now }
    ensures done { (result ≡ 0) ↔ IsOk ended.now }
    ensures few { result ≤ 4 }
{
    match ended {
        Ok(()) => 0,
        Err(failure) => fault_line(failure, names, errors),
    }
}

/// The words of the command line, the program's name first.
fn words_of<R: Env + AllocGlobal>(rt: &R) -> io::Result<Vec<String>> {
    Ok(env::args(rt)?.collect(rt.alloc())?)
}

/// Answers words that can't be had, as they are no UTF-8 or memory ran out.
fn refuse_words<W: Write>(error: &io::Error, errors: &mut W) -> u8
    ensures memory { error_kind error.now ≡ OutOfMemory → result ≡ 3 }
    ensures other { error_kind error.now ≢ OutOfMemory → result ≡ 2 }
    ensures few { result ≤ 4 }
{
    if error.kind() == io::ErrorKind::OutOfMemory {
        return fault_line(&memory(), &[], errors);
    }
    let _ = errors.write_all(b"error: invalid UTF-8 was detected in one or more arguments\n");
    2
}

/// Shows a usage fault, or the help that was asked for.
fn explain<R: Print + Eprint, W: Write>(rt: &R, error: &Error, errors: &mut W) -> u8
    ensures memory { kind_of error.now ≡ ErrorKind.OutOfMemory → result ≡ 3 }
    ensures shown { (kind_of error.now ≡ ErrorKind.DisplayHelp)
        ⊎ (kind_of error.now ≡ ErrorKind.DisplayVersion) → (result ≡ 0) ⊎ (result ≡ 4) }
    ensures mistake { kind_of error.now ≢ ErrorKind.OutOfMemory
        → kind_of error.now ≢ ErrorKind.DisplayHelp
        → kind_of error.now ≢ ErrorKind.DisplayVersion → result ≡ 2 }
    ensures by_kind { EndsByKind (kind_of error.now) result }
    ensures few { result ≤ 4 }
{
    if error.kind() == ErrorKind::OutOfMemory {
        return fault_line(&memory(), &[], errors);
    }
    let printed = error.print(rt);
    if error.use_stderr() {
        return 2;
    }
    match printed {
        Ok(()) => 0,
        Err(_) => fault_line(&Failure::Write, &[], errors),
    }
}

/// Out of memory, which is no file's fault.
pub(crate) fn memory() -> Failure
    ensures { result ≡ Failure.Refused Memory None }
{
    Failure::Refused(Fault::Memory, None)
}

/// The files' names in the order by which a failure numbers them: the listings, and then the plan, or the only file.
fn names_of(alloc: Global, files: &[&str], last: &str) -> Result<Vec<String>, AllocError>
    ensures { IfOk result (λ names. map string_bytes names.items
        ≡ map (λ file. file.now) files.now ++ last.now ∷ []) }
{
    let mut names = Vec::new(alloc);
    for file in files {
        names.push(String::from_str(alloc, file)?)?;
    }
    names.push(String::from_str(alloc, last)?)?;
    Ok(names)
}

/// The same, and behind them the name of a schedule, where one is named.
fn names_with(
    alloc: Global,
    files: &[&str],
    plan: &str,
    schedule: Option<&str>,
) -> Result<Vec<String>, AllocError>
    ensures { IfOk result (λ names. map string_bytes names.items ≡ (map (λ file. file.now) files.now ++ plan.now ∷ [])
        ++ option_to_list (option_map (λ name. name.now) schedule.entry)) }
{
    let mut names = names_of(alloc, files, plan)?;
    if let Some(name) = schedule {
        names.push(String::from_str(alloc, name)?)?;
    }
    Ok(names)
}

/// The names without that of the schedule, where one is named.
fn without_schedule<'n>(names: &'n [String], schedule: Option<&str>) -> &'n [String] {
    match (schedule, names.split_last()) {
        (Some(_), Some((_, files))) => files,
        _ => names,
    }
}

/// Looks at the start, opens all the files, the plan last, and then writes in that form what comes of the run.
fn run<R, I, O>(
    rt: &R,
    form: Form,
    task: Task<'_>,
    input: &mut I,
    output: &mut O,
) -> Result<(), Failure>
where
    R: Files + AllocGlobal,
    I: Read,
    O: Write,
    ensures { IfErr result (λ failure. (failure ≡ Failure.Write) ⊎ Keeps (O.contents output.old)
        (O.contents output.new)) }
{
    let Task { start, names } = task;
    let _ = start_of(rt.alloc(), start)?;
    let mut inputs = open_with_plan(rt, names, input)?;
    match inputs.split_last_mut() {
        Some((plan, listings)) => form.run_text(rt.alloc(), listings, start, plan, output),
        None => Ok(()),
    }
}

/// Looks at the start, opens all the files, the plan last, and then writes what comes of the workers' campaign.
fn campaign<R, G, I, O>(
    rt: &R,
    workers: &Workers<'_, R, G>,
    task: Task<'_>,
    input: &mut I,
    output: &mut O,
) -> Result<(), Failure>
where
    R: Files + AllocGlobal + Threads + Wait + Sync,
    G: Gate,
    I: Read,
    O: Write,
    ensures { IfErr result (λ failure. (failure ≡ Failure.Write) ⊎ Keeps (O.contents output.old)
        (O.contents output.new)) }
{
    let Task { start, names } = task;
    let _ = start_of(rt.alloc(), start)?;
    let mut inputs = open_with_plan(rt, names, input)?;
    match inputs.split_last_mut() {
        Some((plan, listings)) => workers.campaign_text(rt.alloc(), listings, start, plan, output),
        None => Ok(()),
    }
}

/// Looks at the start, opens all the files, the plan last, and then writes the plan of the tidied schedules.
fn tidy<R, I, O>(rt: &R, task: Task<'_>, input: &mut I, output: &mut O) -> Result<(), Failure>
where
    R: Files + AllocGlobal,
    I: Read,
    O: Write,
    ensures { IfErr result (λ failure. (failure ≡ Failure.Write) ⊎ Keeps (O.contents output.old)
        (O.contents output.new)) }
{
    let Task { start, names } = task;
    let _ = start_of(rt.alloc(), start)?;
    let mut inputs = open_with_plan(rt, names, input)?;
    match inputs.split_last_mut() {
        Some((plan, listings)) => tidy_text(rt.alloc(), listings, start, plan, output),
        None => Ok(()),
    }
}

/// Looks at the start, opens all the files, the plan last, and then writes the drawing of the schedule, or of the plan's only one.
fn chart<R, I, O>(
    rt: &R,
    schedule: Option<&str>,
    task: Task<'_>,
    input: &mut I,
    output: &mut O,
) -> Result<(), Failure>
where
    R: Files + AllocGlobal,
    I: Read,
    O: Write,
    ensures { IfErr result (λ failure. (failure ≡ Failure.Write) ⊎ Keeps (O.contents output.old)
        (O.contents output.new)) }
{
    let Task { start, names } = task;
    let files = without_schedule(names, schedule);
    let _ = start_of(rt.alloc(), start)?;
    let mut inputs = open_with_plan(rt, files, input)?;
    let Some((plan, listings)) = inputs.split_last_mut() else {
        return Ok(());
    };
    match chart_text(rt.alloc(), listings, start, plan, schedule, output) {
        Ok(()) => Ok(()),
        Err(failure) => Err(by_name(failure, files.len())),
    }
}

/// The failure of a drawing. That the plan lacks the schedule is told as of the command's line, and of the schedule's name, which has
/// that number.
fn by_name(failure: Failure, number: usize) -> Failure
    ensures { result ≡ by_name number failure }
{
    match failure {
        Failure::Refused(Fault::BadCommand { .. }, _) => {
            Failure::Refused(Fault::BadCommand { line: 1 }, Some(number))
        }
        failure => failure,
    }
}

/// Opens the file, and then writes the code form of its listing.
fn dis<R, W>(rt: &R, names: &[String], writer: &mut W) -> Result<(), Failure>
where
    R: Files + AllocGlobal,
    W: Write,
    ensures { IfErr result (λ failure. (failure ≡ Failure.Write) ⊎ Keeps (W.contents writer.old)
        (W.contents writer.new)) }
{
    let mut inputs = open_all(rt, names)?;
    match inputs.split_last_mut() {
        Some((listing, _)) => dis_text(rt.alloc(), listing, writer),
        None => Ok(()),
    }
}

/// Looks at the start, opens the listings, which are all the files but the last, and then answers the lines of commands, which are
/// asked for where it says so.
fn debug<R, I, O>(
    rt: &R,
    start: &str,
    names: &[String],
    asks: bool,
    talk: Talk<'_, I, O>,
) -> Result<(), Failure>
where
    R: Files + Eprint + AllocGlobal,
    I: Read,
    O: Write,
{
    let _ = start_of(rt.alloc(), start)?;
    let Some((_, listings)) = names.split_last() else {
        return Ok(());
    };
    let mut inputs = open_all(rt, listings)?;
    let listings = inputs.as_mut_slice();
    let Talk { input, output } = talk;
    if asks {
        let prompt = &Asking::new(rt);
        return Prompted { prompt }.debug_text(rt.alloc(), listings, start, input, output);
    }
    debug_text(rt.alloc(), listings, start, input, output)
}

#[cfg(test)]
mod tests;

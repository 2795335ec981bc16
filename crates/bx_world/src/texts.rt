//! The texts of choices and outcomes.

ghost use Rattle.std.specs.Prelude.{◌≡◌, ◌++◌, Ok, OnOk, string_bytes};
ghost use Rattle.bx_terms.specs.Outcomes.{Gives};
ghost use Rattle.bx_terms.specs.Printed.{printed};
ghost use Rattle.bx_world.specs.Texts.{spelling, spellings, state_words, status_words, process_line, process_lines, output_lines, outcome_lines};

use crate::choices::Choice;
use crate::outcomes::{Outcome, Standing};
use bx_proc::Status;
use bx_terms::{Atoms, Fault, Term, View, print, push_name, push_pid};
use std::alloc::{AllocError, Global};

/// Room for the text of an outcome of some ten processes. A longer one grows past it.
const USUAL_LENGTH: usize = 512;

/// The text of a choice: `r0` runs process 0, `d0>1` delivers from 0 to 1, `e0` lets the wait of process 0 expire.
///
/// It can only run out of memory.
pub fn choice_text(alloc: Global, choice: Choice) -> Result<String, Fault>
    ensures { Gives (Unit {0}) (λ text. string_bytes text) result (Ok (spelling choice)) }
{
    let mut out = String::new(alloc);
    push_choice(&mut out, choice)?;
    Ok(out)
}

/// The text of an outcome after `applied` choices, and of the choice that was refused, where one was. Its lines are
/// `applied K`; `state stopped C` for a refused choice, else `state trapped KIND <0.P.0>`, `state quiet` or
/// `state open C C ..`; for each process `process <0.P.0> ready`, `.. waiting` or `.. ended REASON`; for each displayed
/// term `output <0.P.0> TERM`; and `end`. Each is ended by a line feed.
///
/// It can only run out of memory.
pub fn outcome_text(
    alloc: Global,
    atoms: &Atoms,
    applied: u64,
    refused: Option<Choice>,
    outcome: &Outcome,
) -> Result<String, Fault>
    ensures { Gives (Unit {0}) (λ text. string_bytes text) result
        (Ok (outcome_lines atoms.now applied refused outcome.now)) }
{
    let mut out = String::with_capacity(alloc, USUAL_LENGTH)?;
    write!(out, "applied {applied}\nstate ")?;
    push_state(alloc, &mut out, refused, &outcome.state)?;
    out.push_str("\n")?;
    push_processes(alloc, &mut out, atoms, outcome.statuses.as_slice())?;
    push_output(alloc, &mut out, atoms, outcome.output.as_slice())?;
    out.push_str("end\n")?;
    Ok(out)
}

fn push_choice(out: &mut String, choice: Choice) -> Result<(), AllocError>
    ensures { OnOk result (string_bytes out.new ≡ string_bytes out.old ++ spelling choice) }
{
    match choice {
        Choice::Run(pid) => write!(out, "r{pid}"),
        Choice::Deliver(from, to) => write!(out, "d{from}>{to}"),
        Choice::Expire(pid) => write!(out, "e{pid}"),
    }
}

fn push_choices(out: &mut String, choices: &[Choice]) -> Result<(), AllocError>
    ensures { OnOk result (string_bytes out.new ≡ string_bytes out.old ++ spellings choices.now) }
{
    for choice in choices {
        out.push_str(" ")?;
        push_choice(out, *choice)?;
    }
    Ok(())
}

fn push_state(
    alloc: Global,
    out: &mut String,
    refused: Option<Choice>,
    state: &Standing,
) -> Result<(), AllocError>
    ensures { OnOk result
        (string_bytes out.new ≡ string_bytes out.old ++ state_words refused state.now) }
{
    if let Some(choice) = refused {
        out.push_str("stopped ")?;
        return push_choice(out, choice);
    }
    match state {
        Standing::Trapped(kind, pid) => {
            let name = kind.name();
            write!(out, "trapped {name} ")?;
            push_pid(alloc, out, *pid)
        }
        Standing::Quiet => out.push_str("quiet"),
        Standing::Open(choices) => {
            out.push_str("open")?;
            push_choices(out, choices.as_slice())
        }
    }
}

fn push_status(
    alloc: Global,
    out: &mut String,
    atoms: &Atoms,
    status: &Status,
) -> Result<(), AllocError>
    ensures { OnOk result
        (string_bytes out.new ≡ string_bytes out.old ++ status_words atoms.now status.now) }
{
    match status {
        Status::Ready => out.push_str("ready"),
        Status::Waiting => out.push_str("waiting"),
        Status::Ended(reason) => {
            out.push_str("ended ")?;
            push_term(alloc, out, atoms, reason)
        }
    }
}

#[tactic(auto, using(bx_share::specs::Rows::rest_at))]
fn push_processes(
    alloc: Global,
    out: &mut String,
    atoms: &Atoms,
    statuses: &[Status],
) -> Result<(), AllocError>
    ensures { OnOk result
        (string_bytes out.new ≡ string_bytes out.old ++ process_lines atoms.now 0 statuses.now) }
{
    for pid in 0..statuses.len() {
        push_process(alloc, out, atoms, pid, &statuses[pid])?;
    }
    Ok(())
}

fn push_process(
    alloc: Global,
    out: &mut String,
    atoms: &Atoms,
    pid: usize,
    status: &Status,
) -> Result<(), AllocError>
    ensures { OnOk result
        (string_bytes out.new ≡ string_bytes out.old ++ process_line atoms.now pid status.now) }
{
    write!(out, "process <0.{pid}.0> ")?;
    push_status(alloc, out, atoms, status)?;
    out.push_str("\n")?;
    Ok(())
}

fn push_output(
    alloc: Global,
    out: &mut String,
    atoms: &Atoms,
    output: &[(u32, Term)],
) -> Result<(), AllocError>
    ensures { OnOk result
        (string_bytes out.new ≡ string_bytes out.old ++ output_lines atoms.now output.now) }
{
    for (pid, term) in output {
        write!(out, "output <0.{pid}.0> ")?;
        push_term(alloc, out, atoms, term)?;
        out.push_str("\n")?;
    }
    Ok(())
}

fn push_term(alloc: Global, out: &mut String, atoms: &Atoms, term: &Term) -> Result<(), AllocError>
    ensures { OnOk result
        (string_bytes out.new ≡ string_bytes out.old ++ printed atoms.now term.now) }
{
    if let View::Atom(id) = term.view() {
        return push_name(alloc, out, atoms.text(id));
    }
    let text = print(alloc, atoms, term)?;
    out.push_str(text.as_str())
}

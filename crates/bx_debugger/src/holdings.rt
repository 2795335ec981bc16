//! `look P`: all that a process holds.

ghost use Rattle.std.specs.Prelude.{◌≡◌, ◌++◌, ◌∷◌, [], OnOk, codes, option_map, string_bytes};
ghost use Rattle.bx_cells.specs.Indexed.{listed};
ghost use Rattle.bx_world.specs.Seen.{life_of};
ghost use Rattle.bx_debugger.specs.Words.{place_words, term_lines};
ghost use Rattle.bx_debugger.specs.Look.{fault_line, frame_lines, life_holds, link_lines, look_answer, other_lines, own_lines, place_line, trapping_line, x_lines, y_lines};

use crate::programs::Program;
use crate::standings::push_life_line;
use crate::words::{class_word, push_place_or_dash, push_term, push_terms, push_value};
use bx_cells::{Frames, Value};
use bx_mail::Mailbox;
use bx_proc::{Pending, Proc};
use bx_terms::{Atoms, Place, push_pid};
use bx_world::Shown;
use std::alloc::{AllocError, Global};

/// Adds a line of an address behind a word, where there is one.
fn push_place_line(
    alloc: Global,
    out: &mut String,
    program: &Program<'_>,
    word: &str,
    place: Option<Place>,
) -> Result<(), AllocError>
    ensures { OnOk result
        (string_bytes out.new ≡ string_bytes out.old ++ place_line program.now word.now place) }
{
    let Some(place) = place else {
        return Ok(());
    };
    out.push_str(word)?;
    out.push_str(" ")?;
    program.push_place(alloc, out, place)?;
    out.push_str("\n")
}

fn push_x(
    alloc: Global,
    out: &mut String,
    program: &Program<'_>,
    number: usize,
    cell: &Option<Value>,
) -> Result<(), AllocError>
    ensures { OnOk result (string_bytes out.new
        ≡ string_bytes out.old ++ x_lines program.now (listed number (cell.now ∷ []))) }
{
    let Some(value) = cell else {
        return Ok(());
    };
    write!(out, "x{number} ")?;
    push_value(alloc, out, program, value)?;
    out.push_str("\n")
}

fn push_xs(
    alloc: Global,
    out: &mut String,
    program: &Program<'_>,
    cells: &[Option<Value>],
) -> Result<(), AllocError>
    ensures { OnOk result
        (string_bytes out.new ≡ string_bytes out.old ++ x_lines program.now (listed 0 cells.now)) }
{
    for number in 0..cells.len() {
        push_x(alloc, out, program, number, &cells[number])?;
    }
    Ok(())
}

fn push_y(
    alloc: Global,
    out: &mut String,
    program: &Program<'_>,
    number: usize,
    cell: &Option<Value>,
) -> Result<(), AllocError>
    ensures { OnOk result (string_bytes out.new
        ≡ string_bytes out.old ++ y_lines program.now number (cell.now ∷ [])) }
{
    write!(out, "y{number}")?;
    if let Some(value) = cell {
        out.push_str(" ")?;
        push_value(alloc, out, program, value)?;
    }
    out.push_str("\n")
}

fn push_ys(
    alloc: Global,
    out: &mut String,
    program: &Program<'_>,
    cells: &[Option<Value>],
) -> Result<(), AllocError>
    ensures { OnOk result
        (string_bytes out.new ≡ string_bytes out.old ++ y_lines program.now 0 cells.now) }
{
    for number in 0..cells.len() {
        push_y(alloc, out, program, number, &cells[number])?;
    }
    Ok(())
}

fn push_frame(
    alloc: Global,
    out: &mut String,
    program: &Program<'_>,
    saved: Option<Place>,
    cells: &[Option<Value>],
) -> Result<(), AllocError>
    ensures { OnOk result (string_bytes out.new ≡ string_bytes out.old
        ++ (codes "frame " ++ place_words program.now saved ++ codes "\n" ++ y_lines program.now 0 cells.now)) }
{
    out.push_str("frame ")?;
    push_place_or_dash(alloc, out, program, saved)?;
    out.push_str("\n")?;
    push_ys(alloc, out, program, cells)
}

fn push_frames(
    alloc: Global,
    out: &mut String,
    program: &Program<'_>,
    stack: &Frames,
) -> Result<(), AllocError>
    ensures { OnOk result
        (string_bytes out.new ≡ string_bytes out.old ++ frame_lines program.now stack.now) }
{
    let mut left = stack.copy(alloc)?;
    while let Some((_, saved)) = left.top() {
        push_frame(alloc, out, program, saved, left.top_cells())?;
        left.pop();
    }
    Ok(())
}

fn push_mail(
    alloc: Global,
    out: &mut String,
    atoms: &Atoms,
    mailbox: &Mailbox,
) -> Result<(), AllocError>
    ensures { OnOk result (string_bytes out.new ≡ string_bytes out.old ++ (term_lines atoms.now (codes "passed") mailbox.now.passed
        ++ term_lines atoms.now (codes "message") mailbox.now.rest)) }
{
    let messages = mailbox.messages(alloc)?;
    let (passed, rest) = messages.split_at(mailbox.passed());
    push_terms(alloc, out, atoms, "passed", passed)?;
    push_terms(alloc, out, atoms, "message", rest)
}

fn push_links(alloc: Global, out: &mut String, pids: &[u32]) -> Result<(), AllocError>
    ensures { OnOk result (string_bytes out.new ≡ string_bytes out.old ++ link_lines pids.now) }
{
    for pid in pids {
        out.push_str("link ")?;
        push_pid(alloc, out, *pid)?;
        out.push_str("\n")?;
    }
    Ok(())
}

fn push_trapping(out: &mut String, traps: bool) -> Result<(), AllocError>
    ensures { OnOk result (string_bytes out.new ≡ string_bytes out.old ++ trapping_line traps) }
{
    if traps {
        return out.push_str("traps exits\n");
    }
    Ok(())
}

fn push_fault(
    alloc: Global,
    out: &mut String,
    atoms: &Atoms,
    fault: Option<&Pending>,
) -> Result<(), AllocError>
    ensures { OnOk result (string_bytes out.new
        ≡ string_bytes out.old ++ fault_line atoms.now (option_map (λ f. f.now) fault.entry)) }
{
    let Some(fault) = fault else {
        return Ok(());
    };
    out.push_str("fault ")?;
    out.push_str(class_word(fault.class))?;
    out.push_str(" ")?;
    push_term(alloc, out, atoms, &fault.value)?;
    out.push_str("\n")
}

fn push_own(
    alloc: Global,
    out: &mut String,
    program: &Program<'_>,
    process: &Proc,
) -> Result<(), AllocError>
    ensures { OnOk result
        (string_bytes out.new ≡ string_bytes out.old ++ own_lines program.now process.now) }
{
    push_place_line(alloc, out, program, "expires", process.expiry())?;
    push_place_line(alloc, out, program, "cp", process.continuation())?;
    push_xs(alloc, out, program, process.registers().as_slice())?;
    push_frames(alloc, out, program, process.stack())
}

fn push_other(
    alloc: Global,
    out: &mut String,
    atoms: &Atoms,
    process: &Proc,
) -> Result<(), AllocError>
    ensures { OnOk result
        (string_bytes out.new ≡ string_bytes out.old ++ other_lines atoms.now process.now) }
{
    push_mail(alloc, out, atoms, process.messages())?;
    push_links(alloc, out, process.links())?;
    push_trapping(out, process.traps_exits())?;
    push_fault(alloc, out, atoms, process.pending())
}

fn push_holdings(
    alloc: Global,
    out: &mut String,
    program: &Program<'_>,
    shown: &Shown<'_>,
) -> Result<(), AllocError>
    ensures { OnOk result (string_bytes out.new
        ≡ string_bytes out.old ++ life_holds program.now (life_of shown.now)) }
{
    match shown {
        Shown::Live(process) => {
            push_own(alloc, out, program, *process)?;
            push_other(alloc, out, program.image().atoms(), *process)
        }
        Shown::Exited(_) => Ok(()),
    }
}

/// Adds the answer to `look P`: how the process stands, all that it holds, and `end`.
pub(crate) fn push_look(
    alloc: Global,
    out: &mut String,
    program: &Program<'_>,
    pid: u32,
    shown: &Shown<'_>,
) -> Result<(), AllocError>
    ensures { OnOk result (string_bytes out.new
        ≡ string_bytes out.old ++ look_answer program.now pid (life_of shown.now)) }
{
    out.push_str("process ")?;
    push_life_line(alloc, out, program, pid, shown)?;
    push_holdings(alloc, out, program, shown)?;
    out.push_str("end\n")
}

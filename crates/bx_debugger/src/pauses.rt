//! Why choices, or the runs of a process, were not made further.

ghost use Rattle.std.specs.Prelude.{◌≡◌, ◌++◌, IfOk, OnOk, codes, option_map, string_bytes};
ghost use Rattle.bx_terms.specs.Printed.{printed};
ghost use Rattle.bx_world.specs.Seen.{life_of, status_of};
ghost use Rattle.bx_debugger.specs.Stops.{idle_words, meeting_words, pause_words, stop_words};

use crate::programs::Program;
use crate::words::{push_here, push_term};
use bx_debug::{Bound, Pause, Session, Stop};
use bx_engine::Sources;
use bx_load::Image;
use bx_terms::{Atoms, Fault, Term};
use bx_world::{Shown, Status, choice_text};
use std::alloc::{AllocError, Global};

/// Why `go` stopped.
pub(crate) fn stop_words(alloc: Global, image: &Image, stop: &Stop) -> Result<String, Fault>
    ensures { IfOk result (λ text. string_bytes text ≡ stop_words image.now stop.now) }
{
    match stop {
        Stop::Done => Ok(String::from_str(alloc, "done")?),
        Stop::Break(pid, place) => {
            let place = image.place_name(alloc, *place)?;
            let name = place.as_str();
            Ok(format!(in alloc; "break <0.{pid}.0> {name}")?)
        }
        Stop::NotEnabled(choice) => {
            let choice = choice_text(alloc, *choice)?;
            let name = choice.as_str();
            Ok(format!(in alloc; "stopped {name}")?)
        }
        Stop::Trapped(kind, pid) => {
            let name = kind.name();
            Ok(format!(in alloc; "trapped {name} <0.{pid}.0>")?)
        }
    }
}

fn push_ended(
    alloc: Global,
    out: &mut String,
    atoms: &Atoms,
    reason: &Term,
) -> Result<(), AllocError>
    ensures { OnOk result (string_bytes out.new
        ≡ string_bytes out.old ++ (codes "ended " ++ printed atoms.now reason.now)) }
{
    out.push_str("ended ")?;
    push_term(alloc, out, atoms, reason)
}

/// Adds how a process stands that cannot run.
fn push_idle(
    alloc: Global,
    out: &mut String,
    atoms: &Atoms,
    shown: Option<Shown<'_>>,
) -> Result<(), AllocError>
    ensures { OnOk result (string_bytes out.new
        ≡ string_bytes out.old ++ idle_words atoms.now (option_map status_of (option_map life_of shown.entry))) }
{
    match shown {
        Some(Shown::Exited(reason)) => push_ended(alloc, out, atoms, reason),
        Some(Shown::Live(process)) => match process.status() {
            Status::Ended(reason) => push_ended(alloc, out, atoms, reason),
            Status::Ready | Status::Waiting => out.push_str("waits"),
        },
        None => out.push_str("waits"),
    }
}

/// An event is yet to be run, and what concerns others was.
fn meeting_word(bound: Bound) -> &'static str
    ensures { result.now ≡ meeting_words bound }
{
    match bound {
        Bound::Event => "at ",
        Bound::Meeting => "met ",
    }
}

/// Why a process ran no further, in the session behind it.
pub(crate) fn pause_words(
    alloc: Global,
    session: &Session<'_>,
    sources: &Sources,
    order: (u32, Bound),
    pause: &Pause,
) -> Result<String, Fault>
    ensures { IfOk result
        (λ text. string_bytes text ≡ pause_words sources.now order.1 order.0 session.now pause.now) }
{
    let (pid, bound) = order;
    let image = session.image();
    match pause {
        Pause::Stopped(stop) => stop_words(alloc, image, stop),
        Pause::Idle => {
            let mut out = String::new(alloc);
            push_idle(alloc, &mut out, image.atoms(), session.world().process(pid))?;
            Ok(out)
        }
        Pause::Meets(place) => {
            let program = Program::new(image, sources);
            let mut out = String::from_str(alloc, meeting_word(bound))?;
            push_here(alloc, &mut out, &program, Some(*place))?;
            Ok(out)
        }
    }
}

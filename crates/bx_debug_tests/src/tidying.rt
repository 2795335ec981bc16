//! Tidied schedules, and choices that are taken back with what depends on them: worked examples.

use bx_load::Image;
use bx_plan::{Schedule, read_plan};
use bx_proc::Proc;
use bx_share::RcHold;
use bx_swaps::{tidy, undo};
use bx_terms::Fault;
use bx_world::{Choice, Lanes, RcWorld, RunEnd, advance};
use bxemu_testkit::{atom, image};
use std::alloc::Global;
use std::test::Fail;

/// `f/0` spawns two processes by its tenth run, which each send it a letter and end, and waits for the first letter.
pub const SENDERS: &str = "{module,m}. {exports,[{f,0},{g,2}]}. {attributes,[]}. {labels,9}.
{function,f,0,2}. {label,1}. {func_info,{atom,m},{atom,f},0}. {label,2}.
{bif,self,{f,0},[],{x,3}}. {put_list,{atom,a},nil,{x,2}}. {put_list,{x,3},{x,2},{x,2}}. {move,{atom,g},{x,1}}.
{move,{atom,m},{x,0}}. {call_ext,3,{extfunc,erlang,spawn,3}}.
{put_list,{atom,b},nil,{x,2}}. {put_list,{x,3},{x,2},{x,2}}. {move,{atom,m},{x,0}}. {call_ext,3,{extfunc,erlang,spawn,3}}.
{label,3}. {loop_rec,{f,4},{x,0}}. remove_message. return. {label,4}. {wait,{f,3}}.
{function,g,2,6}. {label,5}. {func_info,{atom,m},{atom,g},2}. {label,6}. send. return.";

/// `f/0` spawns a process that ends at once, by its fourth run, links itself to it, and waits.
const LINKS: &str = "{module,m}. {exports,[{f,0},{g,0}]}. {attributes,[]}. {labels,9}.
{function,f,0,2}. {label,1}. {func_info,{atom,m},{atom,f},0}. {label,2}.
{move,nil,{x,2}}. {move,{atom,g},{x,1}}. {move,{atom,m},{x,0}}.
{call_ext,3,{extfunc,erlang,spawn,3}}. {call_ext,1,{extfunc,erlang,link,1}}. {label,3}. {wait,{f,3}}.
{function,g,0,6}. {label,5}. {func_info,{atom,m},{atom,g},0}. {label,6}. return.";

/// `f/0` spawns a process of two instructions, by its fourth run, and waits for a message or a millisecond.
const WAITS: &str = "{module,m}. {exports,[{f,0},{g,0}]}. {attributes,[]}. {labels,9}.
{function,f,0,2}. {label,1}. {func_info,{atom,m},{atom,f},0}. {label,2}.
{move,nil,{x,2}}. {move,{atom,g},{x,1}}. {move,{atom,m},{x,0}}. {call_ext,3,{extfunc,erlang,spawn,3}}.
{label,3}. {wait_timeout,{f,3},{integer,1}}. timeout. return.
{function,g,0,6}. {label,5}. {func_info,{atom,m},{atom,g},0}. {label,6}. {move,nil,{x,0}}. return.";

/// `f/0` spawns a process, by its fourth run, and both loop, each by itself.
pub const LOOPS: &str = "{module,m}. {exports,[{f,0},{g,0}]}. {attributes,[]}. {labels,9}.
{function,f,0,2}. {label,1}. {func_info,{atom,m},{atom,f},0}. {label,2}.
{move,nil,{x,2}}. {move,{atom,g},{x,1}}. {move,{atom,m},{x,0}}. {call_ext,3,{extfunc,erlang,spawn,3}}.
{label,3}. {move,{integer,1},{x,0}}. {jump,{f,3}}.
{function,g,0,6}. {label,5}. {func_info,{atom,m},{atom,g},0}. {label,6}. {move,{atom,ok},{x,0}}. {jump,{f,6}}.";

/// `f/0` spawns a process that loops, by its fourth run, and its sixth run traps, since x5 holds nothing.
pub const TRAPS: &str = "{module,m}. {exports,[{f,0},{g,0}]}. {attributes,[]}. {labels,9}.
{function,f,0,2}. {label,1}. {func_info,{atom,m},{atom,f},0}. {label,2}.
{move,nil,{x,2}}. {move,{atom,g},{x,1}}. {move,{atom,m},{x,0}}. {call_ext,3,{extfunc,erlang,spawn,3}}.
{move,nil,{x,0}}. {move,{x,5},{x,0}}.
{function,g,0,6}. {label,5}. {func_info,{atom,m},{atom,g},0}. {label,6}. {move,{atom,ok},{x,0}}. {jump,{f,6}}.";

/// A module, a schedule from `f/0`, and what it is tidied to.
type Tidied = (&'static str, &'static str, &'static str);

const TIDIED: [Tidied; 13] = [
    // each run of one process is brought past those of the other
    (LOOPS, "r0*4 r1 r0 r1 r0", "r0*6 r1*2"),
    (LOOPS, "r0*4 r1*3 r0*2 r1 r0*3", "r0*9 r1*4"),
    // not past the run that spawns it
    (LOOPS, "r0*3 r0 r1 r0", "r0*5 r1"),
    // a run that ends its process past another's send, which stays before the other end
    (SENDERS, "r0*10 r1 r2 r1 r2", "r0*10 r1*2 r2*2"),
    // a delivery waits for its send, the run that reads the message for the delivery
    (
        SENDERS,
        "r0*10 r1*2 r2 d1>0 r2 r0",
        "r0*10 r1*2 d1>0 r0 r2*2",
    ),
    // two sends stay in their order, and the delivery that comes a part of the way would part four choices in place of three
    (
        SENDERS,
        "r0*10 r1 r2 d1>0 d2>0 r0",
        "r0*10 r1 r2 d1>0 d2>0 r0",
    ),
    // a link past the end of the process that it is to, and the wait past the delivery
    (LINKS, "r0*4 r1 r0 d0>1 r0", "r0*6 r1 d0>1"),
    // the end of a wait
    (WAITS, "r0*5 r1 e0 r1 r0", "r0*5 e0 r0 r1*2"),
    // what lies behind a refused choice stays
    (LOOPS, "r0*4 r1 r0 r9 r1 r0 r1", "r0*5 r1 r9 r1 r0 r1"),
    // a run that traps stays behind the others, and what lies behind it
    (TRAPS, "r0*4 r1 r0 r1 r0 r1 r0", "r0*5 r1*2 r0 r1 r0"),
    // nothing to do
    (LOOPS, "", ""),
    (LOOPS, "r0", "r0"),
    (LOOPS, "r7 r8", "r7 r8"),
];

/// What comes of taking back a choice: a schedule, and how many choices stand before those that are set aside; or no such choice.
#[derive(Clone, Copy)]
enum Want {
    Made(&'static str, usize),
    NotAt,
}

/// A module, a schedule from `f/0`, a position, and what comes of it.
type Undone = (&'static str, &'static str, usize, Want);

const UNDONE: [Undone; 15] = [
    // the runs of the other process go on without it
    (LOOPS, "r0*4 r1 r0 r1 r0", 4, Want::Made("r0*6 r1*2", 6)),
    // all depends on a spawn; the last run comes a part of the way
    (LOOPS, "r0*4 r1 r0", 3, Want::Made("r0*5 r1", 3)),
    (LOOPS, "r0*4 r1 r0", 0, Want::Made("r0*5 r1", 0)),
    // the last choice
    (LOOPS, "r0*4 r1 r0", 5, Want::Made("r0*4 r1 r0", 5)),
    // the other send depends on a send, and a delivery too; it comes a part of the way
    (
        SENDERS,
        "r0*10 r1 r2 d1>0 d2>0 r0",
        10,
        Want::Made("r0*10 r1 d1>0 r2 d2>0 r0", 10),
    ),
    // a link does not depend on the end of its process, its delivery does
    (
        LINKS,
        "r0*4 r1 r0 d0>1 r0",
        4,
        Want::Made("r0*6 r1 d0>1", 6),
    ),
    (
        LINKS,
        "r0*4 r1 r0 d0>1 r0",
        5,
        Want::Made("r0*4 r1 r0*2 d0>1", 5),
    ),
    // the end of a wait
    (
        WAITS,
        "r0*5 r1 e0 r1 r0",
        5,
        Want::Made("r0*5 e0 r0 r1*2", 7),
    ),
    // a refused choice, those behind it, and none at all
    (LOOPS, "r0*4 r1 r9 r0", 4, Want::Made("r0*4 r1 r9 r0", 4)),
    (LOOPS, "r0*4 r1 r9 r0", 5, Want::NotAt),
    (LOOPS, "r0*4 r1 r9 r0", 6, Want::NotAt),
    (LOOPS, "r0*4 r1 r9 r0", 7, Want::NotAt),
    // a choice that traps is applied, and all others stay before it
    (
        TRAPS,
        "r0*4 r1 r0 r1 r0 r1",
        7,
        Want::Made("r0*4 r1 r0 r1 r0 r1", 7),
    ),
    (
        TRAPS,
        "r0*4 r1 r0 r1 r0 r1",
        4,
        Want::Made("r0*5 r1*2 r0 r1", 5),
    ),
    (TRAPS, "r0*4 r1 r0 r1 r0 r1", 8, Want::NotAt),
];

/// The schedule that these entries make.
fn schedule(alloc: Global, entries: &str) -> Result<Schedule, Fault> {
    let mut text = String::from_str(alloc, "s:")?;
    if !entries.is_empty() {
        text.push_str(" ")?;
    }
    text.push_str(entries)?;
    let plan = read_plan(alloc, text.as_bytes())?;
    plan.schedule(alloc, 0)
        .unwrap_or(Err(Fault::BadLine { line: 1 }))
}

/// The start of `f` of `m`.
fn begin(alloc: Global, image: &Image) -> Result<RunEnd<RcHold<Proc>, RcHold<Lanes>>, Fault> {
    Ok(RunEnd {
        world: RcWorld::start(alloc, image, atom(image, "m"), atom(image, "f"))?,
        applied: 0,
        refused: None,
    })
}

/// Where choices lead from `f` of `m`.
fn end_of(
    alloc: Global,
    image: &Image,
    choices: &[Choice],
) -> Result<RunEnd<RcHold<Proc>, RcHold<Lanes>>, Fault> {
    let mut end = begin(alloc, image)?;
    for choice in choices {
        if end.applied < u64::MAX {
            advance(alloc, &mut end, image, *choice)?;
        }
    }
    Ok(end)
}

/// Whether two schedules lead to equal worlds by as many choices.
fn lead_alike(
    alloc: Global,
    image: &Image,
    one: &Schedule,
    other: &Schedule,
) -> Result<bool, Fault> {
    let one = end_of(alloc, image, &one.to_choices(alloc)?)?;
    let other = end_of(alloc, image, &other.to_choices(alloc)?)?;
    Ok(one.same(&other))
}

/// Whether a schedule is tidied to what a row says, and that leads where the given one leads.
fn is_tidied(alloc: Global, row: &Tidied) -> Result<bool, Fault> {
    let (listing, entries, wanted) = *row;
    let image = image(alloc, &[listing])?;
    let given = schedule(alloc, entries)?;
    let made = tidy(alloc, &image, atom(&image, "m"), atom(&image, "f"), &given)?;
    let wanted = schedule(alloc, wanted)?;
    Ok(made.same(&wanted) && lead_alike(alloc, &image, &given, &made)?)
}

/// Whether each choice of the first so many is applied.
fn are_applied(
    alloc: Global,
    image: &Image,
    schedule: &Schedule,
    count: usize,
) -> Result<bool, Fault> {
    let choices = schedule.to_choices(alloc)?;
    let end = end_of(alloc, image, &choices[..count.min(choices.len())])?;
    Ok(end.applied == count as u64)
}

/// Whether a choice is taken back as a row says, to a schedule that leads where the given one leads.
fn is_undone(alloc: Global, row: &Undone) -> Result<bool, Fault> {
    let (listing, entries, position, want) = *row;
    let image = image(alloc, &[listing])?;
    let given = schedule(alloc, entries)?;
    let (m, f) = (atom(&image, "m"), atom(&image, "f"));
    match (undo(alloc, &image, m, f, &given, position), want) {
        (Err(Fault::Memory), _) => Err(Fault::Memory),
        (Ok((made, before)), Want::Made(entries, wanted)) => {
            let is_right = before == wanted && made.same(&schedule(alloc, entries)?);
            let alike = lead_alike(alloc, &image, &given, &made)?;
            Ok(is_right && alike && are_applied(alloc, &image, &made, before)?)
        }
        (Err(Fault::NotIndependent { position: at }), Want::NotAt) => Ok(at == position),
        _ => Ok(false),
    }
}

/// The first row that is not right, or how many there are.
fn tidied_rows(alloc: Global) -> Result<usize, Fault> {
    for (number, row) in TIDIED.iter().enumerate() {
        if !is_tidied(alloc, row)? {
            return Ok(number);
        }
    }
    Ok(TIDIED.len())
}

fn undone_rows(alloc: Global) -> Result<usize, Fault> {
    for (number, row) in UNDONE.iter().enumerate() {
        if !is_undone(alloc, row)? {
            return Ok(number);
        }
    }
    Ok(UNDONE.len())
}

#[test]
fn schedules_are_tidied(rt: HostRuntime) -> Result<(), Fail> {
    assert_eq!(rt; tidied_rows(rt.alloc())?, TIDIED.len());
    Ok(())
}

#[test]
fn choices_are_taken_back_with_what_depends_on_them(rt: HostRuntime) -> Result<(), Fail> {
    assert_eq!(rt; undone_rows(rt.alloc())?, UNDONE.len());
    Ok(())
}

/// Whether a start that is not exported is told of, whatever the schedule and the position.
fn lacks_a_start(alloc: Global, entries: &str, position: usize) -> Result<bool, Fault> {
    let image = image(alloc, &[LOOPS])?;
    let given = schedule(alloc, entries)?;
    let m = atom(&image, "m");
    let tidied = tidy(alloc, &image, m, m, &given);
    let undone = undo(alloc, &image, m, m, &given, position);
    Ok(matches!(tidied, Err(Fault::NoEntry)) && matches!(undone, Err(Fault::NoEntry)))
}

#[test]
fn a_start_that_is_not_exported_is_refused(rt: HostRuntime) -> Result<(), Fail> {
    assert!(rt; lacks_a_start(rt.alloc(), "r0*4", 0)?);
    assert!(rt; lacks_a_start(rt.alloc(), "", 7)?);
    Ok(())
}

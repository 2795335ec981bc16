//! Exchanges of independent choices: worked examples, and a long schedule against two plain runs.

use bx_load::Image;
use bx_plan::{Schedule, read_plan};
use bx_proc::Proc;
use bx_share::RcHold;
use bx_swaps::check_swaps;
use bx_terms::Fault;
use bx_world::{Choice, Lanes, RcWorld, RunEnd, advance};
use bxemu_testkit::{atom, image};
use std::alloc::Global;
use std::test::Fail;

/// `f/0` spawns two processes that each send it a letter and end, and shows the first letter that comes.
const SENDERS: &str = "{module,m}. {exports,[{f,0},{g,2}]}. {attributes,[]}. {labels,9}.
{function,f,0,2}. {label,1}. {func_info,{atom,m},{atom,f},0}. {label,2}.
{bif,self,{f,0},[],{x,3}}. {put_list,{atom,a},nil,{x,2}}. {put_list,{x,3},{x,2},{x,2}}. {move,{atom,g},{x,1}}.
{move,{atom,m},{x,0}}. {call_ext,3,{extfunc,erlang,spawn,3}}.
{put_list,{atom,b},nil,{x,2}}. {put_list,{x,3},{x,2},{x,2}}. {move,{atom,m},{x,0}}. {call_ext,3,{extfunc,erlang,spawn,3}}.
{label,3}. {loop_rec,{f,4},{x,0}}. remove_message. {call_ext_only,1,{extfunc,erlang,display,1}}. {label,4}. {wait,{f,3}}.
{function,g,2,6}. {label,5}. {func_info,{atom,m},{atom,g},2}. {label,6}. send. return.";

/// `f/0` spawns a process that ends at once, links itself to it, and waits.
const LINKS: &str = "{module,m}. {exports,[{f,0},{g,0}]}. {attributes,[]}. {labels,9}.
{function,f,0,2}. {label,1}. {func_info,{atom,m},{atom,f},0}. {label,2}.
{move,nil,{x,2}}. {move,{atom,g},{x,1}}. {move,{atom,m},{x,0}}.
{call_ext,3,{extfunc,erlang,spawn,3}}. {call_ext,1,{extfunc,erlang,link,1}}. {label,3}. {wait,{f,3}}.
{function,g,0,6}. {label,5}. {func_info,{atom,m},{atom,g},0}. {label,6}. return.";

/// `f/0` spawns a process of two instructions, and waits for a message or a millisecond.
const WAITS: &str = "{module,m}. {exports,[{f,0},{g,0}]}. {attributes,[]}. {labels,9}.
{function,f,0,2}. {label,1}. {func_info,{atom,m},{atom,f},0}. {label,2}.
{move,nil,{x,2}}. {move,{atom,g},{x,1}}. {move,{atom,m},{x,0}}. {call_ext,3,{extfunc,erlang,spawn,3}}.
{label,3}. {wait_timeout,{f,3},{integer,1}}. timeout. return.
{function,g,0,6}. {label,5}. {func_info,{atom,m},{atom,g},0}. {label,6}. {move,nil,{x,0}}. return.";

/// `f/0` spawns a process, and both loop, each by itself.
const LOOPS: &str = "{module,m}. {exports,[{f,0},{g,0}]}. {attributes,[]}. {labels,9}.
{function,f,0,2}. {label,1}. {func_info,{atom,m},{atom,f},0}. {label,2}.
{move,nil,{x,2}}. {move,{atom,g},{x,1}}. {move,{atom,m},{x,0}}. {call_ext,3,{extfunc,erlang,spawn,3}}.
{label,3}. {move,{integer,1},{x,0}}. {jump,{f,3}}.
{function,g,0,6}. {label,5}. {func_info,{atom,m},{atom,g},0}. {label,6}. {move,{atom,ok},{x,0}}. {jump,{f,6}}.";

/// `f/0` has a second instruction that traps, since x5 holds nothing; it spawns nobody.
const TRAPS: &str = "{module,m}. {exports,[{f,0}]}. {attributes,[]}. {labels,9}.
{function,f,0,2}. {label,1}. {func_info,{atom,m},{atom,f},0}. {label,2}. {move,nil,{x,0}}. {move,{x,5},{x,0}}.";

/// What is answered: a schedule, or a refusal with the position at fault.
#[derive(Clone, Copy)]
enum Want {
    Made(&'static str),
    NotAt(usize),
    NoEntry,
}

/// A module, the function at which it starts, a schedule, positions, and what is answered.
type Row = (
    &'static str,
    &'static str,
    &'static str,
    &'static [usize],
    Want,
);

const ROWS: [Row; 21] = [
    // two runs of which one is local
    (
        SENDERS,
        "f",
        "r0*10 r1 r0",
        &[10],
        Want::Made("r0*10 r0 r1"),
    ),
    // a delivery to one process, and a run of another
    (
        LINKS,
        "f",
        "r0*4 r1 r0 d0>1 r0",
        &[6],
        Want::Made("r0*4 r1 r0*2 d0>1"),
    ),
    // a run of a process, and a delivery to it
    (SENDERS, "f", "r0*10 r1 r0 d1>0 r0", &[11], Want::NotAt(11)),
    // a send beside a delivery elsewhere, and two sends
    (
        SENDERS,
        "f",
        "r0*10 r1 r2 d1>0",
        &[11],
        Want::Made("r0*10 r1 d1>0 r2"),
    ),
    (SENDERS, "f", "r0*10 r1 r2 d1>0", &[10], Want::NotAt(10)),
    // a delivery that what stands before it makes possible
    (SENDERS, "f", "r0*10 r1 d1>0", &[10], Want::NotAt(10)),
    // an expiration, also beside a run that ends its process
    (WAITS, "f", "r0*5 r1 e0", &[5], Want::Made("r0*5 e0 r1")),
    (
        WAITS,
        "f",
        "r0*5 r1*2 e0",
        &[6],
        Want::Made("r0*5 r1 e0 r1"),
    ),
    // two exchanges, of which the second meets what the first has made
    (WAITS, "f", "r0*5 r1 e0 r1", &[5, 6], Want::NotAt(6)),
    (
        WAITS,
        "f",
        "r0*5 r1*2 e0",
        &[6, 5],
        Want::Made("r0*5 e0 r1*2"),
    ),
    (
        WAITS,
        "f",
        "r0*5 r1 e0 r1",
        &[5, 5],
        Want::Made("r0*5 r1 e0 r1"),
    ),
    // a run of a process that the other choice spawns
    (LINKS, "f", "r0*4 r1", &[3], Want::NotAt(3)),
    // no exchange
    (
        SENDERS,
        "f",
        "r0*10 r1 r2 d1>0",
        &[],
        Want::Made("r0*10 r1 r2 d1>0"),
    ),
    (SENDERS, "f", "r7 r8", &[], Want::Made("r7 r8")),
    // a start that is not exported, whatever the positions
    (SENDERS, "h", "r0*10 r1 r0", &[10], Want::NoEntry),
    (SENDERS, "h", "r0", &[99], Want::NoEntry),
    // positions past the last pair
    (SENDERS, "f", "r0*10 r1 r0", &[11], Want::NotAt(11)),
    (
        SENDERS,
        "f",
        "r0*10 r1 r0",
        &[18_446_744_073_709_551_615],
        Want::NotAt(18_446_744_073_709_551_615),
    ),
    (SENDERS, "f", "r0*10 r1 r0", &[10, 40], Want::NotAt(40)),
    // behind a choice that was refused, and where the first of two traps
    (SENDERS, "f", "r0*10 r9 r1 r0", &[11], Want::NotAt(11)),
    (TRAPS, "f", "r0*2 r1", &[1], Want::NotAt(1)),
];

/// The schedule that these entries make.
fn schedule(alloc: Global, entries: &str) -> Result<Schedule, Fault> {
    let mut text = String::from_str(alloc, "s: ")?;
    text.push_str(entries)?;
    let plan = read_plan(alloc, text.as_bytes())?;
    plan.schedule(alloc, 0)
        .unwrap_or(Err(Fault::BadLine { line: 1 }))
}

/// Where a schedule leads from `f` of `m`.
fn end_of(
    alloc: Global,
    image: &Image,
    schedule: &Schedule,
) -> Result<RunEnd<RcHold<Proc>, RcHold<Lanes>>, Fault> {
    let mut end = RunEnd {
        world: RcWorld::start(alloc, image, atom(image, "m"), atom(image, "f"))?,
        applied: 0,
        refused: None,
    };
    for choice in &schedule.to_choices(alloc)? {
        if end.applied < u64::MAX {
            advance(alloc, &mut end, image, *choice)?;
        }
    }
    Ok(end)
}

/// Whether two schedules lead to equal worlds by as many choices.
fn lead_alike(
    alloc: Global,
    image: &Image,
    one: &Schedule,
    other: &Schedule,
) -> Result<bool, Fault> {
    let one = end_of(alloc, image, one)?;
    let other = end_of(alloc, image, other)?;
    Ok(one.same(&other))
}

/// Whether a row is answered as it says, and a schedule that is answered leads where the given one led.
fn is_right(alloc: Global, row: &Row) -> Result<bool, Fault> {
    let (listing, start, entries, positions, want) = *row;
    let image = image(alloc, &[listing])?;
    let given = schedule(alloc, entries)?;
    let (m, f) = (atom(&image, "m"), atom(&image, start));
    match (check_swaps(alloc, &image, m, f, &given, positions), want) {
        (Err(Fault::Memory), _) => Err(Fault::Memory),
        (Ok(made), Want::Made(entries)) => {
            let wanted = schedule(alloc, entries)?;
            let alike = lead_alike(alloc, &image, &given, &made)?;
            Ok(alike && made.same(&wanted))
        }
        (Err(Fault::NotIndependent { position }), Want::NotAt(wanted)) => Ok(position == wanted),
        (Err(Fault::NoEntry), Want::NoEntry) => Ok(true),
        _ => Ok(false),
    }
}

/// The first row that is not right, or how many there are.
fn right_rows(alloc: Global) -> Result<usize, Fault> {
    for (number, row) in ROWS.iter().enumerate() {
        if !is_right(alloc, row)? {
            return Ok(number);
        }
    }
    Ok(ROWS.len())
}

#[test]
fn exchanges_are_checked(rt: HostRuntime) -> Result<(), Fail> {
    assert_eq!(rt; right_rows(rt.alloc())?, ROWS.len());
    Ok(())
}

/// Numbers that look as if they were drawn.
fn next(seed: u64) -> u64 {
    seed.wrapping_mul(6_364_136_223_846_793_005)
        .wrapping_add(1_442_695_040_888_963_407)
}

/// Four runs of process 0, by which process 1 is there, and runs of both in an order that was drawn.
fn drawn(alloc: Global, count: usize) -> Result<Vec<Choice>, Fault> {
    let mut choices = vec![in alloc; Choice::Run(0); 4]?;
    let mut seed = 1;
    for _turn in 0..count {
        seed = next(seed);
        let pid = if seed >> 63 == 0 { 0 } else { 1 };
        choices.push(Choice::Run(pid))?;
    }
    Ok(choices)
}

/// Positions, drawn from those at which two processes run one after the other behind the first four choices; each exchange is made
/// in the choices.
fn drawn_positions(
    alloc: Global,
    choices: &mut Vec<Choice>,
    draws: usize,
) -> Result<Vec<usize>, Fault> {
    let mut positions = Vec::new(alloc);
    let mut seed = 2;
    for _turn in 0..draws {
        seed = next(seed);
        let at = (seed >> 33) as usize % 100_000 + 4;
        if at + 1 < choices.len() && choices[at] != choices[at + 1] {
            choices.swap(at, at + 1);
            positions.push(at)?;
        }
    }
    Ok(positions)
}

/// How many exchanges of those that were drawn are made in a long schedule, if it comes to what was made by hand and leads where
/// the given one led.
fn long_exchanges(alloc: Global) -> Result<Option<usize>, Fault> {
    let image = image(alloc, &[LOOPS])?;
    let mut by_hand = drawn(alloc, 100_000)?;
    let given = Schedule::from_choices(alloc, &by_hand)?;
    let positions = drawn_positions(alloc, &mut by_hand, 2_000)?;
    let (m, f) = (atom(&image, "m"), atom(&image, "f"));
    let made = check_swaps(alloc, &image, m, f, &given, &positions)?;
    let wanted = Schedule::from_choices(alloc, &by_hand)?;
    let is_right = made.same(&wanted) && lead_alike(alloc, &image, &given, &made)?;
    Ok(if is_right {
        Some(positions.len())
    } else {
        None
    })
}

#[test]
fn exchanges_in_a_long_schedule_lead_to_an_equal_world(rt: HostRuntime) -> Result<(), Fail> {
    let exchanges = long_exchanges(rt.alloc())?;
    assert!(rt; exchanges.is_some_and(|count| count > 900));
    Ok(())
}

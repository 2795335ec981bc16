//! Schedules of several processes and of several modules, and what a run and campaigns tell of each.

use crate::engines::{Engine, Streams, told_of, told_of_two};
use crate::rows::Row;
use crate::samples::{ENDS, SENDERS};
use bx_terms::Fault;
use std::alloc::Global;
use std::sync::Wait;
use std::test::Fail;
use std::thread::Threads;

/// `f/0` traps exits, spawns a linked `g/0`, which ends with `kill`, and shows the message that comes of it.
const LINKED: &str =
    "{module,m}. {exports,[{f,0},{g,0}]}. {attributes,[]}. {labels,9}. {function,f,0,2}.
{label,1}. {func_info,{atom,m},{atom,f},0}. {label,2}.
{move,{atom,true},{x,1}}. {move,{atom,trap_exit},{x,0}}.
{call_ext,2,{extfunc,erlang,process_flag,2}}. {move,nil,{x,2}}. {move,{atom,g},{x,1}}.
{move,{atom,m},{x,0}}. {call_ext,3,{extfunc,erlang,spawn_link,3}}.
{label,3}. {loop_rec,{f,4},{x,0}}. remove_message.
{call_ext_only,1,{extfunc,erlang,display,1}}. {label,4}. {wait,{f,3}}.
{function,g,0,6}. {label,5}. {func_info,{atom,m},{atom,g},0}. {label,6}.
{move,{atom,kill},{x,0}}. {call_ext_only,1,{extfunc,erlang,exit,1}}.";

/// `f/0` spawns `g/0`, which ends at once, links itself to it, and waits.
const LINKS_LATE: &str =
    "{module,m}. {exports,[{f,0},{g,0}]}. {attributes,[]}. {labels,9}. {function,f,0,2}.
{label,1}. {func_info,{atom,m},{atom,f},0}. {label,2}.
{move,nil,{x,2}}. {move,{atom,g},{x,1}}. {move,{atom,m},{x,0}}.
{call_ext,3,{extfunc,erlang,spawn,3}}. {call_ext,1,{extfunc,erlang,link,1}}. {label,3}. {wait,{f,3}}.
{function,g,0,6}. {label,5}. {func_info,{atom,m},{atom,g},0}. {label,6}.
return.";

/// `f/0` spawns a linked `g/0`, which ends with `kill`, gives the link up, and waits.
const UNLINKS: &str =
    "{module,m}. {exports,[{f,0},{g,0}]}. {attributes,[]}. {labels,9}. {function,f,0,2}.
{label,1}. {func_info,{atom,m},{atom,f},0}. {label,2}.
{move,nil,{x,2}}. {move,{atom,g},{x,1}}. {move,{atom,m},{x,0}}.
{call_ext,3,{extfunc,erlang,spawn_link,3}}. {call_ext,1,{extfunc,erlang,unlink,1}}. {label,3}. {wait,{f,3}}.
{function,g,0,6}. {label,5}. {func_info,{atom,m},{atom,g},0}. {label,6}.
{move,{atom,kill},{x,0}}. {call_ext_only,1,{extfunc,erlang,exit,1}}.";

/// By the listing, of several processes and of several schedules.
const TOGETHER: [Row; 12] = [
    (ENDS, "", ""),
    (
        ENDS,
        "b:\n",
        "schedule b\napplied 0\nstate open r0\nprocess <0.0.0> ready\nend\n",
    ),
    (
        SENDERS,
        "race: r0*10 r1 r0 d1>0 r0\n",
        "schedule race\napplied 14\nstate open r0 r1 r2\nprocess <0.0.0> waiting\nprocess <0.1.0> ready\nprocess <0.2.0> ready\nend\n",
    ),
    (
        SENDERS,
        "race: r0*10 r1 r0 d1>0 r0 r0 r0 r0\n",
        "schedule race\napplied 17\nstate open r1 r2\nprocess <0.0.0> ended normal\nprocess <0.1.0> ready\nprocess <0.2.0> ready\noutput <0.0.0> a\nend\n",
    ),
    (
        SENDERS,
        "late: r0*10 r1 d1>0 r0*3 r2 d2>0\n",
        "schedule late\napplied 17\nstate open r1 r2\nprocess <0.0.0> ended normal\nprocess <0.1.0> ready\nprocess <0.2.0> ready\noutput <0.0.0> a\nend\n",
    ),
    (
        SENDERS,
        "ab: r0*10 r1 r2 d1>0 d2>0 r0*3\nba: r0*10 r1 r2 d2>0 d1>0 r0*3\n",
        "schedule ab\napplied 17\nstate open r1 r2\nprocess <0.0.0> ended normal\nprocess <0.1.0> ready\nprocess <0.2.0> ready\noutput <0.0.0> a\nend\nschedule ba\napplied 17\nstate open r1 r2\nprocess <0.0.0> ended normal\nprocess <0.1.0> ready\nprocess <0.2.0> ready\noutput <0.0.0> b\nend\n",
    ),
    (
        LINKED,
        "a: r0*7 r1*2 d1>0 r0*3\n",
        "schedule a\napplied 13\nstate quiet\nprocess <0.0.0> ended normal\nprocess <0.1.0> ended kill\noutput <0.0.0> {'EXIT',<0.1.0>,kill}\nend\n",
    ),
    (
        LINKS_LATE,
        "a: r0*4 r1 r0 d0>1 d1>0\n",
        "schedule a\napplied 8\nstate quiet\nprocess <0.0.0> ended noproc\nprocess <0.1.0> ended normal\nend\n",
    ),
    (
        UNLINKS,
        "a: r0*6 r1*2 d1>0 d0>1\n",
        "schedule a\napplied 10\nstate quiet\nprocess <0.0.0> waiting\nprocess <0.1.0> ended kill\nend\n",
    ),
    (
        SENDERS,
        "p: r0*3\nq: r0*6\n",
        "schedule p\napplied 3\nstate open r0\nprocess <0.0.0> ready\nend\nschedule q\napplied 6\nstate open r0 r1\nprocess <0.0.0> ready\nprocess <0.1.0> ready\nend\n",
    ),
    (
        SENDERS,
        "x: r0\ny: r1\n",
        "schedule x\napplied 1\nstate open r0\nprocess <0.0.0> ready\nend\nschedule y\napplied 0\nstate stopped r1\nprocess <0.0.0> ready\nend\n",
    ),
    (
        SENDERS,
        "s: r0*3 r1 r0\n",
        "schedule s\napplied 3\nstate stopped r1\nprocess <0.0.0> ready\nend\n",
    ),
];

/// A run, and campaigns by one worker, by two and by many.
const ENGINES: [Engine; 4] = [
    Engine::Run,
    Engine::Campaign(1),
    Engine::Campaign(2),
    Engine::Campaign(64),
];

/// How many rows, from the first on, an engine tells as they should be.
fn right_rows<R: Threads + Wait + Sync>(
    rt: &R,
    alloc: Global,
    engine: Engine,
    rows: &[Row],
) -> Result<usize, Fault> {
    for (number, (listing, plan, want)) in rows.iter().enumerate() {
        let streams = Streams::new(alloc, listing.as_bytes(), plan.as_bytes());
        let text = told_of(rt, alloc, engine, streams)?;
        if text.as_str() != *want {
            return Ok(number);
        }
    }
    Ok(rows.len())
}

#[test]
fn schedules_of_several_processes(rt: HostRuntime) -> Result<(), Fail> {
    for engine in ENGINES {
        assert_eq!(&rt;
            right_rows(&rt, rt.alloc(), engine, &TOGETHER)?,
            TOGETHER.len()
        );
    }
    Ok(())
}

#[test]
fn a_campaign_of_no_worker(rt: HostRuntime) -> Result<(), Fail> {
    let streams = Streams::new(rt.alloc(), ENDS.as_bytes(), b"b:\n");
    let text = told_of(&rt, rt.alloc(), Engine::Campaign(0), streams)?;
    assert_eq!(&rt; text.as_str(), "bxemu: R34 Workers\n");
    Ok(())
}

/// `f/0` of `m` shows what `g/0` of `n` gives.
const CALLS: &str = "{module,m}. {exports,[{f,0}]}. {attributes,[]}. {labels,9}. {function,f,0,2}.
{label,1}. {func_info,{atom,m},{atom,f},0}. {label,2}.
{allocate,0,0}. {call_ext,0,{extfunc,n,g,0}}. {call_ext_last,1,{extfunc,erlang,display,1},0}.";

/// `g/0` of `n` gives `far`.
const CALLED: &str =
    "{module,n}. {exports,[{g,0}]}. {labels,3}. {function,g,0,2}. {label,1}. {func_info,{atom,n},{atom,g},0}. {label,2}. {move,{atom,far},{x,0}}. return.";

/// `CALLS`, with an export that names no function.
const NOWHERE: &str =
    "{module,m}. {exports,[{f,0},{h,0}]}. {attributes,[]}. {labels,9}. {function,f,0,2}.
{label,1}. {func_info,{atom,m},{atom,f},0}. {label,2}.
{allocate,0,0}. {call_ext,0,{extfunc,n,g,0}}. {call_ext_last,1,{extfunc,erlang,display,1},0}.";

const FAR: &str =
    "schedule a\napplied 5\nstate quiet\nprocess <0.0.0> ended normal\noutput <0.0.0> far\nend\n";

const TWO: [([&str; 2], &str); 4] = [
    ([CALLS, CALLED], FAR),
    ([CALLED, CALLS], FAR),
    ([CALLS, CALLS], "bxemu: R17 ModuleTwice\n"),
    ([CALLED, NOWHERE], "bxemu: R18 ExportMissing\n"),
];

/// How many rows, from the first on, are told of these two listings as they should be.
fn right_twos(alloc: Global, rows: &[([&str; 2], &str)]) -> Result<usize, Fault> {
    for (number, (listings, want)) in rows.iter().enumerate() {
        let text = told_of_two(alloc, *listings, "a: r0*5")?;
        if text.as_str() != *want {
            return Ok(number);
        }
    }
    Ok(rows.len())
}

#[test]
fn two_modules(rt: HostRuntime) -> Result<(), Fail> {
    assert_eq!(rt; right_twos(rt.alloc(), &TWO)?, TWO.len());
    Ok(())
}

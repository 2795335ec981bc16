//! The commands over files in memory: what each writes, and the status that it ends with.

use super::desk::{Desk, Lines, Sheet};
use crate::program::status_of_program;
use std::alloc::{AllocError, Global};
use std::process::Abort;
use std::sync::Wait;
use std::sync::atomic::{AtomicU64, Ordering};
use std::test::Fail;
use std::thread::Threads;

/// A module whose `f/0` goes on with `n:g/0`.
const M: &str =
    "{module,m}.\n{exports,[{f,0}]}.\n{attributes,[]}.\n{labels,9}.\n{function,f,0,2}.\n{label,1}.\n\
    {func_info,{atom,m},{atom,f},0}.\n{label,2}.\n{call_ext_only,0,{extfunc,n,g,0}}.\n";

/// A module whose `g/0` ends its process.
const N: &str = "{module,n}.\n{exports,[{g,0}]}.\n{labels,9}.\n{function,g,0,2}.\n{label,1}.\n\
    {func_info,{atom,n},{atom,g},0}.\n{label,2}.\n{move,{tr,{x,1},any},{x,0}}.\n{line,[{location,\"n.erl\",1}]}.\n\
    {'%',a}.\n{move,{integer,007},{x,0}}.\nreturn.\n";

/// What the code of `N` is written as.
const N_CODE: &str =
    "{module,n}.\n{exports,[{g,0}]}.\n{attributes,[]}.\n{labels,3}.\n{function,g,0,2}.\n{label,1}.\n\
    {func_info,{atom,n},{atom,g},0}.\n{label,2}.\n{move,{x,1},{x,0}}.\n{line,[]}.\n\
    {move,{integer,7},{x,0}}.\nreturn.\n";

/// In `a` process 0 comes to a register that holds nothing.
const PLAN: &str = "a: r0*2\nb:\n";

/// A module whose `f/0` spawns a process, by its fourth run; both loop, each by itself.
const LOOPS: &str = "{module,l}. {exports,[{f,0},{g,0}]}. {attributes,[]}. {labels,9}.\n\
    {function,f,0,2}. {label,1}. {func_info,{atom,l},{atom,f},0}. {label,2}. {move,nil,{x,2}}. {move,{atom,g},{x,1}}.\n\
    {move,{atom,l},{x,0}}. {call_ext,3,{extfunc,erlang,spawn,3}}. {label,3}. {move,{integer,1},{x,0}}. {jump,{f,3}}.\n\
    {function,g,0,6}. {label,5}. {func_info,{atom,l},{atom,g},0}. {label,6}. {move,{atom,ok},{x,0}}. {jump,{f,6}}.\n";

/// What is drawn choice by choice, and the same tidied. In `b` a choice is refused.
const MIXED: &str = "# drawn\n\na: r0*4 r1 r0*1 r1 r0\nb: r0*4 r1 r0 r9 r1 r0\nc:\n";

const TIDIED: &str = "a: r0*6 r1*2\nb: r0*5 r1 r9 r1 r0\nc:\n";

const REPORT: &str =
    "schedule a\napplied 2\nstate trapped Unset <0.0.0>\nprocess <0.0.0> ready\nend\n\
    schedule b\napplied 0\nstate open r0\nprocess <0.0.0> ready\nend\n";

/// `PLAN`, with a schedule that ends as `a` does, and one with other choices that ends as `b` does.
const AGAIN: &str = "a: r0*2\nb:\nc: r0*2\nd: r0\n";

/// What comes of `AGAIN`, each outcome once.
const SUMMARY: &str =
    "outcome of 2 schedules, first a\nstate trapped Unset <0.0.0>\nprocess <0.0.0> ready\nend\n\
    outcome of 2 schedules, first b\nstate open\nprocess <0.0.0> ready\nend\n4 schedules, 2 outcomes\n";

const COMMANDS: &str = "step r0\nback 2\nshow\nquit\nstep r0\n";

const ANSWERS: &str = "at 1 of 1\nrefused R22 BeforeStart line 2\napplied 1\nstate open r0\n\
    process <0.0.0> ready\nend\n";

/// The files that there are; what stands in `torn` can't be read.
const FILES: [(&str, Option<&str>); 10] = [
    ("-", Some(N)),
    ("m.S", Some(M)),
    ("n.S", Some(N)),
    ("loops.S", Some(LOOPS)),
    ("mixed", Some(MIXED)),
    ("tidied", Some(TIDIED)),
    ("empty.S", Some("")),
    ("plan", Some(PLAN)),
    ("bad", Some("a: r0\nb r0\n")),
    ("torn", None),
];

/// How a program ended, what it wrote, and how many bytes it printed and told by its runtime.
#[derive(Drop)]
struct Outcome {
    status: u8,
    output: Vec<u8>,
    errors: Vec<u8>,
    printed: u64,
    told: u64,
}

/// For how many bytes there is room, whether the runtime prints, and whether lines come from a terminal and errors go to one.
#[derive(Clone, Copy)]
struct Room {
    output: usize,
    errors: usize,
    prints: bool,
    terminal: bool,
}

/// Room for all.
const WIDE: Room = Room {
    output: 1000,
    errors: 1000,
    prints: true,
    terminal: false,
};

/// How the program ends that is called by a line of words, and reads the commands.
fn ended<R: Threads + Wait + Sync>(
    rt: &R,
    alloc: Global,
    line: &[u8],
    commands: &str,
    room: Room,
) -> Outcome {
    let desk = Desk {
        rt,
        alloc,
        line,
        files: &FILES,
        prints: room.prints,
        printed: AtomicU64::new(0),
        told: AtomicU64::new(0),
    };
    let mut input = Lines {
        text: commands.as_bytes(),
        terminal: room.terminal,
    };
    let mut output = Sheet::new(alloc, room.output, false);
    let mut errors = Sheet::new(alloc, room.errors, room.terminal);
    let status = status_of_program(&desk, &mut input, &mut output, &mut errors);
    Outcome {
        status,
        output: output.text,
        errors: errors.text,
        printed: desk.printed.load(Ordering::SeqCst),
        told: desk.told.load(Ordering::SeqCst),
    }
}

/// A line of words, what is written to standard output, and to standard error, and the status.
type Row = (&'static str, &'static str, &'static str, u8);

/// The same, where memory was enough; that it ran out is no outcome, and is handed on.
fn ends<R: Threads + Wait + Sync>(
    rt: &R,
    alloc: Global,
    line: &[u8],
    room: Room,
) -> Result<Outcome, AllocError> {
    let outcome = ended(rt, alloc, line, COMMANDS, room);
    if outcome.status == 3 {
        return Err(AllocError);
    }
    Ok(outcome)
}

/// Asserts what comes of each line.
fn assert_rows<R: Abort + Threads + Wait + Sync>(
    rt: &R,
    alloc: Global,
    rows: &[Row],
) -> Result<(), AllocError> {
    for (line, output, errors, status) in rows {
        let ended = ends(rt, alloc, line.as_bytes(), WIDE)?;
        assert!(rt; ended.output.as_slice() == output.as_bytes(), "{line}");
        assert!(rt; ended.errors.as_slice() == errors.as_bytes(), "{line}");
        assert!(rt; ended.status == *status, "{line}");
        assert!(rt; ended.printed == 0 && ended.told == 0, "{line}");
    }
    Ok(())
}

#[test]
fn orders_are_done(rt: HostRuntime) -> Result<(), Fail> {
    let rows = [
        ("bxemu run --start m:f --plan plan m.S n.S", REPORT, "", 0),
        ("bxemu run --start m:f --plan plan n.S m.S", REPORT, "", 0),
        (
            "bxemu campaign --start m:f --plan plan --workers 1 m.S n.S",
            REPORT,
            "",
            0,
        ),
        (
            "bxemu campaign --start m:f --plan plan m.S n.S",
            REPORT,
            "",
            0,
        ),
        ("bxemu debug --start m:f m.S n.S", ANSWERS, "", 0),
        ("bxemu dis n.S", N_CODE, "", 0),
        ("bxemu run --start m:f --plan plan m.S -", REPORT, "", 0),
        (
            "bxemu campaign --start m:f --plan plan --workers 2 - m.S",
            REPORT,
            "",
            0,
        ),
        ("bxemu dis -", N_CODE, "", 0),
        ("bxemu tidy --start m:f --plan plan m.S n.S", PLAN, "", 0),
        ("bxemu tidy --start l:f --plan mixed loops.S", TIDIED, "", 0),
        (
            "bxemu tidy --start l:f --plan tidied loops.S",
            TIDIED,
            "",
            0,
        ),
    ];
    assert_rows(&rt, rt.alloc(), &rows)?;
    Ok(())
}

#[test]
fn a_plan_may_come_from_standard_input(rt: HostRuntime) -> Result<(), Fail> {
    let rows = [
        ("bxemu run --start m:f --plan - m.S n.S", PLAN, REPORT),
        (
            "bxemu campaign --start m:f --plan - --workers 2 m.S n.S",
            PLAN,
            REPORT,
        ),
        ("bxemu run --start m:f --plan - m.S -", PLAN, REPORT),
        (
            "bxemu run --start m:f --plan - --summary m.S n.S",
            AGAIN,
            SUMMARY,
        ),
        (
            "bxemu campaign --summary --start m:f --plan - --workers 3 m.S n.S",
            AGAIN,
            SUMMARY,
        ),
        (
            "bxemu run --start m:f --plan - --summary m.S n.S",
            "",
            "0 schedules, 0 outcomes\n",
        ),
        ("bxemu tidy --start m:f --plan - m.S -", PLAN, PLAN),
        ("bxemu tidy --start l:f --plan - loops.S", MIXED, TIDIED),
    ];
    for (line, plan, output) in rows {
        let ended = ended(&rt, rt.alloc(), line.as_bytes(), plan, WIDE);
        assert!(rt; ended.output.as_slice() == output.as_bytes(), "{line}");
        assert!(rt; ended.status == 0 && ended.errors.is_empty(), "{line}");
    }
    Ok(())
}

#[test]
fn the_first_failure_ends_an_order(rt: HostRuntime) -> Result<(), Fail> {
    let rows = [
        (
            "bxemu run --start m:f --plan - m.S n.S",
            "",
            "bxemu: R24 BadLine line 1 in -\n",
            1,
        ),
        (
            "bxemu run --start m:f --plan - m.S away.S",
            "",
            "bxemu: read away.S\n",
            4,
        ),
        (
            "bxemu run --start m --plan away away.S",
            "",
            "bxemu: start\n",
            2,
        ),
        (
            "bxemu run --start m:f --plan away m.S away.S",
            "",
            "bxemu: read away.S\n",
            4,
        ),
        (
            "bxemu run --start m:f --plan away empty.S torn",
            "",
            "bxemu: read away\n",
            4,
        ),
        (
            "bxemu run --start m:f --plan bad torn empty.S",
            "",
            "bxemu: read torn\n",
            4,
        ),
        (
            "bxemu run --start m:f --plan torn m.S empty.S",
            "",
            "bxemu: R8 BadForm line 1 in empty.S\n",
            1,
        ),
        (
            "bxemu run --start m:f --plan torn m.S n.S",
            "",
            "bxemu: read torn\n",
            4,
        ),
        (
            "bxemu run --start m:g --plan bad m.S n.S",
            "",
            "bxemu: R24 BadLine line 2 in bad\n",
            1,
        ),
        (
            "bxemu run --start m:g --plan plan m.S n.S",
            "",
            "bxemu: R32 NoEntry\n",
            1,
        ),
        (
            "bxemu run --start m:g --plan plan --summary m.S n.S",
            "",
            "bxemu: R32 NoEntry\n",
            1,
        ),
        ("bxemu debug --start m m.S away.S", "", "bxemu: start\n", 2),
        (
            "bxemu debug --start m:f empty.S away.S",
            "",
            "bxemu: read away.S\n",
            4,
        ),
        (
            "bxemu debug --start m:f empty.S torn",
            "",
            "bxemu: R8 BadForm line 1 in empty.S\n",
            1,
        ),
        (
            "bxemu debug --start m:g m.S n.S",
            "",
            "bxemu: R32 NoEntry\n",
            1,
        ),
        ("bxemu dis away.S", "", "bxemu: read away.S\n", 4),
        ("bxemu dis torn", "", "bxemu: read torn\n", 4),
        ("bxemu dis bad", "", "bxemu: R4 BadTerm line 1 in bad\n", 1),
    ];
    assert_rows(&rt, rt.alloc(), &rows)?;
    Ok(())
}

#[test]
fn the_first_failure_ends_a_tidying(rt: HostRuntime) -> Result<(), Fail> {
    let rows = [
        (
            "bxemu tidy --start m --plan away away.S",
            "",
            "bxemu: start\n",
            2,
        ),
        (
            "bxemu tidy --start m:f --plan - m.S n.S",
            "",
            "bxemu: R24 BadLine line 1 in -\n",
            1,
        ),
        (
            "bxemu tidy --start m:f --plan away empty.S torn",
            "",
            "bxemu: read away\n",
            4,
        ),
        (
            "bxemu tidy --start m:f --plan torn m.S empty.S",
            "",
            "bxemu: R8 BadForm line 1 in empty.S\n",
            1,
        ),
        (
            "bxemu tidy --start m:f --plan torn m.S n.S",
            "",
            "bxemu: read torn\n",
            4,
        ),
        (
            "bxemu tidy --start m:g --plan bad m.S n.S",
            "",
            "bxemu: R24 BadLine line 2 in bad\n",
            1,
        ),
        (
            "bxemu tidy --start m:g --plan plan m.S n.S",
            "",
            "bxemu: R32 NoEntry\n",
            1,
        ),
    ];
    assert_rows(&rt, rt.alloc(), &rows)?;
    Ok(())
}

#[test]
fn a_schedule_is_drawn(rt: HostRuntime) -> Result<(), Fail> {
    let wide = Room {
        output: 100_000,
        ..WIDE
    };
    let rows = [
        (
            "bxemu chart --start m:f --plan plan --schedule a m.S n.S",
            COMMANDS,
        ),
        ("bxemu chart --start m:f --plan - m.S n.S", "a: r0*2\n"),
    ];
    for (line, input) in rows {
        let outcome = ended(&rt, rt.alloc(), line.as_bytes(), input, wide);
        assert!(rt; outcome.output.starts_with(b"<svg "), "{line}");
        assert!(rt; outcome.output.ends_with(b"</svg>\n"), "{line}");
        assert!(rt; outcome.status == 0 && outcome.errors.is_empty(), "{line}");
    }
    Ok(())
}

#[test]
fn the_first_failure_ends_a_drawing(rt: HostRuntime) -> Result<(), Fail> {
    let rows = [
        (
            "bxemu chart --start m --plan away --schedule a away.S",
            "",
            "bxemu: start\n",
            2,
        ),
        (
            "bxemu chart --start m:f --plan away --schedule a empty.S torn",
            "",
            "bxemu: read away\n",
            4,
        ),
        (
            "bxemu chart --start m:f --plan - --schedule a m.S n.S",
            "",
            "bxemu: R24 BadLine line 1 in -\n",
            1,
        ),
        (
            "bxemu chart --start m:g --plan plan --schedule x m.S n.S",
            "",
            "bxemu: R32 NoEntry\n",
            1,
        ),
        (
            "bxemu chart --start m:f --plan plan --schedule x m.S n.S",
            "",
            "bxemu: R33 BadCommand line 1 in x\n",
            1,
        ),
        (
            "bxemu chart --start m:f --plan plan m.S n.S",
            "",
            "bxemu: R33 BadCommand line 1\n",
            1,
        ),
    ];
    assert_rows(&rt, rt.alloc(), &rows)?;
    Ok(())
}

#[test]
fn a_tidied_plan_has_the_same_report(rt: HostRuntime) -> Result<(), Fail> {
    let given = ends(
        &rt,
        rt.alloc(),
        b"bxemu run --start l:f --plan mixed loops.S",
        WIDE,
    )?;
    let tidied = ends(
        &rt,
        rt.alloc(),
        b"bxemu run --start l:f --plan tidied loops.S",
        WIDE,
    )?;
    assert!(rt; given.status == 0 && tidied.status == 0);
    assert!(rt; given.output.as_slice() == tidied.output.as_slice());
    Ok(())
}

#[test]
fn the_first_failure_ends_a_campaign(rt: HostRuntime) -> Result<(), Fail> {
    let rows = [
        (
            "bxemu campaign --start m --plan away away.S",
            "",
            "bxemu: start\n",
            2,
        ),
        (
            "bxemu campaign --start m:f --plan away m.S away.S",
            "",
            "bxemu: read away.S\n",
            4,
        ),
        (
            "bxemu campaign --start m:f --plan away empty.S torn",
            "",
            "bxemu: read away\n",
            4,
        ),
        (
            "bxemu campaign --start m:f --plan torn m.S empty.S",
            "",
            "bxemu: R8 BadForm line 1 in empty.S\n",
            1,
        ),
        (
            "bxemu campaign --start m:f --plan torn m.S n.S",
            "",
            "bxemu: read torn\n",
            4,
        ),
        (
            "bxemu campaign --start m:g --plan bad --workers 65 m.S",
            "",
            "bxemu: R24 BadLine line 2 in bad\n",
            1,
        ),
        (
            "bxemu campaign --start m:g --plan plan --workers 65 m.S",
            "",
            "bxemu: R34 Workers\n",
            1,
        ),
        (
            "bxemu campaign --start m:f --plan plan --workers 0 m.S n.S",
            "",
            "bxemu: R34 Workers\n",
            1,
        ),
        (
            "bxemu campaign --start m:f --plan - m.S n.S",
            "",
            "bxemu: R24 BadLine line 1 in -\n",
            1,
        ),
        (
            "bxemu campaign --start m:g --plan plan m.S n.S",
            "",
            "bxemu: R32 NoEntry\n",
            1,
        ),
    ];
    assert_rows(&rt, rt.alloc(), &rows)?;
    Ok(())
}

#[test]
fn a_stream_that_fails_ends_an_order(rt: HostRuntime) -> Result<(), Fail> {
    let lines = [
        "bxemu run --start m:f --plan plan m.S n.S",
        "bxemu campaign --start m:f --plan plan m.S n.S",
        "bxemu tidy --start m:f --plan plan m.S n.S",
        "bxemu chart --start m:f --plan plan --schedule a m.S n.S",
        "bxemu debug --start m:f m.S n.S",
        "bxemu dis n.S",
    ];
    let full = Room { output: 0, ..WIDE };
    let mute = Room { errors: 0, ..full };
    for line in lines {
        let outcome = ends(&rt, rt.alloc(), line.as_bytes(), full)?;
        assert!(rt;
            outcome.errors.as_slice() == "bxemu: write\n".as_bytes(),
            "{line}"
        );
        assert!(rt; outcome.status == 4, "{line}");
        let outcome = ends(&rt, rt.alloc(), line.as_bytes(), mute)?;
        assert!(rt; outcome.errors.is_empty() && outcome.status == 4, "{line}");
    }
    Ok(())
}

#[test]
fn other_words_order_nothing(rt: HostRuntime) -> Result<(), Fail> {
    let rows = [
        ("bxemu", 2),
        ("bxemu frob m.S", 2),
        ("bxemu dis", 2),
        ("bxemu run --start m:f m.S", 2),
        ("bxemu campaign --start m:f --plan plan --workers x m.S", 2),
        ("bxemu debug --start m:f --plan plan m.S", 2),
        ("bxemu --help", 0),
        ("bxemu help debug", 0),
        ("bxemu --version", 0),
    ];
    for (line, status) in rows {
        let outcome = ends(&rt, rt.alloc(), line.as_bytes(), WIDE)?;
        assert!(rt; outcome.status == status, "{line}");
        assert!(rt;
            outcome.output.is_empty() && outcome.errors.is_empty(),
            "{line}"
        );
        assert!(rt; (outcome.printed > 0) == (status == 0), "{line}");
        assert!(rt; (outcome.told > 0) == (status == 2), "{line}");
    }
    Ok(())
}

#[test]
fn the_version_is_told(rt: HostRuntime) -> Result<(), Fail> {
    for line in ["bxemu --version", "bxemu -V"] {
        let outcome = ends(&rt, rt.alloc(), line.as_bytes(), WIDE)?;
        assert!(rt; outcome.status == 0 && outcome.told == 0, "{line}");
        assert!(rt; outcome.printed == "bxemu 1.0.0\n".len() as u64, "{line}");
    }
    Ok(())
}

#[test]
fn words_and_help_that_cannot_be_had(rt: HostRuntime) -> Result<(), Fail> {
    let outcome = ends(&rt, rt.alloc(), b"bxemu dis \xFF", WIDE)?;
    assert!(rt; outcome.status == 2 && outcome.output.is_empty());
    assert!(rt;
        outcome.errors.as_slice()
            == "error: invalid UTF-8 was detected in one or more arguments\n".as_bytes()
    );
    let silent = Room {
        prints: false,
        ..WIDE
    };
    let outcome = ends(&rt, rt.alloc(), b"bxemu --help", silent)?;
    assert!(rt; outcome.status == 4 && outcome.output.is_empty());
    assert!(rt; outcome.errors.as_slice() == "bxemu: write\n".as_bytes());
    let outcome = ends(&rt, rt.alloc(), b"bxemu dis", silent)?;
    assert!(rt; outcome.status == 2 && outcome.errors.is_empty());
    Ok(())
}

/// The bytes of the line of a campaign that has begun, and of that line left blank.
const PROGRESS: u64 = 47 + 74;

#[test]
fn a_campaign_is_watched_on_a_terminal(rt: HostRuntime) -> Result<(), Fail> {
    let terminal = Room {
        terminal: true,
        ..WIDE
    };
    let rows = [
        ("bxemu campaign --start m:f --plan plan m.S n.S", PROGRESS),
        ("bxemu run --start m:f --plan plan m.S n.S", 0),
    ];
    for (line, told) in rows {
        let outcome = ends(&rt, rt.alloc(), line.as_bytes(), terminal)?;
        assert!(rt; outcome.output.as_slice() == REPORT.as_bytes(), "{line}");
        assert!(rt; outcome.errors.is_empty() && outcome.status == 0, "{line}");
        assert!(rt; outcome.told == told, "{line}");
    }
    Ok(())
}

/// The bytes of `0/0> `, and of `1/1> ` behind the answers, when the reader is at its end.
const PROMPTS: u64 = 5 + 5;

#[test]
fn a_session_asks_for_lines_on_a_terminal(rt: HostRuntime) {
    let terminal = Room {
        terminal: true,
        ..WIDE
    };
    let order = b"bxemu debug --start m:f m.S n.S";
    let outcome = ended(&rt, rt.alloc(), order, "step r0\n", terminal);
    assert!(rt; outcome.output.as_slice() == "at 1 of 1\n".as_bytes());
    assert!(rt; outcome.errors.is_empty() && outcome.status == 0);
    assert!(rt; outcome.told == PROMPTS);
}

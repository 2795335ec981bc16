//! Waits with a time: what ends them, and how reports tell them. Each report was worked out by hand.

use crate::samples::{plan, text_of};
use bx_board::{FreeGate, campaign, report_alone};
use bx_load::Image;
use bx_terms::Fault;
use bxemu_testkit::{atom, image, image_of_items};
use std::alloc::Global;
use std::test::Fail;

/// The report of a plan, from `m:f`.
fn report_of(alloc: Global, image: &Image, schedules: &str) -> Result<String, Fault> {
    let plan = plan(alloc, schedules)?;
    let report = report_alone(alloc, image, atom(image, "m"), atom(image, "f"), &plan);
    text_of(alloc, image, report)
}

/// The items of `f/0`, a plan, and its report. Whatever the number, a wait is over by an expiration alone.
const TIMES: [(&str, &str, &str); 3] = [
    (
        "{label,3}. {wait_timeout,{f,3},{integer,0}}. timeout. {move,{atom,over},{x,0}}. {call_ext_only,1,{extfunc,erlang,display,1}}.",
        "waits: r0\nruns: r0*2\nother: r0 e1\nover: r0 e0 r0*3\ntwice: r0 e0*2\n",
        NO_TIME,
    ),
    (
        "{move,{integer,4294967295},{x,0}}. {label,3}. {wait_timeout,{f,3},{x,0}}. timeout. return.",
        "waits: r0*2\nover: r0*2 e0 r0*2\n",
        MOST_TIME,
    ),
    (
        "{allocate,1,0}. {move,{atom,infinity},{y,0}}. {label,3}. {wait_timeout,{f,3},{y,0}}. timeout. return.",
        "waits: r0*3\nruns: r0*4\nover: r0*3 e0\n",
        ENDLESS,
    ),
];

const NO_TIME: &str = "schedule waits\napplied 1\nstate open e0\nprocess <0.0.0> waiting\nend
schedule runs\napplied 1\nstate stopped r0\nprocess <0.0.0> waiting\nend
schedule other\napplied 1\nstate stopped e1\nprocess <0.0.0> waiting\nend
schedule over\napplied 5\nstate quiet\nprocess <0.0.0> ended normal\noutput <0.0.0> over\nend
schedule twice\napplied 2\nstate stopped e0\nprocess <0.0.0> ready\nend\n";

const MOST_TIME: &str = "schedule waits\napplied 2\nstate open e0\nprocess <0.0.0> waiting\nend
schedule over\napplied 5\nstate quiet\nprocess <0.0.0> ended normal\nend\n";

const ENDLESS: &str = "schedule waits\napplied 3\nstate quiet\nprocess <0.0.0> waiting\nend
schedule runs\napplied 3\nstate stopped r0\nprocess <0.0.0> waiting\nend
schedule over\napplied 3\nstate stopped e0\nprocess <0.0.0> waiting\nend\n";

#[test]
fn a_time_is_over_by_an_expiration(rt: HostRuntime) -> Result<(), Fail> {
    for (items, schedules, want) in TIMES.iter() {
        let image = image_of_items(rt.alloc(), items)?;
        let got = report_of(rt.alloc(), &image, schedules)?;
        assert_eq!(rt; got.as_str(), *want);
    }
    Ok(())
}

/// What is no time.
const WRONG: [&str; 5] = [
    "{atom,soon}",
    "{integer,-1}",
    "{integer,4294967296}",
    "nil",
    "{literal,{1}}",
];

/// The process goes on at its handler, which displays the fault's value. It did not wait.
const WRONG_TEXT: &str = "schedule raised\napplied 3\nstate open r0\nprocess <0.0.0> ready\nend
schedule caught\napplied 6\nstate quiet\nprocess <0.0.0> ended normal\noutput <0.0.0> timeout_value\nend
schedule over\napplied 3\nstate stopped e0\nprocess <0.0.0> ready\nend\n";

#[test]
fn a_wrong_time_is_a_fault_that_is_caught(rt: HostRuntime) -> Result<(), Fail> {
    for time in WRONG.iter() {
        let items = format!(in rt.alloc();
            "{{allocate,1,0}}. {{'try',{{y,0}},{{f,4}}}}. {{label,3}}. {{wait_timeout,{{f,3}},{time}}}. {{label,4}}. {{try_case,{{y,0}}}}. {{move,{{x,1}},{{x,0}}}}. {{call_ext_last,1,{{extfunc,erlang,display,1}},1}}."
        )?;
        let image = image_of_items(rt.alloc(), items.as_str())?;
        let got = report_of(
            rt.alloc(),
            &image,
            "raised: r0*3\ncaught: r0*6\nover: r0*3 e0\n",
        )?;
        assert_eq!(rt; got.as_str(), WRONG_TEXT);
    }
    Ok(())
}

/// Process 0 waits for `y`, for some time, and then for any message. Process 1 sends it `x` and `z`.
const PATIENT: &str = "{module,m}. {exports,[{f,0},{g,1}]}. {labels,99}.
{function,f,0,2}. {label,1}. {func_info,{atom,m},{atom,f},0}. {label,2}. {bif,self,{f,0},[],{x,0}}. {put_list,{x,0},nil,{x,2}}.
{move,{atom,m},{x,0}}. {move,{atom,g},{x,1}}. {call_ext,3,{extfunc,erlang,spawn,3}}.
{label,5}. {loop_rec,{f,7},{x,0}}. {test,is_eq_exact,{f,6},[{x,0},{atom,y}]}. remove_message. return.
{label,6}. {loop_rec_end,{f,5}}. {label,7}. {wait_timeout,{f,5},{integer,5}}. timeout.
{label,8}. {loop_rec,{f,9},{x,0}}. remove_message. {call_ext_only,1,{extfunc,erlang,display,1}}. {label,9}. {wait,{f,8}}.
{function,g,1,4}. {label,3}. {func_info,{atom,m},{atom,g},1}. {label,4}. {move,{x,0},{x,2}}. {move,{atom,x},{x,1}}. send.
{move,{x,2},{x,0}}. {move,{atom,z},{x,1}}. send. return.";

/// While a message is there that was not looked at the wait is not over; one that was passed over leaves it as it is.
const PASSED: &str = "before: r0*7
sent: r0*7 r1*3
came: r0*7 r1*3 d1>0
early: r0*7 r1*3 d1>0 e0
passed: r0*7 r1*3 d1>0 r0*5
over: r0*7 r1*3 d1>0 r0*5 e0 r0*4
later: r0*7 r1*7 d1>0 r0*5 e0 d1>0 r0*4
";

const PASSED_TEXT: &str =
    "schedule before\napplied 7\nstate open r1 e0\nprocess <0.0.0> waiting\nprocess <0.1.0> ready\nend
schedule sent\napplied 10\nstate open r1 d1>0 e0\nprocess <0.0.0> waiting\nprocess <0.1.0> ready\nend
schedule came\napplied 11\nstate open r0 r1\nprocess <0.0.0> waiting\nprocess <0.1.0> ready\nend
schedule early\napplied 11\nstate stopped e0\nprocess <0.0.0> waiting\nprocess <0.1.0> ready\nend
schedule passed\napplied 16\nstate open r1 e0\nprocess <0.0.0> waiting\nprocess <0.1.0> ready\nend
schedule over\napplied 21\nstate open r1\nprocess <0.0.0> ended normal\nprocess <0.1.0> ready\noutput <0.0.0> x\nend
schedule later\napplied 26\nstate quiet\nprocess <0.0.0> ended normal\nprocess <0.1.0> ended normal\noutput <0.0.0> x\nend\n";

#[test]
fn what_was_passed_over_stands_first_behind_a_timeout(rt: HostRuntime) -> Result<(), Fail> {
    let image = image(rt.alloc(), &[PATIENT])?;
    let got = report_of(rt.alloc(), &image, PASSED)?;
    assert_eq!(rt; got.as_str(), PASSED_TEXT);
    Ok(())
}

/// Process 0 spawns process 1 linked to it, and waits for some time behind this; process 1 ends.
const LINKED: &str = "{module,m}. {exports,[{f,0},{g,0}]}. {labels,99}.
{function,g,0,4}. {label,3}. {func_info,{atom,m},{atom,g},0}. {label,4}. {move,{atom,stop},{x,0}}. {call_ext_only,1,{extfunc,erlang,exit,1}}.
{function,f,0,2}. {label,1}. {func_info,{atom,m},{atom,f},0}. {label,2}.
{move,{atom,m},{x,0}}. {move,{atom,g},{x,1}}. {move,nil,{x,2}}. {call_ext,3,{extfunc,erlang,spawn_link,3}}.";

/// With the link the exit signal ends the wait and the process, which has no expiration then; without it the wait goes on.
const EXITS: [(&str, &str, &str); 2] = [
    (
        "",
        "sent: r0*5 r1*2\nended: r0*5 r1*2 d1>0\nover: r0*5 r1*2 d1>0 e0\n",
        ENDED,
    ),
    (
        "{call_ext,1,{extfunc,erlang,unlink,1}}.",
        "sent: r0*6 r1*2\ndropped: r0*6 r1*2 d1>0\nover: r0*6 r1*2 d1>0 e0 r0*2\nlate: r0*6 r1*2 e0 d1>0 d0>1 r0*2\n",
        DROPPED,
    ),
];

const ENDED: &str =
    "schedule sent\napplied 7\nstate open d1>0 e0\nprocess <0.0.0> waiting\nprocess <0.1.0> ended stop\nend
schedule ended\napplied 8\nstate quiet\nprocess <0.0.0> ended stop\nprocess <0.1.0> ended stop\nend
schedule over\napplied 8\nstate stopped e0\nprocess <0.0.0> ended stop\nprocess <0.1.0> ended stop\nend\n";

const DROPPED: &str =
    "schedule sent\napplied 8\nstate open d0>1 d1>0 e0\nprocess <0.0.0> waiting\nprocess <0.1.0> ended stop\nend
schedule dropped\napplied 9\nstate open d0>1 e0\nprocess <0.0.0> waiting\nprocess <0.1.0> ended stop\nend
schedule over\napplied 12\nstate open d0>1\nprocess <0.0.0> ended normal\nprocess <0.1.0> ended stop\nend
schedule late\napplied 13\nstate quiet\nprocess <0.0.0> ended normal\nprocess <0.1.0> ended stop\nend\n";

#[test]
fn an_exit_of_no_link_leaves_a_wait_as_it_is(rt: HostRuntime) -> Result<(), Fail> {
    for (items, schedules, want) in EXITS.iter() {
        let listing = format!(in rt.alloc();
            "{LINKED} {items} {{label,5}}. {{wait_timeout,{{f,5}},{{integer,5}}}}. timeout. return."
        )?;
        let image = image(rt.alloc(), &[listing.as_str()])?;
        let got = report_of(rt.alloc(), &image, schedules)?;
        assert_eq!(rt; got.as_str(), *want);
    }
    Ok(())
}

/// Process 0 spawns processes 1 and 2; each waits for some time.
const THREE: &str = "{module,m}. {exports,[{f,0},{g,0}]}. {labels,99}.
{function,f,0,2}. {label,1}. {func_info,{atom,m},{atom,f},0}. {label,2}.
{move,{atom,m},{x,0}}. {move,{atom,g},{x,1}}. {move,nil,{x,2}}. {call_ext,3,{extfunc,erlang,spawn,3}}.
{move,{atom,m},{x,0}}. {move,{atom,g},{x,1}}. {move,nil,{x,2}}. {call_ext,3,{extfunc,erlang,spawn,3}}.
{label,5}. {wait_timeout,{f,5},{integer,10}}. timeout. return.
{function,g,0,4}. {label,3}. {func_info,{atom,m},{atom,g},0}. {label,4}. {wait_timeout,{f,4},{integer,1}}. timeout. return.";

const EXPIRATIONS: &str = "all: r0*9 r1 r2
one: r0*9 r1 r2 e1
some: r0*9 r2
refused: r0*9 r2 e1
each: r0*9 r1 r2 e2 e1 r1*2 r2*2 e0 r0*2
";

/// Open expirations stand last, by rising pid.
const EXPIRATIONS_TEXT: &str =
    "schedule all\napplied 11\nstate open e0 e1 e2\nprocess <0.0.0> waiting\nprocess <0.1.0> waiting\nprocess <0.2.0> waiting\nend
schedule one\napplied 12\nstate open r1 e0 e2\nprocess <0.0.0> waiting\nprocess <0.1.0> ready\nprocess <0.2.0> waiting\nend
schedule some\napplied 10\nstate open r1 e0 e2\nprocess <0.0.0> waiting\nprocess <0.1.0> ready\nprocess <0.2.0> waiting\nend
schedule refused\napplied 10\nstate stopped e1\nprocess <0.0.0> waiting\nprocess <0.1.0> ready\nprocess <0.2.0> waiting\nend
schedule each\napplied 20\nstate quiet\nprocess <0.0.0> ended normal\nprocess <0.1.0> ended normal\nprocess <0.2.0> ended normal\nend\n";

#[test]
fn expirations_are_open_and_refused(rt: HostRuntime) -> Result<(), Fail> {
    let image = image(rt.alloc(), &[THREE])?;
    let got = report_of(rt.alloc(), &image, EXPIRATIONS)?;
    assert_eq!(rt; got.as_str(), EXPIRATIONS_TEXT);
    Ok(())
}

#[test]
fn workers_make_the_same_expirations(rt: HostRuntime) -> Result<(), Fail> {
    let alloc = rt.alloc();
    let image = image(alloc, &[THREE])?;
    let plan = plan(alloc, EXPIRATIONS)?;
    let (module, function) = (atom(&image, "m"), atom(&image, "f"));
    let report = campaign(&rt, alloc, &image, module, function, &plan, 3, &FreeGate);
    let got = text_of(alloc, &image, report)?;
    assert_eq!(&rt; got.as_str(), EXPIRATIONS_TEXT);
    Ok(())
}

//! Stories of runs: each event, the lives of the processes, the signals that wait, and the outcome.

use crate::samples::SENDERS;
use crate::telling::story_text;
use bx_events::{Story, told_story};
use bx_load::Image;
use bx_plan::{Schedule, read_choices};
use bx_terms::Fault;
use bxemu_testkit::{answered, atom, image, image_of_items, joined, number_of};
use std::alloc::Global;
use std::test::Fail;

/// Module `m` exports `f/0` and `g/0`. The items of `f/0` stand behind this, from item 3 on, and label 5 is the first that is free.
/// It begins by what a spawn of `g/0` takes.
const HEAD: &str =
    "{module,m}. {exports,[{f,0},{g,0}]}. {attributes,[]}. {labels,99}. {function,f,0,2}.
{label,1}. {func_info,{atom,m},{atom,f},0}. {label,2}. {move,{atom,m},{x,0}}. {move,{atom,g},{x,1}}. {move,nil,{x,2}}. ";

/// `f/0` spawns `g/0` by item 6, its fourth run; x0 holds the child's pid then.
const SPAWN: &str = "{call_ext,3,{extfunc,erlang,spawn,3}}. ";

/// The same, and both are linked.
const SPAWN_LINK: &str = "{call_ext,3,{extfunc,erlang,spawn_link,3}}. ";

/// The items of `g/0` stand behind this, which are three items.
const SECOND: &str = " {function,g,0,4}. {label,3}. {func_info,{atom,m},{atom,g},0}. {label,4}. ";

/// A process that takes a message and shows it.
const SHOWS: &str =
    "{label,5}. {loop_rec,{f,6},{x,0}}. remove_message. {call_ext_only,1,{extfunc,erlang,display,1}}. {label,6}. {wait,{f,5}}.";

/// One that waits for a time.
const WAITS: &str =
    "{label,5}. {loop_rec,{f,6},{x,0}}. {label,6}. {wait_timeout,{f,5},{integer,9}}. timeout. return.";

/// One that traps exits, and waits.
const TRAPS: &str =
    "{move,{atom,trap_exit},{x,0}}. {move,{atom,true},{x,1}}. {call_ext,2,{extfunc,erlang,process_flag,2}}. {label,5}. {loop_rec,{f,6},{x,0}}. {label,6}. {wait,{f,5}}.";

/// The pieces of a listing, the choices, and the story.
type Row = (&'static [&'static str], &'static str, &'static str);

const STORIES: [Row; 15] = [
    // no choice
    (
        &[HEAD, SPAWN, "return.", SECOND, "return."],
        "",
        "lane -..-\napplied 0\nstate open r0\nprocess <0.0.0> ready\nend\n",
    ),
    // one that is refused, and what lies behind it
    (
        &[HEAD, SPAWN, "return.", SECOND, "return."],
        "r0 r7 r0",
        "1..1 <0> 3..4 ran\nlane -..-\napplied 1\nstate stopped r7\nprocess <0.0.0> ready\nend\n",
    ),
    // a message, the wait for it, and what is shown
    (
        &[
            HEAD,
            SPAWN,
            "{move,{atom,a},{x,1}}. send. return.",
            SECOND,
            SHOWS,
        ],
        "r0*7 r1*2 d0>1 r1*5 d0>1",
        "1..3 <0> 3..6 ran\n4..4 <0> 6..7 ran, child 1\n5..5 <0> 7..8 ran\n6..6 <0> 8..9 ran, put 1 to 1: a\n7..7 <0> 9..- ran, ended normal\n8..9 <1> 14..14 ran, waits\n10..10 <1> 14..14 heard 0>1 1 of event 3: a (added), waits\n11..11 <1> 14..15 ran\n12..12 <1> 15..16 took a\n13..13 <1> 16..- ran, shown a, ended normal\nlane -..4\nlane 1..9\napplied 13\nstate stopped r1\nprocess <0.0.0> ended normal\nprocess <0.1.0> ended normal\noutput <0.1.0> a\nend\n",
    ),
    // two messages, of which the second waits
    (
        &[
            HEAD,
            SPAWN,
            "{move,{x,0},{x,8}}. {move,{atom,a},{x,1}}. send. {move,{x,8},{x,0}}. {move,{atom,b},{x,1}}. send. return.",
            SECOND,
            SHOWS,
        ],
        "r0*10 d0>1",
        "1..3 <0> 3..6 ran\n4..4 <0> 6..7 ran, child 1\n5..6 <0> 7..9 ran\n7..7 <0> 9..10 ran, put 1 to 1: a\n8..9 <0> 10..12 ran\n10..10 <0> 12..13 ran, put 2 to 1: b\n11..11 <1> 18..18 heard 0>1 1 of event 3: a (added)\nlane -..-\nlane 1..-\nwaits 0>1 2 of event 5: b\napplied 11\nstate open r0 r1 d0>1\nprocess <0.0.0> ready\nprocess <0.1.0> ready\nend\n",
    ),
    // a message to oneself is on no way
    (
        &[
            HEAD,
            "{bif,self,{f,0},[],{x,0}}. send. {label,5}. {loop_rec,{f,6},{x,0}}. remove_message. return. {label,6}. {wait,{f,5}}.",
            SECOND,
            "return.",
        ],
        "r0*7",
        "1..6 <0> 3..10 ran\n7..7 <0> 10..11 took g\nlane -..-\napplied 7\nstate open r0\nprocess <0.0.0> ready\nend\n",
    ),
    // two senders, whose messages come in the other order
    (
        &[SENDERS],
        "r0*10 r1 r2 d2>0 d1>0 r0*3",
        "1..5 <0> 3..8 ran\n6..6 <0> 8..9 ran, child 1\n7..9 <0> 9..12 ran\n10..10 <0> 12..14 ran, child 2\n11..11 <1> 22..23 ran, put 1 to 0: a\n12..12 <2> 22..23 ran, put 1 to 0: b\n13..13 <0> 14..14 heard 2>0 1 of event 5: b (added)\n14..14 <0> 14..14 heard 1>0 1 of event 4: a (added)\n15..15 <0> 14..15 ran\n16..16 <0> 15..16 took b\n17..17 <0> 16..- ran, shown b, ended normal\nlane -..10\nlane 1..-\nlane 3..-\napplied 17\nstate open r1 r2\nprocess <0.0.0> ended normal\nprocess <0.1.0> ready\nprocess <0.2.0> ready\noutput <0.0.0> b\nend\n",
    ),
    // a link that is made and given up
    (
        &[
            HEAD,
            SPAWN,
            "{move,{x,0},{x,8}}. {call_ext,1,{extfunc,erlang,link,1}}. {move,{x,8},{x,0}}. {call_ext,1,{extfunc,erlang,unlink,1}}. return.",
            SECOND,
            SHOWS,
        ],
        "r0*9 d0>1*2 r1",
        "1..3 <0> 3..6 ran\n4..4 <0> 6..7 ran, child 1\n5..5 <0> 7..8 ran\n6..6 <0> 8..9 ran, put 1 to 1: link\n7..7 <0> 9..10 ran\n8..8 <0> 10..11 ran, put 2 to 1: unlink\n9..9 <0> 11..- ran, ended normal\n10..10 <1> 16..16 heard 0>1 1 of event 3: link (linked)\n11..11 <1> 16..16 heard 0>1 2 of event 5: unlink (unlinked)\n12..12 <1> 16..20 ran\nlane -..6\nlane 1..-\napplied 12\nstate open r1\nprocess <0.0.0> ended normal\nprocess <0.1.0> ready\nend\n",
    ),
    // a link to a process that has ended
    (
        &[
            HEAD,
            SPAWN,
            "{call_ext,1,{extfunc,erlang,link,1}}. return.",
            SECOND,
            "return.",
        ],
        "r0*4 r1 r0 d0>1 d1>0",
        "1..3 <0> 3..6 ran\n4..4 <0> 6..7 ran, child 1\n5..5 <1> 12..- ran, ended normal\n6..6 <0> 7..8 ran, put 1 to 1: link\n7..7 <1> -..- heard 0>1 1 of event 3: link (answered), put 1 to 0: exit noproc, ended normal\n8..8 <0> 8..- heard 1>0 1 of event 4: exit noproc (ends), ended noproc\nlane -..5\nlane 1..2\napplied 8\nstate quiet\nprocess <0.0.0> ended noproc\nprocess <0.1.0> ended normal\nend\n",
    ),
    // an exit that is told to one who traps exits
    (
        &[HEAD, SPAWN_LINK, TRAPS, SECOND, "return."],
        "r0*7 r1 d1>0 r0",
        "1..3 <0> 3..6 ran\n4..4 <0> 6..7 ran, child 1\n5..7 <0> 7..11 ran\n8..8 <1> 17..- ran, put 1 to 0: exit normal, ended normal\n9..9 <0> 11..11 heard 1>0 1 of event 3: exit normal (told)\n10..10 <0> 11..13 ran\nlane -..-\nlane 1..3\napplied 10\nstate open r0\nprocess <0.0.0> ready\nprocess <0.1.0> ended normal\nend\n",
    ),
    // a message that comes too late, and an exit that does nothing
    (
        &[
            HEAD,
            SPAWN_LINK,
            "{move,{atom,a},{x,1}}. send. return.",
            SECOND,
            "return.",
        ],
        "r0*6 r1 d0>1 d1>0",
        "1..3 <0> 3..6 ran\n4..4 <0> 6..7 ran, child 1\n5..5 <0> 7..8 ran\n6..6 <0> 8..9 ran, put 1 to 1: a\n7..7 <1> 13..- ran, put 1 to 0: exit normal, ended normal\n8..8 <1> -..- heard 0>1 1 of event 3: a (lost), ended normal\n9..9 <0> 9..9 heard 1>0 1 of event 4: exit normal (dropped)\nlane -..-\nlane 1..4\napplied 9\nstate open r0\nprocess <0.0.0> ready\nprocess <0.1.0> ended normal\nend\n",
    ),
    // an end that is put to two, of whom one hears it
    (
        &[
            HEAD,
            SPAWN_LINK,
            "{move,{atom,m},{x,0}}. ",
            SPAWN_LINK,
            "{move,{atom,stop},{x,0}}. {call_ext_only,1,{extfunc,erlang,exit,1}}.",
            SECOND,
            "return.",
        ],
        "r0*8 d0>2",
        "1..3 <0> 3..6 ran\n4..4 <0> 6..7 ran, child 1\n5..5 <0> 7..8 ran\n6..6 <0> 8..9 ran, child 2\n7..7 <0> 9..10 ran\n8..8 <0> 10..- ran, put 1 to 1: exit stop, put 1 to 2: exit stop, ended stop\n9..9 <2> 14..- heard 0>2 1 of event 5: exit stop (ends), ended stop\nlane -..5\nlane 1..-\nlane 3..6\nwaits 0>1 1 of event 5: exit stop\napplied 9\nstate open r1 d0>1\nprocess <0.0.0> ended stop\nprocess <0.1.0> ready\nprocess <0.2.0> ended stop\nend\n",
    ),
    // a kill, and what becomes of the one who is linked
    (
        &[
            HEAD,
            SPAWN_LINK,
            "{move,{atom,kill},{x,1}}. {call_ext,2,{extfunc,erlang,exit,2}}. return.",
            SECOND,
            SHOWS,
        ],
        "r0*6 d0>1 d1>0",
        "1..3 <0> 3..6 ran\n4..4 <0> 6..7 ran, child 1\n5..5 <0> 7..8 ran\n6..6 <0> 8..9 ran, put 1 to 1: exit/2 kill\n7..7 <1> 14..- heard 0>1 1 of event 3: exit/2 kill (ends), put 1 to 0: exit killed, ended killed\n8..8 <0> 9..- heard 1>0 1 of event 4: exit killed (ends), ended killed\nlane -..5\nlane 1..4\napplied 8\nstate quiet\nprocess <0.0.0> ended killed\nprocess <0.1.0> ended killed\nend\n",
    ),
    // a wait that is over
    (
        &[HEAD, SPAWN, "return.", SECOND, WAITS],
        "r0*4 r1*2 e1 r1*2",
        "1..3 <0> 3..6 ran\n4..4 <0> 6..7 ran, child 1\n5..6 <1> 12..12 ran, waits\n7..7 <1> 12..15 expired\n8..8 <1> 15..16 ran\n9..9 <1> 16..- ran, ended normal\nlane -..-\nlane 1..5\napplied 9\nstate open r0\nprocess <0.0.0> ready\nprocess <0.1.0> ended normal\nend\n",
    ),
    // a run that traps, and what lies behind it
    (
        &[HEAD, SPAWN, "{move,{x,9},{x,1}}. return.", SECOND, SHOWS],
        "r0*5 r1",
        "1..3 <0> 3..6 ran\n4..4 <0> 6..7 ran, child 1\n5..5 <0> 7..7 ran, trapped Unset\nlane -..-\nlane 1..-\napplied 5\nstate trapped Unset <0.0.0>\nprocess <0.0.0> ready\nprocess <0.1.0> ready\nend\n",
    ),
    // runs of two processes by turns
    (
        &[
            HEAD,
            SPAWN,
            "{label,5}. {jump,{f,5}}.",
            SECOND,
            "{label,6}. {jump,{f,6}}.",
        ],
        "r0*6 r1*2 r0 r1",
        "1..3 <0> 3..6 ran\n4..4 <0> 6..8 ran, child 1\n5..6 <0> 8..8 ran\n7..8 <1> 13..13 ran\n9..9 <0> 8..8 ran\n10..10 <1> 13..13 ran\nlane -..-\nlane 1..-\napplied 10\nstate open r0 r1\nprocess <0.0.0> ready\nprocess <0.1.0> ready\nend\n",
    ),
];

/// The choices that a text spells, where it spells some.
fn choices_of(alloc: Global, text: &str) -> Result<Schedule, Fault> {
    match read_choices(alloc, text.as_bytes())? {
        Some(schedule) => Ok(schedule),
        None => Ok(Schedule::new(alloc)),
    }
}

/// A story from `m:f`, told once more where memory ran out.
fn told(alloc: Global, image: &Image, schedule: &Schedule) -> Result<Story, Fault> {
    match told_story(alloc, image, atom(image, "m"), atom(image, "f"), schedule) {
        Err(Fault::Memory) => told_story(
            alloc,
            image,
            atom(image, "m"),
            atom(image, "f"),
            schedule,
        ),
        answer => answer,
    }
}

/// The text of a story from `m:f`.
fn told_text(alloc: Global, image: &Image, choices: &str) -> Result<String, Fault> {
    let schedule = choices_of(alloc, choices)?;
    let story = told(alloc, image, &schedule)?;
    story_text(alloc, image.atoms(), &story)
}

/// The text of a story from `m:f` over the listing of these pieces.
fn told_of(alloc: Global, pieces: &[&str], choices: &str) -> Result<String, Fault> {
    let text = joined(alloc, pieces)?;
    let image = image(alloc, &[text.as_str()])?;
    told_text(alloc, &image, choices)
}

/// How many rows, from the first on, are told as they should be.
fn right_rows(alloc: Global, rows: &[Row]) -> Result<usize, Fault> {
    for (number, (pieces, choices, want)) in rows.iter().enumerate() {
        let text = told_of(alloc, *pieces, choices)?;
        if text.as_str() != *want {
            return Ok(number);
        }
    }
    Ok(rows.len())
}

#[test]
fn runs_are_told_event_by_event(rt: HostRuntime) -> Result<(), Fail> {
    assert_eq!(rt; right_rows(rt.alloc(), &STORIES)?, STORIES.len());
    Ok(())
}

/// A list of so many atoms, which is as high.
fn list_of(alloc: Global, count: usize) -> Result<String, Fault> {
    let mut text = String::from_str(alloc, "[a")?;
    for _ in 1..count {
        text.push_str(",a")?;
    }
    text.push_str("]")?;
    Ok(text)
}

/// Whether an exit with this reason, which is as high as a term may be, is told so at a process that traps exits: the message would
/// be higher.
fn is_told_of_height(alloc: Global, reason: &str) -> Result<bool, Fault> {
    let ends = joined(
        alloc,
        &[
            "{move,{literal,",
            reason,
            "},{x,0}}. {call_ext_only,1,{extfunc,erlang,exit,1}}.",
        ],
    )?;
    let text = told_of(
        alloc,
        &[HEAD, SPAWN_LINK, TRAPS, SECOND, ends.as_str()],
        "r0*7 r1*2 d1>0 r0",
    )?;
    let want = joined(
        alloc,
        &[
            "1..3 <0> 3..6 ran\n4..4 <0> 6..7 ran, child 1\n5..7 <0> 7..11 ran\n8..8 <1> 17..18 ran\n9..9 <1> 18..- ran, put 1 to 0: exit ",
            reason,
            ", ended ",
            reason,
            "\n10..10 <0> 11..11 heard 1>0 1 of event 4: exit ",
            reason,
            " (traps), trapped TermHeight\nlane -..-\nlane 1..4\nwaits 1>0 1 of event 4: exit ",
            reason,
            "\napplied 10\nstate trapped TermHeight <0.0.0>\nprocess <0.0.0> ready\nprocess <0.1.0> ended ",
            reason,
            "\nend\n",
        ],
    )?;
    Ok(text.as_str() == want.as_str())
}

#[test]
fn a_delivery_that_traps_is_told(rt: HostRuntime) -> Result<(), Fail> {
    let reason = list_of(rt.alloc(), 10_000)?;
    assert!(rt; is_told_of_height(rt.alloc(), reason.as_str())?);
    Ok(())
}

/// Each run is an event of its own: one shows an atom, the next jumps back.
const SHOWS_FOR_EVER: &str =
    "{move,nil,{x,0}}. {label,3}. {call_ext,1,{extfunc,erlang,display,1}}. {jump,{f,3}}.";

/// How many events a story of `SHOWS_FOR_EVER` has, or the number of the refusal.
fn counted(alloc: Global, function: &str, choices: &str) -> Result<Result<usize, Fault>, Fault> {
    let image = image_of_items(alloc, SHOWS_FOR_EVER)?;
    let schedule = choices_of(alloc, choices)?;
    let story = told_story(
        alloc,
        &image,
        atom(&image, "m"),
        atom(&image, function),
        &schedule,
    );
    match answered(story)? {
        Ok(story) => Ok(Ok(story.events.as_slice().len())),
        Err(fault) => Ok(Err(fault)),
    }
}

#[test]
fn stories_of_20000_events_and_no_more(rt: HostRuntime) -> Result<(), Fail> {
    assert_eq!(rt; counted(rt.alloc(), "f", "r0*20000")?, Ok(20_000));
    assert_eq!(rt; counted(rt.alloc(), "f", "r0*20001")?, Err(Fault::TooLarge));
    Ok(())
}

#[test]
fn a_function_that_is_not_exported(rt: HostRuntime) -> Result<(), Fail> {
    assert_eq!(rt; counted(rt.alloc(), "h", "r0")?, Err(Fault::NoEntry));
    Ok(())
}

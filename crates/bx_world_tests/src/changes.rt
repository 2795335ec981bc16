//! What a choice would do, shown by itself.

use crate::reports::{IDLE, end_of, image_of, spawning};
use bx_terms::Fault;
use bx_world::{Choice, outcome_text};
use std::alloc::Global;
use std::test::Fail;

/// Two messages to the process in x0.
const SENDS_TWO: &str =
    "{move,{x,0},{x,8}}. {move,{atom,a},{x,1}}. send. {move,{x,8},{x,0}}. {move,{atom,b},{x,1}}. send. return.";

/// Shows the pid in x0, and then an atom.
const SHOWS_TWO: &str =
    "{call_ext,1,{extfunc,erlang,display,1}}. {move,{atom,b},{x,0}}. {call_ext,1,{extfunc,erlang,display,1}}. return.";

/// What process 0 does once it has spawned process 1 in four runs, the choices, one more, and what that shows by itself: its own signal or
/// term, and no other.
const CHANGES: [(&str, &str, Choice, &str); 6] = [
    (
        SENDS_TWO,
        "r0*6",
        Choice::Run(0),
        "applied 0\nstate open r0 r1 d0>1\nprocess <0.0.0> ready\nprocess <0.1.0> ready\nend\n",
    ),
    (
        SENDS_TWO,
        "r0*7",
        Choice::Run(0),
        "applied 0\nstate open r0 r1\nprocess <0.0.0> ready\nprocess <0.1.0> ready\nend\n",
    ),
    (
        SENDS_TWO,
        "r0*10",
        Choice::Deliver(0, 1),
        "applied 0\nstate open r0 r1\nprocess <0.0.0> ready\nprocess <0.1.0> ready\nend\n",
    ),
    (
        SENDS_TWO,
        "r0*10",
        Choice::Run(0),
        "applied 0\nstate open r1\nprocess <0.0.0> ended normal\nprocess <0.1.0> ready\nend\n",
    ),
    (
        SHOWS_TWO,
        "r0*6",
        Choice::Run(0),
        "applied 0\nstate open r0 r1\nprocess <0.0.0> ready\nprocess <0.1.0> ready\noutput <0.0.0> b\nend\n",
    ),
    (
        "return.",
        "r0*3",
        Choice::Run(0),
        "applied 0\nstate open r0 r1\nprocess <0.0.0> ready\nprocess <0.1.0> ready\nend\n",
    ),
];

fn shown(alloc: Global, rest: &str, choices: &str, choice: Choice) -> Result<String, Fault> {
    let first = spawning(alloc, "spawn", rest)?;
    let image = image_of(alloc, first.as_str(), IDLE)?;
    let end = end_of(alloc, &image, "m", choices)?;
    let world = end.world.change(alloc, &image, choice)?;
    let outcome = world.outcome(alloc)?;
    outcome_text(alloc, image.atoms(), 0, None, &outcome)
}

#[test]
fn choices_by_themselves(rt: HostRuntime) -> Result<(), Fail> {
    for (rest, choices, choice, want) in &CHANGES {
        let text = shown(rt.alloc(), rest, choices, *choice)?;
        assert_eq!(rt; text.as_str(), *want);
    }
    Ok(())
}

#[test]
fn what_cannot_be_done_is_not_shown(rt: HostRuntime) -> Result<(), Fail> {
    let refused = shown(rt.alloc(), SENDS_TWO, "r0*6", Choice::Deliver(0, 1));
    assert!(rt; matches!(refused, Err(Fault::NotEnabled)));
    Ok(())
}

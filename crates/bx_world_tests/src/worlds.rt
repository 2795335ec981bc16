//! Worlds over holders of both kinds. What is expected was worked out by hand from the meaning of each instruction.

use bx_load::Image;
use bx_proc::Proc;
use bx_share::{ArcHold, Hold, RcHold};
use bx_terms::Fault;
use bx_world::{Choice, Lanes, RunEnd, World, advance, choice_text, outcome_text};
use bxemu_testkit::{atom, image_of_items};
use std::alloc::Global;
use std::process::Abort;
use std::test::Fail;

const OWN: Choice = Choice::Run(0);

/// A move, and the end of the process.
const TWO: &str = "{move,{atom,ok},{x,0}}. return.";

/// A move, and one that traps, since x5 holds nothing.
const TRAPS: &str = "{move,{atom,ok},{x,0}}. {move,{x,5},{x,0}}.";

/// The world at the start of that function of `m`.
fn started<P: Hold<Proc>, C: Hold<Lanes>>(
    alloc: Global,
    image: &Image,
    function: &str,
) -> Result<World<P, C>, Fault> {
    World::start(alloc, image, atom(image, "m"), atom(image, function))
}

/// Where these choices lead from the start of `f`.
fn run<P: Hold<Proc>, C: Hold<Lanes>>(
    alloc: Global,
    image: &Image,
    choices: &[Choice],
) -> Result<RunEnd<P, C>, Fault> {
    let mut end = RunEnd {
        world: started(alloc, image, "f")?,
        applied: 0,
        refused: None,
    };
    for choice in choices {
        if end.applied < u64::MAX {
            advance(alloc, &mut end, image, *choice)?;
        }
    }
    Ok(end)
}

/// The text of the outcome of these choices over a module with these items.
fn text_of_run<P: Hold<Proc>, C: Hold<Lanes>>(
    alloc: Global,
    items: &str,
    choices: &[Choice],
) -> Result<String, Fault> {
    let image = image_of_items(alloc, items)?;
    let end = run::<P, C>(alloc, &image, choices)?;
    let outcome = end.world.outcome(alloc)?;
    outcome_text(alloc, image.atoms(), end.applied, end.refused, &outcome)
}

fn assert_runs<P: Hold<Proc>, C: Hold<Lanes>>(rt: &impl Abort, alloc: Global) -> Result<(), Fail> {
    let rows: [(&str, &[Choice], &str); 6] = [
        (
            TWO,
            &[],
            "applied 0\nstate open r0\nprocess <0.0.0> ready\nend\n",
        ),
        (
            TWO,
            &[OWN, OWN],
            "applied 2\nstate quiet\nprocess <0.0.0> ended normal\nend\n",
        ),
        (
            TWO,
            &[OWN, OWN, OWN, OWN],
            "applied 2\nstate stopped r0\nprocess <0.0.0> ended normal\nend\n",
        ),
        (
            TWO,
            &[OWN, Choice::Deliver(0, 1), OWN],
            "applied 1\nstate stopped d0>1\nprocess <0.0.0> ready\nend\n",
        ),
        (
            "{jump,{f,1}}.",
            &[OWN, OWN],
            "applied 2\nstate quiet\nprocess <0.0.0> ended {function_clause,[]}\nend\n",
        ),
        (
            TRAPS,
            &[OWN, OWN, OWN],
            "applied 2\nstate trapped Unset <0.0.0>\nprocess <0.0.0> ready\nend\n",
        ),
    ];
    for (items, choices, want) in rows {
        let text = text_of_run::<P, C>(alloc, items, choices)?;
        assert!(rt; text.as_str() == want, "{text}");
    }
    Ok(())
}

/// The number of the refusal of the last of these choices; 0 where it is applied.
fn last_answer<P: Hold<Proc>, C: Hold<Lanes>>(
    alloc: Global,
    items: &str,
    choices: &[Choice],
) -> Result<u8, Fault> {
    let image = image_of_items(alloc, items)?;
    let mut world = started::<P, C>(alloc, &image, "f")?;
    let mut answer = 0;
    for choice in choices {
        answer = match world.apply(alloc, &image, *choice) {
            Ok(()) => 0,
            Err(fault) => fault.number().ok_or(fault)?,
        };
    }
    Ok(answer)
}

fn assert_answers<P: Hold<Proc>, C: Hold<Lanes>>(
    rt: &impl Abort,
    alloc: Global,
) -> Result<(), Fail> {
    let rows: [(&str, &[Choice], u8); 7] = [
        (TWO, &[OWN, OWN], 0),
        (TWO, &[OWN, OWN, OWN], 20),
        (TWO, &[Choice::Run(1)], 20),
        (TWO, &[Choice::Deliver(0, 0)], 20),
        (TRAPS, &[OWN, OWN], 0),
        (TRAPS, &[OWN, OWN, OWN], 21),
        (TRAPS, &[OWN, OWN, Choice::Run(1)], 21),
    ];
    for (items, choices, want) in rows {
        let answer = last_answer::<P, C>(alloc, items, choices)?;
        assert!(rt; answer == want, "{items} {choices:?}");
    }
    Ok(())
}

/// Whether these choices lead to a world in which just this process can run, or none.
fn opens<P: Hold<Proc>, C: Hold<Lanes>>(
    alloc: Global,
    items: &str,
    choices: &[Choice],
    own: bool,
) -> Result<bool, Fault> {
    let image = image_of_items(alloc, items)?;
    let world = run::<P, C>(alloc, &image, choices)?.world;
    let enabled = world.enabled(alloc)?;
    let want: &[Choice] = if own { &[OWN] } else { &[] };
    Ok(enabled.as_slice() == want && world.can(OWN) == own && !world.can(Choice::Run(1)))
}

fn assert_enabled<P: Hold<Proc>, C: Hold<Lanes>>(
    rt: &impl Abort,
    alloc: Global,
) -> Result<(), Fail> {
    assert!(rt; opens::<P, C>(alloc, TWO, &[OWN], true)?);
    assert!(rt; opens::<P, C>(alloc, TWO, &[OWN, OWN], false)?, "ended");
    assert!(rt; opens::<P, C>(alloc, TRAPS, &[OWN, OWN], false)?, "trapped");
    Ok(())
}

/// Whether a snapshot equals its world, and stays as it was where the world goes on.
fn snapshot_stays<P: Hold<Proc>, C: Hold<Lanes>>(
    alloc: Global,
    image: &Image,
) -> Result<bool, Fault> {
    let mut world = started::<P, C>(alloc, image, "f")?;
    let before = world.snapshot(alloc)?;
    let was_same = before.same(&world);
    world.apply(alloc, image, OWN)?;
    let start = started::<P, C>(alloc, image, "f")?;
    Ok(was_same && !before.same(&world) && before.same(&start))
}

fn assert_snapshots<P: Hold<Proc>, C: Hold<Lanes>>(
    rt: &impl Abort,
    alloc: Global,
) -> Result<(), Fail> {
    for items in [TWO, "return.", "{jump,{f,1}}."] {
        let image = image_of_items(alloc, items)?;
        assert!(rt; snapshot_stays::<P, C>(alloc, &image)?, "{items}");
    }
    let image = image_of_items(alloc, TWO)?;
    assert!(rt; matches!(started::<P, C>(alloc, &image, "ok"), Err(Fault::NoEntry)));
    Ok(())
}

fn assert_ends<P: Hold<Proc>, C: Hold<Lanes>>(rt: &impl Abort, alloc: Global) -> Result<(), Fail> {
    let image = image_of_items(alloc, TWO)?;
    let one = run::<P, C>(alloc, &image, &[OWN])?;
    let rows: [(&[Choice], bool); 3] = [
        (&[OWN], true),
        (&[], false),
        (&[OWN, Choice::Deliver(0, 1)], false),
    ];
    for (choices, same) in rows {
        let other = run::<P, C>(alloc, &image, choices)?;
        assert!(rt; one.same(&other) == same);
    }
    Ok(())
}

fn assert_worlds<P: Hold<Proc>, C: Hold<Lanes>>(
    rt: &impl Abort,
    alloc: Global,
) -> Result<(), Fail> {
    assert_runs::<P, C>(rt, alloc)?;
    assert_answers::<P, C>(rt, alloc)?;
    assert_enabled::<P, C>(rt, alloc)?;
    assert_ends::<P, C>(rt, alloc)?;
    assert_local::<P, C>(rt, alloc)?;
    assert_snapshots::<P, C>(rt, alloc)
}

/// A move, and a send.
const SENDS: &str = "{move,{atom,ok},{x,0}}. send.";

/// Whether the next run of a process is local, behind these choices.
fn is_local<P: Hold<Proc>, C: Hold<Lanes>>(
    alloc: Global,
    items: &str,
    choices: &[Choice],
    pid: u32,
) -> Result<bool, Fault> {
    let image = image_of_items(alloc, items)?;
    let end = run::<P, C>(alloc, &image, choices)?;
    Ok(end.world.runs_local(&image, pid))
}

fn assert_local<P: Hold<Proc>, C: Hold<Lanes>>(rt: &impl Abort, alloc: Global) -> Result<(), Fail> {
    let rows: [(&str, &[Choice], u32, bool); 7] = [
        (SENDS, &[], 0, true),
        (SENDS, &[OWN], 0, false),
        ("{call_ext_only,0,{extfunc,erlang,self,0}}.", &[], 0, false),
        (TWO, &[OWN], 0, true),
        // it has ended
        (TWO, &[OWN, OWN], 0, false),
        // it stands behind the items
        ("", &[], 0, false),
        // there is no such process
        (TWO, &[], 1, false),
    ];
    for (items, choices, pid, want) in rows {
        let told = is_local::<P, C>(alloc, items, choices, pid)?;
        assert!(rt; told == want, "{items}");
    }
    Ok(())
}

#[test]
fn worlds_in_one_thread(rt: HostRuntime) -> Result<(), Fail> {
    assert_worlds::<RcHold<Proc>, RcHold<Lanes>>(&rt, rt.alloc())
}

#[test]
fn worlds_for_any_thread(rt: HostRuntime) -> Result<(), Fail> {
    assert_worlds::<ArcHold<Proc>, ArcHold<Lanes>>(&rt, rt.alloc())
}

#[test]
fn texts_of_choices(rt: HostRuntime) -> Result<(), Fail> {
    for (choice, want) in [
        (Choice::Run(1023), "r1023"),
        (Choice::Deliver(12, 0), "d12>0"),
    ] {
        let text = choice_text(rt.alloc(), choice)?;
        assert_eq!(rt; text.as_str(), want);
    }
    Ok(())
}

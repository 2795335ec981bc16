//! Snapshots of worlds whose processes hold all that a process may, each of which goes on apart from the others; and the
//! instructions that a process runs alone.

use crate::samples::TALKED;
use bx_load::Image;
use bx_proc::{Proc, Why};
use bx_share::{ArcHold, Hold, RcHold};
use bx_terms::{Fault, Term};
use bx_world::{Choice, Lanes, World, outcome_text};
use bxemu_testkit::{TALK, atom, image, image_of_items};
use std::alloc::Global;
use std::test::Fail;

/// More choices than the talk takes.
const MANY: usize = 200;

fn started<P: Hold<Proc>, C: Hold<Lanes>>(
    alloc: Global,
    image: &Image,
) -> Result<World<P, C>, Fault> {
    World::start(alloc, image, atom(image, "m"), atom(image, "f"))
}

/// The world that these choices lead to, of which no snapshot was taken.
fn run<P: Hold<Proc>, C: Hold<Lanes>>(
    alloc: Global,
    image: &Image,
    choices: &[Choice],
) -> Result<World<P, C>, Fault> {
    let mut world = started(alloc, image)?;
    for choice in choices {
        world.apply(alloc, image, *choice)?;
    }
    Ok(world)
}

/// One of these, by its place counted round.
fn one_of(choices: &[Choice], number: usize) -> Option<Choice> {
    choices.get(number.checked_rem(choices.len())?).copied()
}

/// A choice that can be made, by its place among those that can, counted round.
fn picked<P: Hold<Proc>, C: Hold<Lanes>>(
    alloc: Global,
    world: &World<P, C>,
    number: usize,
) -> Result<Option<Choice>, Fault> {
    Ok(one_of(world.enabled(alloc)?.as_slice(), number))
}

/// The choices that were made until none could be, picked by steps of that stride, and a snapshot from before each; and the world
/// behind them.
fn talk<P: Hold<Proc>, C: Hold<Lanes>>(
    alloc: Global,
    image: &Image,
    stride: usize,
) -> Result<(Vec<Choice>, Vec<World<P, C>>, World<P, C>), Fault> {
    let mut world = started(alloc, image)?;
    let mut choices = Vec::new(alloc);
    let mut kept = Vec::new(alloc);
    for number in 0..MANY {
        let Some(choice) = picked(alloc, &world, number.wrapping_mul(stride))? else {
            break;
        };
        choices.push(choice)?;
        let before = world.snapshot(alloc)?;
        let Ok(()) = kept.push(before) else {
            return Err(Fault::Memory);
        };
        world.apply(alloc, image, choice)?;
    }
    Ok((choices, kept, world))
}

/// Whether each snapshot, which is made to share nothing within that room where there is one, is the world of the choices before it,
/// and goes on as they do.
fn are_apart<P: Hold<Proc>, C: Hold<Lanes>>(
    alloc: Global,
    image: &Image,
    choices: &[Choice],
    kept: &mut [World<P, C>],
    room: Option<usize>,
) -> Result<bool, Fault> {
    for (number, snapshot) in kept.iter_mut().enumerate() {
        let (Some(before), Some(choice)) = (choices.get(..number), choices.get(number)) else {
            return Ok(false);
        };
        let mut world = run::<P, C>(alloc, image, before)?;
        if let Some(mut room) = room {
            let _ = snapshot.unshare(alloc, &mut room);
        }
        if !snapshot.same(&world) {
            return Ok(false);
        }
        world.apply(alloc, image, *choice)?;
        snapshot.apply(alloc, image, *choice)?;
        if !snapshot.same(&world) {
            return Ok(false);
        }
    }
    Ok(true)
}

/// Whether the world behind a talk is what it was before its snapshots went on, and ends as each does.
fn talks<P: Hold<Proc>, C: Hold<Lanes>>(
    alloc: Global,
    image: &Image,
    stride: usize,
    room: Option<usize>,
) -> Result<bool, Fault> {
    let (choices, mut kept, world) = talk::<P, C>(alloc, image, stride)?;
    let apart = are_apart(alloc, image, &choices, kept.as_mut_slice(), room)?;
    let other = run(alloc, image, &choices)?;
    let same = world.same(&other);
    let outcome = world.outcome(alloc)?;
    let text = outcome_text(alloc, image.atoms(), 7, None, &outcome)?;
    Ok(apart && same && text.as_str().strip_prefix("applied 7") == Some(TALKED))
}

#[test]
fn snapshots_of_full_worlds_go_on_apart(rt: HostRuntime) -> Result<(), Fail> {
    let alloc = rt.alloc();
    let image = image(alloc, &[TALK])?;
    for stride in [0, 1, 2, 5] {
        assert!(rt;
            talks::<RcHold<Proc>, RcHold<Lanes>>(alloc, &image, stride, None)?,
            "{stride}"
        );
        assert!(rt;
            talks::<ArcHold<Proc>, ArcHold<Lanes>>(alloc, &image, stride, None)?,
            "{stride}"
        );
    }
    Ok(())
}

/// In a room of 5 or 11 not all of the talk's worlds go: a part of them stays shared.
#[test]
fn snapshots_that_share_nothing_go_on_as_others(rt: HostRuntime) -> Result<(), Fail> {
    let alloc = rt.alloc();
    let image = image(alloc, &[TALK])?;
    for room in [0, 5, 11, 1000] {
        assert!(rt;
            talks::<RcHold<Proc>, RcHold<Lanes>>(alloc, &image, 2, Some(room))?,
            "{room}"
        );
        assert!(rt;
            talks::<ArcHold<Proc>, ArcHold<Lanes>>(alloc, &image, 5, Some(room))?,
            "{room}"
        );
    }
    Ok(())
}

/// Each kind of instruction that concerns nobody else and can't fail here, the one that ends the process last: how many there are
/// before it.
const ALONE: (&str, usize) = (
    "{move,{integer,3},{x,0}}. {jump,{f,3}}. {label,3}. {test,is_lt,{f,1},[{integer,1},{x,0}]}.
{test,is_ge,{f,1},[{x,0},{integer,3}]}. {test,is_eq,{f,1},[{x,0},{integer,3}]}. {test,is_ne,{f,1},[{x,0},{integer,4}]}.
{test,is_eq_exact,{f,1},[{x,0},{integer,3}]}. {test,is_ne_exact,{f,1},[{x,0},{integer,4}]}.
{test,is_integer,{f,1},[{x,0}]}. {test,is_number,{f,1},[{x,0}]}. {move,{atom,true},{x,1}}.
{test,is_atom,{f,1},[{x,1}]}. {test,is_boolean,{f,1},[{x,1}]}. {test,is_pid,{f,4},[{x,0}]}. {label,4}.
{test,is_nil,{f,1},[nil]}. {test,is_list,{f,1},[nil]}. {put_list,{x,0},nil,{x,3}}.
{test,is_nonempty_list,{f,1},[{x,3}]}. {get_list,{x,3},{x,4},{x,5}}. {get_hd,{x,3},{x,4}}. {get_tl,{x,3},{x,5}}.
{put_tuple2,{x,6},{list,[{atom,ok},{x,0}]}}. {test,is_tuple,{f,1},[{x,6}]}. {test,test_arity,{f,1},[{x,6},2]}.
{test,is_tagged_tuple,{f,1},[{x,6},2,{atom,ok}]}. {get_tuple_element,{x,6},1,{x,7}}.
{select_val,{x,7},{f,1},{list,[{integer,3},{f,5}]}}. {label,5}. {select_tuple_arity,{x,6},{f,1},{list,[2,{f,6}]}}. {label,6}.
{gc_bif,'+',{f,0},1,[{x,0},{integer,4}],{x,0}}. {gc_bif,length,{f,0},1,[{x,3}],{x,1}}. {bif,hd,{f,0},[{x,3}],{x,1}}.
{bif,element,{f,0},[{integer,1},{x,6}],{x,1}}. {test_heap,2,1}. {allocate,2,1}. {move,{x,6},{y,0}}. {move,{x,3},{y,1}}.
{trim,1,1}. {call,1,{f,7}}. {deallocate,1}. {allocate_heap,1,4,1}. {call_last,1,{f,7},1}.
{label,7}. {call_only,1,{f,8}}. {label,8}. return.",
    44,
);

/// The same of a receive, where `a` has come, and then `b`, for which it looks: `a` is passed over, `b` taken, and `a` passed over
/// again before it waits.
const RECEIVING: (&str, usize) = (
    "{label,3}. {loop_rec,{f,4},{x,0}}. {test,is_eq_exact,{f,5},[{x,0},{integer,2}]}. remove_message. {jump,{f,3}}.
{label,5}. {loop_rec_end,{f,3}}. {label,4}. {wait,{f,3}}.",
    12,
);

/// Why the process stopped at its next instruction, if it did.
fn stopped(alloc: Global, image: &Image, process: &mut Proc) -> Option<Why> {
    process.run(alloc, 0, image).err().map(|stop| stop.why())
}

/// Whether the process's next instruction was run, and is all that there is to it.
fn is_run(alloc: Global, image: &Image, process: &mut Proc) -> Result<bool, Fault> {
    match stopped(alloc, image, process) {
        None => Ok(true),
        Some(Why::Memory) => Err(Fault::Memory),
        Some(_) => Ok(false),
    }
}

/// How many instructions a process runs from the start of `f`, in a row, in whose mailbox 1 and 2 are.
fn run_alone(alloc: Global, items: &str) -> Result<usize, Fault> {
    let image = image_of_items(alloc, items)?;
    let place = image.entry(atom(&image, "m"), atom(&image, "f"), 0);
    let mut process = Proc::new(alloc, place, &[])?;
    for message in [1, 2] {
        if process.add_message(Term::int(message)).is_err() {
            return Err(Fault::Memory);
        }
    }
    for count in 0..MANY {
        if !process.can_run() || !is_run(alloc, &image, &mut process)? {
            return Ok(count);
        }
    }
    Ok(MANY)
}

#[test]
fn instructions_that_concern_nobody_else(rt: HostRuntime) -> Result<(), Fail> {
    for (items, count) in [ALONE, RECEIVING] {
        assert_eq!(rt; run_alone(rt.alloc(), items)?, count);
    }
    Ok(())
}

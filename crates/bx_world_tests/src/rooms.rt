//! Worlds that are made to share nothing counted with others: they equal what they were, and each thing takes its room.

use bx_load::Image;
use bx_terms::Fault;
use bx_world::{ArcWorld, Choice, World};
use bxemu_testkit::{atom, image_of_items};
use std::alloc::Global;
use std::test::Fail;

/// A process that holds `{a,[1]}`, which takes a room of 3: in registers, in its mailbox, in the output, as a fault that was
/// caught, and as the reason of its end.
const KEEPS: &str = "{allocate,2,0}. {'try',{y,1},{f,3}}. {put_list,{integer,1},nil,{x,0}}.
{put_tuple2,{x,0},{list,[{atom,a},{x,0}]}}. {move,{x,0},{y,0}}. {bif,self,{f,0},[],{x,0}}. {move,{y,0},{x,1}}. send.
{call_ext,1,{extfunc,erlang,display,1}}. {move,{y,0},{x,0}}. {call_ext,1,{extfunc,erlang,exit,1}}.
{label,3}. {try_case,{y,1}}. {move,{x,1},{x,0}}. {call_ext,1,{extfunc,erlang,exit,1}}. return.";

/// The room that its world takes after so many runs, from none on: one for each frame, register and message, for the term that was
/// displayed, and 3 wherever the tuple is.
const KEPT: [usize; 15] = [0, 3, 3, 5, 7, 10, 7, 11, 18, 19, 22, 25, 20, 23, 7];

/// A process that links itself to a child, and sends it `[1]`, a list of one cell.
const LINKS: &str = "{move,{atom,m},{x,0}}. {move,{atom,f},{x,1}}. {move,nil,{x,2}}.
{call_ext,3,{extfunc,erlang,spawn_link,3}}. {put_list,{integer,1},nil,{x,1}}. send. return.";

/// The same of its world, where a link takes one of the room at either end, and a signal what its term takes.
const LINKED: [usize; 7] = [0, 1, 2, 3, 5, 6, 8];

/// Whether a world goes within so much room, and what is left of the room; none where it is not what it was.
fn unshared(
    alloc: Global,
    world: &mut ArcWorld,
    room: usize,
) -> Result<Option<(bool, usize)>, Fault> {
    let before = world.snapshot(alloc)?;
    let mut room = room;
    let goes = world.unshare(alloc, &mut room).is_ok();
    if world.same(&before) {
        Ok(Some((goes, room)))
    } else {
        Ok(None)
    }
}

/// Whether a world takes just so much room.
fn takes(alloc: Global, world: &mut ArcWorld, room: usize) -> Result<bool, Fault> {
    if let Some(less) = room.checked_sub(1) {
        let Some((false, _)) = unshared(alloc, world, less)? else {
            return Ok(false);
        };
    }
    Ok(unshared(alloc, world, room)? == Some((true, 0)))
}

fn started(alloc: Global, image: &Image) -> Result<ArcWorld, Fault> {
    World::start(alloc, image, atom(image, "m"), atom(image, "f"))
}

/// How many of these rooms, from the first on, are what the world takes after so many runs.
fn right_rooms(alloc: Global, items: &str, rooms: &[usize]) -> Result<usize, Fault> {
    let image = image_of_items(alloc, items)?;
    let mut world = started(alloc, &image)?;
    for (runs, room) in rooms.iter().enumerate() {
        if !takes(alloc, &mut world, *room)? {
            return Ok(runs);
        }
        if runs + 1 < rooms.len() {
            world.apply(alloc, &image, Choice::Run(0))?;
        }
    }
    Ok(rooms.len())
}

#[test]
fn each_thing_that_a_world_holds_takes_its_room(rt: HostRuntime) -> Result<(), Fail> {
    assert_eq!(rt; right_rooms(rt.alloc(), KEEPS, &KEPT)?, 15);
    assert_eq!(rt; right_rooms(rt.alloc(), LINKS, &LINKED)?, 7);
    Ok(())
}

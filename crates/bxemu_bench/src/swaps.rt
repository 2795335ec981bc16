//! Exchanges of choices that are independent, in a schedule of a few small processes: some that are drawn, or all that tidy it.

use crate::programs::Program;
use crate::trouble::Trouble;
use bx_plan::Schedule;
use bx_replay::Trail;
use bx_swaps::{check_swaps, tidy};
use bx_terms::Fault;
use bx_world::{Choice, RcWorld};
use rand_core::Rng;
use rand_pcg::Pcg32;
use std::alloc::Global;

/// How many choices the schedule makes in which some are exchanged.
const CHOICES: u32 = 100_000;

/// Processes 1 and 2 loop, each by itself; 0 and 3 hand a message to each other.
const LISTING: &str = "{module,m}. {exports,[{f,0},{g,0},{h,1}]}. {attributes,[]}. {labels,10}.
{function,h,1,5}. {label,4}. {func_info,{atom,m},{atom,h},1}. {label,5}. {move,{x,0},{x,3}}.
{label,6}. {loop_rec,{f,7},{x,0}}. remove_message. {move,{x,0},{x,1}}. {move,{x,3},{x,0}}. send. {jump,{f,6}}.
{label,7}. {wait,{f,6}}.
{function,g,0,9}. {label,8}. {func_info,{atom,m},{atom,g},0}. {label,9}. {move,{atom,ok},{x,0}}. {jump,{f,9}}.
{function,f,0,2}. {label,1}. {func_info,{atom,m},{atom,f},0}. {label,2}. {bif,self,{f,0},[],{x,5}}.
{move,{atom,m},{x,0}}. {move,{atom,g},{x,1}}. {move,nil,{x,2}}. {call_ext,3,{extfunc,erlang,spawn,3}}.
{move,{atom,m},{x,0}}. {move,{atom,g},{x,1}}. {move,nil,{x,2}}. {call_ext,3,{extfunc,erlang,spawn,3}}.
{move,{atom,m},{x,0}}. {move,{atom,h},{x,1}}. {put_list,{x,5},nil,{x,2}}. {call_ext,3,{extfunc,erlang,spawn,3}}.
{move,{x,0},{x,3}}. {move,{atom,t},{x,1}}. send. {jump,{f,6}}.";

/// Exchanges choices at so many positions, drawn among those where the two are independent.
pub fn measure(rt: &HostRuntime, positions: u32) -> Result<(), Trouble> {
    let program = Program::of(rt.alloc(), LISTING.as_bytes(), "f")?;
    let given = walk(rt.alloc(), &program, CHOICES)?;
    let positions = draw(rt.alloc(), &program, &given, positions as usize)?;
    let made = exchanged(rt.alloc(), &program, &given, &positions)?;
    let (count, choices) = (positions.len(), made.len());
    eprintln!(rt; "{count} positions exchanged in {choices} choices")?;
    Ok(())
}

/// Puts the choices of each process together, in a schedule of so many.
pub fn tidy_up(rt: &HostRuntime, choices: u32) -> Result<(), Trouble> {
    let program = Program::of(rt.alloc(), LISTING.as_bytes(), "f")?;
    let given = walk(rt.alloc(), &program, choices)?;
    let made = tidied(rt.alloc(), &program, &given)?;
    let count = made.len();
    eprintln!(rt; "{count} choices tidied")?;
    Ok(())
}

/// The schedule tidied. It is not inlined, so that callgrind counts it apart from the drawing.
#[inline(never)]
fn tidied(alloc: Global, program: &Program, given: &Schedule) -> Result<Schedule, Fault> {
    let (module, start) = (program.module(), program.start());
    tidy(alloc, program.image(), module, start, given)
}

/// A schedule of so many choices, drawn at each choice among those that are enabled.
fn walk(alloc: Global, program: &Program, choices: u32) -> Result<Schedule, Fault> {
    let mut rng = Pcg32::new(1, 11);
    let mut world = program.begin(alloc)?;
    let mut schedule = Schedule::new(alloc);
    for _turn in 0..choices {
        let Some(choice) = any_enabled(alloc, &mut rng, &world)? else {
            break;
        };
        world.apply(alloc, program.image(), choice)?;
        schedule.push(choice, 1)?;
    }
    Ok(schedule)
}

fn any_enabled(alloc: Global, rng: &mut Pcg32, world: &RcWorld) -> Result<Option<Choice>, Fault> {
    let open = world.enabled(alloc)?;
    let at = rng.next_u32() as usize % open.len().max(1);
    Ok(open.get(at).copied())
}

/// So many positions, each drawn where the two choices are independent behind the exchanges before it.
fn draw(
    alloc: Global,
    program: &Program,
    given: &Schedule,
    count: usize,
) -> Result<Vec<usize>, Fault> {
    let mut schedule = Schedule::new(alloc);
    schedule.append(given.all())?;
    let mut trail = Trail::of(alloc, program.image(), program.end(alloc)?, schedule)?;
    let mut rng = Pcg32::new(2, 11);
    let mut positions = Vec::new(alloc);
    for _draw in 0..u32::MAX {
        if positions.len() >= count {
            break;
        }
        let at = rng.next_u32() as usize % trail.len().max(1);
        if trail.exchange(alloc, at)? {
            positions.push(at)?;
        }
    }
    Ok(positions)
}

/// The schedule with these exchanges made. It is not inlined, so that callgrind counts it apart from the drawing.
#[inline(never)]
fn exchanged(
    alloc: Global,
    program: &Program,
    given: &Schedule,
    positions: &[usize],
) -> Result<Schedule, Fault> {
    let (module, start) = (program.module(), program.start());
    check_swaps(alloc, program.image(), module, start, given, positions)
}

//! What the worlds cost that a session keeps: its memory, and the choices that a step back makes again.

use crate::programs::Program;
use crate::trouble::Trouble;
use bx_debug::Session;
use bx_plan::{Run, Schedule};
use bx_replay::{Trail, shared};
use bx_terms::Fault;
use bx_world::{Choice, RunEnd};
use std::alloc::Global;

/// Programs of one process, by what of it grows.
const GROWING: [(&str, &str); 4] = [
    ("nothing", "{label,3}. {jump,{f,3}}."),
    ("stack", "{allocate,1,0}. {move,nil,{y,0}}. {call,0,{f,2}}."),
    (
        "mailbox",
        "{label,3}. {bif,self,{f,0},[],{x,0}}. {move,{atom,t},{x,1}}. send. {jump,{f,3}}.",
    ),
    (
        "output",
        "{label,3}. {move,{atom,t},{x,0}}. {call_ext,1,{extfunc,erlang,display,1}}. {jump,{f,3}}.",
    ),
];

/// Makes so many choices in a session over the program of that name.
pub fn measure(rt: &HostRuntime, choices: u32, growing: &str) -> Result<(), Trouble> {
    let program = Program::named(rt.alloc(), &GROWING, growing)?;
    let run = Run {
        choice: Choice::Run(0),
        times: choices as usize,
    };
    let runs = Schedule::of(rt.alloc(), &[run])?;
    go(rt.alloc(), &program, &runs)?;
    let again = made_again(rt.alloc(), &program, runs)?;
    eprintln!(rt; "{choices} choices, of which a step back makes {again} again")?;
    Ok(())
}

/// Makes these choices in a session.
fn go(alloc: Global, program: &Program, runs: &Schedule) -> Result<(), Trouble> {
    let mut session = Session::new(alloc, program.image(), program.module(), program.start())?;
    let _ = session.go(alloc, runs)?;
    if session.at() == runs.len() {
        Ok(())
    } else {
        Err(Trouble::Wrong)
    }
}

/// How many choices lie between the last world that is kept before all but one of them, and that position.
fn made_again(alloc: Global, program: &Program, runs: Schedule) -> Result<usize, Fault> {
    let last = runs.len().saturating_sub(1);
    let trail = Trail::of(alloc, program.image(), program.end(alloc)?, runs)?;
    let mut kept: usize = 0;
    for _choice in 0..trail.len() {
        let next = next_kept(alloc, &trail, kept)?;
        if next > last {
            break;
        }
        kept = next;
    }
    Ok(last.saturating_sub(kept))
}

/// Behind how many choices the next world is kept, where so many lead.
fn next_kept(alloc: Global, trail: &Trail<'_>, count: usize) -> Result<usize, Fault> {
    let end = RunEnd {
        world: shared(alloc, &trail.start().world)?,
        applied: count as u64,
        refused: None,
    };
    Ok(count.saturating_add(trail.branch(alloc, end).room()))
}

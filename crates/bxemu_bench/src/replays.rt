//! Choices made one by one.

use crate::programs::Program;
use crate::trouble::Trouble;
use bx_terms::Fault;
use bx_world::{Choice, RcWorld, advance};
use std::alloc::Global;

/// The most choices of a row, however many are asked for: they are made again from the start.
const MOST: usize = 100_000;

/// Loops of a process alone, by what each moves before its jump.
const LOOPS: [(&str, &str); 4] = [
    (
        "integer",
        "{label,3}. {move,{integer,1},{x,0}}. {jump,{f,3}}.",
    ),
    (
        "register",
        "{move,nil,{x,1}}. {label,3}. {move,{x,1},{x,0}}. {jump,{f,3}}.",
    ),
    (
        "tuple",
        "{label,3}. {move,{literal,{a,b}},{x,0}}. {jump,{f,3}}.",
    ),
    ("nothing", "{label,3}. {jump,{f,3}}."),
];

/// Makes so many choices of each loop.
pub fn loops(rt: &HostRuntime, rounds: u32) -> Result<(), Trouble> {
    for (name, _) in LOOPS {
        one_loop(rt, rounds, name)?;
    }
    Ok(())
}

/// Makes so many choices of the loop of that name.
pub fn one_loop(rt: &HostRuntime, rounds: u32, name: &str) -> Result<(), Trouble> {
    let program = Program::named(rt.alloc(), &LOOPS, name)?;
    replay(rt, name, &program, rounds)
}

/// Makes so many choices of the program of a listing, which begins with its `main/0`.
pub fn program(rt: &HostRuntime, choices: u32, file: &str, text: &[u8]) -> Result<(), Trouble> {
    let program = Program::of(rt.alloc(), text, "main")?;
    replay(rt, file, &program, choices)
}

/// Makes so many choices of a program, and tells how many they were.
fn replay(rt: &HostRuntime, name: &str, program: &Program, choices: u32) -> Result<(), Trouble> {
    let row = row_of(rt.alloc(), program)?;
    let made = again(rt.alloc(), program, &row, choices as usize)?;
    eprintln!(rt; "{name}: {made} choices")?;
    Ok(())
}

/// At most so many choices of a program: the last choice again while it is enabled, else the first
/// that is.
fn row_of(alloc: Global, program: &Program) -> Result<Vec<Choice>, Fault> {
    let mut world = program.begin(alloc)?;
    let mut row = Vec::new(alloc);
    let mut last = Choice::Run(0);
    for _ in 0..MOST {
        match next(alloc, &world, last)? {
            Some(choice) => last = choice,
            None => break,
        }
        world.apply(alloc, program.image(), last)?;
        row.push(last)?;
    }
    Ok(row)
}

fn next(alloc: Global, world: &RcWorld, last: Choice) -> Result<Option<Choice>, Fault> {
    if world.can(last) {
        return Ok(Some(last));
    }
    Ok(world.enabled(alloc)?.first().copied())
}

/// Makes the choices of a row, from the start again behind the last, until they are so many.
fn again(alloc: Global, program: &Program, row: &[Choice], count: usize) -> Result<u64, Fault> {
    let times = count.checked_div(row.len()).unwrap_or(0);
    let rest = count.checked_rem(row.len()).unwrap_or(0);
    let mut made: u64 = 0;
    for _ in 0..times {
        made = made.saturating_add(from_start(alloc, program, row, row.len())?);
    }
    Ok(made.saturating_add(from_start(alloc, program, row, rest)?))
}

/// Makes the first so many choices of a row from the start: how many were applied.
fn from_start(
    alloc: Global,
    program: &Program,
    row: &[Choice],
    count: usize,
) -> Result<u64, Fault> {
    let mut end = program.end(alloc)?;
    for choice in row.iter().take(count) {
        if end.applied < u64::MAX {
            advance(alloc, &mut end, program.image(), *choice)?;
        }
    }
    Ok(end.applied)
}

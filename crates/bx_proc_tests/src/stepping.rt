//! A process that is driven by `step` and `answer` alone.

use bx_load::Image;
use bx_proc::{Answer, Effect, Proc};
use bx_share::Copied;
use bx_terms::{Class, Fault, Term, print};
use bxemu_testkit::{atom, image_of_items, joined, numbered};
use std::alloc::{AllocError, Global};
use std::test::Fail;

const PID: u32 = 7;

/// What is done with a process.
#[derive(Clone, Copy)]
enum Turn {
    Step,
    /// What it asked for is this integer.
    Value(i64),
    /// What it asked for is an exit with this integer.
    Exit(i64),
}

use Turn::{Exit, Step, Value};

/// Items, and what is done with a process that begins at them, with what is told of each.
const TURNS: [(&str, &[(Turn, &str)]); 6] = [
    (
        "{move,{integer,5},{x,0}}. {call_ext,1,{extfunc,erlang,link,1}}. {call_ext_only,1,{extfunc,erlang,exit,1}}.",
        &[
            (Value(9), "trap WrongShape"),
            (Step, "ran"),
            (Step, "asks for Link 5"),
            (Step, "trap WrongShape"),
            (Value(9), "ran"),
            (Value(9), "trap WrongShape"),
            (Step, "ended 9"),
            (Step, "trap WrongShape"),
        ],
    ),
    (
        "{allocate,1,0}. {'catch',{y,0},{f,3}}. {move,{integer,5},{x,0}}. {call_ext,1,{extfunc,erlang,unlink,1}}.
{label,3}. {catch_end,{y,0}}. {get_tuple_element,{x,0},1,{x,0}}. {call_ext_only,1,{extfunc,erlang,exit,1}}.",
        &[
            (Step, "ran"),
            (Step, "ran"),
            (Step, "ran"),
            (Step, "asks for Unlink 5"),
            (Exit(9), "ran"),
            (Step, "ran"),
            (Step, "ran"),
            (Step, "ended 9"),
        ],
    ),
    (
        "{move,{integer,5},{x,0}}. {call_ext_only,1,{extfunc,erlang,display,1}}.",
        &[
            (Step, "ran"),
            (Step, "asks for Display 5"),
            (Exit(3), "ended 3"),
            (Value(9), "trap WrongShape"),
            (Exit(9), "trap WrongShape"),
            (Step, "trap WrongShape"),
        ],
    ),
    (
        "{move,{integer,5},{x,0}}. {call_ext,1,{extfunc,erlang,display,1}}. return.",
        &[
            (Step, "ran"),
            (Step, "asks for Display 5"),
            (Exit(3), "ended 3"),
            (Value(9), "trap WrongShape"),
            (Step, "trap WrongShape"),
        ],
    ),
    (
        "{move,{integer,5},{x,0}}. {call_ext_only,1,{extfunc,erlang,display,1}}.",
        &[
            (Step, "ran"),
            (Step, "asks for Display 5"),
            (Value(3), "ended normal"),
            (Value(3), "trap WrongShape"),
            (Step, "trap WrongShape"),
        ],
    ),
    (
        "{bif,self,{f,0},[],{x,0}}. {move,{integer,4},{x,1}}. send. {call_ext_only,1,{extfunc,erlang,exit,1}}.",
        &[
            (Step, "ran"),
            (Step, "ran"),
            (Step, "sends 4 to 7"),
            (Step, "ended 4"),
            (Value(4), "trap WrongShape"),
        ],
    ),
];

/// What a step or an answer was.
fn told(alloc: Global, image: &Image, effect: &Effect) -> Result<String, AllocError> {
    match effect {
        Effect::Ran => String::from_str(alloc, "ran"),
        Effect::Trap(trap) => joined(alloc, &["trap ", trap.name()]),
        Effect::Ended(reason) => {
            let reason = print(alloc, image.atoms(), reason)?;
            joined(alloc, &["ended ", reason.as_str()])
        }
        Effect::Send(to, message) => {
            let message = print(alloc, image.atoms(), message)?;
            let mut sent = joined(alloc, &["sends ", message.as_str()])?;
            sent.push_str(numbered(alloc, " to ", *to, "")?.as_str())?;
            Ok(sent)
        }
        Effect::Ask(native, arguments) => {
            let mut asked = format!(in alloc; "asks for {native:?}")?;
            for argument in arguments.as_slice() {
                asked.push_str(" ")?;
                let argument = print(alloc, image.atoms(), argument)?;
                asked.push_str(argument.as_str())?;
            }
            Ok(asked)
        }
    }
}

/// The answer that a turn gives; none where it is a step.
fn answer_of(turn: Turn) -> Option<Answer> {
    match turn {
        Step => None,
        Value(value) => Some(Answer::Value(Term::int(value))),
        Exit(value) => Some(Answer::Fault(Class::Exit, Term::int(value))),
    }
}

fn turned(alloc: Global, image: &Image, process: &mut Proc, turn: Turn) -> Result<Effect, Fault> {
    match answer_of(turn) {
        Some(answer) => process.answer(alloc, image, &answer),
        None => process.step(alloc, PID, image),
    }
}

/// Whether a turn is as it should be: a trap leaves the process as it was.
fn is_right(
    alloc: Global,
    image: &Image,
    process: &mut Proc,
    turn: Turn,
    wanted: &str,
) -> Result<bool, Fault> {
    let before = process.copy(alloc)?;
    let effect = turned(alloc, image, process, turn)?;
    if matches!(effect, Effect::Trap(_)) && !process.same(&before) {
        return Ok(false);
    }
    let told = told(alloc, image, &effect)?;
    Ok(told.as_str() == wanted)
}

/// How many of these turns, from the first on, are as they should be.
fn right_turns(alloc: Global, items: &str, turns: &[(Turn, &str)]) -> Result<usize, Fault> {
    let image = image_of_items(alloc, items)?;
    let place = image.entry(atom(&image, "m"), atom(&image, "f"), 0);
    let mut process = Proc::new(alloc, place, &[])?;
    for (number, (turn, wanted)) in turns.iter().enumerate() {
        if !is_right(alloc, &image, &mut process, *turn, wanted)? {
            return Ok(number);
        }
    }
    Ok(turns.len())
}

#[test]
fn a_process_is_stepped_and_answered(rt: HostRuntime) -> Result<(), Fail> {
    for (items, turns) in TURNS.iter() {
        assert_eq!(rt; right_turns(rt.alloc(), items, turns)?, turns.len());
    }
    Ok(())
}

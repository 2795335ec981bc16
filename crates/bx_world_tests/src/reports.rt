//! What a report says of choices over a module of two functions.

use bx_load::Image;
use bx_plan::read_choices;
use bx_proc::Proc;
use bx_share::RcHold;
use bx_terms::Fault;
use bx_world::{Lanes, RcWorld, RunEnd, advance, outcome_text};
use bxemu_testkit::{atom, image};
use std::alloc::Global;

/// Module `m` exports `f/0` and `g/0`. The items of `f/0` stand behind this, and label 5 is the first that is free.
const HEAD: &str =
    "{module,m}. {exports,[{f,0},{g,0}]}. {attributes,[]}. {labels,99}. {function,f,0,2}. {label,1}. {func_info,{atom,m},{atom,f},0}. {label,2}. ";

/// And the items of `g/0` behind this.
const SECOND: &str = " {function,g,0,4}. {label,3}. {func_info,{atom,m},{atom,g},0}. {label,4}. ";

/// A process that is always ready.
pub const IDLE: &str = "{label,5}. {jump,{f,5}}.";

/// One that waits for a message, and does nothing with it.
pub const WAITS: &str = "{label,5}. {loop_rec,{f,6},{x,0}}. {label,6}. {wait,{f,5}}.";

/// One that traps exits, and displays the first message.
pub const TRAPS: &str =
    "{move,{atom,trap_exit},{x,0}}. {move,{atom,true},{x,1}}. {call_ext,2,{extfunc,erlang,process_flag,2}}. {label,5}. {loop_rec,{f,6},{x,0}}. {call_ext_only,1,{extfunc,erlang,display,1}}. {label,6}. {wait,{f,5}}.";

/// `f/0` begins with this: it spawns `g/0` by a native of that name, in four runs, and x0 holds the child's pid.
pub fn spawning(alloc: Global, native: &str, rest: &str) -> Result<String, Fault> {
    let mut items = String::from_str(
        alloc,
        "{move,{atom,m},{x,0}}. {move,{atom,g},{x,1}}. {move,nil,{x,2}}. {call_ext,3,{extfunc,erlang,",
    )?;
    items.push_str(native)?;
    items.push_str(",3}}. ")?;
    items.push_str(rest)?;
    Ok(items)
}

pub fn image_of(alloc: Global, first: &str, second: &str) -> Result<Image, Fault> {
    let mut text = String::from_str(alloc, HEAD)?;
    text.push_str(first)?;
    text.push_str(SECOND)?;
    text.push_str(second)?;
    image(alloc, &[text.as_str()])
}

/// What a run over one thread's holders comes to.
pub type End = RunEnd<RcHold<Proc>, RcHold<Lanes>>;

/// Where these choices lead from the start of `f/0` of a module.
pub fn end_of(alloc: Global, image: &Image, module: &str, choices: &str) -> Result<End, Fault> {
    let mut end = RunEnd {
        world: RcWorld::start(alloc, image, atom(image, module), atom(image, "f"))?,
        applied: 0,
        refused: None,
    };
    let schedule = read_choices(alloc, choices.as_bytes())?.ok_or(Fault::NotEnabled)?;
    let choices = schedule.to_choices(alloc)?;
    for choice in &choices {
        if end.applied < u64::MAX {
            advance(alloc, &mut end, image, *choice)?;
        }
    }
    Ok(end)
}

/// The report's lines from `applied` to `end`.
pub fn text_of(alloc: Global, image: &Image, end: &End) -> Result<String, Fault> {
    let outcome = end.world.outcome(alloc)?;
    outcome_text(alloc, image.atoms(), end.applied, end.refused, &outcome)
}

/// The same, of these choices from the start of `f/0`.
pub fn report_of(alloc: Global, first: &str, second: &str, choices: &str) -> Result<String, Fault> {
    let image = image_of(alloc, first, second)?;
    let end = end_of(alloc, &image, "m", choices)?;
    text_of(alloc, &image, &end)
}

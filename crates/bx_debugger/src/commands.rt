//! Commands, as lines spell them.

ghost use Rattle.std.specs.Prelude.{⊤, ◌≡◌, ◌+◌, ◌≤◌, Ok, Some, IfOk, IfSome, None, if◌then◌else◌, option_map};
ghost use Rattle.bx_terms.specs.Outcomes.{Gives};
ghost use Rattle.bx_plan.specs.Reading.{is_name, number_of};
ghost use Rattle.bx_debugger.specs.declared.commands.Command.TheVariants.{Items, Plan};
ghost use Rattle.bx_debugger.specs.Commands.{about, alone, beginning, function_in, function_there, ordered_by, place_in, place_named};

use bx_asm::Head;
use bx_engine::token_at;
use bx_load::Image;
use bx_plan::{Schedule, choice_of, cut, name_of, number_of, read_choices};
use bx_terms::{Fault, Name, Place};
use bx_world::Choice;
use std::alloc::{AllocError, Global};

/// The greatest pid that a line may name.
const MOST_PID: u32 = 1023;

/// What a line orders.
#[derive(Drop)]
pub(crate) enum Command {
    /// Makes a choice.
    Step(Choice),
    /// Moves back by so many choices.
    Back(u32),
    /// Moves forward by so many choices.
    Forward(u32),
    /// Makes choices in order, up to the first that stops it.
    Go(Schedule),
    /// Runs a process up to its next event.
    Until(u32),
    /// Runs a process until it has met others.
    Run(u32),
    /// Exchanges the choice of that number, from 1 on, and the one behind it.
    Swap(u32),
    /// Puts the choices of one process together.
    Tidy,
    /// Takes back the choice of that number, from 1 on, with all that depend on it.
    Undo(u32),
    /// Sets a breakpoint.
    Break(Place),
    /// Lets runs break off there no more.
    Clear(Place),
    /// Shows the outcome of the choices so far.
    Show,
    /// Shows where each process stands.
    Where,
    /// Shows what a process holds.
    Look(u32),
    /// Shows the signals that wait.
    Signals,
    /// Shows the choices that are enabled.
    Open,
    /// Shows the items of a function: from an address up to a number.
    Items(Place, u32),
    /// Shows so many of the last choices, and what each met.
    Trace(u32),
    /// Shows the choices so far as a line of a plan, of this name.
    Plan(Name),
    /// Shows the commands.
    Help,
}

/// The command that a line spells, over the loaded code; `None` where it spells none.
///
/// It can only run out of memory.
pub(crate) fn command_of(
    alloc: Global,
    image: &Image,
    line: &[u8],
) -> Result<Option<Command>, Fault>
    ensures { Gives ⊤ (λ command. command) result (Ok (ordered_by image.now line.now)) }
{
    match cut(line, b' ') {
        Some((word, rest)) => about(alloc, image, word, rest),
        None => Ok(alone(alloc, line)),
    }
}

/// The command that is a word alone.
fn alone(alloc: Global, word: &[u8]) -> Option<Command>
    ensures { result ≡ alone word.now }
{
    if word == b"go".as_slice() {
        return Some(Command::Go(Schedule::new(alloc)));
    }
    if word == b"show".as_slice() {
        return Some(Command::Show);
    }
    if word == b"where".as_slice() {
        return Some(Command::Where);
    }
    if word == b"signals".as_slice() {
        return Some(Command::Signals);
    }
    if word == b"open".as_slice() {
        return Some(Command::Open);
    }
    if word == b"tidy".as_slice() {
        return Some(Command::Tidy);
    }
    if word == b"help".as_slice() {
        return Some(Command::Help);
    }
    None
}

/// The command of a word, and of what stands behind the space.
fn about(alloc: Global, image: &Image, word: &[u8], rest: &[u8]) -> Result<Option<Command>, Fault>
    ensures { Gives ⊤ (λ command. command) result (Ok (about image.now (word.now, rest.now))) }
{
    if word == b"step".as_slice() {
        return Ok(choice_of(rest).map(Command::Step));
    }
    if word == b"back".as_slice() {
        return Ok(number_of(rest, u32::MAX).map(Command::Back));
    }
    if word == b"forward".as_slice() {
        return Ok(number_of(rest, u32::MAX).map(Command::Forward));
    }
    if word == b"go".as_slice() {
        return Ok(read_choices(alloc, rest)?.map(Command::Go));
    }
    if word == b"until".as_slice() {
        return Ok(number_of(rest, MOST_PID).map(Command::Until));
    }
    if word == b"run".as_slice() {
        return Ok(number_of(rest, MOST_PID).map(Command::Run));
    }
    if word == b"swap".as_slice() {
        return Ok(number_of(rest, u32::MAX).map(Command::Swap));
    }
    if word == b"undo".as_slice() {
        return Ok(number_of(rest, u32::MAX).map(Command::Undo));
    }
    if word == b"break".as_slice() {
        return Ok(place_named(alloc, image, rest)?.map(Command::Break));
    }
    if word == b"clear".as_slice() {
        return Ok(place_named(alloc, image, rest)?.map(Command::Clear));
    }
    if word == b"look".as_slice() {
        return Ok(number_of(rest, MOST_PID).map(Command::Look));
    }
    if word == b"list".as_slice() {
        return items_named(alloc, image, rest);
    }
    if word == b"trace".as_slice() {
        return Ok(number_of(rest, u32::MAX).map(Command::Trace));
    }
    if word == b"plan".as_slice() {
        return plan_named(alloc, rest);
    }
    Ok(None)
}

/// The address of the instruction that `M:I` names, where there is one.
fn place_in(alloc: Global, image: &Image, text: &[u8]) -> Result<Option<Place>, AllocError>
    ensures { IfOk result (λ place. place ≡ place_in image.now text.now) }
{
    let Some((module, colon)) = token_at(alloc, text, 0)? else {
        return Ok(None);
    };
    if text.get(colon).copied() != Some(b':') {
        return Ok(None);
    }
    let Some(item) = number_of(&text[colon + 1..], u32::MAX) else {
        return Ok(None);
    };
    let Some(module) = image.atoms().find(module.as_str()) else {
        return Ok(None);
    };
    Ok(image.place(module, item))
}

/// The first function of the name and the arity that `M:F/A` names: the address of its first item, and its head.
fn function_in(
    alloc: Global,
    image: &Image,
    text: &[u8],
) -> Result<Option<(Place, Head)>, AllocError>
    ensures named { IfOk result (λ function. function ≡ function_in image.now text.now) }
    ensures within { IfOk result (λ function. IfSome function (λ f. f.0.item + f.1.count ≤ 1000000)) }
{
    let Some((module, colon)) = token_at(alloc, text, 0)? else {
        return Ok(None);
    };
    if text.get(colon).copied() != Some(b':') {
        return Ok(None);
    }
    let Some((function, slash)) = token_at(alloc, text, colon + 1)? else {
        return Ok(None);
    };
    if text.get(slash).copied() != Some(b'/') {
        return Ok(None);
    }
    let Some(arity) = number_of(&text[slash + 1..], u32::MAX) else {
        return Ok(None);
    };
    Ok(function_there(image, module.as_str(), function.as_str(), arity))
}

/// The first function of that name and arity, in the module of that name.
fn function_there(image: &Image, owner: &str, name: &str, arity: u32) -> Option<(Place, Head)>
    ensures named { result ≡ function_there image.now owner.now name.now arity }
    ensures within { IfSome result (λ f. f.0.item + f.1.count ≤ 1000000) }
{
    let module = image.atoms().find(owner)?;
    let function = image.atoms().find(name)?;
    image.function(module, function, arity)
}

/// Where a call of a function begins, where an instruction stands there.
fn beginning(image: &Image, function: Option<(Place, Head)>) -> Option<Place>
    ensures { result ≡ beginning image.now function }
{
    let (first, head) = function?;
    let place = image.target(first.module, head.entry)?;
    if image.has_instruction(place) {
        Some(place)
    } else {
        None
    }
}

/// The address that `M:I` names, or at which a call of the function begins that `M:F/A` names.
fn place_named(alloc: Global, image: &Image, text: &[u8]) -> Result<Option<Place>, AllocError>
    ensures { IfOk result (λ place. place ≡ place_named image.now text.now) }
{
    if let Some(place) = place_in(alloc, image, text)? {
        return Ok(Some(place));
    }
    Ok(beginning(image, function_in(alloc, image, text)?))
}

/// The command to show the items of the function that `M:F/A` names, where there is one.
fn items_named(alloc: Global, image: &Image, text: &[u8]) -> Result<Option<Command>, Fault>
    ensures { Gives ⊤ (λ command. command) result
        (Ok (option_map (λ f. Items f.0 (f.0.item + f.1.count)) (function_in image.now text.now))) }
{
    match function_in(alloc, image, text)? {
        Some((first, head)) => Ok(Some(Command::Items(first, first.item + head.count))),
        None => Ok(None),
    }
}

/// The command to show the choices as a line of a plan of this name, where a plan takes it.
fn plan_named(alloc: Global, name: &[u8]) -> Result<Option<Command>, Fault>
    ensures { Gives ⊤ (λ command. command) result (Ok (if is_name name.now then Some (Plan name.now) else None)) }
{
    match name_of(name) {
        Some(name) => Ok(Some(Command::Plan(Name::new(alloc, name)?))),
        None => Ok(None),
    }
}

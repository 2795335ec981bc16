//! What natives ask of the world.

ghost use Rattle.std.specs.Prelude.{◌≡◌, IfOk, OnErr};
ghost use Rattle.bx_world.specs.Requests.{requested, spawning, IsMeant};

use bx_bifs::{Native, elements};
use bx_proc::Arguments;
use bx_terms::{AtomId, Term, View};
use std::alloc::{AllocError, Global};

/// A process that is to be spawned.
#[derive(Debug, Drop)]
pub struct SpawnRequest {
    /// Whether it is linked to its parent.
    pub linked: bool,
    pub module: AtomId,
    pub function: AtomId,
    pub arguments: Arguments,
}

/// What a native asks of the world. The pid is the other process's.
#[derive(Debug, Drop)]
pub enum Request {
    /// An argument is of a kind that the native doesn't take.
    Refused,
    Send(u32, Term),
    Exit(u32, Term),
    Link(u32),
    Unlink(u32),
    Display(Term),
    Spawn(SpawnRequest),
}

/// What a native asks with these arguments. Memory is taken only where none of them is of a wrong kind.
pub(crate) fn request_of(
    alloc: Global,
    native: Native,
    arguments: &[Term],
) -> Result<Request, AllocError>
    ensures ok { IfOk result (λ r. r ≡ requested native arguments.now) }
    ensures err { OnErr result (IsMeant (requested native arguments.now)) }
{
    match (native, arguments) {
        (Native::Send, [to, message]) => match to.view() {
            View::Pid(q) => Ok(Request::Send(q, message.copy(alloc)?)),
            _ => Ok(Request::Refused),
        },
        (Native::ExitSignal, [to, reason]) => match to.view() {
            View::Pid(q) => Ok(Request::Exit(q, reason.copy(alloc)?)),
            _ => Ok(Request::Refused),
        },
        (Native::Link, [to]) => match to.view() {
            View::Pid(q) => Ok(Request::Link(q)),
            _ => Ok(Request::Refused),
        },
        (Native::Unlink, [to]) => match to.view() {
            View::Pid(q) => Ok(Request::Unlink(q)),
            _ => Ok(Request::Refused),
        },
        (Native::Display, [term]) => Ok(Request::Display(term.copy(alloc)?)),
        (Native::Spawn, [module, function, list]) => {
            spawn_of(alloc, false, module, function, list)
        }
        (Native::SpawnLink, [module, function, list]) => {
            spawn_of(alloc, true, module, function, list)
        }
        _ => Ok(Request::Refused),
    }
}

fn spawn_of(
    alloc: Global,
    linked: bool,
    home: &Term,
    name: &Term,
    list: &Term,
) -> Result<Request, AllocError>
    ensures ok { IfOk result (λ r. r ≡ spawning linked home.now name.now list.now) }
    ensures err { OnErr result (IsMeant (spawning linked home.now name.now list.now)) }
{
    let (View::Atom(module), View::Atom(function)) = (home.view(), name.view()) else {
        return Ok(Request::Refused);
    };
    let Some(arguments) = elements(alloc, list)? else {
        return Ok(Request::Refused);
    };
    Ok(Request::Spawn(SpawnRequest {
        linked,
        module,
        function,
        arguments: Arguments::of(arguments),
    }))
}

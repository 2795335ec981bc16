//! What a choice was at one process, and what came of it.

ghost use Rattle.std.specs.Prelude.{◌≡◌, Some};
ghost use Rattle.bx_world.specs.Asking.{is_undone};
ghost use Rattle.bx_world.specs.Batches.{tried_of, sent_so, answer_of};

use crate::requests::SpawnRequest;
use bx_terms::{Fault, Term, Trap};
use std::alloc::AllocError;

/// What a run or a signal was, beside what it made of its process and of the lanes.
#[derive(Debug, Drop)]
pub enum Turn {
    Ran,
    /// The process has ended, with this reason.
    Ended(Term),
    /// It had no meaning: nothing has changed.
    Trapped(Trap),
    /// The process asks for another one: nothing has changed yet.
    Spawns(SpawnRequest),
}

/// Whether nothing was done: it was refused, or it had no meaning. What was put for it is then taken back.
#[inline(always)]
pub(crate) fn is_undone(turned: &Result<Turn, Fault>) -> bool
    ensures { result ≡ is_undone turned.now }
{
    match turned {
        Ok(Turn::Trapped(_)) | Err(_) => true,
        Ok(_) => false,
    }
}

/// What came of a choice that was tried, in few enough bytes to lie in a register.
#[derive(Clone, Copy, Debug)]
pub enum Tried {
    Done,
    /// It had no meaning: the world has trapped.
    Trapped(Trap),
    NotEnabled,
    /// Memory ran out, and nothing has changed.
    Memory,
}

impl Tried {
    /// What a turn comes to, once its process and the others have changed by it.
    #[inline(always)]
    pub(crate) fn of(done: Result<Turn, Fault>) -> Tried
        ensures { result ≡ tried_of done }
    {
        match done {
            Ok(Turn::Trapped(kind)) => Tried::Trapped(kind),
            Ok(_) => Tried::Done,
            Err(Fault::Memory) => Tried::Memory,
            Err(_) => Tried::NotEnabled,
        }
    }

    /// What a send comes to.
    #[inline(always)]
    pub(crate) fn sent(done: Result<(), AllocError>) -> Tried
        ensures { result ≡ sent_so done }
    {
        match done {
            Ok(()) => Tried::Done,
            Err(_) => Tried::Memory,
        }
    }

    /// What is answered of a choice in a world.
    #[inline(always)]
    pub(crate) fn answer(self) -> Result<(), Fault>
        ensures { result ≡ answer_of self }
    {
        match self {
            Tried::Done | Tried::Trapped(_) => Ok(()),
            Tried::NotEnabled => Err(Fault::NotEnabled),
            Tried::Memory => Err(Fault::Memory),
        }
    }
}

/// How far equal choices went.
#[derive(Clone, Copy, Debug)]
pub struct Batch {
    /// How many runs are done that concern their process alone.
    pub ran: u64,
    /// What came of the choice behind them, where one more was tried.
    pub last: Option<Tried>,
}

impl Batch {
    /// None ran alone, and one was tried.
    #[inline(always)]
    pub(crate) fn one(tried: Tried) -> Batch
        ensures ran { result.ran ≡ 0 }
        ensures last { result.last ≡ Some tried }
    {
        Batch {
            ran: 0,
            last: Some(tried),
        }
    }
}

//! Reports: what came of each schedule.

ghost use Rattle.std.specs.Prelude.{◌≡◌, IfOk};
ghost use Rattle.std.specs.List.{All};
ghost use Rattle.bx_board.specs.Reported.{IsShown, named, shown, told};

use crate::slots::ArcEnd;
use bx_proc::Proc;
use bx_share::{Hold, List, Same};
use bx_terms::Name;
use bx_world::{Choice, Lanes, Outcome, RunEnd};
use std::alloc::{AllocError, Global};

/// What the end of a run shows: how many choices were applied, the one that was refused, where one was, and what can be seen of the
/// world.
#[derive(Drop)]
pub(crate) struct Shown {
    applied: u64,
    refused: Option<Choice>,
    outcome: Outcome,
}

impl Shown {
    /// What that end shows.
    fn of<P: Hold<Proc>, C: Hold<Lanes>>(
        alloc: Global,
        end: &RunEnd<P, C>,
    ) -> Result<Shown, AllocError>
        ensures { IfOk result (λ one. one ≡ shown end.now) }
    {
        let Ok(outcome) = end.world.outcome(alloc) else {
            return Err(AllocError);
        };
        Ok(Shown {
            applied: end.applied,
            refused: end.refused,
            outcome,
        })
    }

    /// What that end shows, so many times.
    pub(crate) fn many(alloc: Global, end: &ArcEnd, count: usize) -> Result<Vec<Shown>, AllocError>
        ensures { IfOk result (λ told. All (IsShown end.now) told.items) }
    {
        let mut told = Vec::with_capacity(alloc, count)?;
        for _next in 0..count {
            told.push_reserved(Shown::of(alloc, end)?);
        }
        Ok(told)
    }
}

/// What came of one schedule, run alone from the start: how many of its choices were applied, the one that was refused,
/// where one was, and what can be seen of the world then.
#[derive(Debug, Drop)]
pub struct Scheduled {
    /// Its name, as the plan spells it.
    pub name: Name,
    pub applied: u64,
    pub refused: Option<Choice>,
    pub outcome: Outcome,
}

impl Scheduled {
    /// What came of the schedule of that name.
    pub(crate) fn named(name: Name, one: Shown) -> Scheduled
        ensures { result ≡ named name one }
    {
        let Shown {
            applied,
            refused,
            outcome,
        } = one;
        Scheduled {
            name,
            applied,
            refused,
            outcome,
        }
    }

    /// What the end of a run shows under a schedule's name.
    pub(crate) fn of<P: Hold<Proc>, C: Hold<Lanes>>(
        alloc: Global,
        name: &str,
        end: &RunEnd<P, C>,
    ) -> Result<Scheduled, AllocError>
        ensures { IfOk result (λ one. one ≡ told name.now end.now) }
    {
        let name = Name::new(alloc, name)?;
        let one = Shown::of(alloc, end)?;
        Ok(Scheduled::named(name, one))
    }
}

impl Same for Scheduled {
    fn same(&self, other: &Scheduled) -> bool {
        self.name.same(&other.name)
            && self.applied == other.applied
            && self.refused.same(&other.refused)
            && self.outcome.same(&other.outcome)
    }
}

/// What came of each schedule of a plan, in the plan's order.
pub type Report = List<Scheduled>;

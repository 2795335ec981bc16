//! How a book keeps each chain: the end of one that is done no longer than chains are to go on from it.

ghost use Rattle.std.specs.Prelude.{◌≡◌, ℕ, IfSome, MatchOption, None, Some};
ghost use Rattle.bx_world.specs.Running.{Ended};
ghost use Rattle.bx_board.specs.Reported.{IsShown};
ghost use Rattle.bx_board.specs.Stands.{Keeps, end_in, fewer, kept_for, passed, slot_of};

use crate::reports::Shown;
use crate::slots::ArcEnd;
use bx_share::ArcHold;

/// An end, kept while so many chains that go on from it are not done.
#[derive(Drop)]
pub(super) struct Way {
    end: ArcHold<ArcEnd>,
    left: usize,
}

impl Way {
    /// That end where there are chains that go on from it; else it comes back.
    pub(super) fn kept_for(
        end: ArcHold<ArcEnd>,
        left: usize,
    ) -> (Option<Way>, Option<ArcHold<ArcEnd>>)
        ensures { result.0 ≡ kept_for end left }
    {
        if left == 0 {
            return (None, Some(end));
        }
        (Some(Way { end, left }), None)
    }

    /// One chain more is done.
    fn fewer(self) -> (Option<Way>, Option<ArcHold<ArcEnd>>)
        ensures { result.0 ≡ fewer (Some self) }
    {
        let Way { end, left } = self;
        Way::kept_for(end, left.saturating_sub(1))
    }
}

/// How a chain stands.
#[derive(Drop)]
pub(super) enum Stand {
    /// Nobody has it. It is free where the chain that it stands on is done, else unborn.
    Waiting,
    /// This worker holds it.
    Leased(usize),
    /// It was run: what its end shows, for schedules that end with it, and the end, for chains that go on from it.
    Done(Vec<Shown>, Option<Way>),
}

impl Stand {
    /// The chain's end, where it is kept.
    pub(super) fn end(&self) -> Option<&ArcHold<ArcEnd>>
        ensures { MatchOption result (end_in self.now ≡ None) (λ end. end_in self.now ≡
            Some end.now) }
    {
        match self {
            Stand::Done(_, Some(way)) => Some(&way.end),
            _ => None,
        }
    }

    /// A chain that goes on from this one is done. With the last one the end comes back.
    pub(super) fn pass(&mut self) -> Option<ArcHold<ArcEnd>>
        ensures { self.new ≡ passed self.old }
    {
        let Stand::Done(_, way) = self else {
            return None;
        };
        let (less, end) = way.take()?.fewer();
        *way = less;
        end
    }

    /// Takes what the chain's end shows, where some is left.
    pub(super) fn pop(&mut self) -> Option<Shown>
        ensures slot { (end : Ended) → slot_of end self.new ≡ slot_of end self.old }
        ensures keeps { (end : Ended) (left : ℕ) → Keeps end left self.old → Keeps end left self.new
            × IfSome result (IsShown end) }
    {
        match self {
            Stand::Done(told, _) => told.pop(),
            _ => None,
        }
    }
}

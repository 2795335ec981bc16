//! The book of a campaign: which chains are free, who holds which, and what came of each.

ghost use Rattle.std.specs.Prelude.{◌≡◌};
ghost use Rattle.bx_board.specs.Counted.{counts_of};
ghost use Rattle.bx_board.specs.Kept.{IsKept};

mod alone;
mod comparing;
mod ending;
mod leasing;
mod opening;
mod reporting;
mod stands;

use crate::books::stands::Stand;
use crate::slots::Counts;
use bx_load::Image;
use bx_plan::{Chains, Plan};
use bx_terms::AtomId;
use std::collections::BTreeMap;
use std::marker::Model;

/// A campaign as its workers share it: loaded code, a start, the chains of a plan's tree, and how each stands.
///
/// A clause sees the campaign, and how its chains stand; some list of events has led there. Workers go by any numbers.
#[derive(Drop)]
pub struct Book<'a> {
    image: &'a Image,
    start: (AtomId, AtomId),
    plan: &'a Plan,
    chains: Chains,
    /// By chain, how many schedules end with it.
    endings: Vec<usize>,
    stands: Vec<Stand>,
    stopped: bool,
    ready: Vec<usize>,
    holders: BTreeMap<usize, usize>,
    leased: usize,
    done: usize,
}

impl<'a> Model for Book<'a> {
    ghost use Rattle.std.specs.Prelude.{◌≡◌, ◌≤◌, length, vec_capacity};
    ghost use Rattle.bx_terms.specs.contracts.atom_table.AtomId as ids;
    ghost use Rattle.bx_asm.specs.contracts.unit.Unit as unit;
    ghost use Rattle.bx_load.specs.Image.{loaded_code};
    ghost use Rattle.bx_plan.specs.contracts.plans.Plan as plans;
    ghost use Rattle.bx_plan.specs.contracts.chains.Chains as chained;
    ghost use Rattle.bx_board.specs.Codes.{end_code};
    ghost use Rattle.bx_board.specs.Kept.{Kept, kept_code};

    ghost Value = { Kept };

    ghost coded = { kept_code (loaded_code unit.the_row.coded) ids.the_row.coded plans.the_row.coded
        chained.the_row.coded end_code };

    ghost use Rattle.bx_board.specs.Stands.{IsHeld};
    ghost use Rattle.bx_board.specs.Tended.{kept_view, IsTended};

    ghost view = { λ b. kept_view b.image.now b.start b.plan.now b.chains b.stands.items b.stopped };

    ghost invariant = { λ b.
        IsTended (kept_view b.image.now b.start b.plan.now b.chains b.stands.items b.stopped)
        b.ready.items b.holders b.leased b.done
        × (length b.stands.items ≤ vec_capacity b.ready)
        × IsHeld (kept_view b.image.now b.start b.plan.now b.chains b.stands.items b.stopped)
        b.stands.items
        × (length b.endings.items ≡ length b.stands.items) };
}

impl<'a> Book<'a> {
    /// What is known of every book.
    pub fn known(&self)
        ensures { IsKept self.now }
    {
        let _plan = &self.plan;
    }

    /// The code that is run.
    pub(crate) fn code(&self) -> &'a Image
        ensures { result.now ≡ self.now.job.image }
    {
        self.image
    }

    /// Whether leasing was stopped.
    pub(crate) fn is_stopped(&self) -> bool
        ensures { result ≡ self.now.state.stopped }
    {
        self.stopped
    }

    /// How many chains stand how, in a time that doesn't depend on how many there are.
    pub fn counts(&self) -> Counts
        ensures { result ≡ counts_of self.now }
    {
        let free = self.ready.len();
        let leased = self.leased;
        let done = self.done;
        let unborn = self.stands.len() - free - leased - done;
        Counts {
            unborn,
            free,
            leased,
            done,
        }
    }
}

//! Chains by number, and what stands above and below each.

ghost use Rattle.std.specs.Prelude.{◌≡◌, ◌<◌, length};
ghost use Rattle.bx_plan.specs.Chains.{head, kids, end};

pub(crate) mod building;
mod cuts;

use bx_share::List;
use std::marker::Model;

/// A chain's choices: those of a schedule from one position up to the one before another, behind those of the chain that it stands on.
#[derive(Clone, Copy, Debug, PartialEq, Eq)]
pub struct Head {
    /// The number of the schedule.
    pub line: usize,
    /// How many choices lead to where the chain begins.
    pub first: usize,
    /// How many choices lead to where it ends.
    pub past: usize,
    /// The chain that it stands on.
    pub above: usize,
}

/// The chains of a plan, by number: chain 0 makes no choice. Each other chain leads on from the end of one before it to where next a
/// schedule ends or schedules part.
#[derive(Drop)]
pub struct Chains {
    pub(crate) heads: Vec<Head>,
    pub(crate) kids: Vec<List<usize>>,
    pub(crate) ends: Vec<usize>,
}

impl Model for Chains {
    ghost use Rattle.bx_plan.specs.Chains.{Chained};

    ghost Value = { Chained };

    ghost view = { λ c. record {
      heads = c.heads.items;
      kids = c.kids.items;
      ends = c.ends.items;
    } };
}

impl Chains {
    /// How many chains there are.
    pub fn len(&self) -> usize
        ensures { result ≡ length self.now.heads }
    {
        self.heads.len()
    }

    /// A chain's choices, and the chain that it stands on.
    pub fn head(&self, chain: usize) -> Head
        requires { chain < length self.now.heads }
        ensures { result ≡ head self.now chain }
    {
        self.heads[chain]
    }

    /// The chains that stand on a chain.
    pub fn kids(&self, chain: usize) -> &[usize]
        requires { chain < length self.now.kids }
        ensures { result.now ≡ kids self.now chain }
    {
        self.kids[chain].as_slice()
    }

    /// The chain with which the schedule of that number ends.
    pub fn end(&self, number: usize) -> usize
        requires { number < length self.now.ends }
        ensures { result ≡ end self.now number }
    {
        self.ends[number]
    }
}

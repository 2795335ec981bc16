//! One choice of the tester's, and rows of them.

ghost use Rattle.std.specs.Prelude.{◌≡◌};
ghost use Rattle.bx_world.specs.Enabled.{actor};

use bx_share::{List, Same};

/// One event of a world; pids are 0 to 1023 in texts, and any `u32` here.
#[derive(Clone, Copy, Debug, PartialEq, Eq)]
pub enum Choice {
    /// One instruction of this process is run.
    Run(u32),
    /// The first signal from the first process to the second takes effect at the second.
    Deliver(u32, u32),
    /// The time is up for which this process waits.
    Expire(u32),
}

impl Choice {
    /// The pid of the process that the choice concerns: the one that runs, receives or waits.
    #[inline(always)]
    pub fn actor(self) -> u32
        ensures { result ≡ actor self }
    {
        match self {
            Choice::Run(pid) => pid,
            Choice::Deliver(_, pid) => pid,
            Choice::Expire(pid) => pid,
        }
    }
}

impl Same for Choice {
    fn same(&self, other: &Choice) -> bool {
        match (self, other) {
            (Choice::Run(p), Choice::Run(q)) => *p == *q,
            (Choice::Deliver(p, q), Choice::Deliver(r, s)) => *p == *r && *q == *s,
            (Choice::Expire(p), Choice::Expire(q)) => *p == *q,
            _ => false,
        }
    }
}

/// Choices in a row.
pub type Choices = List<Choice>;

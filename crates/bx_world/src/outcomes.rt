//! What can be seen of a world.

ghost use Rattle.std.specs.Prelude.{◌≡◌, ◌↔◌, IsTrue};

use crate::choices::Choices;
use crate::output::Output;
use bx_proc::Status;
use bx_share::{List, Same};
use bx_terms::Trap;

/// How a world stands.
#[derive(Debug, Drop)]
pub enum Standing {
    /// A choice of this process had no meaning: nothing happens any more.
    Trapped(Trap, u32),
    /// No choice is enabled.
    Quiet,
    /// These choices are enabled.
    Open(Choices),
}

impl Standing {
    /// Whether both stand the same.
    pub fn same(&self, other: &Standing) -> bool
        ensures { IsTrue result ↔ (self.now ≡ other.now) }
    {
        match (self, other) {
            (Standing::Trapped(kind, pid), Standing::Trapped(other_kind, other_pid)) => {
                *kind == *other_kind && *pid == *other_pid
            }
            (Standing::Quiet, Standing::Quiet) => true,
            (Standing::Open(choices), Standing::Open(other)) => choices.same(other),
            _ => false,
        }
    }
}

/// How processes stand, by pid from 0.
pub type Statuses = List<Status>;

/// What can be seen of a world: how it stands, how each process stands, by pid, and what was displayed.
#[derive(Debug, Drop)]
pub struct Outcome {
    pub state: Standing,
    pub statuses: Statuses,
    pub output: Output,
}

impl Outcome {
    /// Whether both show the same.
    pub fn same(&self, other: &Outcome) -> bool
        ensures { IsTrue result ↔ (self.now ≡ other.now) }
    {
        self.state.same(&other.state)
            && same_statuses(self.statuses.as_slice(), other.statuses.as_slice())
            && self.output.same(&other.output)
    }
}

/// Whether processes stand the same, pid by pid.
#[tactic(auto, using(bx_share::specs::Rows::same_so_far, bx_share::specs::Rows::same_whole))]
fn same_statuses(xs: &[Status], ys: &[Status]) -> bool
    ensures { IsTrue result ↔ (xs.now ≡ ys.now) }
{
    if xs.len() != ys.len() {
        return false;
    }
    for at in 0..xs.len() {
        if !xs[at].same(&ys[at]) {
            return false;
        }
    }
    true
}

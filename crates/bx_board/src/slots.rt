//! Ends that threads may share, what happens to a chain of a campaign, and how many chains stand how.

use bx_proc::Proc;
use bx_share::ArcHold;
use bx_world::{Lanes, RunEnd};

/// Where a list of choices has led, in a world whose parts threads may share.
pub type ArcEnd = RunEnd<ArcHold<Proc>, ArcHold<Lanes>>;

/// Ends that a book lets go as a piece is handed in: that of the chain that it stands on, and its own. Freeing a world takes time, so
/// that is left to the caller, when others may have the book again.
pub(crate) type Gone = (Option<ArcHold<ArcEnd>>, Option<ArcHold<ArcEnd>>);

/// What changes a campaign: each names the worker, and the chain's number.
#[derive(Clone, Copy, Debug, PartialEq, Eq)]
pub enum Event {
    /// The worker took the chain, which was free.
    Lease(usize, usize),
    /// The worker handed in the chain's end.
    Submit(usize, usize),
    /// The worker gave the chain back undone.
    GiveBack(usize, usize),
    /// No chain is leased from then on.
    Stop,
}

/// How many chains stand how.
#[derive(Clone, Copy, Debug, PartialEq, Eq)]
pub struct Counts {
    /// Those that stand on one that is not done.
    pub unborn: usize,
    /// Those that may be leased.
    pub free: usize,
    /// Those that a worker holds.
    pub leased: usize,
    /// Those that were run, the root among them.
    pub done: usize,
}

//! Where two schedules part, and which stands first.

ghost use Rattle.std.specs.Prelude.{◌≡◌, ◌↔◌, ◌≤◌, length, take, IsTrue};
ghost use Rattle.bx_plan.specs.Forks.{choice_first, IsFork, IsLeft};
ghost use Rattle.bx_plan.specs.Gathered.{choices_cmp, common, next_cmp, rank};
ghost use Rattle.bx_plan.specs.Stretches.{choices_from, AreStretches, BeginAlike};

use super::Schedule;
use super::stretches::{Stretch, behind, over_by};
use bx_share::Same;
use bx_world::Choice;
use std::cmp::Ordering;

impl Schedule {
    /// How many choices both begin with alike. It takes time in proportion to the runs of these.
    pub(crate) fn common(&self, other: &Schedule) -> usize
        ensures { result ≡ common self.now other.now }
    {
        fork_of(&self.stretches, &other.stretches, 0).past
    }

    /// Whether its first so many choices are so many of the other.
    pub(crate) fn same_front(&self, past: usize, other: &Schedule, upto: usize) -> bool
        requires past { past ≤ length self.now }
        requires upto { upto ≤ length other.now }
        ensures { IsTrue result ↔ (take past self.now ≡ take upto other.now) }
    {
        past == upto && past <= self.common(other)
    }

    /// How many choices both begin with alike, of which so many are known; and which stands first: the one that ends where both part,
    /// or the one whose choice does.
    #[inline(always)]
    pub(crate) fn compare(&self, other: &Schedule, known: usize) -> (usize, Ordering)
        requires { known ≤ common self.now other.now }
        ensures common { result.0 ≡ common self.now other.now }
        ensures order { result.1 ≡ choices_cmp self.now other.now }
    {
        let fork = fork_of(&self.stretches, &other.stretches, known);
        (
            fork.past,
            next_cmp(choice_at(fork.left), choice_at(fork.right)),
        )
    }
}

/// Where two rows of stretches part: behind so many choices they go on by these.
#[derive(Drop)]
struct Fork<'a> {
    past: usize,
    left: &'a [Stretch],
    right: &'a [Stretch],
}

/// Where they part, if so many choices are known to be alike.
fn fork_of<'a>(one: &'a [Stretch], other: &'a [Stretch], known: usize) -> Fork<'a>
    requires one { AreStretches 0 one.now }
    requires other { AreStretches 0 other.now }
    requires known { known ≤ common (choices_from 0 one.now) (choices_from 0 other.now) }
    ensures { IsFork (choices_from 0 one.now) (choices_from 0 other.now) result }
{
    let mut past = known;
    let mut left = left_at(one, known);
    let mut right = left_at(other, known);
    while begin_alike(left, right) {
        past = left[0].past.min(right[0].past);
        left = behind(left, past);
        right = behind(right, past);
    }
    Fork { past, left, right }
}

/// Those that are not over at a position.
fn left_at(stretches: &[Stretch], position: usize) -> &[Stretch]
    requires rising { AreStretches 0 stretches.now }
    requires within { position ≤ length (choices_from 0 stretches.now) }
    ensures { IsLeft (choices_from 0 stretches.now) position result.now }
{
    if position == 0 {
        return stretches;
    }
    &stretches[over_by(stretches, position)..]
}

/// Whether both go on by the same choice.
fn begin_alike(one: &[Stretch], other: &[Stretch]) -> bool
    ensures { IsTrue result ↔ BeginAlike one.now other.now }
{
    match (one, other) {
        ([first, ..], [second, ..]) => first.choice.same(&second.choice),
        _ => false,
    }
}

/// The choice by which they go on.
fn choice_at(stretches: &[Stretch]) -> Option<Choice>
    ensures { result ≡ choice_first stretches.now }
{
    Some(stretches.first()?.choice)
}

/// A choice's kind and pids, by which choices are ordered.
fn rank(choice: Choice) -> (u8, u32, u32)
    ensures { result ≡ rank choice }
{
    match choice {
        Choice::Run(pid) => (0, pid, 0),
        Choice::Deliver(from, to) => (1, from, to),
        Choice::Expire(pid) => (2, pid, 0),
    }
}

/// How the choices are ordered with which two schedules go on, where they do.
fn next_cmp(one: Option<Choice>, other: Option<Choice>) -> Ordering
    ensures { result ≡ next_cmp one other }
{
    match (one, other) {
        (None, None) => Ordering::Equal,
        (None, Some(_)) => Ordering::Less,
        (Some(_), None) => Ordering::Greater,
        (Some(one), Some(other)) => rank(one).cmp(&rank(other)),
    }
}

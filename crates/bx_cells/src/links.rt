//! The processes that a process is linked to.

ghost use Rattle.std.specs.Prelude.{◌≡◌, ◌≢◌, ◌↔◌, [], false, IfOk, OnOk, OnErr, IsTrue};
ghost use Rattle.bx_cells.specs.Links.{IsRising, among, placed, linked, unlinked, rank};

use bx_share::same_rows;
use std::alloc::{AllocError, Global};
use std::marker::Model;

/// A set of pids, seen as the list of them, rising.
///
/// Source: Erlang Reference Manual, "Links".
#[derive(Debug, Drop)]
pub struct Links {
    pids: Vec<u32>,
}

impl Model for Links {
    ghost use Rattle.std.specs.Prelude.{List, ℕ};
    ghost use Rattle.std.specs.Coded.{coded_list, coded_ℕ};
    ghost use Rattle.bx_cells.specs.Links.{IsRising};

    ghost Value = { List ℕ };

    ghost coded = { coded_list coded_ℕ };

    ghost view = { λ a. a.pids.items };

    ghost invariant = { λ a. IsRising a.pids.items };
}

impl Links {
    /// No links.
    pub fn new(alloc: Global) -> Links
        ensures { result ≡ [] }
    {
        Links {
            pids: Vec::new(alloc),
        }
    }

    /// The pids, rising.
    #[inline]
    pub fn as_slice(&self) -> &[u32]
        ensures pids { result.now ≡ self.now }
        ensures rising { IsRising self.now }
    {
        self.pids.as_slice()
    }

    /// Whether that pid is among them.
    pub fn contains(&self, pid: u32) -> bool
        ensures { result ≡ among pid self.now }
    {
        self.pids.contains(&pid)
    }

    /// One pid more. Memory is taken only for a pid that is not among them; where it ran out nothing has changed.
    pub fn insert(&mut self, pid: u32) -> Result<(), AllocError>
        ensures ok { OnOk result (self.new ≡ linked pid self.old) }
        ensures err { OnErr result ((self.new ≡ self.old) × (among pid self.old ≡ false)) }
    {
        if self.pids.contains(&pid) {
            return Ok(());
        }
        place_in(&mut self.pids, pid)?;
        Ok(())
    }

    /// Takes that pid out, and tells whether it was among them.
    pub fn remove(&mut self, pid: u32) -> bool
        ensures told { result ≡ among pid self.old }
        ensures removed { self.new ≡ unlinked pid self.old }
    {
        let there = self.pids.contains(&pid);
        drop_in(&mut self.pids, pid);
        there
    }

    /// The pids but that one. Memory is taken only where there is one.
    pub fn but(&self, alloc: Global, pid: u32) -> Result<Vec<u32>, AllocError>
        ensures left { IfOk result (λ v. v.items ≡ unlinked pid self.now) }
        ensures memory { OnErr result (self.now ≢ []) }
    {
        if self.pids.is_empty() {
            return Ok(Vec::new(alloc));
        }
        let mut others = self.pids.clone()?;
        drop_in(&mut others, pid);
        Ok(others)
    }

    /// The same links. Memory is taken only where there is one.
    pub fn copy(&self, alloc: Global) -> Result<Links, AllocError>
        ensures copied { IfOk result (λ l. l ≡ self.now) }
        ensures memory { OnErr result (self.now ≢ []) }
    {
        if self.pids.is_empty() {
            return Ok(Links::new(alloc));
        }
        let pids = self.pids.clone()?;
        Ok(Links { pids })
    }

    /// Whether both hold the same pids.
    pub fn same(&self, other: &Links) -> bool
        ensures { IsTrue result ↔ (self.now ≡ other.now) }
    {
        same_rows(&self.pids, &other.pids)
    }
}

/// Puts a pid behind those that are less.
#[tactic(auto, using(crate::proofs::Linked::rank_le, crate::proofs::Linked::insert_rank, crate::proofs::Linked::rising_placed))]
fn place_in(pids: &mut Vec<u32>, pid: u32) -> Result<(), AllocError>
    requires rising { IsRising pids.old.items }
    requires absent { among pid pids.old.items ≡ false }
    ensures rising { IsRising pids.new.items }
    ensures ok { OnOk result (pids.new.items ≡ placed pid pids.old.items) }
    ensures err { OnErr result (pids.new.items ≡ pids.old.items) }
{
    let at = rank(pids, pid);
    pids.insert(at, pid)?;
    Ok(())
}

/// How many pids at the beginning are less.
#[tactic(auto, using(crate::proofs::Linked::rank_here, crate::proofs::Linked::rank_next))]
fn rank(pids: &[u32], pid: u32) -> usize
    ensures { result ≡ rank pid pids.now }
{
    for at in 0..pids.len() {
        if pids[at] >= pid {
            return at;
        }
    }
    pids.len()
}

fn drop_in(pids: &mut Vec<u32>, pid: u32)
    requires { IsRising pids.old.items }
    ensures left { pids.new.items ≡ unlinked pid pids.old.items }
    ensures rising { IsRising pids.new.items }
{
    pids.retain(|link| *link != pid);
}

//! How a lease ends: its piece is handed in, or it is given back; and the end of all leasing.

ghost use Rattle.std.specs.Prelude.{◌≡◌, ◌≢◌, ◌⊎◌, ◌+◌, ◌++◌, ◌≤◌, ◌<◌, false, length, vec_len, vec_capacity, IfErr, OnOk, MatchBool, MatchOption, IsTrue};
ghost use Rattle.bx_plan.specs.Chains.{chain_count};
ghost use Rattle.bx_board.specs.Jobs.{chain_end, end_of};
ghost use Rattle.bx_board.specs.Kept.{GivesBack, Happens, IsOf, RefusesPiece, Submits};
ghost use Rattle.bx_board.specs.Machine.{standing, is_done, Holds, Leased};

use crate::books::Book;
use crate::books::stands::{Stand, Way};
use crate::slots::{Event, Gone};
use crate::working::Piece;
use bx_terms::Fault;

/// Puts all chains of a row last, for which there is room.
pub(super) fn push_all(ready: &mut Vec<usize>, chains: &[usize])
    requires { vec_len ready.old + length chains.now ≤ vec_capacity ready.old }
    ensures items { ready.new.items ≡ ready.old.items ++ chains.now }
    ensures len { vec_len ready.new ≡ vec_len ready.old + length chains.now }
    ensures capacity { vec_capacity ready.new ≡ vec_capacity ready.old }
{
    for chain in chains {
        ready.push_reserved(*chain);
    }
}

impl<'a> Book<'a> {
    /// The chain that a worker holds.
    pub(super) fn held_by(&self, worker: usize) -> Option<usize>
        ensures { MatchOption result (Holds self.now.state worker → ⊥)
            (λ n. standing self.now.state n ≡ Leased worker) }
    {
        self.holders.get(&worker).copied()
    }

    /// Why a worker may not hand in a chain's end.
    fn refusal(&self, worker: usize, chain: usize) -> Option<Fault>
        requires { chain < chain_count self.now.job.chains }
        ensures { MatchOption result (standing self.now.state chain ≡ Leased worker)
            (λ fault. ((fault ≡ Fault.Twice) × IsTrue (is_done (standing self.now.state chain)))
            ⊎ ((fault ≡ Fault.NotLeased) × (is_done (standing self.now.state chain) ≡ false) × (standing self.now.state chain ≢ Leased worker))) }
    {
        match &self.stands[chain] {
            Stand::Done(_, _) => Some(Fault::Twice),
            Stand::Leased(holder) if *holder == worker => None,
            _ => Some(Fault::NotLeased),
        }
    }

    /// Takes what came of a chain that the worker holds. With the last chain that goes on from an end, that end goes.
    pub(super) fn hand_in(&mut self, worker: usize, chain: usize, piece: Piece<'a>) -> Gone
        requires held { standing self.old.state chain ≡ Leased worker }
        requires end { end_of piece ≡ chain_end self.old.job chain }
        ensures { Happens self.old (Event.Submit worker chain) self.new }
    {
        let _held = self.holders.remove(&worker);
        let head = self.chains.head(chain);
        let above = self.stands[head.above].pass();
        let (end, told) = piece.into_parts();
        let left = self.chains.kids(chain).len();
        let (way, own) = Way::kept_for(end, left);
        self.stands[chain] = Stand::Done(told, way);
        self.leased -= 1;
        self.done += 1;
        push_all(&mut self.ready, self.chains.kids(chain));
        (above, own)
    }

    /// Hands in what came of that chain, of which the piece is known to be, where the worker holds it. It takes no memory,
    /// and no time in proportion to the code or the path.
    pub(crate) fn accept(&mut self, worker: usize, chain: usize, piece: Piece<'a>) -> Option<Gone>
        requires { IsOf self.old.job piece chain }
        ensures { MatchOption result ((self.new ≡ self.old) × (standing self.old.state chain ≢
            Leased worker)) (λ _. Happens self.old (Event.Submit worker chain) self.new) }
    {
        if let Some(_fault) = self.refusal(worker, chain) {
            return None;
        }
        Some(self.hand_in(worker, chain, piece))
    }

    /// Hands in what came of a chain.
    ///
    /// `Foreign` exactly where the piece is no chain's of this campaign, else `Twice` exactly where that chain is done,
    /// else `NotLeased` exactly where the worker doesn't hold it; the piece comes back then, and nothing has changed.
    /// It takes no memory.
    pub fn submit(&mut self, worker: usize, piece: Piece<'a>) -> Result<(), (Fault, Piece<'a>)>
        ensures ok { OnOk result (Submits self.old worker piece.entry self.new) }
        ensures err { IfErr result (λ refused. RefusesPiece refused.0 self.old worker piece.entry
            × (refused.1 ≡ piece.entry) × (self.new ≡ self.old)) }
    {
        let Some(chain) = self.chain_of(&piece) else {
            return Err((Fault::Foreign, piece));
        };
        if let Some(fault) = self.refusal(worker, chain) {
            return Err((fault, piece));
        }
        self.hand_in(worker, chain, piece);
        Ok(())
    }

    /// The chain that the worker holds is free again.
    fn put_back(&mut self, worker: usize, chain: usize)
        requires { standing self.old.state chain ≡ Leased worker }
        ensures { Happens self.old (Event.GiveBack worker chain) self.new }
    {
        let _held = self.holders.remove(&worker);
        self.stands[chain] = Stand::Waiting;
        self.leased -= 1;
        self.ready.push_reserved(chain);
    }

    /// Gives back the chain that the worker holds: true. Where it holds none: false, and nothing has changed.
    /// It takes no memory.
    pub fn give_back(&mut self, worker: usize) -> bool
        ensures { MatchBool result
            (GivesBack self.old worker self.new)
            ((self.new ≡ self.old) × (Holds self.old.state worker → ⊥)) }
    {
        match self.held_by(worker) {
            Some(chain) => {
                self.put_back(worker, chain);
                true
            }
            None => false,
        }
    }

    /// Leases no chain from now on. Where that was so, nothing has changed. It takes no memory.
    pub fn stop(&mut self)
        ensures { MatchBool self.old.state.stopped (self.new ≡ self.old)
            (Happens self.old Event.Stop self.new) }
    {
        if self.stopped {
            return;
        }
        self.stopped = true;
    }
}

//! Which chain of a campaign a piece is of.

ghost use Rattle.std.specs.Prelude.{◌≡◌, ◌↔◌, ◌<◌, ℕ, IsTrue, MatchOption};
ghost use Rattle.bx_plan.specs.Chains.{chain_count, chain_path};
ghost use Rattle.bx_board.specs.Kept.{IsOf};

use crate::books::Book;
use crate::working::Piece;
use bx_share::Same;

impl<'a> Book<'a> {
    /// Whether a chain's path is that of a piece.
    fn is_at(&self, piece: &Piece<'a>, chain: usize) -> bool
        requires { chain < chain_count self.now.job.chains }
        ensures { IsTrue result ↔ (chain_path self.now.job.plan self.now.job.chains chain ≡
            piece.now.path) }
    {
        let head = self.chains.head(chain);
        let span = piece.span;
        if head.past != span.past {
            return false;
        }
        let plan = piece.plan;
        self.plan
            .same_front(head.line, head.past, plan, span.line, span.past)
    }

    /// Whether a piece is of this campaign's code and start.
    fn is_own(&self, piece: &Piece<'a>) -> bool
        ensures { IsTrue result ↔ ((self.now.job.image ≡ piece.now.image) ×
            (self.now.job.start ≡ piece.now.start)) }
    {
        self.start == piece.start && self.image.same(piece.image)
    }

    /// The chain of that path: first the one of the piece's own number is looked at, so that the others are only for a
    /// piece of another plan.
    fn chain_at(&self, piece: &Piece<'a>) -> Option<usize>
        ensures { MatchOption result ((n : ℕ) → n < chain_count self.now.job.chains → piece.now.path ≡ chain_path self.now.job.plan self.now.job.chains n → ⊥)
            (λ n. (n < chain_count self.now.job.chains) × (piece.now.path ≡ chain_path self.now.job.plan self.now.job.chains n)) }
    {
        let count = self.chains.len();
        let own = piece.span.chain;
        if own < count && self.is_at(piece, own) {
            return Some(own);
        }
        for chain in 0..count {
            if self.is_at(piece, chain) {
                return Some(chain);
            }
        }
        None
    }

    /// The chain that a piece is of; none where it is of another campaign's code or start, or its path is no chain's.
    pub(super) fn chain_of(&self, piece: &Piece<'a>) -> Option<usize>
        ensures { MatchOption result ((n : ℕ) → IsOf self.now.job piece.now n → ⊥)
            (IsOf self.now.job piece.now) }
    {
        if self.is_own(piece) {
            self.chain_at(piece)
        } else {
            None
        }
    }
}

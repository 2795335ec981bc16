//! What was displayed.

ghost use Rattle.std.specs.Prelude.{◌≡◌, ◌∷◌, ◌++◌, [], OnOk, IfOk, IfErr};
ghost use Rattle.bx_signals.specs.Waiting.{front};

use bx_share::{Same, same_rows};
use bx_terms::{Term, take_room};
use std::alloc::{AllocError, Global};
use std::marker::Model;

/// The terms that were displayed, in order, each with the pid of the process that displayed it.
#[derive(Debug, Drop)]
pub struct Output {
    items: Vec<(u32, Term)>,
}

impl Model for Output {
    ghost use Rattle.std.specs.Prelude.{List, ℕ};
    ghost use Rattle.std.specs.Coded.{coded_list, coded×, coded_ℕ};
    ghost use Rattle.bx_terms.specs.Tree.{Tree};
    ghost use Rattle.bx_terms.specs.contracts.terms.Term as term;

    ghost Value = { List (ℕ × Tree) };

    ghost coded = { coded_list (coded× coded_ℕ term.the_row.coded) };

    ghost view = { λ a. a.items.items };
}

impl Output {
    /// Nothing was displayed.
    pub fn new(alloc: Global) -> Output
        ensures { result ≡ [] }
    {
        Output {
            items: Vec::new(alloc),
        }
    }

    /// Puts a term last, or hands it back where memory ran out, and then nothing has changed.
    pub fn push(&mut self, pid: u32, term: Term) -> Result<(), Term>
        ensures ok { OnOk result (self.new ≡ self.old ++ (pid, term) ∷ []) }
        ensures err { IfErr result (λ t. (t ≡ term) × (self.new ≡ self.old)) }
    {
        match self.items.push((pid, term)) {
            Ok(()) => Ok(()),
            Err(failed) => Err(failed.value.1),
        }
    }

    /// The terms in order, each behind its pid.
    pub fn as_slice(&self) -> &[(u32, Term)]
        ensures { result.now ≡ self.now }
    {
        self.items.as_slice()
    }

    /// The same output. Terms are shared.
    pub fn copy(&self, _alloc: Global) -> Result<Output, AllocError>
        ensures { IfOk result (λ o. o ≡ self.now) }
    {
        let items = self.items.clone()?;
        Ok(Output { items })
    }

    /// A deep copy. It takes one of the room for each term, and what it takes itself.
    pub(crate) fn deep_copy(&self, alloc: Global, room: &mut usize) -> Result<Output, AllocError>
        ensures { IfOk result (λ o. o ≡ self.now) }
    {
        let items = deep_copy_items(alloc, room, &self.items)?;
        Ok(Output { items })
    }

    /// Takes back the term that was put last.
    pub fn take_back(&mut self)
        ensures { self.new ≡ front self.old }
    {
        let _ = self.items.pop();
    }
}

impl Same for Output {
    fn same(&self, other: &Output) -> bool {
        same_rows(&self.items, &other.items)
    }
}

#[tactic(auto, using(std::proofs::lemmas::List::take_more))]
fn deep_copy_items(
    alloc: Global,
    room: &mut usize,
    items: &[(u32, Term)],
) -> Result<Vec<(u32, Term)>, AllocError>
    ensures { IfOk result (λ row. row.items ≡ items.now) }
{
    take_room(room, items.len())?;
    let mut row = Vec::with_capacity(alloc, items.len())?;
    for at in 0..items.len() {
        let term = items[at].1.deep_copy(alloc, room)?;
        row.push((items[at].0, term))?;
    }
    Ok(row)
}

//! Terms: immutable, shared, and never higher than 10,000.

ghost use Rattle.std.specs.Prelude.{◌≡◌, ◌≤◌, ◌↔◌, IfOk, IfErr, IsOk, IsTrue};
ghost use Rattle.bx_terms.specs.Tree.{Tree, height, highest, cons, tuple, int, atom, pid, nil, listed};
ghost use Rattle.bx_terms.specs.Built.{Refuses, IsWithinHeight};
ghost use Rattle.bx_terms.specs.View.{seen};

use crate::atom_table::AtomId;
use bx_share::Same;
use std::alloc::{AllocError, Global};
use std::marker::Model;
use std::sync::Arc;

/// How high a term may be.
///
/// An integer, an atom, a pid and the empty list have height 0; a tuple is 1 higher than its highest element (1 where
/// it has none); a list cell is 1 higher than the higher of its head and its tail.
pub const MAX_HEIGHT: u32 = 10_000;

/// Why a term was not built.
#[derive(Clone, Copy, Debug, PartialEq, Eq)]
pub enum TermRefusal {
    /// It would be higher than 10,000.
    TooHigh,
    /// Memory ran out.
    Memory,
}

/// A term: an integer of 64 bits, an atom, a pid, a tuple, the empty list or a list cell.
///
/// What a term holds is shared, so that a copy takes no time or memory in proportion to its size.
///
/// Source: Erlang Reference Manual, "Data Types".
#[cycle(term)]
#[derive(Debug, Drop)]
pub struct Term {
    form: Form,
}

#[cycle(term)]
#[derive(Debug, Drop)]
enum Form {
    Int(i64),
    Atom(AtomId),
    Pid(u32),
    Tuple(Arc<Row>),
    Nil,
    Cons(Arc<Cell>),
}

#[cycle(term)]
#[derive(Debug, Drop)]
struct Row {
    elements: Vec<Term>,
    height: u32,
}

#[cycle(term)]
#[derive(Debug, Drop)]
struct Cell {
    head: Term,
    tail: Term,
    height: u32,
}

impl Model for Term {
    ghost use Rattle.bx_terms.specs.Tree.{Tree, nodes};
    ghost use Rattle.bx_terms.specs.TreeCode.{tree_code};

    ghost Value = { Tree };

    ghost coded = { tree_code };

    ghost use Rattle.bx_terms.specs.Form.{form_tree, IsForm};

    ghost view = { λ t. form_tree t.form };

    ghost invariant = { λ t. IsForm t.form };

    ghost size = { nodes };

    ghost use Rattle.bx_terms.specs.Falls.{form_falls};

    ghost size_decreases = { λ a h. form_falls a.form };
}

/// What a term is, and what it holds, by reference.
#[derive(Clone, Copy, Debug)]
pub enum View<'a> {
    Int(i64),
    Atom(AtomId),
    Pid(u32),
    /// A tuple's elements.
    Tuple(&'a [Term]),
    Nil,
    /// A list cell's head and tail; the tail need not be a list.
    Cons(&'a Term, &'a Term),
}

impl Term {
    /// The integer `value`.
    #[inline(always)]
    pub fn int(value: i64) -> Term
        ensures { result ≡ int value }
    {
        Term {
            form: Form::Int(value),
        }
    }

    /// The atom of number `id`.
    #[inline(always)]
    pub fn atom(id: AtomId) -> Term
        ensures { result ≡ atom id.0 }
    {
        Term {
            form: Form::Atom(id),
        }
    }

    /// The pid of number `number`.
    #[inline(always)]
    pub fn pid(number: u32) -> Term
        ensures { result ≡ pid number }
    {
        Term {
            form: Form::Pid(number),
        }
    }

    /// The empty list.
    #[inline(always)]
    pub fn nil() -> Term
        ensures { result ≡ nil }
    {
        Term { form: Form::Nil }
    }

    /// The list cell of `head` and `tail`, or the refusal with both handed back.
    #[inline(always)]
    pub fn cons(alloc: Global, head: Term, tail: Term) -> Result<Term, (TermRefusal, Term, Term)>
        ensures built { IfOk result (λ t. t ≡ cons head tail) }
        ensures within { IfOk result IsWithinHeight }
        ensures refused { IfErr result (λ e. Refuses e.0 (cons head tail)) }
        ensures handed_back { IfErr result (λ e. (e.1 ≡ head) × (e.2 ≡ tail)) }
    {
        let height = 1 + head.height().max(tail.height());
        if height > MAX_HEIGHT {
            return Err((TermRefusal::TooHigh, head, tail));
        }
        match Term::cons_of_height(alloc, head, tail, height) {
            Ok(cell) => Ok(cell),
            Err((head, tail)) => Err((TermRefusal::Memory, head, tail)),
        }
    }

    /// The list cell of `head` and `tail`, which is of that height, or both handed back where memory ran out.
    #[inline(always)]
    pub fn cons_of_height(
        alloc: Global,
        head: Term,
        tail: Term,
        tall: u32,
    ) -> Result<Term, (Term, Term)>
        requires known { tall ≡ height (cons head tail) }
        requires within { tall ≤ 10000 }
        ensures built { IfOk result (λ t. t ≡ cons head tail) }
        ensures handed_back { IfErr result (λ e. (e.0 ≡ head) × (e.1 ≡ tail)) }
    {
        let cell = Cell {
            head,
            tail,
            height: tall,
        };
        match Arc::new(alloc, cell) {
            Ok(cell) => Ok(Term {
                form: Form::Cons(cell),
            }),
            Err(failed) => {
                let Cell { head, tail, .. } = failed.value;
                Err((head, tail))
            }
        }
    }

    /// The tuple of `elements`, or the refusal with them handed back.
    pub fn tuple(alloc: Global, elements: Vec<Term>) -> Result<Term, (TermRefusal, Vec<Term>)>
        ensures built { IfOk result (λ t. t ≡ tuple (listed elements.items)) }
        ensures within { IfOk result IsWithinHeight }
        ensures refused { IfErr result (λ e. Refuses e.0 (tuple (listed elements.items))) }
        ensures handed_back { IfErr result (λ e. e.1 ≡ elements) }
    {
        let height = 1 + highest(&elements);
        if height > MAX_HEIGHT {
            return Err((TermRefusal::TooHigh, elements));
        }
        match Arc::new(alloc, Row { elements, height }) {
            Ok(row) => Ok(Term {
                form: Form::Tuple(row),
            }),
            Err(failed) => {
                let Row { elements, .. } = failed.value;
                Err((TermRefusal::Memory, elements))
            }
        }
    }

    /// What this term is, and what it holds.
    #[inline(always)]
    pub fn view(&self) -> View<'_>
        ensures seen { seen result ≡ self.now }
        ensures within { IsWithinHeight self.now }
    {
        match &self.form {
            Form::Int(value) => View::Int(*value),
            Form::Atom(id) => View::Atom(*id),
            Form::Pid(number) => View::Pid(*number),
            Form::Tuple(row) => View::Tuple(&row.elements),
            Form::Nil => View::Nil,
            Form::Cons(cell) => View::Cons(&cell.head, &cell.tail),
        }
    }

    /// This term's height, which is at most 10,000; it is kept with the term, not computed.
    #[inline(always)]
    pub fn height(&self) -> u32
        ensures height { result ≡ height self.now }
        ensures within { result ≤ 10000 }
    {
        match &self.form {
            Form::Tuple(row) => row.height,
            Form::Cons(cell) => cell.height,
            _ => 0,
        }
    }

    /// The same term, sharing what this one holds.
    ///
    /// It takes time and memory in no proportion to the term's size. Out of memory is also the answer where the count of
    /// sharers is full; a term of height 0 is always copied.
    #[inline(always)]
    pub fn copy(&self, _alloc: Global) -> Result<Term, AllocError>
        ensures ok { IfOk result (λ t. t ≡ self.now) }
        ensures succeeds { height self.now ≡ 0 → IsOk result }
    {
        self.clone()
    }

    /// Whether the two terms have the same content.
    #[cycle(same)]
    #[tactic(auto, using(crate::proofs::Rows::listed_same))]
    pub fn same(&self, other: &Term) -> bool
        ensures { IsTrue result ↔ (self.now ≡ other.now) }
    {
        match (self.view(), other.view()) {
            (View::Int(m), View::Int(n)) => m == n,
            (View::Atom(a), View::Atom(b)) => a.0 == b.0,
            (View::Pid(p), View::Pid(q)) => p == q,
            (View::Tuple(xs), View::Tuple(ys)) => same_elements(xs, ys),
            (View::Nil, View::Nil) => true,
            (View::Cons(head, tail), View::Cons(other_head, other_tail)) => {
                head.same(other_head) && tail.same(other_tail)
            }
            _ => false,
        }
    }
}

impl Same for Term {
    fn same(&self, other: &Term) -> bool {
        Term::same(self, other)
    }
}

impl Clone for Term {
    ghost use Rattle.std.specs.Prelude.{◌≡◌};

    ghost is_clone = { λ t u. u ≡ t };

    ghost use Rattle.bx_terms.specs.Tree.{height};

    ghost is_infallible = { λ t. height t ≡ 0 };

    #[inline(always)]
    fn clone(&self) -> Result<Term, AllocError> {
        let form = match &self.form {
            Form::Int(value) => Form::Int(*value),
            Form::Atom(id) => Form::Atom(*id),
            Form::Pid(number) => Form::Pid(*number),
            Form::Tuple(row) => Form::Tuple(Arc::try_clone(row)?),
            Form::Nil => Form::Nil,
            Form::Cons(cell) => Form::Cons(Arc::try_clone(cell)?),
        };
        Ok(Term { form })
    }
}

impl PartialEq for Term {
    ghost use Rattle.bx_terms.specs.Same.{same_tree};
    ghost use Rattle.bx_terms.specs.Sameness.{same_partial_equivalence};

    ghost eq = { same_tree };

    ghost laws = { same_partial_equivalence };

    fn eq(&self, other: &Term) -> bool {
        self.same(other)
    }
}

impl Eq for Term {
    ghost use Rattle.bx_terms.specs.Sameness.{same_equivalence};

    ghost laws = { same_equivalence };
}

#[cycle(same)]
#[tactic(auto, using(bx_share::specs::Rows::rest_at, crate::proofs::Rows::nodes_at))]
fn same_elements(xs: &[Term], ys: &[Term]) -> bool
    ensures { IsTrue result ↔ (xs.now ≡ ys.now) }
{
    if xs.len() != ys.len() {
        return false;
    }
    for i in 0..xs.len() {
        if !xs[i].same(&ys[i]) {
            return false;
        }
    }
    true
}

/// The height of the highest of `terms`, or 0 where there is none.
#[tactic(auto, using(bx_share::specs::Rows::rest_at))]
fn highest(terms: &[Term]) -> u32
    ensures highest { result ≡ highest (listed terms.now) }
    ensures within { result ≤ 10000 }
{
    let mut highest = 0;
    for term in terms {
        highest = highest.max(term.height());
    }
    highest
}

//! What an instruction reads and writes.

ghost use Rattle.std.specs.Prelude.{◌≡◌, ◌⊎◌, Ok, Err, IfOk, IfSome, OnErr, MatchResult, option_map};
ghost use Rattle.bx_terms.specs.Tree.{int};
ghost use Rattle.bx_terms.specs.View.{seen};
ghost use Rattle.bx_asm.specs.Instructed.{source_of};
ghost use Rattle.bx_asm.specs.declared.instruction.Register.TheVariants.{X, Y};
ghost use Rattle.bx_proc.specs.Spelled.{spelled_source};
ghost use Rattle.bx_cells.specs.TopFrame.{y_cell};
ghost use Rattle.bx_proc.specs.Looking.{tree_of};
ghost use Rattle.bx_proc.specs.Reading.{value_at, held_in, written, both_written, carried, carried_in, term_in, term_at};
ghost use Rattle.bx_proc.specs.Stops.{Reads, Turns};
ghost use Rattle.bx_proc.specs.Rules.{KeepsTerm, KeepsValue, Opens, Shares};

use crate::process::Proc;
use crate::stops::Stop;
use bx_asm::{Lookup, Operand, Register, Source};
use bx_cells::Value;
use bx_terms::{Term, Trap, View};
use std::alloc::{AllocError, Global};

/// A term that is looked at: where it lies, or as an instruction spells it.
#[derive(Debug, Drop)]
pub(crate) enum Seen<'a> {
    Held(&'a Term),
    Spelled(Term),
}

impl Seen<'_> {
    /// The term, to be kept.
    #[inline(always)]
    pub(crate) fn kept(self, alloc: Global) -> Result<Term, AllocError>
        ensures kept { IfOk result (λ t. t ≡ tree_of self.entry) }
        ensures memory { OnErr result (Shares (tree_of self.entry)) }
    {
        match self {
            Seen::Held(term) => term.copy(alloc),
            Seen::Spelled(term) => Ok(term),
        }
    }

    #[inline(always)]
    pub(crate) fn term(&self) -> &Term
        ensures { result.now ≡ tree_of self.now }
    {
        match self {
            Seen::Held(term) => term,
            Seen::Spelled(term) => term,
        }
    }
}

impl Proc {
    /// What a source gives, to be kept.
    #[inline(always)]
    pub(crate) fn value_of(&self, alloc: Global, source: Source<'_>) -> Result<Value, Stop>
        ensures { Reads (KeepsValue (value_at (source_of source.entry) self.now)) (λ v. v) result
            (value_at (source_of source.entry) self.now) }
    {
        match source {
            Source::Register(register) => carried(alloc, self.held(register)?),
            Source::Integer(value) => Ok(Value::Term(Term::int(value))),
            Source::Atom(atom) => Ok(Value::Term(Term::atom(atom))),
            Source::Nil => Ok(Value::Term(Term::nil())),
            Source::Literal(term) => Ok(Value::Term(term.copy(alloc)?)),
        }
    }

    /// What a register holds, to be kept in another.
    #[inline(always)]
    pub(crate) fn carried(&self, alloc: Global, register: Register) -> Result<Value, Stop>
        ensures { Reads (KeepsValue (carried_in register self.now)) (λ v. v) result
            (carried_in register self.now) }
    {
        carried(alloc, self.held(register)?)
    }

    /// What a register holds.
    #[inline(always)]
    pub(crate) fn held(&self, register: Register) -> Result<&Value, Trap>
        ensures { MatchResult result (λ v. held_in register self.now ≡ Ok v.now)
            (λ trap. held_in register self.now ≡ Err trap) }
    {
        let cell = match register {
            Register::X(number) => self.x.get(number),
            Register::Y(number) => self.frames.get(number)?,
        };
        match cell {
            Some(value) => Ok(value),
            None => Err(Trap::Unset),
        }
    }

    /// The term that a register holds.
    #[inline(always)]
    pub fn term(&self, register: Register) -> Result<&Term, Trap>
        ensures { MatchResult result (λ t. term_in register self.now ≡ Ok t.now)
            (λ trap. term_in register self.now ≡ Err trap) }
    {
        match self.held(register)? {
            Value::Term(term) => Ok(term),
            _ => Err(Trap::NotATerm),
        }
    }

    /// What an operand gives, to be kept.
    #[inline(always)]
    pub(crate) fn value_by(
        &self,
        alloc: Global,
        tables: Lookup<'_>,
        operand: Operand,
    ) -> Result<Value, Stop>
        ensures { Reads (KeepsValue (value_at (spelled_source tables.entry operand) self.now))
            (λ v. v) result (value_at (spelled_source tables.entry operand) self.now) }
    {
        match operand {
            Operand::X(number) => self.carried(alloc, Register::X(number)),
            Operand::Y(number) => self.carried(alloc, Register::Y(number)),
            _ => self.value_of(alloc, tables.source(operand)),
        }
    }

    /// The term that an operand gives, to be kept.
    #[inline(always)]
    pub(crate) fn term_by(
        &self,
        alloc: Global,
        tables: Lookup<'_>,
        operand: Operand,
    ) -> Result<Term, Stop>
        ensures { Reads (KeepsTerm (term_at (spelled_source tables.entry operand) self.now))
            (λ t. t) result (term_at (spelled_source tables.entry operand) self.now) }
    {
        match operand {
            Operand::X(number) => Ok(self.term(Register::X(number))?.copy(alloc)?),
            Operand::Y(number) => Ok(self.term(Register::Y(number))?.copy(alloc)?),
            _ => self.term_of(alloc, tables.source(operand)),
        }
    }

    /// The integer that an operand gives, where it gives one.
    #[inline(always)]
    pub(crate) fn integer(&self, _tables: Lookup<'_>, operand: &Operand) -> Option<i64>
        ensures { IfSome result
            (λ n. term_at (spelled_source _tables.entry operand.now) self.now ≡ Ok (int n)) }
    {
        match *operand {
            Operand::X(number) => self.integer_in(Register::X(number)),
            Operand::Y(number) => self.integer_in(Register::Y(number)),
            Operand::Integer(value) => Some(value),
            _ => None,
        }
    }

    /// The integer that a register holds, where it holds one.
    #[inline(always)]
    fn integer_in(&self, register: Register) -> Option<i64>
        ensures { IfSome result (λ n. term_in register self.now ≡ Ok (int n)) }
    {
        match self.term(register) {
            Ok(term) => integer_of(term),
            Err(_) => None,
        }
    }

    /// What the term that an operand gives shows, where that is an integer, an atom or nil.
    #[inline(always)]
    pub(crate) fn flat(&self, _tables: Lookup<'_>, operand: &Operand) -> Option<View<'_>>
        ensures { IfSome result
            (λ v. term_at (spelled_source _tables.entry operand.now) self.now ≡ Ok (seen v)) }
    {
        match *operand {
            Operand::X(number) => self.flat_in(Register::X(number)),
            Operand::Y(number) => self.flat_in(Register::Y(number)),
            Operand::Integer(value) => Some(View::Int(value)),
            Operand::Atom(atom) => Some(View::Atom(atom)),
            Operand::Nil => Some(View::Nil),
            _ => None,
        }
    }

    /// What the term in a register shows, where that is an integer, an atom or nil.
    #[inline(always)]
    fn flat_in(&self, register: Register) -> Option<View<'_>>
        ensures { IfSome result (λ v. term_in register self.now ≡ Ok (seen v)) }
    {
        match self.term(register) {
            Ok(term) => flat_of(term),
            Err(_) => None,
        }
    }

    /// The term that a source gives, to be looked at.
    #[inline(always)]
    pub(crate) fn seen<'a>(&'a self, source: Source<'a>) -> Result<Seen<'a>, Trap>
        ensures { MatchResult result
            (λ s. term_at (source_of source.entry) self.now ≡ Ok (tree_of s))
            (λ trap. term_at (source_of source.entry) self.now ≡ Err trap) }
    {
        Ok(match source {
            Source::Register(register) => Seen::Held(self.term(register)?),
            Source::Integer(value) => Seen::Spelled(Term::int(value)),
            Source::Atom(atom) => Seen::Spelled(Term::atom(atom)),
            Source::Nil => Seen::Spelled(Term::nil()),
            Source::Literal(term) => Seen::Held(term),
        })
    }

    /// The term that a source gives, to be kept.
    #[inline(always)]
    pub(crate) fn term_of(&self, alloc: Global, source: Source<'_>) -> Result<Term, Stop>
        ensures { Reads (KeepsTerm (term_at (source_of source.entry) self.now)) (λ t. t) result
            (term_at (source_of source.entry) self.now) }
    {
        match source {
            Source::Register(register) => Ok(self.term(register)?.copy(alloc)?),
            Source::Integer(value) => Ok(Term::int(value)),
            Source::Atom(atom) => Ok(Term::atom(atom)),
            Source::Nil => Ok(Term::nil()),
            Source::Literal(term) => Ok(term.copy(alloc)?),
        }
    }

    /// Puts `value` into a register. Memory is taken only for an x register that holds nothing.
    #[inline(always)]
    pub(crate) fn write(&mut self, register: Register, value: Value) -> Result<(), Stop>
        ensures { Turns (Opens register self.old) self.old self.new result
            (written register value self.old) }
    {
        match register {
            Register::X(number) => match self.x.set(number, value) {
                Ok(()) => Ok(()),
                Err(_) => Err(Stop::memory()),
            },
            Register::Y(number) => match self.frames.set(number, value) {
                Ok(()) => Ok(()),
                Err((trap, _)) => Err(Stop::trapped(trap)),
            },
        }
    }

    /// What a y register holds, where it holds something.
    #[inline(always)]
    pub(crate) fn y_cell(&self, number: u16) -> Result<Option<&Value>, Trap>
        ensures { MatchResult result
            (λ cell. y_cell number self.now.frames ≡ Ok (option_map (λ v. v.now) cell))
            (λ trap. y_cell number self.now.frames ≡ Err trap) }
    {
        self.frames.get(number)
    }

    /// Puts `value` into a y register, which takes no memory.
    #[inline(always)]
    fn write_y(&mut self, number: u16, value: Value) -> Result<(), Stop>
        ensures { Turns ⊥ self.old self.new result (written (Y number) value self.old) }
    {
        match self.frames.set(number, value) {
            Ok(()) => Ok(()),
            Err((trap, _)) => Err(Stop::trapped(trap)),
        }
    }

    /// Puts values into two registers, one after the other, or into none. Memory is taken only for
    /// x registers that hold nothing.
    #[inline(always)]
    #[tactic(auto, using(crate::proofs::Writing::y_and_x))]
    pub(crate) fn write_both(
        &mut self,
        one: Register,
        value: Value,
        other: Register,
        more: Value,
    ) -> Result<(), Stop>
        ensures { Turns (Opens one self.old ⊎ Opens other self.old) self.old self.new result
            (both_written one value other more self.old) }
    {
        match (one, other) {
            (Register::X(first), Register::X(second)) => {
                match self.x.set_two(first, value, second, more) {
                    Ok(()) => Ok(()),
                    Err(_) => Err(Stop::memory()),
                }
            }
            (Register::X(first), Register::Y(second)) => {
                self.write_x_and_y(first, value, second, more)
            }
            (Register::Y(first), Register::X(second)) => {
                self.write_x_and_y(second, more, first, value)
            }
            (Register::Y(first), Register::Y(second)) => {
                self.write_ys(first, value, second, more)
            }
        }
    }

    /// Puts values into an x and a y register, or into none.
    #[inline(always)]
    fn write_x_and_y(&mut self, x: u16, value: Value, y: u16, more: Value) -> Result<(), Stop>
        ensures { Turns (Opens (X x) self.old) self.old self.new result
            (both_written (X x) value (Y y) more self.old) }
    {
        self.y_cell(y)?;
        self.write(Register::X(x), value)?;
        self.write_y(y, more)
    }

    /// Puts values into two y registers, one after the other, or into none.
    fn write_ys(&mut self, first: u16, value: Value, second: u16, more: Value) -> Result<(), Stop>
        ensures { Turns ⊥ self.old self.new result
            (both_written (Y first) value (Y second) more self.old) }
    {
        self.y_cell(first)?;
        self.y_cell(second)?;
        self.write_y(first, value)?;
        self.write_y(second, more)
    }
}

#[inline(always)]
fn integer_of(term: &Term) -> Option<i64>
    ensures { IfSome result (λ n. term.now ≡ int n) }
{
    match term.view() {
        View::Int(value) => Some(value),
        _ => None,
    }
}

#[inline(always)]
fn flat_of(term: &Term) -> Option<View<'_>>
    ensures { IfSome result (λ v. term.now ≡ seen v) }
{
    match term.view() {
        View::Int(value) => Some(View::Int(value)),
        View::Atom(atom) => Some(View::Atom(atom)),
        View::Nil => Some(View::Nil),
        _ => None,
    }
}

/// A copy of what an instruction may carry from one register to another.
#[inline(always)]
fn carried(alloc: Global, value: &Value) -> Result<Value, Stop>
    ensures { Reads (KeepsValue (carried value.now)) (λ v. v) result (carried value.now) }
{
    match value {
        Value::Term(term) => Ok(Value::Term(term.copy(alloc)?)),
        Value::Tag(_) => Err(Stop::trapped(Trap::NotATerm)),
        Value::Trace(class) => Ok(Value::Trace(*class)),
    }
}

//! Catch tags, the faults that they catch, and values that nothing matched.

ghost use Rattle.std.specs.Prelude.{◌≡◌, ℕ, Ok, Err, Some, option_map, List};
ghost use Rattle.bx_asm.specs.Instructed.{source_of};
ghost use Rattle.bx_load.specs.Image.{Loaded};
ghost use Rattle.bx_terms.specs.declared.places.Place as places;
ghost use Rattle.bx_proc.specs.Catching.{tagged, tag_at, caught_of, class_atom, trace_at, mismatched};
ghost use Rattle.bx_proc.specs.Faults.{within_height};
ghost use Rattle.bx_listing.specs.declared.items.Operand.{Operand as Spelt};
ghost use Rattle.bx_ops.specs.declared.opcode.Op.TheVariants as ops;
ghost use Rattle.bx_proc.specs.Runs.{RunsBy};
ghost use Rattle.bx_proc.specs.Table.{own_rule, tagging, not_matching};
ghost use Rattle.bx_proc.specs.Spelled.{spelled};
ghost use Rattle.bx_proc.specs.Stops.{Reads, Turns};
ghost use Rattle.bx_proc.specs.Looking.{tree_of};
ghost use Rattle.bx_terms.specs.Built.{IsWithinHeight};

use crate::faults::pair;
use crate::operands::{atom_of, label_of, y_of};
use crate::process::Proc;
use crate::reading::Seen;
use crate::stops::Stop;
use bx_asm::{CallKind, Lookup, Mismatch, Operand, Register, Source};
use bx_cells::Value;
use bx_load::Image;
use bx_terms::{AtomId, Class, MAX_HEIGHT, Place, Term, Trap, fixed};
use std::alloc::Global;

impl Proc {
    /// `catch` and `try`.
    #[inline(never)]
    #[tactic(auto, unfolding(bx_asm::specs::Meaning::taken))]
    pub(crate) fn catch_at_label(
        &mut self,
        image: &Image,
        here: Place,
        tables: Lookup<'_>,
        row: &[Operand],
    ) -> Result<(), Stop>
        ensures { RunsBy self.old self.new result
            (tagging image.now here (spelled tables.entry row.now) self.old) }
    {
        let [tag, label, ..] = row else {
            return Err(Stop::trapped(Trap::BadPlace));
        };
        let tag = y_of(tables, *tag)?;
        let label = label_of(tables, *label)?;
        self.tag(tag, image.target(here.module, label))?;
        self.place = Some(image.after(here));
        Ok(())
    }

    /// Puts a tag into a y register.
    fn tag(&mut self, number: u16, place: Option<Place>) -> Result<(), Stop>
        ensures { Turns ⊥ self.old self.new result (tagged number place self.old) }
    {
        let Some(place) = place else {
            return Err(Stop::trapped(Trap::BadPlace));
        };
        match self.frames.set(number, Value::Tag(place)) {
            Ok(()) => Ok(()),
            Err((trap, _)) => Err(Stop::trapped(trap)),
        }
    }

    /// The address of the tag that a y register holds.
    fn tag_of(&self, number: u16) -> Result<Place, Trap>
        ensures { result ≡ tag_at number self.now }
    {
        match self.frames.get(number)? {
            Some(Value::Tag(place)) => Ok(*place),
            _ => Err(Trap::NoTag),
        }
    }

    /// `catch_end`.
    #[inline(never)]
    #[tactic(auto, unfolding(crate::specs::Table::own_rule, bx_asm::specs::Meaning::taken, crate::specs::Catching::catch_end_row))]
    pub(crate) fn catch_end(
        &mut self,
        alloc: Global,
        image: &Image,
        here: Place,
        tables: Lookup<'_>,
        row: &[Operand],
    ) -> Result<(), Stop>
        ensures { (pid : ℕ) → RunsBy self.old self.new result
            (own_rule pid image.now here ops.CatchEnd (spelled tables.entry row.now) self.old) }
    {
        let [number, ..] = row else {
            return Err(Stop::trapped(Trap::BadPlace));
        };
        let number = y_of(tables, *number)?;
        self.tag_of(number)?;
        if let Some(fault) = &self.fault {
            let caught = caught_of(alloc, fault.class, &fault.value)?;
            if let Err(_) = self.x.set(0, Value::Term(caught)) {
                return Err(Stop::memory());
            }
            self.fault = None;
        }
        self.clear(number)?;
        self.place = Some(image.after(here));
        Ok(())
    }

    /// `try_end`.
    #[inline(never)]
    #[tactic(auto, unfolding(crate::specs::Table::own_rule, bx_asm::specs::Meaning::taken, crate::specs::Catching::try_end_row))]
    pub(crate) fn try_end(
        &mut self,
        image: &Image,
        here: Place,
        tables: Lookup<'_>,
        row: &[Operand],
    ) -> Result<(), Stop>
        ensures { (pid : ℕ) → RunsBy self.old self.new result
            (own_rule pid image.now here ops.TryEnd (spelled tables.entry row.now) self.old) }
    {
        let [number, ..] = row else {
            return Err(Stop::trapped(Trap::BadPlace));
        };
        let number = y_of(tables, *number)?;
        self.tag_of(number)?;
        self.clear(number)?;
        self.place = Some(image.after(here));
        Ok(())
    }

    /// `try_case`.
    #[inline(never)]
    #[tactic(auto, unfolding(crate::specs::Table::own_rule, bx_asm::specs::Meaning::taken, crate::specs::Catching::try_case_row))]
    pub(crate) fn try_case(
        &mut self,
        alloc: Global,
        image: &Image,
        here: Place,
        tables: Lookup<'_>,
        row: &[Operand],
    ) -> Result<(), Stop>
        ensures { (pid : ℕ) → RunsBy self.old self.new result
            (own_rule pid image.now here ops.TryCase (spelled tables.entry row.now) self.old) }
    {
        let [number, ..] = row else {
            return Err(Stop::trapped(Trap::BadPlace));
        };
        let number = y_of(tables, *number)?;
        self.frames.get(number)?;
        let Some(fault) = &self.fault else {
            return Err(Stop::trapped(Trap::NoPending));
        };
        self.tag_of(number)?;
        let class = fault.class;
        let value = Value::Term(fault.value.copy(alloc)?);
        let name = Value::Term(Term::atom(class_atom(class)));
        if let Err(_) = self.x.set_three(name, value, Value::Trace(class)) {
            return Err(Stop::memory());
        }
        self.fault = None;
        self.clear(number)?;
        self.place = Some(image.after(here));
        Ok(())
    }

    /// The class of the trace that a source gives.
    fn trace(&self, source: Source<'_>) -> Result<Class, Trap>
        ensures { result ≡ trace_at (source_of source.entry) self.now }
    {
        let Source::Register(register) = source else {
            return Err(Trap::WrongShape);
        };
        match self.held(register)? {
            Value::Trace(class) => Ok(*class),
            _ => Err(Trap::WrongShape),
        }
    }

    /// `raise`.
    #[inline(never)]
    #[tactic(auto, unfolding(crate::specs::Table::own_rule, bx_asm::specs::Meaning::taken, crate::specs::Catching::raise_row))]
    pub(crate) fn raise_again(
        &mut self,
        alloc: Global,
        tables: Lookup<'_>,
        row: &[Operand],
    ) -> Result<(), Stop>
        ensures { (pid : ℕ) (image : Loaded) (here : places.Place) → RunsBy self.old self.new result
            (own_rule pid image here ops.Raise (spelled tables.entry row.now) self.old) }
    {
        let [trace, value, ..] = row else {
            return Err(Stop::trapped(Trap::BadPlace));
        };
        let class = self.trace(tables.source(*trace))?;
        let value = {
            let seen = self.seen(tables.source(*value))?;
            self.may_raise(CallKind::Plain, class, seen.term())?;
            seen.kept(alloc)?
        };
        self.raise(alloc, class, value)
    }

    /// `build_stacktrace`.
    #[inline(never)]
    #[tactic(auto, unfolding(crate::specs::Table::own_rule, bx_asm::specs::Meaning::taken, crate::specs::Catching::build_stacktrace_row))]
    pub(crate) fn build_stacktrace(&mut self, image: &Image, here: Place) -> Result<(), Stop>
        ensures { (pid : ℕ) (os : List Spelt) → RunsBy self.old self.new result
            (own_rule pid image.now here ops.BuildStacktrace os self.old) }
    {
        self.trace(Source::Register(Register::X(0)))?;
        if let Err(_) = self.x.set(0, Value::Term(Term::nil())) {
            return Err(Stop::memory());
        }
        self.place = Some(image.after(here));
        Ok(())
    }

    /// `func_info`.
    #[inline(never)]
    #[tactic(auto, unfolding(crate::specs::Table::own_rule, bx_asm::specs::Meaning::taken))]
    pub(crate) fn func_info(
        &mut self,
        alloc: Global,
        tables: Lookup<'_>,
        row: &[Operand],
    ) -> Result<(), Stop>
        ensures { (pid : ℕ) (image : Loaded) (here : places.Place) → RunsBy self.old self.new result
            (own_rule pid image here ops.FuncInfo (spelled tables.entry row.now) self.old) }
    {
        let [module, name, _, ..] = row else {
            return Err(Stop::trapped(Trap::BadPlace));
        };
        atom_of(tables, *module)?;
        atom_of(tables, *name)?;
        self.raise(alloc, Class::Error, Term::atom(fixed::FUNCTION_CLAUSE))
    }

    /// `int_code_end`.
    #[inline(always)]
    #[tactic(auto, unfolding(crate::specs::Table::own_rule, bx_asm::specs::Meaning::taken))]
    pub(crate) fn int_code_end(&mut self) -> Result<(), Stop>
        ensures { (pid : ℕ) (image : Loaded) (here : places.Place) (os : List Spelt) → RunsBy self.old self.new result
            (own_rule pid image here ops.IntCodeEnd os self.old) }
    {
        Err(Stop::trapped(Trap::BadPlace))
    }

    /// `if_end`.
    #[inline(never)]
    #[tactic(auto, unfolding(crate::specs::Table::own_rule, bx_asm::specs::Meaning::taken))]
    pub(crate) fn if_end(&mut self, alloc: Global) -> Result<(), Stop>
        ensures { (pid : ℕ) (image : Loaded) (here : places.Place) (os : List Spelt) → RunsBy self.old self.new result
            (own_rule pid image here ops.IfEnd os self.old) }
    {
        self.raise(alloc, Class::Error, Term::atom(fixed::IF_CLAUSE))
    }

    /// `badmatch`, `case_end` and `try_case_end`.
    #[inline(never)]
    #[tactic(auto, unfolding(bx_asm::specs::Meaning::taken, crate::specs::Catching::no_match_row))]
    pub(crate) fn no_match(
        &mut self,
        alloc: Global,
        mismatch: Mismatch,
        tables: Lookup<'_>,
        row: &[Operand],
    ) -> Result<(), Stop>
        ensures { RunsBy self.old self.new result
            (not_matching mismatch (spelled tables.entry row.now) self.old) }
    {
        let [value, ..] = row else {
            return Err(Stop::trapped(Trap::BadPlace));
        };
        let told = {
            let seen = self.seen(tables.source(*value))?;
            mismatched(alloc, mismatch, seen)?
        };
        self.raise(alloc, Class::Error, told)
    }
}

/// What `catch` gives for a fault. Its height is looked at before anything is built.
fn caught_of(alloc: Global, class: Class, value: &Term) -> Result<Term, Stop>
    ensures { Reads (caught_of class value.now).takes (λ t. t) result
        (caught_of class value.now).said }
{
    let exit = Term::atom(fixed::EXIT_TAG);
    match class {
        Class::Throw => Ok(value.copy(alloc)?),
        Class::Exit => {
            if value.height() == MAX_HEIGHT {
                return Err(Stop::trapped(Trap::TermHeight));
            }
            pair(alloc, exit, value.copy(alloc)?)
        }
        Class::Error => {
            if value.height() > MAX_HEIGHT - 2 {
                return Err(Stop::trapped(Trap::TermHeight));
            }
            let reason = pair(alloc, value.copy(alloc)?, Term::nil())?;
            pair(alloc, exit, reason)
        }
    }
}

fn class_atom(class: Class) -> AtomId
    ensures { result.0 ≡ class_atom class }
{
    match class {
        Class::Throw => fixed::THROW,
        Class::Error => fixed::ERROR,
        Class::Exit => fixed::EXIT,
    }
}

/// A value that nothing matched, as the fault tells it. Its height is looked at before anything is built.
fn mismatched(alloc: Global, mismatch: Mismatch, value: Seen<'_>) -> Result<Term, Stop>
    ensures { Reads (IsWithinHeight (mismatched mismatch (tree_of value.entry))) (λ t. t) result
        (within_height (mismatched mismatch (tree_of value.entry))) }
{
    let name = match mismatch {
        Mismatch::Badmatch => fixed::BADMATCH,
        Mismatch::CaseClause => fixed::CASE_CLAUSE,
        Mismatch::TryClause => fixed::TRY_CLAUSE,
    };
    if value.term().height() == MAX_HEIGHT {
        return Err(Stop::trapped(Trap::TermHeight));
    }
    pair(alloc, Term::atom(name), value.kept(alloc)?)
}

//! The x registers of a process.

ghost use Rattle.std.specs.Prelude.{◌≡◌, ◌≢◌, ◌↔◌, ◌⊎◌, ◌<◌, ◌≤◌, ℕ, [], length, IfOk, OnOk, IfErr, OnErr, IsTrue, None, option_map};
ghost use Rattle.std.specs.FinMap as map;
ghost use Rattle.bx_cells.specs.Indexed.{cell_at, indexed, listed};
ghost use Rattle.bx_cells.specs.Held.{IsFlat, all_held, holding};

use crate::deep_copies::deep_copy_cells;
use crate::values::Value;
use bx_share::same_held;
use bx_terms::Term;
use std::alloc::{AllocError, Global};
use std::marker::Model;

/// The x registers: which numbers hold a value, and which value.
///
/// They lie in a vector by number, so that each is read and written in constant time.
///
/// Source: The BEAM Book, "The Registers".
#[derive(Debug, Drop)]
pub struct Registers {
    cells: Vec<Option<Value>>,
}

impl Model for Registers {
    ghost use Rattle.std.specs.Prelude.{ℕ};
    ghost use Rattle.std.specs.Coded.{coded_ℕ};
    ghost use Rattle.std.specs.FinMap as map;
    ghost use Rattle.std.specs.Ordering.{nat_cmp};
    ghost use Rattle.bx_cells.specs.declared.values.Value.{Value as Held};
    ghost use Rattle.bx_cells.specs.contracts.values.Value as held;
    ghost use Rattle.bx_cells.specs.Indexed.{indexed};

    ghost Value = { map.FinMap nat_cmp Held };

    ghost coded = { map.code coded_ℕ held.the_row.coded };

    ghost view = { λ a. indexed 0 a.cells.items };
}

impl Registers {
    /// No register holds anything.
    pub fn new(alloc: Global) -> Registers
        ensures { result ≡ map.empty }
    {
        Registers {
            cells: Vec::new(alloc),
        }
    }

    /// The registers from x0 on, each of which holds one of these terms. Terms are shared. Memory is taken only where
    /// there is a term.
    pub fn holding(alloc: Global, terms: &[Term]) -> Result<Registers, AllocError>
        ensures held { IfOk result (λ r. r ≡ holding terms.now) }
        ensures memory { OnErr result (terms.now ≢ []) }
    {
        let cells = all_held(alloc, terms)?;
        Ok(Registers { cells })
    }

    /// What the register of this number holds.
    #[inline(always)]
    #[tactic(auto, using(crate::proofs::Cells::get_indexed))]
    pub fn get(&self, number: u16) -> Option<&Value>
        ensures { option_map (λ v. v.now) result ≡ map.get self.now number }
    {
        cell(&self.cells, number as usize)
    }

    /// Whether the register of this number holds a value that shares nothing.
    #[inline(always)]
    #[tactic(auto, using(crate::proofs::Cells::get_indexed))]
    pub fn is_flat(&self, number: u16) -> bool
        ensures { IsTrue result ↔ IsFlat (map.get self.now number) }
    {
        match cell(&self.cells, number as usize) {
            Some(value) => value.is_flat(),
            None => false,
        }
    }

    /// Puts `value` into the register of this number, or hands it back where memory ran out, and then nothing has
    /// changed. Memory is taken only where that register holds nothing.
    #[inline(always)]
    #[tactic(auto, using(crate::proofs::Cells::nothing_past))]
    pub fn set(&mut self, number: u16, value: Value) -> Result<(), Value>
        ensures ok { OnOk result (self.new ≡ map.insert self.old number value) }
        ensures err { IfErr result (λ v. (v ≡ value) × (self.new ≡ self.old) × (map.get self.old number ≡ None)) }
    {
        let at = number as usize;
        if at >= self.cells.len() && grow(&mut self.cells, at).is_err() {
            return Err(value);
        }
        write(&mut self.cells, at, value);
        Ok(())
    }

    /// Puts values into two registers, the second after the first, or hands both back where memory ran out, and then
    /// nothing has changed. Memory is taken only where one of them holds nothing.
    #[inline]
    #[tactic(auto, using(crate::proofs::Cells::nothing_past))]
    pub fn set_two(
        &mut self,
        number: u16,
        value: Value,
        second: u16,
        other: Value,
    ) -> Result<(), (Value, Value)>
        ensures ok { OnOk result (self.new ≡ map.insert (map.insert self.old number value) second other) }
        ensures err { IfErr result (λ back. (back ≡ (value, other)) × (self.new ≡ self.old) × ((map.get self.old number ≡ None) ⊎ (map.get self.old second ≡ None))) }
    {
        let last = if number < second { second } else { number };
        if last as usize >= self.cells.len() && grow(&mut self.cells, last as usize).is_err() {
            return Err((value, other));
        }
        write(&mut self.cells, number as usize, value);
        write(&mut self.cells, second as usize, other);
        Ok(())
    }

    /// Puts values into x0, x1 and x2, or hands them back where memory ran out, and then nothing has changed. Memory is
    /// taken only where x2 holds nothing.
    #[tactic(auto, using(crate::proofs::Cells::nothing_past))]
    pub fn set_three(
        &mut self,
        first: Value,
        second: Value,
        third: Value,
    ) -> Result<(), (Value, Value, Value)>
        ensures ok { OnOk result (self.new ≡ map.insert (map.insert (map.insert self.old 0 first) 1 second) 2 third) }
        ensures err { IfErr result (λ back. (back ≡ (first, second, third)) × (self.new ≡ self.old) × (map.get self.old 2 ≡ None)) }
    {
        if self.cells.len() <= 2 && grow(&mut self.cells, 2).is_err() {
            return Err((first, second, third));
        }
        write(&mut self.cells, 0, first);
        write(&mut self.cells, 1, second);
        write(&mut self.cells, 2, third);
        Ok(())
    }

    /// How many registers lie in the row, those below the last one that hold nothing too: what a copy takes.
    #[tactic(auto, using(crate::proofs::Listed::within_row))]
    pub fn cells(&self) -> usize
        ensures { length (map.entries self.now) ≤ result }
    {
        self.cells.len()
    }

    /// What the registers hold, by their numbers from 0 on; those past the end hold nothing.
    #[tactic(auto, using(crate::proofs::Listed::entries_listed))]
    pub fn as_slice(&self) -> &[Option<Value>]
        ensures held { indexed 0 result.now ≡ self.now }
        ensures listed { map.entries self.now ≡ listed 0 result.now }
    {
        &self.cells
    }

    /// The same registers. Terms are shared. Memory is taken only where a register holds something.
    pub fn copy(&self, alloc: Global) -> Result<Registers, AllocError>
        ensures copied { IfOk result (λ r. r ≡ self.now) }
        ensures memory { OnErr result (self.now ≢ map.empty) }
    {
        let none = Registers::new(alloc);
        if self.same(&none) {
            return Ok(none);
        }
        let cells = self.cells.clone()?;
        Ok(Registers { cells })
    }

    /// A deep copy. It takes one of the room for each register, and what their terms take, and is out of memory past it.
    pub fn deep_copy(&self, alloc: Global, room: &mut usize) -> Result<Registers, AllocError>
        ensures { IfOk result (λ r. r ≡ self.now) }
    {
        let cells = deep_copy_cells(alloc, room, &self.cells)?;
        Ok(Registers { cells })
    }

    /// Whether the same registers hold the same values.
    #[tactic(auto, using(crate::proofs::Cells::indexed_same))]
    pub fn same(&self, other: &Registers) -> bool
        ensures { IsTrue result ↔ (self.now ≡ other.now) }
    {
        same_cells(&self.cells, &other.cells)
    }
}

/// A row of registers, one for each term.
#[tactic(auto, using(crate::proofs::Cells::all_held_next))]
fn all_held(alloc: Global, terms: &[Term]) -> Result<Vec<Option<Value>>, AllocError>
    ensures held { IfOk result (λ cells. cells.items ≡ all_held terms.now) }
    ensures memory { OnErr result (terms.now ≢ []) }
{
    let mut cells = Vec::new(alloc);
    for term in terms {
        let term = term.copy(alloc)?;
        cells.push(Some(Value::Term(term)))?;
    }
    Ok(cells)
}

/// Makes the row long enough to have a register at `at`.
#[inline(never)]
#[tactic(auto, using(crate::proofs::Cells::indexed_more))]
fn grow(cells: &mut Vec<Option<Value>>, at: usize) -> Result<(), AllocError>
    requires { at < 65536 }
    ensures long { OnOk result (at < length cells.new.items) }
    ensures kept { indexed 0 cells.new.items ≡ indexed 0 cells.old.items }
    ensures short { OnErr result (length cells.old.items ≤ at) }
{
    for _next in cells.len()..at + 1 {
        cells.push(None)?;
    }
    Ok(())
}

/// Writes into a register that the row has.
#[inline(always)]
#[tactic(auto, using(crate::proofs::Cells::indexed_set))]
fn write(cells: &mut Vec<Option<Value>>, at: usize, value: Value)
    requires { at < length cells.old.items }
    ensures written { indexed 0 cells.new.items ≡ map.insert (indexed 0 cells.old.items) at value }
    ensures as_long { length cells.new.items ≡ length cells.old.items }
{
    cells[at] = Some(value);
}

/// Whether two rows hold the same at each number.
#[tactic(auto, using(crate::proofs::Cells::same_below))]
fn same_cells(xs: &[Option<Value>], ys: &[Option<Value>]) -> bool
    ensures { IsTrue result ↔ ((k : ℕ) → cell_at xs.now k ≡ cell_at ys.now k) }
{
    for at in 0..xs.len().max(ys.len()) {
        if !same_held(cell(xs, at), cell(ys, at)) {
            return false;
        }
    }
    true
}

/// What stands at `at`, where something does.
#[inline(always)]
fn cell(cells: &[Option<Value>], at: usize) -> Option<&Value>
    ensures { option_map (λ v. v.now) result ≡ cell_at cells.now at }
{
    if at >= cells.len() {
        return None;
    }
    match &cells[at] {
        Some(value) => Some(value),
        None => None,
    }
}

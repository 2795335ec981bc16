//! Frames of the stack.

ghost use Rattle.std.specs.Prelude.{◌≡◌, ℕ, Ok, Err, MatchResult, option_map, List};
ghost use Rattle.bx_asm.specs.Instructed.{registers_of};
ghost use Rattle.bx_listing.specs.declared.items.Operand.{Operand as Spelt};
ghost use Rattle.bx_ops.specs.declared.opcode.Op.TheVariants as ops;
ghost use Rattle.bx_proc.specs.Runs.{RunsBy};
ghost use Rattle.bx_proc.specs.Table.{own_rule, allocating};
ghost use Rattle.bx_proc.specs.Spelled.{spelled};
ghost use Rattle.bx_proc.specs.Stacking.{cleared, cleared_if, there_all, all_cleared};
ghost use Rattle.bx_proc.specs.Stops.{Turns};

use crate::operands::registers_in;
use crate::process::Proc;
use crate::stops::Stop;
use bx_asm::{Lookup, Operand, YRegisters};
use bx_cells::Value;
use bx_load::Image;
use bx_terms::{Place, Term, Trap};

impl Proc {
    /// `allocate`.
    #[inline(never)]
    #[tactic(auto, unfolding(crate::specs::Table::own_rule, bx_asm::specs::Meaning::taken))]
    pub(crate) fn allocate(
        &mut self,
        image: &Image,
        here: Place,
        tables: Lookup<'_>,
        row: &[Operand],
    ) -> Result<(), Stop>
        ensures { (pid : ℕ) → RunsBy self.old self.new result
            (own_rule pid image.now here ops.Allocate (spelled tables.entry row.now) self.old) }
    {
        let [size, _, ..] = row else {
            return Err(Stop::trapped(Trap::BadPlace));
        };
        self.add_frame(image, here, tables.number(*size))
    }

    /// `allocate_heap`.
    #[inline(never)]
    #[tactic(auto, unfolding(crate::specs::Table::own_rule, bx_asm::specs::Meaning::taken))]
    pub(crate) fn allocate_heap(
        &mut self,
        image: &Image,
        here: Place,
        tables: Lookup<'_>,
        row: &[Operand],
    ) -> Result<(), Stop>
        ensures { (pid : ℕ) → RunsBy self.old self.new result
            (own_rule pid image.now here ops.AllocateHeap (spelled tables.entry row.now) self.old) }
    {
        let [size, ..] = row else {
            return Err(Stop::trapped(Trap::BadPlace));
        };
        self.add_frame(image, here, tables.number(*size))
    }

    /// A frame more, of that many registers.
    #[inline(always)]
    fn add_frame(&mut self, image: &Image, here: Place, size: u32) -> Result<(), Stop>
        ensures { RunsBy self.old self.new result (allocating image.now here size self.old) }
    {
        self.frames.push(size as usize, self.cp)?;
        self.place = Some(image.after(here));
        Ok(())
    }

    /// `deallocate`.
    #[inline(never)]
    #[tactic(auto, unfolding(crate::specs::Table::own_rule, bx_asm::specs::Meaning::taken))]
    pub(crate) fn deallocate(
        &mut self,
        image: &Image,
        here: Place,
        tables: Lookup<'_>,
        row: &[Operand],
    ) -> Result<(), Stop>
        ensures { (pid : ℕ) → RunsBy self.old self.new result
            (own_rule pid image.now here ops.Deallocate (spelled tables.entry row.now) self.old) }
    {
        let [size, ..] = row else {
            return Err(Stop::trapped(Trap::BadPlace));
        };
        let size = tables.number(*size);
        self.give_back(size)?;
        self.place = Some(image.after(here));
        Ok(())
    }

    /// `test_heap`.
    #[inline(always)]
    #[tactic(auto, unfolding(crate::specs::Table::own_rule, bx_asm::specs::Meaning::taken))]
    pub(crate) fn test_heap(&mut self, image: &Image, here: Place) -> Result<(), Stop>
        ensures { (pid : ℕ) (os : List Spelt) → RunsBy self.old self.new result
            (own_rule pid image.now here ops.TestHeap os self.old) }
    {
        self.place = Some(image.after(here));
        Ok(())
    }

    /// `trim`.
    #[inline(never)]
    #[tactic(auto, unfolding(crate::specs::Table::own_rule, bx_asm::specs::Meaning::taken))]
    pub(crate) fn trim(
        &mut self,
        image: &Image,
        here: Place,
        tables: Lookup<'_>,
        row: &[Operand],
    ) -> Result<(), Stop>
        ensures { (pid : ℕ) → RunsBy self.old self.new result
            (own_rule pid image.now here ops.Trim (spelled tables.entry row.now) self.old) }
    {
        let [count, left, ..] = row else {
            return Err(Stop::trapped(Trap::BadPlace));
        };
        let count = tables.number(*count);
        let left = tables.number(*left);
        self.saved(count as u64 + left as u64)?;
        self.frames.trim(count as usize);
        self.place = Some(image.after(here));
        Ok(())
    }

    /// `init_yregs`.
    #[inline(never)]
    #[tactic(auto, unfolding(crate::specs::Table::own_rule, bx_asm::specs::Meaning::taken))]
    pub(crate) fn init_yregs(
        &mut self,
        image: &Image,
        here: Place,
        tables: Lookup<'_>,
        row: &[Operand],
    ) -> Result<(), Stop>
        ensures { (pid : ℕ) → RunsBy self.old self.new result
            (own_rule pid image.now here ops.InitYregs (spelled tables.entry row.now) self.old) }
    {
        let registers = registers_in(tables, row)?;
        self.find_yregs(registers)?;
        self.clear_yregs(registers);
        self.place = Some(image.after(here));
        Ok(())
    }

    /// Whether the topmost frame has all of these.
    #[tactic(auto, using(crate::proofs::Registers::there_none, crate::proofs::Registers::there_end))]
    fn find_yregs(&self, registers: YRegisters<'_>) -> Result<(), Trap>
        ensures { MatchResult result
            (λ done. there_all (registers_of registers.entry) self.now ≡ Ok self.now)
            (λ trap. there_all (registers_of registers.entry) self.now ≡ Err trap) }
    {
        for at in 0..registers.len() {
            let Some(number) = registers.get(at) else {
                return Ok(());
            };
            self.y_cell(number)?;
        }
        Ok(())
    }

    /// Puts nil into those of these that the topmost frame has.
    #[tactic(auto, using(crate::proofs::Registers::cleared_none, crate::proofs::Registers::cleared_end))]
    fn clear_yregs(&mut self, registers: YRegisters<'_>)
        ensures { self.new ≡ all_cleared (registers_of registers.entry) self.old }
    {
        for at in 0..registers.len() {
            let Some(number) = registers.get(at) else {
                return;
            };
            self.clear_if(number);
        }
    }

    /// Puts nil into a y register, where it is there.
    fn clear_if(&mut self, number: u16)
        ensures { self.new ≡ cleared_if number self.old }
    {
        let _refused = self.clear(number);
    }

    /// Puts nil into a y register.
    #[inline(always)]
    pub(crate) fn clear(&mut self, number: u16) -> Result<(), Stop>
        ensures { Turns ⊥ self.old self.new result (cleared number self.old) }
    {
        match self.frames.set(number, Value::Term(Term::nil())) {
            Ok(()) => Ok(()),
            Err((trap, _)) => Err(Stop::trapped(trap)),
        }
    }
}

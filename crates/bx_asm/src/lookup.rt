//! Operands looked at where they lie: nothing is copied, and no memory is taken.

ghost use Rattle.std.specs.Prelude.{◌≡◌, Option, option_map, length};
ghost use Rattle.bx_ops.specs.declared.sorts.Sort.TheVariants as sorts;
ghost use Rattle.bx_asm.specs.Operands.{operand_of, row_of};
ghost use Rattle.bx_asm.specs.Meaning.{as_source, as_register, as_y, as_label, as_fail, as_place, as_number, as_atom, as_import, as_bif, members, listed, pairs_behind};
ghost use Rattle.bx_asm.specs.Instructed.{source_of, sources_of, registers_of, pairs_of};
ghost use Rattle.bx_asm.specs.Looked.{tables};

use crate::instruction::{Register, Source};
use crate::members::{Pairs, Sources, YRegisters, source};
use crate::operands::Operand;
use bx_listing::Import;
use bx_ops::Bif;
use bx_terms::{AtomId, Term};
use indexmap::IndexSet;

/// What operands name by a number.
#[derive(Debug, Drop)]
pub(crate) struct Named {
    pub literals: Vec<Term>,
    pub imports: IndexSet<Import>,
}

/// The tables that operands name: one reference, since each instruction hands it on.
#[derive(Clone, Copy)]
pub struct Lookup<'a> {
    pub(crate) named: &'a Named,
}

impl<'a> Lookup<'a> {
    #[inline(always)]
    #[tactic(auto, using(crate::proofs::Readers::source_is))]
    pub fn source(self, operand: Operand) -> Source<'a>
        ensures { source_of result ≡ as_source (operand_of (tables self.entry) operand) }
    {
        source(&self.named.literals, operand)
    }

    #[inline(always)]
    #[tactic(auto, using(crate::proofs::Readers::register_is))]
    pub fn register(self, operand: Operand) -> Option<Register>
        ensures { result ≡ as_register (operand_of (tables self.entry) operand) }
    {
        match operand {
            Operand::X(number) => Some(Register::X(number)),
            Operand::Y(number) => Some(Register::Y(number)),
            _ => None,
        }
    }

    #[inline(always)]
    #[tactic(auto, using(crate::proofs::Readers::y_is))]
    pub fn y(self, operand: Operand) -> Option<u16>
        ensures { result ≡ as_y (operand_of (tables self.entry) operand) }
    {
        match operand {
            Operand::Y(number) => Some(number),
            _ => None,
        }
    }

    #[inline(always)]
    #[tactic(auto, using(crate::proofs::Readers::label_is))]
    pub fn label(self, operand: Operand) -> Option<u32>
        ensures { result ≡ as_label (operand_of (tables self.entry) operand) }
    {
        match operand {
            Operand::Label(label) => Some(label),
            _ => None,
        }
    }

    #[inline(always)]
    #[tactic(auto, using(crate::proofs::Readers::fail_is))]
    pub fn fail(self, operand: Operand) -> Option<Option<u32>>
        ensures { result ≡ as_fail (operand_of (tables self.entry) operand) }
    {
        match operand {
            Operand::Label(label) => Some(Some(label)),
            Operand::NoLabel => Some(None),
            _ => None,
        }
    }

    #[tactic(auto, using(crate::proofs::Readers::place_is))]
    pub fn place(self, operand: Operand) -> Option<u32>
        ensures { result ≡ as_place (operand_of (tables self.entry) operand) }
    {
        match operand {
            Operand::Place(label) => Some(label),
            _ => None,
        }
    }

    #[inline(always)]
    #[tactic(auto, using(crate::proofs::Readers::number_is))]
    pub fn number(self, operand: Operand) -> u32
        ensures { result ≡ as_number (operand_of (tables self.entry) operand) }
    {
        match operand {
            Operand::Number(number) => number,
            _ => 0,
        }
    }

    #[inline(always)]
    #[tactic(auto, using(crate::proofs::Readers::atom_is))]
    pub fn atom(self, operand: Operand) -> Option<AtomId>
        ensures { result ≡ as_atom (operand_of (tables self.entry) operand) }
    {
        match operand {
            Operand::Atom(atom) => Some(atom),
            _ => None,
        }
    }

    #[inline(always)]
    #[tactic(auto, using(crate::proofs::Readers::bif_is))]
    pub fn bif(self, operand: Operand) -> Option<Bif>
        ensures { result ≡ as_bif (operand_of (tables self.entry) operand) }
    {
        match operand {
            Operand::Bif(bif) => Some(bif),
            _ => None,
        }
    }

    #[inline(always)]
    #[tactic(auto, using(crate::proofs::Readers::import_is))]
    pub fn import(self, operand: Operand) -> Option<Import>
        ensures { result ≡ as_import (operand_of (tables self.entry) operand) }
    {
        match operand {
            Operand::Import(number) => self.named.imports.get_index(number).copied(),
            _ => None,
        }
    }

    /// How many functions are called by their names.
    pub fn import_count(self) -> usize
        ensures { result ≡ length (tables self.entry).imports }
    {
        self.named.imports.len()
    }

    /// The members of the list that the row ends in.
    #[inline(always)]
    #[tactic(auto, using(crate::proofs::Readers::list_is))]
    fn members(self, row: &'a [Operand]) -> Option<&'a [Operand]>
        ensures { option_map (λ os. row_of (tables self.entry) os.now) result ≡ members
            (row_of (tables self.entry) row.now) }
    {
        match row {
            [Operand::List(_), members @ ..] => Some(members),
            _ => None,
        }
    }

    /// The sources that the row ends in.
    #[inline(always)]
    #[tactic(auto, using(crate::proofs::Readers::sources_are))]
    pub fn sources(self, row: &'a [Operand]) -> Option<Sources<'a>>
        ensures { option_map sources_of result ≡ listed sorts.Source
            (row_of (tables self.entry) row.now) }
    {
        let operands = self.members(row)?;
        let literals = self.named.literals.as_slice();
        Some(Sources { operands, literals })
    }

    /// The y registers that the row ends in.
    #[inline(always)]
    #[tactic(auto, using(crate::proofs::Readers::registers_are))]
    pub fn registers(self, row: &'a [Operand]) -> Option<YRegisters<'a>>
        ensures { option_map registers_of result ≡ listed sorts.YRegister
            (row_of (tables self.entry) row.now) }
    {
        let operands = self.members(row)?;
        Some(YRegisters { operands })
    }

    /// The keys with labels that the row ends in.
    #[inline(always)]
    #[tactic(auto, using(crate::proofs::Readers::pairs_are))]
    pub fn pairs(self, row: &'a [Operand]) -> Option<Pairs<'a>>
        ensures { option_map pairs_of result ≡ pairs_behind (row_of (tables self.entry) row.now) }
    {
        let operands = self.members(row)?;
        Some(Pairs { operands })
    }
}

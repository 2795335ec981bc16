//! Every refusal of the product, by its number, and out of memory.

ghost use Rattle.std.specs.Prelude.{◌≡◌, IfOk};

use bx_share::Same;
use std::alloc::{AllocError, AllocFailed, Global};
use std::fmt;
use std::marker::Model;
use thiserror::Error;

/// A name as a text spells it: of a schedule, or of what is outside the subset (an instruction, a test, a BIF with its arity, or
/// a kind of operand).
#[derive(Debug, Drop)]
pub struct Name {
    text: String,
}

impl Model for Name {
    ghost use Rattle.std.specs.Prelude.{List, ℕ, string_bytes};

    ghost Value = { List ℕ };

    ghost view = { λ a. string_bytes a.text };
}

impl Name {
    /// The name that `text` spells, in UTF-8.
    ///
    /// It can only run out of memory.
    pub fn new(alloc: Global, text: &str) -> Result<Name, AllocError>
        ensures { IfOk result (λ name. name ≡ text.now) }
    {
        let text = String::from_str(alloc, text)?;
        Ok(Name { text })
    }

    /// The name's text.
    pub fn as_str(&self) -> &str
        ensures { result.now ≡ self.now }
    {
        self.text.as_str()
    }
}

impl Same for Name {
    fn same(&self, other: &Name) -> bool {
        self.as_str() == other.as_str()
    }
}

impl PartialEq for Name {
    ghost use Rattle.std.specs.Prelude.{bytes_eq};
    ghost use Rattle.std.specs.Cmp.Lexicographic.{nat_list_eq_equiv};
    ghost use Rattle.std.specs.Cmp.{partial_equiv_from_equiv};

    ghost eq = { bytes_eq };

    ghost laws = { partial_equiv_from_equiv nat_list_eq_equiv };

    fn eq(&self, other: &Name) -> bool {
        self.as_str() == other.as_str()
    }
}

impl Eq for Name {
    ghost use Rattle.std.specs.Cmp.Lexicographic.{nat_list_eq_equiv};

    ghost laws = { nat_list_eq_equiv };
}

impl fmt::Display for Name {
    ghost use Rattle.std.specs.Prelude.{Some};

    ghost output = { λ name. Some name };

    fn fmt<W: fmt::Write>(&self, f: &mut fmt::Formatter<W>) -> fmt::Result {
        f.write_str(self.as_str())
    }
}

/// Why a call was refused: a number from 1 to 34 with what it names, or out of memory.
///
/// Lines count from 1.
#[derive(Debug, Drop, Error, PartialEq, Eq)]
pub enum Fault {
    #[error("the table of atoms is full")]
    TooManyAtoms { line: Option<usize> },
    #[error("an atom has over 255 characters")]
    AtomTooLong { line: Option<usize> },
    #[error("line {line}: no token begins here")]
    BadToken { line: usize },
    #[error("line {line}: a token that cannot stand here")]
    BadTerm { line: usize },
    #[error("line {line}: brackets nest over 256 deep")]
    TooDeep { line: usize },
    #[error("line {line}: the text ends within a token or a term, or before its full stop")]
    Truncated { line: usize },
    #[error("line {line}: bytes that are no UTF-8")]
    NotUtf8 { line: usize },
    #[error("line {line}: no form, a form out of order, or a missing one")]
    BadForm { line: usize },
    #[error("line {line}: {name} is outside the subset")]
    Unsupported { line: usize, name: Name },
    #[error("line {line}: a wrong number or kind of operands")]
    BadOperand { line: usize },
    #[error("line {line}: an integer outside 64 bits, or a literal that is too high")]
    LiteralRange { line: usize },
    #[error("label {label} stands twice")]
    LabelTwice { label: u32 },
    #[error("there is no label {label}")]
    LabelMissing { label: u32 },
    #[error("the entry of function {function} is no label of its own")]
    EntryMissing { function: usize },
    #[error("line {line}: a register or a frame out of range")]
    RegisterRange { line: usize },
    #[error("the input is past a limit")]
    TooLarge,
    #[error("two modules have one name")]
    ModuleTwice,
    #[error("an export names no function of its module")]
    ExportMissing,
    #[error("more than 64 modules")]
    TooManyModules,
    #[error("the choice is not enabled")]
    NotEnabled,
    #[error("the world has trapped")]
    Halted,
    #[error("no choice stands that far back")]
    BeforeStart,
    #[error("no choice stands that far ahead")]
    AfterEnd,
    #[error("line {line}: no line of a plan")]
    BadLine { line: usize },
    #[error("line {line}: two schedules have one name")]
    NameTwice { line: usize },
    #[error("line {line}: too many choices, or too many in all")]
    TooLong { line: usize },
    #[error("the choices at {position} cannot be exchanged")]
    NotIndependent { position: usize },
    #[error("the unit is not leased to this worker")]
    NotLeased,
    #[error("the piece belongs to another campaign")]
    Foreign,
    #[error("the unit is done already")]
    Twice,
    #[error("a unit is not done")]
    Unfinished,
    #[error("the start is no exported function of no arguments")]
    NoEntry,
    #[error("line {line}: no command")]
    BadCommand { line: usize },
    #[error("the number of workers is not 1 to 64")]
    Workers,
    #[error("memory ran out")]
    Memory,
}

impl Fault {
    ghost use Rattle.std.specs.Prelude.{option_map, codes};
    ghost use Rattle.std.specs.Option.{option_map_or};
    ghost use Rattle.bx_terms.specs.Refusals.{refusal, at_line};

    /// The number of the refusal, 1 to 34, or `None` for out of memory.
    pub fn number(&self) -> Option<u8>
        ensures { result ≡ option_map (λ row. row.0) (refusal self.now) }
    {
        let (number, _) = self.refusal()?;
        Some(number)
    }

    /// The name of the refusal, or `Memory`.
    pub fn name(&self) -> &'static str
        ensures { result.now ≡ option_map_or (λ row. row.1) (refusal self.now) (codes "Memory") }
    {
        match self.refusal() {
            Some((_, name)) => name,
            None => "Memory",
        }
    }

    // The number and the name.
    fn refusal(&self) -> Option<(u8, &'static str)>
        ensures { option_map (λ row. (row.0, row.1.now)) result ≡ refusal self.now }
    {
        match self {
            Fault::TooManyAtoms { .. } => Some((1, "TooManyAtoms")),
            Fault::AtomTooLong { .. } => Some((2, "AtomTooLong")),
            Fault::BadToken { .. } => Some((3, "BadToken")),
            Fault::BadTerm { .. } => Some((4, "BadTerm")),
            Fault::TooDeep { .. } => Some((5, "TooDeep")),
            Fault::Truncated { .. } => Some((6, "Truncated")),
            Fault::NotUtf8 { .. } => Some((7, "NotUtf8")),
            Fault::BadForm { .. } => Some((8, "BadForm")),
            Fault::Unsupported { .. } => Some((9, "Unsupported")),
            Fault::BadOperand { .. } => Some((10, "BadOperand")),
            Fault::LiteralRange { .. } => Some((11, "LiteralRange")),
            Fault::LabelTwice { .. } => Some((12, "LabelTwice")),
            Fault::LabelMissing { .. } => Some((13, "LabelMissing")),
            Fault::EntryMissing { .. } => Some((14, "EntryMissing")),
            Fault::RegisterRange { .. } => Some((15, "RegisterRange")),
            Fault::TooLarge => Some((16, "TooLarge")),
            Fault::ModuleTwice => Some((17, "ModuleTwice")),
            Fault::ExportMissing => Some((18, "ExportMissing")),
            Fault::TooManyModules => Some((19, "TooManyModules")),
            Fault::NotEnabled => Some((20, "NotEnabled")),
            Fault::Halted => Some((21, "Halted")),
            Fault::BeforeStart => Some((22, "BeforeStart")),
            Fault::AfterEnd => Some((23, "AfterEnd")),
            Fault::BadLine { .. } => Some((24, "BadLine")),
            Fault::NameTwice { .. } => Some((25, "NameTwice")),
            Fault::TooLong { .. } => Some((26, "TooLong")),
            Fault::NotIndependent { .. } => Some((27, "NotIndependent")),
            Fault::NotLeased => Some((28, "NotLeased")),
            Fault::Foreign => Some((29, "Foreign")),
            Fault::Twice => Some((30, "Twice")),
            Fault::Unfinished => Some((31, "Unfinished")),
            Fault::NoEntry => Some((32, "NoEntry")),
            Fault::BadCommand { .. } => Some((33, "BadCommand")),
            Fault::Workers => Some((34, "Workers")),
            Fault::Memory => None,
        }
    }

    /// The same fault, met on that line of a text where it is the refusal of an atom.
    pub fn at_line(self, line: usize) -> Fault
        ensures { result ≡ at_line line self }
    {
        match self {
            Fault::TooManyAtoms { .. } => Fault::TooManyAtoms { line: Some(line) },
            Fault::AtomTooLong { .. } => Fault::AtomTooLong { line: Some(line) },
            other => other,
        }
    }
}

impl From<AllocError> for Fault {
    ghost use Rattle.std.specs.Prelude.{◌≡◌};
    ghost use Rattle.bx_terms.specs.declared.faults.Fault.TheVariants.{Memory};

    ghost from_gives = { λ _ f. f ≡ Memory };

    fn from(_: AllocError) -> Fault {
        Fault::Memory
    }
}

impl<T: Drop> From<AllocFailed<T>> for Fault {
    ghost use Rattle.std.specs.Prelude.{◌≡◌};
    ghost use Rattle.bx_terms.specs.declared.faults.Fault.TheVariants.{Memory};

    ghost from_gives = { λ _ f. f ≡ Memory };

    fn from(_: AllocFailed<T>) -> Fault {
        Fault::Memory
    }
}

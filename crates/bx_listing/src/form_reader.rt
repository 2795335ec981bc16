//! What all reading of one form shares.

ghost use Rattle.std.specs.Prelude.{◌≡◌, IfOk};
ghost use Rattle.bx_terms.specs.declared.faults.Fault.TheVariants.{Unsupported};
ghost use Rattle.bx_listing.specs.Reading.{Answers, named, no_line, placed, placed_answer};

use bx_terms::{AtomId, Atoms, Fault, Name};
use std::alloc::{AllocError, Global};

/// Reads forms. Its refusals name no line: who reads a form adds the one on which it begins.
#[derive(Clone, Copy)]
pub(crate) struct FormReader {
    pub alloc: Global,
}

impl FormReader {
    /// Numbers the atom of this text, which stands in a form.
    #[tactic(auto, using(crate::proofs::Readings::name_answered))]
    pub(crate) fn name_atom(self, atoms: &mut Atoms, text: &str) -> Result<AtomId, Fault>
        ensures { Answers (λ atom. atom) atoms.old atoms.new result (named text.now) }
    {
        atoms.name(self.alloc, text)
    }

    /// The refusal of what is outside the subset, by its name.
    pub(crate) fn unsupported(self, name: &str) -> Result<Fault, AllocError>
        ensures { IfOk result (λ fault. fault ≡ Unsupported no_line name.now) }
    {
        let name = Name::new(self.alloc, name)?;
        Ok(Fault::Unsupported { line: 0, name })
    }
}

/// The refusal of a form that is out of place or misshapen.
pub(crate) fn bad_form() -> Fault
    ensures { result ≡ Fault.BadForm no_line }
{
    Fault::BadForm { line: 0 }
}

/// The refusal of a form's operand, or of their number.
pub(crate) fn bad_operand() -> Fault
    ensures { result ≡ Fault.BadOperand no_line }
{
    Fault::BadOperand { line: 0 }
}

/// The refusal of an integer outside 64 bits, or of a literal that is too high.
pub(crate) fn literal_range() -> Fault
    ensures { result ≡ Fault.LiteralRange no_line }
{
    Fault::LiteralRange { line: 0 }
}

/// The answer to the form that begins on that line: its refusal names the line.
pub(crate) fn on_line<T: Drop>(line: usize, answer: Result<T, Fault>) -> Result<T, Fault>
    ensures { result ≡ placed_answer line answer }
{
    match answer {
        Ok(read) => Ok(read),
        Err(fault) => Err(placed(line, fault)),
    }
}

fn placed(line: usize, fault: Fault) -> Fault
    ensures { result ≡ placed line fault }
{
    match fault {
        Fault::TooManyAtoms { .. } => Fault::TooManyAtoms { line: Some(line) },
        Fault::AtomTooLong { .. } => Fault::AtomTooLong { line: Some(line) },
        Fault::Unsupported { name, .. } => Fault::Unsupported { line, name },
        Fault::BadOperand { .. } => Fault::BadOperand { line },
        Fault::LiteralRange { .. } => Fault::LiteralRange { line },
        Fault::Memory => Fault::Memory,
        _ => Fault::BadForm { line },
    }
}

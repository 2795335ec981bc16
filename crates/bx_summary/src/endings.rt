//! How a schedule ended, as a text.

ghost use Rattle.std.specs.Prelude.{◌≡◌, ◌++◌, ℕ, IfOk, List, Ok, string_bytes};
ghost use Rattle.bx_terms.specs.Outcomes.{Gives};
ghost use Rattle.bx_summary.specs.Endings.{ending_lines, is_open};

use bx_board::Scheduled;
use bx_terms::{Atoms, Fault};
use bx_world::{Choice, Standing, outcome_text};
use std::alloc::{AllocError, Global};

/// A text with another beginning in the place of its own.
fn begun_anew(alloc: Global, text: &str, old: &str, new: &str) -> Result<String, AllocError>
    ensures { IfOk result (λ out. (rest : List ℕ) → text.now ≡ old.now ++ rest → string_bytes out ≡ new.now ++ rest) }
{
    let rest = text.strip_prefix(old).unwrap_or(text);
    let mut out = String::from_str(alloc, new)?;
    out.push_str(rest)?;
    Ok(out)
}

/// Whether choices are open, and none was refused.
fn is_open(refused: Option<Choice>, state: &Standing) -> bool
    ensures { result ≡ is_open refused state.now }
{
    match (refused, state) {
        (None, Standing::Open(_)) => true,
        _ => false,
    }
}

/// The lines of a schedule's outcome from `state` to `end`, without the choices that are open.
///
/// It can only run out of memory.
pub(crate) fn ending_text(alloc: Global, atoms: &Atoms, one: &Scheduled) -> Result<String, Fault>
    ensures { Gives (Unit {0}) (λ text. string_bytes text) result
        (Ok (ending_lines atoms.now one.now)) }
{
    let outcome = &one.outcome;
    if is_open(one.refused, &outcome.state) {
        // A refused choice goes before those that are open, so the line that it gives has a known length.
        let text = outcome_text(alloc, atoms, 0, Some(Choice::Run(0)), outcome)?;
        let ending = begun_anew(
            alloc,
            text.as_str(),
            "applied 0\nstate stopped r0\n",
            "state open\n",
        )?;
        return Ok(ending);
    }
    let text = outcome_text(alloc, atoms, 0, one.refused, outcome)?;
    let ending = begun_anew(alloc, text.as_str(), "applied 0\n", "")?;
    Ok(ending)
}

//! Modules in a row.

ghost use Rattle.std.specs.Prelude.{◌≡◌, ◌<◌, ◌≤◌, IfSome, length};
ghost use Rattle.bx_load.specs.Image.{module_number as number_of};

use bx_asm::Unit;
use bx_terms::AtomId;

/// The number of the first module of that name.
#[tactic(auto, using(std::proofs::lemmas::List::drop_more))]
pub(crate) fn module_number(units: &[Unit], name: AtomId) -> Option<u32>
    requires { length units.now ≤ 64 }
    ensures number { result ≡ number_of units.now name }
    ensures within { IfSome result (λ k. k < length units.now) }
{
    for (number, unit) in units.iter().enumerate() {
        if unit.name() == name {
            return Some(number as u32);
        }
    }
    None
}

//! Functions by their heads.

ghost use Rattle.std.specs.Prelude.{◌≡◌, ◌+◌, ◌≤◌, IfSome};
ghost use Rattle.bx_asm.specs.Unit.{total};
ghost use Rattle.bx_load.specs.Functions.{head_from};

use bx_asm::Head;
use bx_terms::AtomId;

/// The first function of that name and arity, and how many items come before its own.
#[tactic(auto, using(bx_share::specs::Rows::rest_at))]
pub(crate) fn head_in(functions: &[Head], name: AtomId, arity: u32) -> Option<(u32, Head)>
    requires { total functions.now ≤ 1000000 }
    ensures first { result ≡ head_from 0 name arity functions.now }
    ensures within { IfSome result (λ f. f.0 + f.1.count ≤ total functions.now) }
{
    let mut before = 0;
    for head in functions {
        if head.name == name && head.arity == arity {
            return Some((before, *head));
        }
        before += head.count;
    }
    None
}

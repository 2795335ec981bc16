//! The natives, by module, name and arity.

ghost use Rattle.std.specs.Prelude.{◌≡◌};
ghost use Rattle.bx_bifs.specs.Natives.{native_of, native_numbered};

use crate::natives::Native;
use bx_terms::{AtomId, Atoms, fixed};

/// The native that a call of `home:function/arity` names, by the atoms' texts in `atoms`; `None` where it names none.
#[tactic(auto, using(crate::proofs::FixedNames::native_by_number, crate::proofs::FixedNames::native_elsewhere))]
pub fn native(atoms: &Atoms, home: AtomId, function: AtomId, arity: u32) -> Option<Native>
    ensures { result ≡ native_of atoms.now home function arity }
{
    // That `atoms` begins with the fixed atoms is a promise of each of its calls.
    let _number_of_atoms = atoms.len();
    match home {
        fixed::ERLANG => native_numbered(function, arity),
        _ => None,
    }
}

#[tactic(auto, unfolding(crate::specs::Natives::native_numbered))]
fn native_numbered(function: AtomId, arity: u32) -> Option<Native>
    ensures { result ≡ native_numbered function arity }
{
    match (function, arity) {
        (fixed::SPAWN, 3) => Some(Native::Spawn),
        (fixed::SPAWN_LINK, 3) => Some(Native::SpawnLink),
        (fixed::LINK, 1) => Some(Native::Link),
        (fixed::UNLINK, 1) => Some(Native::Unlink),
        (fixed::EXIT, 1) => Some(Native::Exit),
        (fixed::THROW, 1) => Some(Native::Throw),
        (fixed::ERROR, 1) => Some(Native::Error),
        (fixed::EXIT, 2) => Some(Native::ExitSignal),
        (fixed::PROCESS_FLAG, 2) => Some(Native::ProcessFlag),
        (fixed::SEND | fixed::BANG, 2) => Some(Native::Send),
        (fixed::DISPLAY, 1) => Some(Native::Display),
        (fixed::APPEND, 2) => Some(Native::Append),
        (fixed::SETELEMENT, 3) => Some(Native::SetElement),
        (fixed::LIST_TO_TUPLE, 1) => Some(Native::ListToTuple),
        (fixed::TUPLE_TO_LIST, 1) => Some(Native::TupleToList),
        _ => None,
    }
}

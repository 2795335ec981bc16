//! The guard BIFs, by name and arity.

ghost use Rattle.std.specs.Prelude.{◌≡◌, is_some};
ghost use Rattle.bx_bifs.specs.GuardNames.{guard_of, guard_numbered};

use bx_ops::Bif;
use bx_terms::{AtomId, Atoms, fixed};

/// The guard BIF that `name` and `arity` name, by the atom's text in `atoms`; `None` where they name none.
#[tactic(auto, using(crate::proofs::FixedNames::guard_by_number))]
pub fn guard_bif(atoms: &Atoms, name: AtomId, arity: u32) -> Option<Bif>
    ensures { result ≡ guard_of atoms.now name arity }
{
    // That `atoms` begins with the fixed atoms is a promise of each of its calls.
    let _number_of_atoms = atoms.len();
    guard_numbered(name, arity)
}

/// Whether `name` and `arity` name a guard BIF, by the atom's text in `atoms`.
pub fn is_guard(atoms: &Atoms, name: AtomId, arity: u32) -> bool
    ensures { result ≡ is_some (guard_of atoms.now name arity) }
{
    guard_bif(atoms, name, arity).is_some()
}

#[tactic(auto, unfolding(crate::specs::GuardNames::guard_numbered))]
fn guard_numbered(name: AtomId, arity: u32) -> Option<Bif>
    ensures { result ≡ guard_numbered name arity }
{
    match (name, arity) {
        (fixed::SELF, 0) => Some(Bif::SelfPid),
        (fixed::PLUS, 1) => Some(Bif::UnaryPlus),
        (fixed::MINUS, 1) => Some(Bif::UnaryMinus),
        (fixed::BNOT, 1) => Some(Bif::Bnot),
        (fixed::ABS, 1) => Some(Bif::Abs),
        (fixed::NOT, 1) => Some(Bif::Not),
        (fixed::HD, 1) => Some(Bif::Hd),
        (fixed::TL, 1) => Some(Bif::Tl),
        (fixed::LENGTH, 1) => Some(Bif::Length),
        (fixed::TUPLE_SIZE, 1) => Some(Bif::TupleSize),
        (fixed::SIZE, 1) => Some(Bif::Size),
        (fixed::IS_ATOM, 1) => Some(Bif::IsAtom),
        (fixed::IS_BOOLEAN, 1) => Some(Bif::IsBoolean),
        (fixed::IS_INTEGER, 1) => Some(Bif::IsInteger),
        (fixed::IS_LIST, 1) => Some(Bif::IsList),
        (fixed::IS_NUMBER, 1) => Some(Bif::IsNumber),
        (fixed::IS_PID, 1) => Some(Bif::IsPid),
        (fixed::IS_TUPLE, 1) => Some(Bif::IsTuple),
        (fixed::IS_FLOAT, 1) => Some(Bif::IsFloat),
        (fixed::IS_BINARY, 1) => Some(Bif::IsBinary),
        (fixed::IS_REFERENCE, 1) => Some(Bif::IsReference),
        (fixed::IS_PORT, 1) => Some(Bif::IsPort),
        (fixed::PLUS, 2) => Some(Bif::Add),
        (fixed::MINUS, 2) => Some(Bif::Subtract),
        (fixed::TIMES, 2) => Some(Bif::Multiply),
        (fixed::DIV, 2) => Some(Bif::Div),
        (fixed::REM, 2) => Some(Bif::Rem),
        (fixed::BAND, 2) => Some(Bif::Band),
        (fixed::BOR, 2) => Some(Bif::Bor),
        (fixed::BXOR, 2) => Some(Bif::Bxor),
        (fixed::BSL, 2) => Some(Bif::Bsl),
        (fixed::BSR, 2) => Some(Bif::Bsr),
        (fixed::EQUAL, 2) => Some(Bif::Equal),
        (fixed::NOT_EQUAL, 2) => Some(Bif::NotEqual),
        (fixed::EXACTLY_EQUAL, 2) => Some(Bif::ExactlyEqual),
        (fixed::EXACTLY_NOT_EQUAL, 2) => Some(Bif::ExactlyNotEqual),
        (fixed::LESS, 2) => Some(Bif::Less),
        (fixed::GREATER, 2) => Some(Bif::Greater),
        (fixed::LESS_OR_EQUAL, 2) => Some(Bif::LessOrEqual),
        (fixed::GREATER_OR_EQUAL, 2) => Some(Bif::GreaterOrEqual),
        (fixed::MIN, 2) => Some(Bif::Min),
        (fixed::MAX, 2) => Some(Bif::Max),
        (fixed::AND, 2) => Some(Bif::And),
        (fixed::OR, 2) => Some(Bif::Or),
        (fixed::XOR, 2) => Some(Bif::Xor),
        (fixed::ELEMENT, 2) => Some(Bif::Element),
        _ => None,
    }
}

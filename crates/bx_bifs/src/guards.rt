//! What each guard BIF gives.
//!
//! Source: Erlang Reference Manual, "Expressions"; module `erlang` of the ERTS Reference Manual.

ghost use Rattle.std.specs.Prelude.{◌≡◌, IfSome, not, neg_ℤ, option_map, MatchResult, Ok, if◌then◌else◌};
ghost use Rattle.std.specs.Ordering.{is_lt, is_gt};
ghost use Rattle.bx_terms.specs.Outcomes.{Gives};
ghost use Rattle.bx_terms.specs.Order.{order_of};
ghost use Rattle.bx_terms.specs.Tree.{int};
ghost use Rattle.bx_bifs.specs.declared.given.Given.TheVariants.{Value};
ghost use Rattle.bx_bifs.specs.Given.{TakesMemory, term_or_badarg, integer_of};
ghost use Rattle.bx_bifs.specs.Bits.{bits_not};
ghost use Rattle.bx_bifs.specs.Kinds.{truth as truth_of};
ghost use Rattle.bx_bifs.specs.Guards.{guard_gives, guard_one, guard_two, named_gives, magnitude as magnitude_given, number_or_badarg, on_integer, on_integers, on_truth, on_truths, operator, connective};

use crate::arithmetic::{
    bits_of_both, bits_of_either, bits_of_one, difference, product, quotient, remainder, sum,
};
use crate::given::{Given, badarg, badarith, boolean, computed, undef};
use crate::guard_names::guard_bif;
use crate::kinds::{is_atom, is_integer, is_list, is_pid, is_tuple, truth};
use crate::parts::{element, head, length, size, tail};
use crate::shifts::{left_shift, right_shift};
use bx_ops::Bif;
use bx_terms::{AtomId, Atoms, Fault, Term, View, order};
use std::alloc::{AllocError, Global};

/// What the guard BIF gives on `arguments`.
///
/// Another number of arguments than the BIF's own gives the fault `undef`, as `self/0` does, which only a process can
/// answer. It can only run out of memory, and only where the value is a tuple or a list cell.
pub fn guard_decoded(
    alloc: Global,
    atoms: &Atoms,
    bif: Bif,
    arguments: &[Term],
) -> Result<Given, Fault>
    ensures { Gives (TakesMemory (guard_gives atoms.now bif arguments.now)) (λ given. given) result (Ok (guard_gives atoms.now bif arguments.now)) }
{
    Ok(match arguments {
        [argument] => guard_of_one(alloc, bif, argument)?,
        [first, second] => guard_of_two(alloc, atoms, bif, first, second)?,
        _ => undef(),
    })
}

/// What the guard BIF of that name gives on `arguments`, by the atom's text in `atoms`: as `guard_decoded`, and the fault `undef`
/// where there is no guard BIF of that name and as many arguments.
#[tactic(auto, using(crate::proofs::Arities::too_many))]
pub fn guard(alloc: Global, atoms: &Atoms, name: AtomId, arguments: &[Term]) -> Result<Given, Fault>
    ensures { Gives (TakesMemory (named_gives atoms.now name arguments.now)) (λ given. given) result (Ok (named_gives atoms.now name arguments.now)) }
{
    if arguments.len() > 2 {
        return Ok(undef());
    }
    match guard_bif(atoms, name, arguments.len() as u32) {
        Some(bif) => guard_decoded(alloc, atoms, bif, arguments),
        None => Ok(undef()),
    }
}

/// What the guard BIF gives on one argument: the fault `undef` where it is no BIF of one argument.
///
/// It can only run out of memory, and only where the value is a tuple or a list cell.
#[tactic(auto, unfolding(crate::specs::Guards::guard_one))]
pub fn guard_of_one(alloc: Global, bif: Bif, argument: &Term) -> Result<Given, AllocError>
    ensures { MatchResult result (λ given. given ≡ guard_one bif argument.now) (λ _. TakesMemory (guard_one bif argument.now)) }
{
    match bif {
        Bif::Hd => shared(alloc, head(argument)),
        Bif::Tl => shared(alloc, tail(argument)),
        Bif::UnaryPlus => Ok(unary_plus(argument)),
        Bif::UnaryMinus => Ok(unary_minus(argument)),
        Bif::Bnot => Ok(bits_turned(argument)),
        Bif::Abs => Ok(magnitude(argument)),
        Bif::Not => Ok(negation(argument)),
        Bif::Length => Ok(counted(length(argument).map(u64::from))),
        Bif::TupleSize | Bif::Size => Ok(counted(size(argument).map(|n| n as u64))),
        Bif::IsAtom => Ok(boolean(is_atom(argument))),
        Bif::IsBoolean => Ok(boolean(truth(argument).is_some())),
        Bif::IsInteger | Bif::IsNumber => Ok(boolean(is_integer(argument))),
        Bif::IsList => Ok(boolean(is_list(argument))),
        Bif::IsPid => Ok(boolean(is_pid(argument))),
        Bif::IsTuple => Ok(boolean(is_tuple(argument))),
        Bif::IsFloat | Bif::IsBinary | Bif::IsReference | Bif::IsPort => Ok(boolean(false)),
        _ => Ok(undef()),
    }
}

/// What the guard BIF gives on two arguments: the fault `undef` where it is no BIF of two arguments.
///
/// It can only run out of memory, and only where the value is a tuple or a list cell.
#[tactic(auto, unfolding(crate::specs::Guards::guard_two))]
pub fn guard_of_two(
    alloc: Global,
    atoms: &Atoms,
    bif: Bif,
    first: &Term,
    second: &Term,
) -> Result<Given, AllocError>
    ensures { MatchResult result (λ given. given ≡ guard_two atoms.now bif first.now second.now) (λ _. TakesMemory (guard_two atoms.now bif first.now second.now)) }
{
    match bif {
        Bif::Add
        | Bif::Subtract
        | Bif::Multiply
        | Bif::Div
        | Bif::Rem
        | Bif::Band
        | Bif::Bor
        | Bif::Bxor
        | Bif::Bsl
        | Bif::Bsr => Ok(arithmetic(bif, first, second)),
        Bif::Equal | Bif::ExactlyEqual => Ok(boolean(first == second)),
        Bif::NotEqual | Bif::ExactlyNotEqual => Ok(boolean(first != second)),
        Bif::Less => Ok(boolean(order(atoms, first, second).is_lt())),
        Bif::Greater => Ok(boolean(order(atoms, first, second).is_gt())),
        Bif::LessOrEqual => Ok(boolean(order(atoms, first, second).is_le())),
        Bif::GreaterOrEqual => Ok(boolean(order(atoms, first, second).is_ge())),
        Bif::Min => shared(alloc, Some(least(atoms, first, second))),
        Bif::Max => shared(alloc, Some(greatest(atoms, first, second))),
        Bif::And | Bif::Or | Bif::Xor => Ok(connected(bif, first, second)),
        Bif::Element => shared(alloc, element(first, second)),
        _ => Ok(undef()),
    }
}

/// The integer that the guard BIF gives on two integers, where it gives one.
#[inline(always)]
#[tactic(auto, unfolding(crate::specs::Guards::guard_two), using(crate::proofs::Integers::checked, crate::proofs::Integers::given_some, crate::proofs::Integers::given_all))]
pub fn guard_of_integers(_atoms: &Atoms, bif: Bif, m: i64, n: i64) -> Option<i64>
    ensures value { IfSome result (λ k. guard_two _atoms.now bif (int m) (int n) ≡ Value (int k)) }
    ensures all { integer_of (guard_two _atoms.now bif (int m) (int n)) ≡ result }
{
    match bif {
        Bif::Add => m.checked_add(n),
        Bif::Subtract => m.checked_sub(n),
        Bif::Min => Some(if n < m { n } else { m }),
        Bif::Max => Some(if m < n { n } else { m }),
        _ => integer_of(operated(bif, m, n)),
    }
}

/// The integer that is given, where an integer is.
fn integer_of(given: Given) -> Option<i64>
    ensures { result ≡ integer_of given }
{
    match given {
        Given::Value(value) => match value.view() {
            View::Int(k) => Some(k),
            _ => None,
        },
        _ => None,
    }
}

/// The part of an argument that is the value, shared with it; `badarg` where there is none.
fn shared(alloc: Global, part: Option<&Term>) -> Result<Given, AllocError>
    ensures { MatchResult result (λ given. given ≡ term_or_badarg (option_map (λ term. term.now) part.entry)) (λ _. TakesMemory (term_or_badarg (option_map (λ term. term.now) part.entry))) }
{
    match part {
        Some(term) => Ok(Given::Value(term.copy(alloc)?)),
        None => Ok(badarg()),
    }
}

fn arithmetic(bif: Bif, first: &Term, second: &Term) -> Given
    ensures { result ≡ on_integers (operator bif) first.now second.now }
{
    match (first.view(), second.view()) {
        (View::Int(m), View::Int(n)) => operated(bif, m, n),
        _ => badarith(),
    }
}

fn operated(bif: Bif, m: i64, n: i64) -> Given
    ensures { result ≡ operator bif m n }
{
    match bif {
        Bif::Add => sum(m, n),
        Bif::Subtract => difference(m, n),
        Bif::Multiply => product(m, n),
        Bif::Div => quotient(m, n),
        Bif::Rem => remainder(m, n),
        Bif::Band => bits_of_both(m, n),
        Bif::Bor => bits_of_either(m, n),
        Bif::Bxor => bits_of_one(m, n),
        Bif::Bsl => left_shift(m, n),
        Bif::Bsr => right_shift(m, n),
        _ => undef(),
    }
}

#[tactic(auto, using(crate::proofs::Integers::given))]
fn unary_plus(argument: &Term) -> Given
    ensures { result ≡ on_integer (λ n. n) argument.now }
{
    match argument.view() {
        View::Int(n) => computed(Some(n)),
        _ => badarith(),
    }
}

#[tactic(auto, using(crate::proofs::Integers::checked))]
fn unary_minus(argument: &Term) -> Given
    ensures { result ≡ on_integer neg_ℤ argument.now }
{
    match argument.view() {
        View::Int(n) => computed(n.checked_neg()),
        _ => badarith(),
    }
}

#[tactic(auto, using(crate::proofs::TwosComplement::turned_bits_given))]
fn bits_turned(argument: &Term) -> Given
    ensures { result ≡ on_integer bits_not argument.now }
{
    match argument.view() {
        View::Int(n) => computed(Some(!n)),
        _ => badarith(),
    }
}

#[tactic(auto, using(crate::proofs::Integers::magnitude_checked))]
fn magnitude(argument: &Term) -> Given
    ensures { result ≡ magnitude_given argument.now }
{
    match argument.view() {
        View::Int(n) => computed(n.checked_abs()),
        _ => badarg(),
    }
}

fn negation(argument: &Term) -> Given
    ensures { result ≡ on_truth not (truth_of argument.now) }
{
    match truth(argument) {
        Some(holds) => boolean(!holds),
        None => badarg(),
    }
}

fn connected(bif: Bif, first: &Term, second: &Term) -> Given
    ensures { result ≡ on_truths (connective bif) (truth_of first.now) (truth_of second.now) }
{
    match (truth(first), truth(second)) {
        (Some(a), Some(b)) => boolean(match bif {
            Bif::And => a && b,
            Bif::Or => a || b,
            _ => a != b,
        }),
        _ => badarg(),
    }
}

fn counted(number: Option<u64>) -> Given
    ensures { result ≡ number_or_badarg number }
{
    match number {
        Some(number) => computed(i64::try_from(number).ok()),
        None => badarg(),
    }
}

fn least<'a>(atoms: &Atoms, first: &'a Term, second: &'a Term) -> &'a Term
    ensures { result.now ≡ (if is_gt (order_of atoms.now first.now second.now) then second.now else first.now) }
{
    if order(atoms, first, second).is_gt() {
        second
    } else {
        first
    }
}

fn greatest<'a>(atoms: &Atoms, first: &'a Term, second: &'a Term) -> &'a Term
    ensures { result.now ≡ (if is_lt (order_of atoms.now first.now second.now) then second.now else first.now) }
{
    if order(atoms, first, second).is_lt() {
        second
    } else {
        first
    }
}

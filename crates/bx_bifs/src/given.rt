//! What a guard BIF gives.

ghost use Rattle.std.specs.Prelude.{◌≡◌, ◌↔◌, IsTrue};
ghost use Rattle.bx_bifs.specs.Given.{badarg as badarg_given, badarith as badarith_given, undef as undef_given, boolean as boolean_given, computed as computed_given};

use bx_terms::{Class, Term, Trap, fixed};

/// What a guard BIF gives: a value, a fault that the caller's process raises, or a trap that halts the world.
#[derive(Debug, Drop, PartialEq, Eq)]
pub enum Given {
    Value(Term),
    /// A fault's class and value.
    Fault(Class, Term),
    Trap(Trap),
}

impl Given {
    /// Whether both are the same.
    pub fn same(&self, other: &Given) -> bool
        ensures { IsTrue result ↔ (self.now ≡ other.now) }
    {
        match (self, other) {
            (Given::Value(one), Given::Value(two)) => one.same(two),
            (Given::Fault(class, one), Given::Fault(other_class, two)) => {
                class == other_class && one.same(two)
            }
            (Given::Trap(one), Given::Trap(two)) => one == two,
            _ => false,
        }
    }
}

/// The fault of an argument of a wrong kind or out of bounds.
pub(crate) fn badarg() -> Given
    ensures { result ≡ badarg_given }
{
    Given::Fault(Class::Error, Term::atom(fixed::BADARG))
}

/// The fault of arithmetic on anything but integers, and of a zero divisor.
pub(crate) fn badarith() -> Given
    ensures { result ≡ badarith_given }
{
    Given::Fault(Class::Error, Term::atom(fixed::BADARITH))
}

/// The fault of a function that there is not.
pub(crate) fn undef() -> Given
    ensures { result ≡ undef_given }
{
    Given::Fault(Class::Error, Term::atom(fixed::UNDEF))
}

/// The atom `true` or `false`.
pub(crate) fn boolean(holds: bool) -> Given
    ensures { result ≡ boolean_given holds }
{
    Given::Value(Term::atom(if holds { fixed::TRUE } else { fixed::FALSE }))
}

/// The integer, or the trap where it left 64 bits.
pub(crate) fn computed(value: Option<i64>) -> Given
    ensures { result ≡ computed_given value }
{
    match value {
        Some(value) => Given::Value(Term::int(value)),
        None => Given::Trap(Trap::IntegerRange),
    }
}

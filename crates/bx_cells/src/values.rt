//! What a register may hold.

ghost use Rattle.std.specs.Prelude.{◌≡◌, ◌↔◌, ◌<◌, IfOk, OnErr, IsTrue};
ghost use Rattle.bx_cells.specs.Held.{value_height};

use bx_share::Same;
use bx_terms::{Class, Place, Term, View};
use std::alloc::{AllocError, Global};

/// What a register holds, where it holds something.
///
/// Source: The BEAM Book, "Exceptions" for tags and traces.
#[derive(Debug, Drop)]
pub enum Value {
    /// A term.
    Term(Term),
    /// A catch tag, with the address at which its fault is caught.
    Tag(Place),
    /// What a caught fault leaves to be raised again, with the fault's class. It has no contents.
    Trace(Class),
}

impl Value {
    /// The same value. A term's content is shared. Out of memory is the answer only for a tuple or a list cell.
    #[inline]
    pub fn copy(&self, alloc: Global) -> Result<Value, AllocError>
        ensures copied { IfOk result (λ v. v ≡ self.now) }
        ensures memory { OnErr result (0 < value_height self.now) }
    {
        Ok(match self {
            Value::Term(term) => Value::Term(term.copy(alloc)?),
            Value::Tag(place) => Value::Tag(*place),
            Value::Trace(class) => Value::Trace(*class),
        })
    }

    /// A deep copy. It takes the room that its term takes, and is out of memory past it.
    pub fn deep_copy(&self, alloc: Global, room: &mut usize) -> Result<Value, AllocError>
        ensures { IfOk result (λ v. v ≡ self.now) }
    {
        Ok(match self {
            Value::Term(term) => Value::Term(term.deep_copy(alloc, room)?),
            Value::Tag(place) => Value::Tag(*place),
            Value::Trace(class) => Value::Trace(*class),
        })
    }

    /// Whether it is anything but a tuple and a list cell, whose contents are shared.
    #[inline(always)]
    pub fn is_flat(&self) -> bool
        ensures { IsTrue result ↔ (value_height self.now ≡ 0) }
    {
        match self {
            Value::Term(term) => !matches!(term.view(), View::Tuple(_) | View::Cons(..)),
            Value::Tag(_) => true,
            Value::Trace(_) => true,
        }
    }

    /// Whether the two values have the same content.
    pub fn same(&self, other: &Value) -> bool
        ensures { IsTrue result ↔ (self.now ≡ other.now) }
    {
        match (self, other) {
            (Value::Term(term), Value::Term(other)) => term.same(other),
            (Value::Tag(place), Value::Tag(other)) => *place == *other,
            (Value::Trace(class), Value::Trace(other)) => *class == *other,
            _ => false,
        }
    }
}

impl Same for Value {
    fn same(&self, other: &Value) -> bool {
        Value::same(self, other)
    }
}

impl Clone for Value {
    ghost use Rattle.std.specs.Prelude.{◌≡◌};

    ghost is_clone = { λ v w. w ≡ v };

    ghost use Rattle.bx_cells.specs.Held.{value_height};

    ghost is_infallible = { λ v. value_height v ≡ 0 };

    fn clone(&self) -> Result<Value, AllocError> {
        Ok(match self {
            Value::Term(term) => Value::Term(term.clone()?),
            Value::Tag(place) => Value::Tag(*place),
            Value::Trace(class) => Value::Trace(*class),
        })
    }
}

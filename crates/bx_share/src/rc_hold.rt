//! Holders for one thread, whose count of holders is a plain number.
ghost use Rattle.std.specs.Prelude.{◌≡◌};

use crate::{Copied, Hold};
use std::alloc::{AllocError, AllocFailed, Global};
use std::marker::Model;
use std::rc::Rc;

/// A holder that shares its value within one thread: it is neither `Send` nor `Sync`. A clause sees it as that value.
#[derive(Drop)]
pub struct RcHold<T> {
    inner: Rc<T>,
}

impl<T> Model for RcHold<T> {
    ghost Value = { T };

    ghost view = { λ holder. holder.inner.value };
}

impl<T: Drop> Hold<T> for RcHold<T> {
    ghost shown = { λ holder. holder };

    fn put(alloc: Global, value: T) -> Result<RcHold<T>, AllocFailed<T>> {
        let inner = Rc::new(alloc, value)?;
        Ok(RcHold { inner })
    }

    #[inline(always)]
    fn see(&self) -> &T {
        &self.inner
    }

    fn share(&self, _alloc: Global) -> Result<RcHold<T>, AllocError> {
        let inner = self.inner.clone()?;
        Ok(RcHold { inner })
    }

    #[inline(always)]
    fn edit(&mut self, alloc: Global) -> Result<&mut T, AllocError>
    where
        T: Copied,
    {
        own(alloc, &mut self.inner)?;
        match Rc::get_mut(&mut self.inner) {
            Some(value) => Ok(value),
            None => Err(AllocError), // not reached: `own` left no other owner
        }
    }
}

// Leaves `inner` the only owner of its value, or of a copy where the value has other owners.
#[inline(always)]
fn own<T: Copied>(alloc: Global, inner: &mut Rc<T>) -> Result<(), AllocError>
    ensures { inner.new.value ≡ inner.old.value }
{
    if Rc::strong_count(inner) != 1 {
        part(alloc, inner)?;
    }
    Ok(())
}

// Puts a copy in the value's place. It is a function of its own so that the edit of a value that isn't shared stays short.
#[cold]
#[inline(never)]
fn part<T: Copied>(alloc: Global, inner: &mut Rc<T>) -> Result<(), AllocError>
    ensures { inner.new.value ≡ inner.old.value }
{
    let copy = inner.copy(alloc)?;
    match Rc::new(alloc, copy) {
        Ok(other) => {
            *inner = other;
            Ok(())
        }
        Err(_) => Err(AllocError),
    }
}

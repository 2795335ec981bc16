//! Holders for any threads, whose count of holders is atomic.
ghost use Rattle.std.specs.Prelude.{◌≡◌};
ghost use Rattle.std.specs.Arc.{arc_value};

use crate::{Copied, Hold};
use std::alloc::{AllocError, AllocFailed, Global};
use std::marker::Model;
use std::sync::Arc;

/// A holder that shares its value between threads: it is `Send` and `Sync` where the value is both. A clause sees it as that value.
#[derive(Drop)]
pub struct ArcHold<T> {
    inner: Arc<T>,
}

impl<T> Model for ArcHold<T> {
    ghost Value = { T };

    ghost view = { λ holder. arc_value holder.inner };
}

impl<T: Drop> Hold<T> for ArcHold<T> {
    ghost shown = { λ holder. holder };

    fn put(alloc: Global, value: T) -> Result<ArcHold<T>, AllocFailed<T>> {
        let inner = Arc::new(alloc, value)?;
        Ok(ArcHold { inner })
    }

    #[inline(always)]
    fn see(&self) -> &T {
        &self.inner
    }

    fn share(&self, _alloc: Global) -> Result<ArcHold<T>, AllocError> {
        let inner = self.inner.clone()?;
        Ok(ArcHold { inner })
    }

    #[inline(always)]
    fn edit(&mut self, alloc: Global) -> Result<&mut T, AllocError>
    where
        T: Copied,
    {
        own(alloc, &mut self.inner)?;
        match Arc::get_mut(&mut self.inner) {
            Some(value) => Ok(value),
            None => Err(AllocError), // not reached: `own` left no other owner
        }
    }
}

// Leaves `inner` the only owner of its value, or of a copy where the value has other owners.
#[inline(always)]
fn own<T: Copied>(alloc: Global, inner: &mut Arc<T>) -> Result<(), AllocError>
    ensures { arc_value inner.new ≡ arc_value inner.old }
{
    if Arc::strong_count(inner) != 1 {
        part(alloc, inner)?;
    }
    Ok(())
}

// Puts a copy in the value's place. It is a function of its own so that the edit of a value that isn't shared stays short.
#[cold]
#[inline(never)]
fn part<T: Copied>(alloc: Global, inner: &mut Arc<T>) -> Result<(), AllocError>
    ensures { arc_value inner.new ≡ arc_value inner.old }
{
    let copy = inner.copy(alloc)?;
    match Arc::new(alloc, copy) {
        Ok(other) => {
            *inner = other;
            Ok(())
        }
        Err(_) => Err(AllocError),
    }
}

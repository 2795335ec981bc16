//! A number that counts its copies, where no clause sees it.
ghost use Rattle.std.specs.Prelude.{◌≡◌, ℕ};

use bx_share::Copied;
use std::alloc::{AllocError, Global};
use std::marker::Model;

#[derive(Drop)]
pub struct Traced {
    number: u64,
    copies: u32,
}

impl Model for Traced {
    ghost Value = { ℕ };

    ghost view = { λ traced. traced.number };
}

impl Traced {
    pub fn new(number: u64) -> Traced
        ensures { result ≡ number }
    {
        Traced { number, copies: 0 }
    }

    pub fn number(&self) -> u64
        ensures { result ≡ self.now }
    {
        self.number
    }

    pub fn copies(&self) -> u32 {
        self.copies
    }

    pub fn set(&mut self, number: u64)
        ensures { self.new ≡ number }
    {
        self.number = number;
    }
}

impl Copied for Traced {
    fn copy(&self, _alloc: Global) -> Result<Traced, AllocError> {
        Ok(Traced {
            number: self.number,
            copies: self.copies.saturating_add(1),
        })
    }
}

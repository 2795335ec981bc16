//! The mailbox in its plainest form, to compare the linked slots with: a list, and how many are passed over.

use bx_terms::Term;
use std::alloc::Global;

#[derive(Drop)]
pub struct Plain {
    messages: Vec<Term>,
    passed: usize,
}

impl Plain {
    /// A mailbox without messages.
    pub fn new(alloc: Global) -> Plain {
        Plain {
            messages: Vec::new(alloc),
            passed: 0,
        }
    }

    /// Adds a message at the end, or hands it back where memory ran out.
    pub fn add(&mut self, message: Term) -> Result<(), Term> {
        match self.messages.push(message) {
            Ok(()) => Ok(()),
            Err(failed) => Err(failed.value),
        }
    }

    /// The current message, where there is one.
    pub fn current(&self) -> Option<&Term> {
        self.messages.get(self.passed)
    }

    /// Passes the current message over, where there is one.
    pub fn pass(&mut self) -> bool {
        if self.passed >= self.messages.len() {
            return false;
        }
        self.passed += 1;
        true
    }

    /// Takes the current message out, where there is one, and no message is passed over any more.
    pub fn take(&mut self) -> Option<Term> {
        if self.passed >= self.messages.len() {
            return None;
        }
        let message = self.messages.remove(self.passed);
        self.passed = 0;
        Some(message)
    }

    /// From now on no message is passed over.
    pub fn reset(&mut self) {
        self.passed = 0;
    }

    /// How many messages there are, those passed over among them.
    pub fn len(&self) -> usize {
        self.messages.len()
    }
}

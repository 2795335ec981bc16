//! The prompt of a session.

use bx_debugger::Prompt;

/// Tells on standard error where the session stands, and asks for a line: `K/N> `.
#[derive(Drop)]
pub struct Asking<'a, R> {
    rt: &'a R,
}

impl<'a, R: Eprint> Asking<'a, R> {
    pub fn new(rt: &'a R) -> Asking<'a, R> {
        Asking { rt }
    }
}

impl<'a, R: Eprint> Prompt for Asking<'a, R> {
    fn ask(&self, at: usize, len: usize) {
        let _ = eprint!(self.rt; "{at}/{len}> ");
    }
}

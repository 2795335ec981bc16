//! What a process holds, for those who look at it.

ghost use Rattle.std.specs.Prelude.{◌≡◌, option_map};

use crate::parts::Pending;
use crate::process::Proc;
use bx_cells::{Frames, Registers};
use bx_mail::Mailbox;
use bx_terms::Place;

impl Proc {
    /// The x registers.
    pub fn registers(&self) -> &Registers
        ensures { result.now ≡ self.now.x }
    {
        &self.x
    }

    /// The stack.
    pub fn stack(&self) -> &Frames
        ensures { result.now ≡ self.now.frames }
    {
        &self.frames
    }

    /// The continuation pointer: the address that a return goes to.
    pub fn continuation(&self) -> Option<Place>
        ensures { result ≡ self.now.cp }
    {
        self.cp
    }

    /// Where the process goes on when its wait for a time is over.
    pub fn expiry(&self) -> Option<Place>
        ensures { result ≡ self.now.expires }
    {
        self.expires
    }

    /// The messages that it has not taken yet.
    pub fn messages(&self) -> &Mailbox
        ensures { result.now ≡ self.now.mailbox }
    {
        &self.mailbox
    }

    /// The fault that was caught and is not looked at yet.
    pub fn pending(&self) -> Option<&Pending>
        ensures { option_map (λ fault. fault.now) result ≡ self.now.fault }
    {
        self.fault.as_ref()
    }
}

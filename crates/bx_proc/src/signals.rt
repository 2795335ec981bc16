//! What signals ask of a process, and what they see of it.

ghost use Rattle.std.specs.Prelude.{◌≡◌, ◌≢◌, [], false, Ok, OnOk, IfErr};
ghost use Rattle.bx_terms.specs.Outcomes.{Does, Gives};
ghost use Rattle.bx_cells.specs.Links.{IsRising, among, unlinked};
ghost use Rattle.bx_signals.specs.Channels.{taken, waiting};
ghost use Rattle.bx_signals.specs.Handing.{Hands, message_of};
ghost use Rattle.bx_signals.specs.Waiting.{first};
ghost use Rattle.bx_proc.specs.Process.{can_expire};
ghost use Rattle.bx_proc.specs.Signals.{with_message, with_link, without_link, expired};

use crate::parts::Status;
use crate::process::Proc;
use bx_signals::Channels;
use bx_terms::{Fault, Term};
use std::alloc::{AllocError, Global};

impl Proc {
    /// Whether exit signals become messages.
    #[inline]
    pub fn traps_exits(&self) -> bool
        ensures { result ≡ self.now.trap_exit }
    {
        self.trap_exit
    }

    /// The pids of the processes that it is linked to, rising.
    #[inline]
    pub fn links(&self) -> &[u32]
        ensures pids { result.now ≡ self.now.links }
        ensures rising { IsRising self.now.links }
    {
        self.links.as_slice()
    }

    /// Whether it is linked to the process with that pid.
    pub fn is_linked(&self, pid: u32) -> bool
        ensures told { result ≡ among pid self.now.links }
        ensures rising { IsRising self.now.links }
    {
        let _pids = self.links.as_slice();
        self.links.contains(pid)
    }

    /// The pids of the processes that it is linked to, but that one.
    ///
    /// It can only run out of memory, and only where there is a link.
    pub fn links_but(&self, alloc: Global, pid: u32) -> Result<Vec<u32>, Fault>
        ensures { Gives (self.now.links ≢ []) (λ v. v.items) result
            (Ok (unlinked pid self.now.links)) }
    {
        Ok(self.links.but(alloc, pid)?)
    }

    /// Whether its wait may be over: it waits for a time, and has no message that it did not pass over.
    #[inline]
    pub fn can_expire(&self) -> bool
        ensures { result ≡ can_expire self.now }
    {
        match &self.status {
            Status::Waiting => self.expires.is_some() && !self.mailbox.current().is_some(),
            _ => false,
        }
    }

    /// A message arrives. It is handed back where memory ran out, and then nothing has changed.
    #[inline(always)]
    pub fn add_message(&mut self, message: Term) -> Result<(), Term>
        ensures ok { OnOk result (self.new ≡ with_message message self.old) }
        ensures err { IfErr result (λ m. (m ≡ message) × (self.new ≡ self.old)) }
    {
        self.mailbox.add(message)
    }

    /// The signal that waits first from that process to this one, of pid `pid`, arrives where it is a message; the answer is
    /// whether it is one. Where it is none, and where memory ran out, nothing has changed.
    #[inline(always)]
    #[tactic(auto, using(crate::proofs::Hearing::heard))]
    pub fn hear(&mut self, channels: &mut Channels, from: u32, pid: u32) -> Result<bool, AllocError>
        ensures { Hands (λ p message. with_message message p)
            (message_of (first (waiting channels.old (from, pid)))) self.old self.new
            (channels.new ≡ taken (from, pid) channels.old) (channels.new ≡ channels.old) result }
    {
        channels.hand(from, pid, &mut self.mailbox)
    }

    /// One link more. It can only run out of memory, and only for a link that is not there; then nothing has changed.
    pub fn add_link(&mut self, pid: u32) -> Result<(), Fault>
        ensures { Does (among pid self.old.links ≡ false) self.old self.new result
            (Ok (with_link pid self.old, tt)) }
    {
        self.links.insert(pid)?;
        Ok(())
    }

    /// Takes a link away, and tells whether it was there.
    pub fn drop_link(&mut self, pid: u32) -> bool
        ensures told { result ≡ among pid self.old.links }
        ensures dropped { self.new ≡ without_link pid self.old }
    {
        self.links.remove(pid)
    }

    /// The time of its wait is over: it goes on behind the wait, and that is told. Where no wait can be over nothing changes.
    pub fn expire(&mut self) -> bool
        ensures told { result ≡ can_expire self.old }
        ensures expired { self.new ≡ expired self.old }
    {
        if !self.can_expire() {
            return false;
        }
        self.status = Status::Ready;
        self.place = self.expires;
        self.expires = None;
        true
    }
}

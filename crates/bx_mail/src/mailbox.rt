//! The mailbox of a process.

ghost use Rattle.std.specs.Prelude.{◌≡◌, ◌≢◌, ◌↔◌, ◌≤◌, ◌+◌, ◌++◌, [], length, IfOk, OnOk, IfErr, OnErr, IsTrue, IsSome, option_map};
ghost use Rattle.bx_mail.specs.Mail.{Mail, empty, added, current, passed_over, taken, reset};

use crate::slots::{Slots, last_behind, same_row};
use bx_terms::Term;
use std::alloc::{AllocError, Global};
use std::marker::Model;

/// The messages that a process has not taken yet, in order of arrival. Some of them, from the first on, may be passed
/// over; the first of the rest is the current message.
///
/// Source: The BEAM Book, "The Mailbox".
#[derive(Debug, Drop)]
pub struct Mailbox {
    slots: Slots,
    first: Option<u32>,
    last: Option<u32>,
    /// The slot of the last message that was passed over.
    saved: Option<u32>,
    /// The first of the free slots.
    free: Option<u32>,
    /// How many messages were passed over.
    passed: usize,
    /// How many messages there are.
    len: usize,
}

impl Model for Mailbox {
    ghost use Rattle.std.specs.Prelude.{◌-◌};
    ghost use Rattle.bx_terms.specs.contracts.terms.Term as term;
    ghost use Rattle.bx_mail.specs.Mail.{Mail, mail_code};

    ghost Value = { Mail };

    ghost coded = { mail_code term.the_row.coded };

    ghost use Rattle.bx_mail.specs.Joined.{Joined, parted};

    ghost view = { λ a. parted a.slots a.first a.saved a.passed a.len };

    ghost invariant = { λ a. Joined a.slots a.first a.last a.saved a.free a.passed a.len (parted a.slots a.first a.saved a.passed a.len) };
}

impl Mailbox {
    /// A mailbox without messages.
    pub fn new(alloc: Global) -> Mailbox
        ensures { result ≡ empty }
    {
        Mailbox {
            slots: Slots::new(alloc),
            first: None,
            last: None,
            saved: None,
            free: None,
            passed: 0,
            len: 0,
        }
    }

    /// Adds a message at the end, or hands it back where memory ran out, and then nothing has changed.
    #[inline(always)]
    pub fn add(&mut self, message: Term) -> Result<(), Term>
        ensures ok { OnOk result (self.new ≡ added self.old message) }
        ensures err { IfErr result (λ m. (m ≡ message) × (self.new ≡ self.old)) }
    {
        let Ok(at) = self.slots.open(self.free) else {
            return Err(message);
        };
        let free = self.slots.fill(at, message);
        self.slots.relink(&mut self.first, self.last, Some(at));
        self.last = Some(at);
        self.free = free;
        self.len += 1;
        Ok(())
    }

    /// The current message, where there is one.
    pub fn current(&self) -> Option<&Term>
        ensures { option_map (λ m. m.now) result ≡ current self.now }
    {
        let link = self.slots.link_behind(self.first, self.saved);
        self.slots.message_of(link)
    }

    /// Passes the current message over. Without one the answer is false, and nothing has changed.
    pub fn pass(&mut self) -> bool
        ensures told { IsTrue result ↔ IsSome (current self.old) }
        ensures passed { self.new ≡ passed_over self.old }
    {
        let Some(at) = self.slots.link_behind(self.first, self.saved) else {
            return false;
        };
        self.saved = Some(at);
        self.passed += 1;
        true
    }

    /// Takes the current message out, and no message is passed over any more. Without one nothing has changed.
    pub fn take(&mut self) -> Option<Term>
        ensures given { result ≡ current self.old }
        ensures taken { self.new ≡ taken self.old }
    {
        let at = self.slots.link_behind(self.first, self.saved)?;
        let saved = self.saved.take();
        let (message, next) = self.slots.empty(at, self.free);
        self.slots.relink(&mut self.first, saved, next);
        self.last = last_behind(saved, next, self.last);
        self.free = Some(at);
        self.passed = 0;
        self.len -= 1;
        message
    }

    /// From now on no message is passed over.
    pub fn reset(&mut self)
        ensures { self.new ≡ reset self.old }
    {
        self.saved = None;
        self.passed = 0;
    }

    /// How many messages there are, those passed over among them.
    pub fn len(&self) -> usize
        ensures { result ≡ length self.now.passed + length self.now.rest }
    {
        self.len
    }

    /// How many slots there are, each with a message or free: what a copy takes where there is a message.
    pub fn slots(&self) -> usize
        ensures { length self.now.passed + length self.now.rest ≤ result }
    {
        self.slots.len()
    }

    /// How many messages are passed over.
    pub fn passed(&self) -> usize
        ensures { result ≡ length self.now.passed }
    {
        self.passed
    }

    /// The messages, those passed over first, each part oldest first. Terms are shared.
    pub fn messages(&self, alloc: Global) -> Result<Vec<Term>, AllocError>
        ensures { IfOk result (λ messages. messages.items ≡ self.now.passed ++ self.now.rest) }
    {
        let mut left = self.copy(alloc)?;
        left.reset();
        take_all(alloc, &mut left)
    }

    /// The same mailbox. Terms are shared. Memory is taken only where there is a message.
    pub fn copy(&self, alloc: Global) -> Result<Mailbox, AllocError>
        ensures copied { IfOk result (λ m. m ≡ self.now) }
        ensures memory { OnErr result (self.now ≢ empty) }
    {
        if self.len == 0 {
            return Ok(Mailbox::new(alloc));
        }
        let slots = self.slots.copy()?;
        Ok(Mailbox {
            slots,
            first: self.first,
            last: self.last,
            saved: self.saved,
            free: self.free,
            passed: self.passed,
            len: self.len,
        })
    }

    /// Puts a deep copy of each message in its place: none shares anything counted, for which threads would wait for each other. Where room or memory run out, some still do. The mailbox is the same in each case.
    pub fn unshare(&mut self, alloc: Global, room: &mut usize) -> Result<(), AllocError>
        ensures { self.new ≡ self.old }
    {
        self.slots.unshare(alloc, room)
    }

    /// Whether both have the same messages, and have passed the same number of them.
    pub fn same(&self, other: &Mailbox) -> bool
        ensures { IsTrue result ↔ (self.now ≡ other.now) }
    {
        self.passed == other.passed
            && self.len == other.len
            && same_row(&self.slots, self.first, &other.slots, other.first, self.len)
    }
}

/// Takes the messages out, none of which is passed over.
#[tactic(auto, using(crate::proofs::Emptying::out_next, crate::proofs::Emptying::none_passed, crate::proofs::Emptying::one_less, crate::proofs::Emptying::all_out, crate::proofs::Emptying::turns_out))]
fn take_all(alloc: Global, mailbox: &mut Mailbox) -> Result<Vec<Term>, AllocError>
    requires { mailbox.old.passed ≡ [] }
    ensures { IfOk result (λ messages. messages.items ≡ mailbox.old.rest) }
{
    let mut messages = Vec::new(alloc);
    for _turn in 0..mailbox.len() {
        let Some(message) = mailbox.take() else {
            return Ok(messages);
        };
        messages.push(message)?;
    }
    Ok(messages)
}

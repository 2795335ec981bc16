//! A process and its parts.

ghost use Rattle.std.specs.Prelude.{◌≡◌, ◌↔◌, ◌≢◌, [], IfOk, IsTrue, Ok, option_map};
ghost use Rattle.bx_terms.specs.Outcomes.{Gives};
ghost use Rattle.bx_proc.specs.Process.{new_process, can_run, StandsAs};

use crate::parts::{Pending, Status};
use bx_bifs::Native;
use bx_cells::{Frames, Links, Registers};
use bx_mail::Mailbox;
use bx_share::Copied;
use bx_terms::{Fault, Place, Term, take_room};
use std::alloc::{AllocError, Global};
use std::marker::Model;

/// A process.
///
/// What each run looks at stands first, so that it lies together in memory. Before `place` and `cp` stands what takes a byte or
/// two, so that each of them lies on a multiple of eight bytes, and in one line of the cache.
///
/// Source: The BEAM Book, "The Process".
#[derive(Debug, Drop)]
pub struct Proc {
    pub(crate) x: Registers,
    pub(crate) trap_exit: bool,
    pub(crate) place: Option<Place>,
    pub(crate) status: Status,
    pub(crate) fault: Option<Pending>,
    /// What it asked for and was not answered yet.
    pub(crate) asked: Option<Native>,
    /// The continuation pointer.
    pub(crate) cp: Option<Place>,
    /// Of a process that waits for a time: where it goes on when that is over.
    pub(crate) expires: Option<Place>,
    pub(crate) mailbox: Mailbox,
    pub(crate) links: Links,
    pub(crate) frames: Frames,
}

impl Model for Proc {
    ghost use Rattle.bx_proc.specs.Process.{Process, process_code};
    ghost use Rattle.bx_terms.specs.TreeCode.{tree_code};
    ghost use Rattle.bx_terms.specs.contracts.places.Place as places;
    ghost use Rattle.bx_cells.specs.contracts.values.Value as held;
    ghost use Rattle.bx_proc.specs.contracts.parts.Pending as pending;
    ghost use Rattle.bx_proc.specs.contracts.parts.Status as states;
    ghost use Rattle.bx_bifs.specs.contracts.natives.Native as natives;

    ghost Value = { Process };

    ghost coded = { process_code tree_code held.the_row.coded places.the_row.coded
        pending.the_row.coded states.the_row.coded natives.the_row.coded };

    ghost view = { λ a. record {
      x = a.x;
      cp = a.cp;
      frames = a.frames;
      place = a.place;
      fault =
          a.fault;
      mailbox = a.mailbox;
      links = a.links;
      trap_exit = a.trap_exit;
      status = a.status;
      expires = a.expires;
      asked = a.asked;
    } };
}

impl Proc {
    /// A process that stands at `place`, the entry of its function, with its arguments in x0 on; without an address its
    /// function is not there, which it finds at its first run. Memory is taken only where there are arguments.
    pub fn new(alloc: Global, place: Option<Place>, arguments: &[Term]) -> Result<Proc, Fault>
        ensures { Gives (arguments.now ≢ []) (λ p. p) result (Ok (new_process place arguments.now)) }
    {
        let x = Registers::holding(alloc, arguments)?;
        Ok(Proc {
            x,
            cp: None,
            frames: Frames::new(alloc),
            place,
            fault: None,
            mailbox: Mailbox::new(alloc),
            links: Links::new(alloc),
            trap_exit: false,
            status: Status::Ready,
            expires: None,
            asked: None,
        })
    }

    /// Whether the process is ready, waits, or has ended.
    #[inline]
    pub fn status(&self) -> &Status
        ensures { result.now ≡ self.now.status }
    {
        &self.status
    }

    /// The address at which the process stands, if its function was there.
    #[inline]
    pub fn place(&self) -> Option<Place>
        ensures { result ≡ self.now.place }
    {
        self.place
    }

    /// A deep copy. It takes one of the room for each register, frame, message and link, and what their terms take, and is out of
    /// memory past it.
    pub fn deep_copy(&self, alloc: Global, room: &mut usize) -> Result<Proc, AllocError>
        ensures { IfOk result (λ p. p ≡ self.now) }
    {
        let fault = match &self.fault {
            Some(fault) => Some(fault.deep_copy(alloc, room)?),
            None => None,
        };
        take_room(room, self.links.as_slice().len())?;
        take_room(room, self.mailbox.len())?;
        let mut mailbox = self.mailbox.copy(alloc)?;
        mailbox.unshare(alloc, room)?;
        Ok(Proc {
            x: self.x.deep_copy(alloc, room)?,
            cp: self.cp,
            frames: self.frames.deep_copy(alloc, room)?,
            place: self.place,
            fault,
            mailbox,
            links: self.links.copy(alloc)?,
            trap_exit: self.trap_exit,
            status: self.status.deep_copy(alloc, room)?,
            expires: self.expires,
            asked: self.asked,
        })
    }

    /// Whether the process may run: it is ready, or it waits and has a message that it did not pass over.
    #[inline(always)]
    pub fn can_run(&self) -> bool
        ensures { result ≡ can_run self.now }
    {
        match &self.status {
            Status::Ready => true,
            Status::Waiting => self.mailbox.current().is_some(),
            Status::Ended(_) => false,
        }
    }

    /// Whether both are in the same state.
    pub fn same(&self, other: &Proc) -> bool
        ensures { IsTrue result ↔ (self.now ≡ other.now) }
    {
        self.stands_as(other)
            && self.links.same(&other.links)
            && self.x.same(&other.x)
            && self.frames.same(&other.frames)
            && self.mailbox.same(&other.mailbox)
    }

    /// Whether both stand at the same address in the same state, whatever they hold.
    fn stands_as(&self, other: &Proc) -> bool
        ensures { IsTrue result ↔ StandsAs self.now other.now }
    {
        self.cp == other.cp
            && self.place == other.place
            && self.trap_exit == other.trap_exit
            && self.expires == other.expires
            && self.asked == other.asked
            && self.status.same(&other.status)
            && same_fault(self.fault.as_ref(), other.fault.as_ref())
    }
}

impl Copied for Proc {
    /// The same process. Terms are shared. It is inlined, so that a copy is made where it stays.
    #[inline(always)]
    fn copy(&self, alloc: Global) -> Result<Proc, AllocError> {
        let fault = match &self.fault {
            Some(fault) => Some(fault.copy(alloc)?),
            None => None,
        };
        Ok(Proc {
            x: self.x.copy(alloc)?,
            cp: self.cp,
            frames: self.frames.copy(alloc)?,
            place: self.place,
            fault,
            mailbox: self.mailbox.copy(alloc)?,
            links: self.links.copy(alloc)?,
            trap_exit: self.trap_exit,
            status: self.status.copy(alloc)?,
            expires: self.expires,
            asked: self.asked,
        })
    }
}

/// Whether both are the same fault, or neither is one.
fn same_fault(one: Option<&Pending>, other: Option<&Pending>) -> bool
    ensures { IsTrue result ↔
        (option_map (λ f. f.now) one.entry ≡ option_map (λ f. f.now) other.entry) }
{
    match (one, other) {
        (None, None) => true,
        (Some(fault), Some(other)) => fault.same(other),
        _ => false,
    }
}

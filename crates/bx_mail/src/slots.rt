//! Slots that hold messages and are joined by their numbers.

ghost use Rattle.std.specs.Prelude.{◌≡◌, ◌↔◌, ◌^◌, ◌<◌, ℕ, [], length, Some, None, IfOk, OnOk, OnErr, IsTrue, option_map, slice_set, slice_get};
ghost use Rattle.bx_mail.specs.Slots.{full, vacant, message_of, next_of, link_behind, last_behind, message_in, next_in, row, Relinked, Opened};

use bx_share::same_held;
use bx_terms::Term;
use std::alloc::{AllocError, Global};
use std::marker::Model;
use std::mem;

/// Room for one message. Without one it is free.
#[derive(Debug, Drop)]
pub struct Slot {
    pub message: Option<Term>,
    /// The number of the slot that comes next.
    pub next: Option<u32>,
}

impl Clone for Slot {
    ghost use Rattle.std.specs.Prelude.{◌≡◌};

    ghost is_clone = { λ s t. t ≡ s };

    fn clone(&self) -> Result<Slot, AllocError> {
        let message = self.message.clone()?;
        Ok(Slot {
            message,
            next: self.next,
        })
    }
}

impl Slot {
    /// Has the message share nothing counted with others; where room or memory run out, it stays as it was.
    fn unshare(&mut self, alloc: Global, room: &mut usize) -> Result<(), AllocError>
        ensures { self.new ≡ self.old }
    {
        match &mut self.message {
            Some(message) => message.unshare(alloc, room),
            None => Ok(()),
        }
    }
}

/// How many slots there may be: as many as 32 bits number, which take 128 GiB.
const MOST_SLOTS: usize = u32::MAX as usize;

const _: () = prove!(MOST_SLOTS == 4_294_967_295);

/// Slots by number. A link names a slot, or none.
#[derive(Debug, Drop)]
pub struct Slots {
    slots: Vec<Slot>,
}

impl Model for Slots {
    ghost use Rattle.std.specs.Prelude.{List};
    ghost use Rattle.std.specs.Coded.{coded_list};
    ghost use Rattle.bx_mail.specs.declared.slots.Slot.{Slot};
    ghost use Rattle.bx_mail.specs.contracts.slots.Slot as slot;

    ghost Value = { List Slot };

    ghost coded = { coded_list slot.the_row.coded };

    ghost view = { λ a. a.slots.items };
}

impl Slots {
    pub(crate) fn new(alloc: Global) -> Slots
        ensures { result ≡ [] }
    {
        Slots {
            slots: Vec::new(alloc),
        }
    }

    pub(crate) fn len(&self) -> usize
        ensures { result ≡ length self.now }
    {
        self.slots.len()
    }

    /// The message in the slot that `link` names.
    pub(crate) fn message_of(&self, link: Option<u32>) -> Option<&Term>
        ensures { option_map (λ m. m.now) result ≡ message_of self.now link }
    {
        self.slots.get(link? as usize)?.message.as_ref()
    }

    /// The link in the slot that `link` names.
    pub(crate) fn next_of(&self, link: Option<u32>) -> Option<u32>
        ensures { result ≡ next_of self.now link }
    {
        self.slots.get(link? as usize)?.next
    }

    /// The link in the slot that `behind` names, or `first` where it names none.
    pub(crate) fn link_behind(&self, first: Option<u32>, behind: Option<u32>) -> Option<u32>
        ensures { result ≡ link_behind self.now first behind }
    {
        match behind {
            None => first,
            Some(_) => self.next_of(behind),
        }
    }

    /// Makes the link in the slot that `behind` names, or `first` where it names none, lead to `to`.
    #[inline(always)]
    pub(crate) fn relink(&mut self, first: &mut Option<u32>, behind: Option<u32>, to: Option<u32>)
        requires { (at : ℕ) → behind ≡ Some at → at < length self.old }
        ensures { Relinked self.old self.new first.old first.new behind to }
    {
        match behind {
            None => *first = to,
            Some(at) => self.slots[at as usize].next = to,
        }
    }

    /// Empties a slot, and puts it before the free slots. The answer is its message, and the link that it had.
    pub(crate) fn empty(&mut self, at: u32, free: Option<u32>) -> (Option<Term>, Option<u32>)
        requires { at < length self.old }
        ensures message { result.0 ≡ message_in (slice_get self.old at) }
        ensures next { result.1 ≡ next_in (slice_get self.old at) }
        ensures emptied { self.new ≡ slice_set self.old at (vacant free) }
    {
        let slot = &mut self.slots[at as usize];
        let Slot { message, next } = mem::replace(
            slot,
            Slot {
                message: None,
                next: free,
            },
        );
        (message, next)
    }

    /// Puts a message into a slot, with no slot next. The answer is the link that the slot had.
    #[inline(always)]
    pub(crate) fn fill(&mut self, at: u32, message: Term) -> Option<u32>
        requires { at < length self.old }
        ensures next { result ≡ next_in (slice_get self.old at) }
        ensures filled { self.new ≡ slice_set self.old at (full message None) }
    {
        let slot = &mut self.slots[at as usize];
        let next = slot.next;
        slot.message = Some(message);
        slot.next = None;
        next
    }

    /// The number of a free slot: the first of them, or else a new one.
    #[inline(always)]
    pub(crate) fn open(&mut self, free: Option<u32>) -> Result<u32, AllocError>
        requires { length self.old < 2 ^ 32 }
        ensures ok { IfOk result (λ at. Opened self.old self.new free at) }
        ensures bounded { OnOk result (length self.new < 2 ^ 32) }
        ensures err { OnErr result (self.new ≡ self.old) }
    {
        if let Some(at) = free {
            return Ok(at);
        }
        self.open_new()
    }

    /// The number of a new slot, where there is room for one more.
    #[cold]
    #[inline(never)]
    fn open_new(&mut self) -> Result<u32, AllocError>
        requires { length self.old < 2 ^ 32 }
        ensures ok { IfOk result (λ at. Opened self.old self.new None at) }
        ensures bounded { OnOk result (length self.new < 2 ^ 32) }
        ensures err { OnErr result (self.new ≡ self.old) }
    {
        let at = self.slots.len();
        if at >= MOST_SLOTS {
            return Err(AllocError);
        }
        self.slots.push(Slot {
            message: None,
            next: None,
        })?;
        Ok(at as u32)
    }

    /// The same slots.
    pub(crate) fn copy(&self) -> Result<Slots, AllocError>
        ensures { IfOk result (λ s. s ≡ self.now) }
    {
        let slots = self.slots.clone()?;
        Ok(Slots { slots })
    }

    /// Has the messages share nothing counted with others, as far as room and memory go.
    pub(crate) fn unshare(&mut self, alloc: Global, room: &mut usize) -> Result<(), AllocError>
        ensures { self.new ≡ self.old }
    {
        unshare_each(alloc, room, &mut self.slots)
    }
}

#[tactic(auto, using(bx_terms::proofs::Rows::set_own))]
fn unshare_each(alloc: Global, room: &mut usize, slots: &mut Vec<Slot>) -> Result<(), AllocError>
    ensures { slots.new.items ≡ slots.old.items }
{
    for at in 0..slots.len() {
        slots[at].unshare(alloc, room)?;
    }
    Ok(())
}

/// Whether so many slots hold the same messages, from where two links lead.
pub(crate) fn same_row(
    slots: &Slots,
    first: Option<u32>,
    others: &Slots,
    other_first: Option<u32>,
    count: usize,
) -> bool
    ensures { IsTrue result ↔ (row slots.now count first ≡ row others.now count other_first) }
{
    let mut at = first;
    let mut other = other_first;
    let mut left = count;
    while left > 0 {
        if !same_held(slots.message_of(at), others.message_of(other)) {
            return false;
        }
        at = slots.next_of(at);
        other = others.next_of(other);
        left -= 1;
    }
    true
}

/// Which slot is the last, once the one between `before` and `next` is taken out.
pub(crate) fn last_behind(before: Option<u32>, next: Option<u32>, last: Option<u32>) -> Option<u32>
    ensures { result ≡ last_behind before next last }
{
    match next {
        None => before,
        Some(_) => last,
    }
}

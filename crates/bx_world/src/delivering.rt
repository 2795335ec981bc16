//! A signal takes effect at a process, beside the lanes.

ghost use Rattle.std.specs.Prelude.{◌≡◌, None, Ok};
ghost use Rattle.bx_terms.specs.Outcomes.{Does};
ghost use Rattle.bx_world.specs.Delivering.{received, ending, by_link, by_exit, exited_received};
ghost use Rattle.bx_signals.specs.Handing.{message_of};
ghost use Rattle.bx_signals.specs.Waiting.{first};
ghost use Rattle.bx_signals.specs.Channels.{waiting};

use crate::asking::exit_message;
use crate::lanes::Lanes;
use crate::turns::Turn;
use bx_bifs::is_the_atom;
use bx_proc::Proc;
use bx_signals::Signal;
use bx_terms::{Fault, Term, Trap, fixed};
use std::alloc::Global;

/// The first signal between two processes takes effect at the second. A message goes from its channel into the mailbox.
#[inline(always)]
#[tactic(auto, using(crate::proofs::Heard::was_heard, crate::proofs::Heard::not_heard, crate::proofs::Heard::not_held))]
pub(crate) fn receive(
    alloc: Global,
    process: &mut Proc,
    lanes: &mut Lanes,
    from: u32,
    pid: u32,
) -> Result<Turn, Fault>
    ensures { Does (Unit {0}) (process.old, lanes.old) (process.new, lanes.new) result
        (received from pid process.old lanes.old) }
{
    match process.hear(&mut lanes.channels, from, pid) {
        Ok(true) => Ok(Turn::Ran),
        Ok(false) => receive_other(alloc, process, lanes, from, pid),
        Err(_) => Err(Fault::Memory),
    }
}

/// The first signal between two processes, which is no message, takes effect. It is taken last, when nothing can be refused any more.
#[cold]
#[inline(never)]
fn receive_other(
    alloc: Global,
    process: &mut Proc,
    lanes: &mut Lanes,
    from: u32,
    pid: u32,
) -> Result<Turn, Fault>
    requires { message_of (first (waiting lanes.old.channels (from, pid))) ≡ None }
    ensures { Does (Unit {0}) (process.old, lanes.old) (process.new, lanes.new) result
        (received from pid process.old lanes.old) }
{
    match lanes.channels.first(from, pid) {
        Some(Signal::Link) => process.add_link(from)?,
        Some(Signal::Unlink) => {
            let _ = process.drop_link(from);
        }
        Some(Signal::LinkExit(reason)) => {
            let reason = reason.copy(alloc)?;
            return lanes.hear_link_exit(alloc, process, from, pid, reason);
        }
        Some(Signal::Exit(reason)) => {
            let reason = reason.copy(alloc)?;
            return lanes.hear_exit(alloc, process, from, pid, reason);
        }
        Some(Signal::Message(_)) | None => return Err(Fault::NotEnabled),
    }
    lanes.drop_first(from, pid);
    Ok(Turn::Ran)
}

impl Lanes {
    /// A process that may be linked has ended.
    #[tactic(auto, using(crate::proofs::Undoing::all_told))]
    fn hear_link_exit(
        &mut self,
        alloc: Global,
        process: &mut Proc,
        from: u32,
        pid: u32,
        reason: Term,
    ) -> Result<Turn, Fault>
        ensures { Does (Unit {0}) (process.old, self.old) (process.new, self.new) result
            (Ok (by_link from pid process.old reason self.old)) }
    {
        if !process.is_linked(from) {
            self.drop_first(from, pid);
            return Ok(Turn::Ran);
        }
        if process.traps_exits() {
            let Some(message) = exit_message(alloc, from, reason)? else {
                return Ok(Turn::Trapped(Trap::TermHeight));
            };
            if let Err(_message) = process.add_message(message) {
                return Err(Fault::Memory);
            }
            process.drop_link(from);
            self.drop_first(from, pid);
            return Ok(Turn::Ran);
        }
        if is_the_atom(fixed::NORMAL, &reason) {
            process.drop_link(from);
            self.drop_first(from, pid);
            return Ok(Turn::Ran);
        }
        let others = process.links_but(alloc, from)?;
        self.channels.put_exits(alloc, pid, &others, &reason)?;
        process.drop_link(from);
        self.drop_first(from, pid);
        Ok(Turn::Ended(reason))
    }

    /// Another process asks it to end.
    fn hear_exit(
        &mut self,
        alloc: Global,
        process: &mut Proc,
        from: u32,
        pid: u32,
        reason: Term,
    ) -> Result<Turn, Fault>
        ensures { Does (Unit {0}) (process.old, self.old) (process.new, self.new) result
            (Ok (by_exit from pid process.old reason self.old)) }
    {
        if is_the_atom(fixed::KILL, &reason) {
            return self.end(alloc, process, from, pid, Term::atom(fixed::KILLED));
        }
        if process.traps_exits() {
            let Some(message) = exit_message(alloc, from, reason)? else {
                return Ok(Turn::Trapped(Trap::TermHeight));
            };
            if let Err(_message) = process.add_message(message) {
                return Err(Fault::Memory);
            }
            self.drop_first(from, pid);
            return Ok(Turn::Ran);
        }
        if is_the_atom(fixed::NORMAL, &reason) {
            self.drop_first(from, pid);
            return Ok(Turn::Ran);
        }
        self.end(alloc, process, from, pid, reason)
    }

    /// The process ends, and its links hear of it.
    #[tactic(auto, using(crate::proofs::Undoing::all_told))]
    fn end(
        &mut self,
        alloc: Global,
        process: &Proc,
        from: u32,
        pid: u32,
        reason: Term,
    ) -> Result<Turn, Fault>
        ensures { Does (Unit {0}) (process.now, self.old) (process.now, self.new) result
            (Ok (ending from pid process.now reason self.old)) }
    {
        self.channels
            .put_exits(alloc, pid, process.links(), &reason)?;
        self.drop_first(from, pid);
        Ok(Turn::Ended(reason))
    }
}

/// The first signal between two processes of which the second has ended.
pub(crate) fn receive_exited(
    alloc: Global,
    lanes: &mut Lanes,
    from: u32,
    pid: u32,
) -> Result<(), Fault>
    ensures { Does (Unit {0}) lanes.old lanes.new result (exited_received from pid lanes.old) }
{
    let Some(signal) = lanes.channels.first(from, pid) else {
        return Err(Fault::NotEnabled);
    };
    if let Signal::Link = signal {
        let noproc = Term::atom(fixed::NOPROC);
        if let Err(_signal) = lanes
            .channels
            .put(alloc, pid, from, Signal::LinkExit(noproc))
        {
            return Err(Fault::Memory);
        }
    }
    lanes.drop_first(from, pid);
    Ok(())
}

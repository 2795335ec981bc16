//! An instruction that has a part in others, beside the lanes: all of it or nothing.
//!
//! What is put into the lanes is put before the process goes on, since it can be taken back without memory.

ghost use Rattle.std.specs.Prelude.{◌≡◌, Ok, Err, IsSome, IfOk, OnErr};
ghost use Rattle.bx_terms.specs.Outcomes.{Does};
ghost use Rattle.bx_proc.specs.Process.{Process};
ghost use Rattle.bx_proc.specs.Signals.{with_link, without_link};
ghost use Rattle.bx_proc.specs.Stepping.{settled, settled_with};
ghost use Rattle.bx_proc.specs.Telling.{Settles};
ghost use Rattle.bx_proc.specs.declared.parts.Effect.{Effect};
ghost use Rattle.bx_world.specs.declared.requests.Request.TheVariants as requests;
ghost use Rattle.bx_world.specs.declared.turns.Turn.TheVariants as turns;
ghost use Rattle.bx_world.specs.Deeds.{exit_message, low_enough, unlinked_done, yes};
ghost use Rattle.bx_world.specs.Asking.{whole, closing, sending, exiting_oneself, linking, unlinking, done_by, leaving, ExitTakes};

use crate::actors::Actor;
use crate::lanes::Lanes;
use crate::requests::Request;
use crate::turns::{Turn, is_undone};
use bx_bifs::is_the_atom;
use bx_proc::{Answer, Proc, Stop, Why};
use bx_signals::Signal;
use bx_terms::{Class, Fault, MAX_HEIGHT, Term, TermRefusal, Trap, fixed};
use std::alloc::{AllocError, Global};

/// What a native that asked answers, where it has nothing else to say.
pub(crate) fn yes() -> Answer
    ensures { result ≡ yes }
{
    Answer::Value(Term::atom(fixed::TRUE))
}

/// The message that an exit signal becomes; `None` where it would be too high. Memory is taken only where it is not.
#[tactic(auto, using(crate::proofs::Exiting::too_high, crate::proofs::Exiting::fits_on_err))]
pub(crate) fn exit_message(
    alloc: Global,
    from: u32,
    reason: Term,
) -> Result<Option<Term>, AllocError>
    ensures ok { IfOk result (λ message. message ≡ low_enough (exit_message from reason)) }
    ensures err { OnErr result (IsSome (low_enough (exit_message from reason))) }
{
    if reason.height() == MAX_HEIGHT {
        return Ok(None);
    }
    let mut elements = Vec::with_capacity(alloc, 3)?;
    elements.push(Term::atom(fixed::EXIT_TAG))?;
    elements.push(Term::pid(from))?;
    elements.push(reason)?;
    match Term::tuple(alloc, elements) {
        Ok(message) => Ok(Some(message)),
        Err((TermRefusal::TooHigh, _)) => Ok(None),
        Err((TermRefusal::Memory, _)) => Err(AllocError),
    }
}

impl Actor<'_> {
    /// Does what a process asks of the world, but for a spawn, which is handed on.
    pub(crate) fn perform(
        self,
        process: &mut Proc,
        lanes: &mut Lanes,
        request: Request,
    ) -> Result<Turn, Fault>
        ensures { Does (Unit {0}) (process.old, lanes.old) (process.new, lanes.new) result
            (Ok (done_by self.entry.image.now self.entry.pid request process.old lanes.old)) }
    {
        match request {
            Request::Refused => {
                let answer = Answer::Fault(Class::Error, Term::atom(fixed::BADARG));
                self.close(process, lanes, &answer)
            }
            Request::Send(to, message) => self.send(process, lanes, to, message),
            Request::Exit(to, reason) => self.exit(process, lanes, to, reason),
            Request::Link(to) => self.link(process, lanes, to),
            Request::Unlink(to) => self.unlink(process, lanes, to),
            Request::Display(term) => self.display(process, lanes, term),
            Request::Spawn(spawn) => Ok(Turn::Spawns(spawn)),
        }
    }

    /// Tells the links of a process that it has ended.
    #[tactic(auto, using(crate::proofs::Undoing::all_told))]
    pub(crate) fn leave(
        self,
        process: &Proc,
        lanes: &mut Lanes,
        reason: Term,
    ) -> Result<Turn, Fault>
        ensures { Does (Unit {0}) (process.now, lanes.old) (process.now, lanes.new) result
            (Ok (leaving self.entry.pid process.now lanes.old reason)) }
    {
        lanes
            .channels
            .put_exits(self.alloc, self.pid, process.links(), &reason)?;
        Ok(Turn::Ended(reason))
    }

    /// What an instruction that asked was, where its process does not go on with its answer.
    fn finish(self, process: &mut Proc, lanes: &mut Lanes, stop: Stop) -> Result<Turn, Fault>
        ensures { (old : Process) (said : Process × Effect) → Settles (Unit {0}) old process.old
            (Err stop) said → Does (Unit {0}) (old, lanes.old) (process.new, lanes.new) result
            (Ok (whole (old, lanes.old) (closing self.entry.pid lanes.old said))) }
    {
        match stop.why() {
            Why::Ends => match process.take_reason() {
                Some(reason) => self.leave(process, lanes, reason),
                None => Err(Fault::Memory), // not reached: a reason waits
            },
            Why::Trapped(kind) => Ok(Turn::Trapped(kind)),
            Why::Memory | Why::Asks(_) | Why::Sends => Err(Fault::Memory),
        }
    }

    /// Gives a process its answer: it goes on, or it ends and tells its links.
    #[tactic(auto, using(crate::proofs::Halting::any_takes))]
    pub(crate) fn close(
        self,
        process: &mut Proc,
        lanes: &mut Lanes,
        answer: &Answer,
    ) -> Result<Turn, Fault>
        ensures { Does (Unit {0}) (process.old, lanes.old) (process.new, lanes.new) result (Ok (whole
            (process.old, lanes.old)
            (closing self.entry.pid lanes.old (settled self.entry.image.now answer.now process.old)))) }
    {
        match process.settle(self.alloc, self.image, answer) {
            Ok(()) => Ok(Turn::Ran),
            Err(stop) => self.finish(process, lanes, stop),
        }
    }

    /// Gives a process its answer, and a message to itself.
    #[tactic(auto, using(crate::proofs::Halting::any_takes))]
    fn note(
        self,
        process: &mut Proc,
        lanes: &mut Lanes,
        answer: &Answer,
        message: Term,
    ) -> Result<Turn, Fault>
        ensures { Does (Unit {0}) (process.old, lanes.old) (process.new, lanes.new) result (Ok (whole
            (process.old, lanes.old)
            (closing self.entry.pid lanes.old (settled_with self.entry.image.now answer.now message process.old)))) }
    {
        match process.settle_with(self.alloc, self.image, answer, message) {
            Ok(()) => Ok(Turn::Ran),
            Err(stop) => self.finish(process, lanes, stop),
        }
    }

    /// Puts a signal to another process, and gives the sender its answer.
    #[tactic(auto, using(crate::proofs::Undoing::stood, crate::proofs::Undoing::undone, bx_signals::proofs::Maps::taken_back_put))]
    fn tell(
        self,
        process: &mut Proc,
        lanes: &mut Lanes,
        to: u32,
        signal: Signal,
        answer: &Answer,
    ) -> Result<Turn, Fault>
        ensures { Does (Unit {0}) (process.old, lanes.old) (process.new, lanes.new) result (Ok (whole
            (process.old, lanes.old)
            (sending self.entry.image.now self.entry.pid to signal answer.now process.old lanes.old))) }
    {
        if let Err(_signal) = lanes.channels.put(self.alloc, self.pid, to, signal) {
            return Err(Fault::Memory);
        }
        let turned = self.close(process, lanes, answer);
        if is_undone(&turned) {
            lanes.channels.take_back(self.pid, to);
        }
        turned
    }

    fn send(
        self,
        process: &mut Proc,
        lanes: &mut Lanes,
        to: u32,
        message: Term,
    ) -> Result<Turn, Fault>
        ensures { Does (Unit {0}) (process.old, lanes.old) (process.new, lanes.new) result
            (Ok (done_by self.entry.image.now self.entry.pid (requests.Send to message) process.old lanes.old)) }
    {
        let answer = Answer::Value(message.copy(self.alloc)?);
        if to == self.pid {
            return self.note(process, lanes, &answer, message);
        }
        let signal = Signal::Message(message);
        self.tell(process, lanes, to, signal, &answer)
    }

    fn exit(
        self,
        process: &mut Proc,
        lanes: &mut Lanes,
        to: u32,
        reason: Term,
    ) -> Result<Turn, Fault>
        ensures { Does (Unit {0}) (process.old, lanes.old) (process.new, lanes.new) result
            (Ok (done_by self.entry.image.now self.entry.pid (requests.Exit to reason) process.old lanes.old)) }
    {
        if to == self.pid {
            return self.exit_itself(process, lanes, reason);
        }
        self.tell(process, lanes, to, Signal::Exit(reason), &yes())
    }

    /// A process asks itself to end. No reason that is too high for the message is answered as out of memory.
    fn exit_itself(self, process: &mut Proc, lanes: &mut Lanes, reason: Term) -> Result<Turn, Fault>
        ensures { Does (ExitTakes self.entry.pid reason process.old.trap_exit) (process.old, lanes.old) (process.new, lanes.new) result (Ok (whole
            (process.old, lanes.old) (exiting_oneself self.entry.image.now self.entry.pid reason process.old lanes.old))) }
    {
        if is_the_atom(fixed::KILL, &reason) {
            return self.leave(process, lanes, Term::atom(fixed::KILLED));
        }
        if !process.traps_exits() {
            return self.leave(process, lanes, reason);
        }
        let Some(message) = exit_message(self.alloc, self.pid, reason)? else {
            return Ok(Turn::Trapped(Trap::TermHeight));
        };
        self.note(process, lanes, &yes(), message)
    }

    #[tactic(auto, using(crate::proofs::Undoing::stood, crate::proofs::Undoing::undone, bx_signals::proofs::Maps::taken_back_put))]
    fn link(self, process: &mut Proc, lanes: &mut Lanes, to: u32) -> Result<Turn, Fault>
        ensures { Does (Unit {0}) (process.old, lanes.old) (process.new, lanes.new) result
            (Ok (whole (process.old, lanes.old) (linking self.entry.image.now self.entry.pid to process.old lanes.old))) }
    {
        if to == self.pid || process.is_linked(to) {
            return self.close(process, lanes, &yes());
        }
        if let Err(_signal) = lanes.channels.put(self.alloc, self.pid, to, Signal::Link) {
            return Err(Fault::Memory);
        }
        let turned = self.close_linked(process, lanes, to, &yes());
        if is_undone(&turned) {
            lanes.channels.take_back(self.pid, to);
        }
        turned
    }

    #[tactic(auto, using(crate::proofs::Undoing::stood, crate::proofs::Undoing::undone, bx_signals::proofs::Maps::taken_back_put))]
    fn unlink(self, process: &mut Proc, lanes: &mut Lanes, to: u32) -> Result<Turn, Fault>
        ensures { Does (Unit {0}) (process.old, lanes.old) (process.new, lanes.new) result
            (Ok (whole (process.old, lanes.old) (unlinking self.entry.image.now self.entry.pid to process.old lanes.old))) }
    {
        if to == self.pid || !process.is_linked(to) {
            return self.close(process, lanes, &yes());
        }
        if let Err(_signal) = lanes.channels.put(self.alloc, self.pid, to, Signal::Unlink) {
            return Err(Fault::Memory);
        }
        let turned = self.close_without(process, lanes, to);
        if is_undone(&turned) {
            lanes.channels.take_back(self.pid, to);
        }
        turned
    }

    /// Gives a process its answer, and takes a link of it away: where it ends, that one does not hear of it.
    #[tactic(auto, using(crate::proofs::Halting::any_takes))]
    fn close_without(self, process: &mut Proc, lanes: &mut Lanes, to: u32) -> Result<Turn, Fault>
        ensures { Does (Unit {0}) (process.old, lanes.old) (process.new, lanes.new) result (Ok (whole
            (process.old, lanes.old)
            (closing self.entry.pid lanes.old (unlinked_done to (settled self.entry.image.now yes process.old))))) }
    {
        match process.settle(self.alloc, self.image, &yes()) {
            Ok(()) => {
                process.drop_link(to);
                Ok(Turn::Ran)
            }
            Err(stop) => self.finish_without(process, lanes, to, stop),
        }
    }

    /// What an instruction that took a link away was, where its process does not go on.
    fn finish_without(
        self,
        process: &mut Proc,
        lanes: &mut Lanes,
        to: u32,
        stop: Stop,
    ) -> Result<Turn, Fault>
        ensures { (old : Process) (said : Process × Effect) → Settles (Unit {0}) old process.old
            (Err stop) said → Does (Unit {0}) (old, lanes.old) (process.new, lanes.new) result
            (Ok (whole (old, lanes.old) (closing self.entry.pid lanes.old (unlinked_done to said)))) }
    {
        match stop.why() {
            Why::Ends => match process.take_reason() {
                Some(reason) => self.leave_without(process, lanes, to, reason),
                None => Err(Fault::Memory), // not reached: a reason waits
            },
            Why::Trapped(kind) => Ok(Turn::Trapped(kind)),
            Why::Memory | Why::Asks(_) | Why::Sends => Err(Fault::Memory),
        }
    }

    /// Tells the links of a process but one that it has ended.
    #[tactic(auto, using(crate::proofs::Undoing::all_told))]
    fn leave_without(
        self,
        process: &mut Proc,
        lanes: &mut Lanes,
        to: u32,
        reason: Term,
    ) -> Result<Turn, Fault>
        ensures { Does (Unit {0}) (process.old, lanes.old) (process.new, lanes.new) result
            (Ok (leaving self.entry.pid (without_link to process.old) lanes.old reason)) }
    {
        let others = process.links_but(self.alloc, to)?;
        lanes
            .channels
            .put_exits(self.alloc, self.pid, &others, &reason)?;
        process.drop_link(to);
        Ok(Turn::Ended(reason))
    }

    #[tactic(auto, using(crate::proofs::Undoing::stood, crate::proofs::Undoing::undone, crate::proofs::Undoing::front_last, crate::proofs::Undoing::shown_first))]
    fn display(self, process: &mut Proc, lanes: &mut Lanes, term: Term) -> Result<Turn, Fault>
        ensures { Does (Unit {0}) (process.old, lanes.old) (process.new, lanes.new) result
            (Ok (done_by self.entry.image.now self.entry.pid (requests.Display term) process.old lanes.old)) }
    {
        if let Err(_term) = lanes.output.push(self.pid, term) {
            return Err(Fault::Memory);
        }
        let turned = self.close(process, lanes, &yes());
        if is_undone(&turned) {
            lanes.output.take_back();
        }
        turned
    }

    /// A process enters another into its set, and gets its answer.
    #[tactic(auto, using(crate::proofs::Undoing::stood, crate::proofs::Undoing::undone, bx_proc::proofs::Linking::link_undone, bx_proc::proofs::Linking::linked_there))]
    pub(crate) fn close_linked(
        self,
        process: &mut Proc,
        lanes: &mut Lanes,
        child: u32,
        answer: &Answer,
    ) -> Result<Turn, Fault>
        ensures { Does (Unit {0}) (process.old, lanes.old) (process.new, lanes.new) result (Ok (whole
            (process.old, lanes.old)
            (closing self.entry.pid lanes.old (settled self.entry.image.now answer.now (with_link child process.old))))) }
    {
        if process.is_linked(child) {
            return self.close(process, lanes, answer);
        }
        process.add_link(child)?;
        let turned = self.close(process, lanes, answer);
        if is_undone(&turned) {
            process.drop_link(child);
        }
        turned
    }
}

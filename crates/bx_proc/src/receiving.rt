//! Messages that are looked at, passed over and taken, and waiting for them.

ghost use Rattle.std.specs.Prelude.{◌≡◌, ℕ, Some, option_map, List};
ghost use Rattle.bx_proc.specs.Receiving.{time_of};
ghost use Rattle.bx_listing.specs.declared.items.Operand.{Operand as Spelt};
ghost use Rattle.bx_ops.specs.declared.opcode.Op.TheVariants as ops;
ghost use Rattle.bx_proc.specs.Runs.{RunsBy};
ghost use Rattle.bx_proc.specs.Table.{own_rule};
ghost use Rattle.bx_proc.specs.Spelled.{spelled};

use crate::operands::{label_of, register_of};
use crate::parts::Status;
use crate::process::Proc;
use crate::stops::Stop;
use bx_asm::{Lookup, Operand};
use bx_cells::Value;
use bx_load::Image;
use bx_terms::{Class, Place, Term, Trap, View, fixed};
use std::alloc::Global;

/// For how long a process may wait.
#[derive(Clone, Copy, Debug)]
pub(crate) enum Time {
    Expiring,
    Endless,
    Wrong,
}

impl Proc {
    /// `loop_rec`.
    #[inline(never)]
    #[tactic(auto, unfolding(crate::specs::Table::own_rule, bx_asm::specs::Meaning::taken, crate::specs::Receiving::loop_rec_row))]
    pub(crate) fn loop_rec(
        &mut self,
        alloc: Global,
        image: &Image,
        here: Place,
        tables: Lookup<'_>,
        row: &[Operand],
    ) -> Result<(), Stop>
        ensures { (pid : ℕ) → RunsBy self.old self.new result
            (own_rule pid image.now here ops.LoopRec (spelled tables.entry row.now) self.old) }
    {
        let [otherwise, to, ..] = row else {
            return Err(Stop::trapped(Trap::BadPlace));
        };
        let otherwise = label_of(tables, *otherwise)?;
        let to = register_of(tables, *to)?;
        let Some(message) = self.mailbox.current() else {
            self.go(image, here, otherwise)?;
            return Ok(());
        };
        let message = message.copy(alloc)?;
        self.write(to, Value::Term(message))?;
        self.place = Some(image.after(here));
        Ok(())
    }

    /// `remove_message`.
    #[inline(never)]
    #[tactic(auto, unfolding(crate::specs::Table::own_rule, bx_asm::specs::Meaning::taken))]
    pub(crate) fn remove_message(&mut self, image: &Image, here: Place) -> Result<(), Stop>
        ensures { (pid : ℕ) (os : List Spelt) → RunsBy self.old self.new result
            (own_rule pid image.now here ops.RemoveMessage os self.old) }
    {
        let Some(_) = self.mailbox.take() else {
            return Err(Stop::trapped(Trap::NoMessage));
        };
        self.place = Some(image.after(here));
        Ok(())
    }

    /// `wait`.
    #[inline(never)]
    #[tactic(auto, unfolding(crate::specs::Table::own_rule, bx_asm::specs::Meaning::taken))]
    pub(crate) fn wait(
        &mut self,
        image: &Image,
        here: Place,
        tables: Lookup<'_>,
        row: &[Operand],
    ) -> Result<(), Stop>
        ensures { (pid : ℕ) → RunsBy self.old self.new result
            (own_rule pid image.now here ops.Wait (spelled tables.entry row.now) self.old) }
    {
        let [label, ..] = row else {
            return Err(Stop::trapped(Trap::BadPlace));
        };
        let label = label_of(tables, *label)?;
        self.go(image, here, label)?;
        self.status = Status::Waiting;
        Ok(())
    }

    /// `loop_rec_end`.
    #[inline(never)]
    #[tactic(auto, unfolding(crate::specs::Table::own_rule, bx_asm::specs::Meaning::taken))]
    pub(crate) fn loop_rec_end(
        &mut self,
        image: &Image,
        here: Place,
        tables: Lookup<'_>,
        row: &[Operand],
    ) -> Result<(), Stop>
        ensures { (pid : ℕ) → RunsBy self.old self.new result
            (own_rule pid image.now here ops.LoopRecEnd (spelled tables.entry row.now) self.old) }
    {
        let [label, ..] = row else {
            return Err(Stop::trapped(Trap::BadPlace));
        };
        let label = label_of(tables, *label)?;
        if self.mailbox.current().is_none() {
            return Err(Stop::trapped(Trap::NoMessage));
        }
        self.go(image, here, label)?;
        self.mailbox.pass();
        Ok(())
    }

    /// `timeout`.
    #[inline(never)]
    #[tactic(auto, unfolding(crate::specs::Table::own_rule, bx_asm::specs::Meaning::taken))]
    pub(crate) fn timeout(&mut self, image: &Image, here: Place) -> Result<(), Stop>
        ensures { (pid : ℕ) (os : List Spelt) → RunsBy self.old self.new result
            (own_rule pid image.now here ops.Timeout os self.old) }
    {
        self.mailbox.reset();
        self.place = Some(image.after(here));
        Ok(())
    }

    /// `wait_timeout`.
    #[inline(never)]
    #[tactic(auto, unfolding(crate::specs::Table::own_rule, bx_asm::specs::Meaning::taken, crate::specs::Receiving::wait_timeout_row))]
    pub(crate) fn wait_timeout(
        &mut self,
        alloc: Global,
        image: &Image,
        here: Place,
        tables: Lookup<'_>,
        row: &[Operand],
    ) -> Result<(), Stop>
        ensures { (pid : ℕ) → RunsBy self.old self.new result
            (own_rule pid image.now here ops.WaitTimeout (spelled tables.entry row.now) self.old) }
    {
        let [label, time, ..] = row else {
            return Err(Stop::trapped(Trap::BadPlace));
        };
        let label = label_of(tables, *label)?;
        let time = {
            let seen = self.seen(tables.source(*time))?;
            time_of(seen.term())
        };
        if let Time::Wrong = time {
            return self.raise(alloc, Class::Error, Term::atom(fixed::TIMEOUT_VALUE));
        }
        self.go(image, here, label)?;
        self.status = Status::Waiting;
        if let Time::Expiring = time {
            self.expires = Some(image.after(here));
        }
        Ok(())
    }
}

/// For how long: 0 to 4294967295 milliseconds, or for ever.
fn time_of(term: &Term) -> Time
    ensures { result ≡ time_of term.now }
{
    match term.view() {
        View::Int(time) if 0 <= time && time <= 4_294_967_295 => Time::Expiring,
        View::Atom(fixed::INFINITY) => Time::Endless,
        _ => Time::Wrong,
    }
}

//! Calls, returns and frames.

ghost use Rattle.std.specs.Prelude.{◌≡◌, ℕ, Ok, Err, Some, MatchResult, List};
ghost use Rattle.bx_cells.specs.TopFrame.{top_of};
ghost use Rattle.bx_load.specs.Image.{after, Loaded};
ghost use Rattle.bx_terms.specs.declared.places.Place as places;
ghost use Rattle.bx_proc.specs.Calls.{goes, saved_in, deallocated, prepared, framed, call_row};
ghost use Rattle.bx_listing.specs.declared.items.Operand.{Operand as Spelt};
ghost use Rattle.bx_ops.specs.declared.opcode.Op.TheVariants as ops;
ghost use Rattle.bx_proc.specs.Runs.{RunsBy};
ghost use Rattle.bx_proc.specs.Table.{own_rule, calling};
ghost use Rattle.bx_proc.specs.Spelled.{spelled};
ghost use Rattle.bx_proc.specs.Stops.{Turns};

use crate::operands::label_of;
use crate::process::Proc;
use crate::stops::Stop;
use bx_asm::{CallKind, Lookup, Operand};
use bx_load::Image;
use bx_terms::{Place, Term, Trap, fixed};

impl Proc {
    /// On at a label.
    #[inline(always)]
    pub(crate) fn go(&mut self, image: &Image, here: Place, label: u32) -> Result<(), Stop>
        ensures { Turns ⊥ self.old self.new result (goes image.now here label self.old) }
    {
        let Some(target) = image.target_at_once(here.module, label) else {
            return self.go_anywhere(image, here, label);
        };
        self.place = Some(target);
        Ok(())
    }

    /// On at a label, wherever it stands. It is the last call of each that makes it, so that none of them needs a frame.
    #[inline(never)]
    fn go_anywhere(&mut self, image: &Image, here: Place, label: u32) -> Result<(), Stop>
        ensures { Turns ⊥ self.old self.new result (goes image.now here label self.old) }
    {
        let target = image.target(here.module, label);
        if target.is_none() {
            return Err(Stop::trapped(Trap::BadPlace));
        }
        self.place = target;
        Ok(())
    }

    /// `call` and `call_only`.
    #[inline(always)]
    #[tactic(auto, unfolding(bx_asm::specs::Meaning::taken))]
    pub(crate) fn call(
        &mut self,
        image: &Image,
        here: Place,
        kind: CallKind,
        tables: Lookup<'_>,
        row: &[Operand],
    ) -> Result<(), Stop>
        ensures { RunsBy self.old self.new result
            (calling image.now here kind (spelled tables.entry row.now) self.old) }
    {
        let [_, target, ..] = row else {
            return Err(Stop::trapped(Trap::BadPlace));
        };
        let label = label_of(tables, *target)?;
        self.enter(image, here, kind, label)?;
        Ok(())
    }

    /// `call_last`.
    #[inline(never)]
    #[tactic(auto, unfolding(crate::specs::Table::own_rule, bx_asm::specs::Meaning::taken))]
    pub(crate) fn call_last(
        &mut self,
        image: &Image,
        here: Place,
        tables: Lookup<'_>,
        row: &[Operand],
    ) -> Result<(), Stop>
        ensures { (pid : ℕ) → RunsBy self.old self.new result
            (own_rule pid image.now here ops.CallLast (spelled tables.entry row.now) self.old) }
    {
        let [_, target, size, ..] = row else {
            return Err(Stop::trapped(Trap::BadPlace));
        };
        let label = label_of(tables, *target)?;
        let size = tables.number(*size);
        self.enter(image, here, CallKind::Last(size), label)?;
        Ok(())
    }

    /// Calls the function that begins at a label.
    #[inline(always)]
    fn enter(&mut self, image: &Image, here: Place, kind: CallKind, label: u32) -> Result<(), Stop>
        ensures { Turns ⊥ self.old self.new result
            (call_row image.now here (after image.now here) kind label self.old) }
    {
        let Some(place) = image.target_at_once(here.module, label) else {
            return self.enter_anywhere(image, here, kind, label);
        };
        self.prepare(image, here, kind)?;
        self.place = Some(place);
        Ok(())
    }

    /// Calls the function that begins at a label, wherever that stands.
    #[inline(never)]
    fn enter_anywhere(
        &mut self,
        image: &Image,
        here: Place,
        kind: CallKind,
        label: u32,
    ) -> Result<(), Stop>
        ensures { Turns ⊥ self.old self.new result
            (call_row image.now here (after image.now here) kind label self.old) }
    {
        let target = image.target(here.module, label);
        let Some(place) = target else {
            self.may_prepare(kind)?;
            return Err(Stop::trapped(Trap::BadPlace));
        };
        self.prepare(image, here, kind)?;
        self.place = Some(place);
        Ok(())
    }

    /// What a call makes of frame and continuation pointer.
    #[inline(always)]
    pub(crate) fn prepare(&mut self, image: &Image, here: Place, kind: CallKind) -> Result<(), Stop>
        ensures { Turns ⊥ self.old self.new result (prepared kind (after image.now here) self.old) }
    {
        match kind {
            CallKind::Plain => {
                self.cp = Some(image.after(here));
                Ok(())
            }
            CallKind::Last(size) => self.give_back(size),
            CallKind::Only => Ok(()),
        }
    }

    /// Whether a last call has a frame of its size to give back.
    pub(crate) fn may_prepare(&self, kind: CallKind) -> Result<(), Trap>
        ensures { MatchResult result (λ done. framed kind self.now ≡ Ok self.now)
            (λ trap. framed kind self.now ≡ Err trap) }
    {
        if let CallKind::Last(size) = kind {
            self.saved(size as u64)?;
        }
        Ok(())
    }

    /// Gives the topmost frame back.
    #[inline(always)]
    pub(crate) fn give_back(&mut self, size: u32) -> Result<(), Stop>
        ensures { Turns ⊥ self.old self.new result (deallocated size self.old) }
    {
        self.cp = self.saved(size as u64)?;
        self.frames.pop();
        Ok(())
    }

    /// What the topmost frame saved, which is to have this size.
    #[inline(always)]
    pub(crate) fn saved(&self, size: u64) -> Result<Option<Place>, Trap>
        ensures { result ≡ saved_in size (top_of self.now.frames) }
    {
        match self.frames.top() {
            None => Err(Trap::NoFrame),
            Some((held, saved)) if held as u64 == size => Ok(saved),
            Some(_) => Err(Trap::FrameSize),
        }
    }

    /// `return`.
    #[inline(always)]
    #[tactic(auto, unfolding(crate::specs::Table::own_rule, bx_asm::specs::Meaning::taken))]
    pub(crate) fn return_to(&mut self) -> Result<(), Stop>
        ensures { (pid : ℕ) (image : Loaded) (here : places.Place) (os : List Spelt) → RunsBy self.old self.new result
            (own_rule pid image here ops.Return os self.old) }
    {
        if self.cp.is_none() {
            return self.end(Term::atom(fixed::NORMAL));
        }
        self.place = self.cp;
        Ok(())
    }
}

//! What the processes of a world share.

ghost use Rattle.std.specs.Prelude.{◌≡◌, [], IfOk};
ghost use Rattle.std.specs.FinMap as map;
ghost use Rattle.bx_world.specs.Choosing.{only};
ghost use Rattle.bx_world.specs.Sharing.{hearing};

use crate::choices::Choice;
use crate::output::Output;
use bx_share::{Copied, Same};
use bx_signals::Channels;
use std::alloc::{AllocError, Global};

/// The signals that wait, and the terms that were displayed.
#[derive(Debug, Drop)]
pub struct Lanes {
    pub(crate) channels: Channels,
    pub(crate) output: Output,
}

impl Lanes {
    /// No signal waits, and nothing was displayed.
    pub(crate) fn new(alloc: Global) -> Lanes
        ensures channels { result.channels ≡ map.empty }
        ensures output { result.output ≡ [] }
    {
        Lanes {
            channels: Channels::new(alloc),
            output: Output::new(alloc),
        }
    }

    /// What was displayed, in order.
    pub fn output(&self) -> &Output
        ensures { result.now ≡ self.now.output }
    {
        &self.output
    }

    /// A deep copy.
    pub(crate) fn deep_copy(&self, alloc: Global, room: &mut usize) -> Result<Lanes, AllocError>
        ensures { IfOk result (λ lanes. lanes ≡ self.now) }
    {
        let output = self.output.deep_copy(alloc, room)?;
        let mut channels = self.channels.copy(alloc)?;
        channels.unshare(alloc, room)?;
        Ok(Lanes { channels, output })
    }

    /// Nothing but the signal that a choice takes. The term is shared.
    pub(crate) fn only(&self, alloc: Global, choice: Choice) -> Result<Lanes, AllocError>
        ensures { IfOk result (λ lanes. lanes ≡ only choice self.now) }
    {
        let mut lanes = Lanes::new(alloc);
        let Choice::Deliver(from, to) = choice else {
            return Ok(lanes);
        };
        let Some(signal) = self.channels.first(from, to) else {
            return Ok(lanes);
        };
        let signal = signal.clone()?;
        if let Err(_signal) = lanes.channels.put(alloc, from, to, signal) {
            return Err(AllocError);
        }
        Ok(lanes)
    }

    /// Takes the signal that waits first.
    #[inline(always)]
    pub(crate) fn drop_first(&mut self, from: u32, to: u32)
        ensures { self.new ≡ hearing (from, to) self.old }
    {
        let _ = self.channels.take(from, to);
    }
}

impl Same for Lanes {
    fn same(&self, other: &Lanes) -> bool {
        self.channels.same(&other.channels) && self.output.same(&other.output)
    }
}

impl Copied for Lanes {
    /// The same lanes. Terms are shared.
    fn copy(&self, alloc: Global) -> Result<Lanes, AllocError> {
        let channels = self.channels.copy(alloc)?;
        let output = self.output.copy(alloc)?;
        Ok(Lanes { channels, output })
    }
}

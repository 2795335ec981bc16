//! The deliveries that are enabled.

ghost use Rattle.std.specs.Prelude.{◌≡◌, ◌≢◌, ◌++◌, [], OnOk, OnErr};
ghost use Rattle.bx_world.specs.Enabled.{deliveries};

use crate::choices::Choice;
use bx_signals::Channels;
use std::alloc::{AllocError, Global};

/// Puts a delivery from each channel in which something waits last, by rising pair. Memory is taken only where there is one.
pub(crate) fn push_deliveries(
    alloc: Global,
    channels: &Channels,
    choices: &mut Vec<Choice>,
) -> Result<(), AllocError>
    ensures ok { OnOk result (choices.new.items ≡ choices.old.items ++ deliveries channels.now) }
    ensures err { OnErr result (deliveries channels.now ≢ []) }
{
    let pairs = channels.pairs(alloc)?;
    for (from, to) in &pairs {
        choices.push(Choice::Deliver(*from, *to))?;
    }
    Ok(())
}

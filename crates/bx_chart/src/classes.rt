//! The classes by which a drawing's style paints what it shows.

ghost use Rattle.std.specs.Prelude.{◌≡◌};
ghost use Rattle.bx_bifs.specs.Kinds.{is_the_atom};
ghost use Rattle.bx_terms.specs.declared.fixed.TheConstants.{NORMAL};
ghost use Rattle.bx_chart.specs.Classes.{arrow_class, event_class, status_class, waiting_class};

use bx_events::{Effect, Event, Stands, What};
use bx_signals::Signal;
use bx_terms::{Term, View, fixed};
use bx_world::Status;

/// The class of a signal's arrow.
pub(crate) fn arrow_class(signal: &Signal) -> &'static str
    ensures { result.now ≡ arrow_class signal.now }
{
    match signal {
        Signal::Message(_) => "message",
        _ => "signal",
    }
}

/// The class of the arrow of a signal that waits.
pub(crate) fn waiting_class(signal: &Signal) -> &'static str
    ensures { result.now ≡ waiting_class signal.now }
{
    match signal {
        Signal::Message(_) => "message waiting",
        _ => "signal waiting",
    }
}

/// The class of what is said of an event.
pub(crate) fn event_class(event: &Event) -> &'static str
    ensures { result.now ≡ event_class event.now }
{
    if let Stands::Trapped(_) = event.stands {
        return "bad";
    }
    if event.shown.is_some() {
        return "shown";
    }
    match event.what {
        What::Arrived { effect, .. } => match effect {
            Effect::Added => "term",
            Effect::Ends => "bad",
            _ => "name",
        },
        _ => "place",
    }
}

fn is_normal(reason: &Term) -> bool
    ensures { result ≡ is_the_atom NORMAL reason.now }
{
    match reason.view() {
        View::Atom(atom) => atom == fixed::NORMAL,
        _ => false,
    }
}

/// The class of how a process stands at the end.
pub(crate) fn status_class(status: &Status) -> &'static str
    ensures { result.now ≡ status_class status.now }
{
    match status {
        Status::Ended(reason) if !is_normal(reason) => "bad status",
        _ => "status",
    }
}

//! Items at which a process meets others than itself.

ghost use Rattle.std.specs.Prelude.{◌≡◌, slice_get};
ghost use Rattle.bx_asm.specs.Numbered.{item_of};
ghost use Rattle.bx_bifs.specs.Asks.{is_ask};
ghost use Rattle.bx_debug.specs.Meeting.{event, is_event, meeting, meets, native_called, native_named, native_of};

use bx_asm::{Numbered, Spelt};
use bx_bifs::Native;
use bx_load::{Callee, Image};
use bx_ops::Op;
use bx_terms::Place;
use bx_world::RcWorld;

/// Where a process stands, if a run of the item there concerns others.
#[inline(always)]
pub(crate) fn meeting(image: &Image, pid: u32, world: &RcWorld) -> Option<Place>
    ensures { result ≡ meeting image.now pid world.now }
{
    let place = world.place(pid)?;
    let item = image.item(place)?;
    if meets(image, place, item) {
        Some(place)
    } else {
        None
    }
}

/// Where a process stands, if the item there is an event.
#[inline(always)]
pub(crate) fn event(image: &Image, pid: u32, world: &RcWorld) -> Option<Place>
    ensures { result ≡ event image.now pid world.now }
{
    let place = world.place(pid)?;
    let item = image.item(place)?;
    if is_event(image, place, item) {
        Some(place)
    } else {
        None
    }
}

/// Whether a run of an item concerns others.
#[inline(always)]
fn meets(image: &Image, place: Place, item: Numbered<'_>) -> bool
    ensures { result ≡ meets image.now (item_of item.entry) }
{
    match native_called(image, place, item) {
        Some(native) => asks(native),
        None => matches!(item.op(), Op::Send),
    }
}

/// Whether a trace of the process tells of a run of an item.
#[inline(always)]
fn is_event(image: &Image, place: Place, item: Numbered<'_>) -> bool
    ensures { result ≡ is_event image.now (item_of item.entry) }
{
    match native_called(image, place, item) {
        Some(native) => asks(native) || matches!(native, Native::ProcessFlag),
        None => matches!(item.op(), Op::Send | Op::Timeout),
    }
}

/// The native that an item calls.
#[inline(always)]
fn native_called(image: &Image, place: Place, item: Numbered<'_>) -> Option<Native>
    ensures { result ≡ native_called image.now (item_of item.entry) }
{
    match item.op() {
        Op::CallExt | Op::CallExtLast | Op::CallExtOnly => native_named(image, place, item),
        _ => None,
    }
}

/// The native that an item's second operand names.
fn native_named(image: &Image, place: Place, item: Numbered<'_>) -> Option<Native>
    ensures { result ≡ native_named image.now (slice_get (item_of item.entry).operands 1) }
{
    let [_, named, ..] = item.operands else {
        return None;
    };
    match item.operand(1) {
        Some(Spelt::Import(import)) => native_of(image.callee(place.module, *named, import)),
        _ => None,
    }
}

fn native_of(callee: Callee) -> Option<Native>
    ensures { result ≡ native_of callee }
{
    match callee {
        Callee::Native(native) => Some(native),
        Callee::Guard(_) | Callee::Function(_) | Callee::Missing => None,
    }
}

/// Whether a native asks the world for something.
fn asks(native: Native) -> bool
    ensures { result ≡ is_ask native }
{
    matches!(
        native,
        Native::Spawn
            | Native::SpawnLink
            | Native::Link
            | Native::Unlink
            | Native::ExitSignal
            | Native::Send
            | Native::Display
    )
}

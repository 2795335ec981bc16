//! What no clause says: that a call succeeds where there is memory, that a value is copied only by an edit where it is shared,
//! and which holders may cross threads. Holders are used as other crates use them, at any `H: Hold<Traced>`.
ghost use Rattle.std.specs.Prelude.{◌≡◌, IfOk, OnOk, OnErr};

use bx_share::{ArcHold, Hold, RcHold};
use std::alloc::{AllocError, Global};
use std::test::Fail;

mod traced;

use traced::Traced;

fn write<H: Hold<Traced>>(alloc: Global, holder: &mut H, number: u64) -> Result<(), AllocError>
    ensures ok { OnOk result (H.shown holder.new ≡ number) }
    ensures err { OnErr result (H.shown holder.new ≡ H.shown holder.old) }
{
    holder.edit(alloc)?.set(number);
    Ok(())
}

// A holder that was written to while it was shared, and the other one, which shows what it did.
fn branched<H: Hold<Traced>>(
    alloc: Global,
    value: Traced,
    number: u64,
) -> Result<(H, H), AllocError>
    ensures { IfOk result (λ holders. (H.shown holders.0 ≡ number) × (H.shown holders.1 ≡ value)) }
{
    let mut here = H::put(alloc, value)?;
    let there = here.share(alloc)?;
    write(alloc, &mut here, number)?;
    Ok((here, there))
}

// Whether that number is shown, and so many copies lie between it and the value that was put.
fn is_seen<H: Hold<Traced>>(holder: &H, number: u64, copies: u32) -> bool {
    let value = holder.see();
    value.number() == number && value.copies() == copies
}

// Whether a value that isn't shared is edited in place, and shared without a copy.
fn edits_in_place<H: Hold<Traced>>(alloc: Global) -> Result<bool, AllocError> {
    let mut alone = H::put(alloc, Traced::new(7))?;
    let put = is_seen(&alone, 7, 0);
    write(alloc, &mut alone, 8)?;
    let edited = is_seen(&alone, 8, 0);
    let other = alone.share(alloc)?;
    Ok(put && edited && is_seen(&alone, 8, 0) && is_seen(&other, 8, 0))
}

// Whether an edit of a shared value copies it once, and edits do no more once neither is shared.
fn edits_a_copy<H: Hold<Traced>>(alloc: Global) -> Result<bool, AllocError> {
    let (mut here, mut there) = branched::<H>(alloc, Traced::new(7), 9)?;
    let shared = is_seen(&here, 9, 1) && is_seen(&there, 7, 0);
    write(alloc, &mut here, 10)?;
    write(alloc, &mut there, 11)?;
    Ok(shared && is_seen(&here, 10, 1) && is_seen(&there, 11, 0))
}

// Whether two holders of 7 show what an edit of the first did. Memory that is refused is handed on, after they were looked at.
fn keeps_what_is_refused<H: Hold<Traced>>(
    alloc: Global,
    here: &mut H,
    there: &H,
) -> Result<bool, AllocError> {
    let written = write(alloc, here, 8);
    let shown = if written.is_ok() { 8 } else { 7 };
    let is_kept = here.see().number() == shown && there.see().number() == 7;
    if is_kept {
        written?;
    }
    Ok(is_kept)
}

// The same of a value that is put: where it is refused, it is handed back.
fn hands_back_what_is_refused<H: Hold<Traced>>(alloc: Global) -> Result<bool, AllocError> {
    match H::put(alloc, Traced::new(7)) {
        Ok(mut here) => {
            let there = here.share(alloc)?;
            keeps_what_is_refused(alloc, &mut here, &there)
        }
        Err(refused) if refused.value.number() == 7 => Err(AllocError),
        Err(_) => Ok(false),
    }
}

#[test]
fn holders_in_one_thread(rt: HostRuntime) -> Result<(), Fail> {
    assert!(rt; edits_in_place::<RcHold<Traced>>(rt.alloc())?);
    assert!(rt; edits_a_copy::<RcHold<Traced>>(rt.alloc())?);
    assert!(rt; hands_back_what_is_refused::<RcHold<Traced>>(rt.alloc())?);
    Ok(())
}

fn crosses_threads<S: Send + Sync>(_value: &S) {}

fn holder_crosses_threads<T: Drop + Send + Sync>(holder: &ArcHold<T>) {
    crosses_threads(holder);
}

#[test]
fn holders_for_any_thread(rt: HostRuntime) -> Result<(), Fail> {
    assert!(rt; edits_in_place::<ArcHold<Traced>>(rt.alloc())?);
    assert!(rt; edits_a_copy::<ArcHold<Traced>>(rt.alloc())?);
    assert!(rt; hands_back_what_is_refused::<ArcHold<Traced>>(rt.alloc())?);
    holder_crosses_threads(&ArcHold::put(rt.alloc(), Traced::new(7)).map_err(AllocError::from)?);
    Ok(())
}

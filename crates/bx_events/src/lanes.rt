//! The lives of processes among events.

ghost use Rattle.std.specs.Prelude.{◌≡◌, slice_get, OnOk, IfOk};
ghost use Rattle.bx_events.specs.Lanes.{born_at, closed_in, ended_at, lanes_of};

use crate::events::{Event, Lane, Stands};
use std::alloc::{AllocError, Global};

/// A lane for each process, by pid.
pub(crate) fn lanes_of(alloc: Global, events: &[Event]) -> Result<Vec<Lane>, AllocError>
    ensures { IfOk result (λ lanes. lanes.items ≡ lanes_of events.now) }
{
    let mut lanes = Vec::new(alloc);
    lanes.push(Lane {
        born: None,
        ended: None,
    })?;
    for at in 0..events.len() {
        push_born(&mut lanes, at, events[at].child)?;
        close(&mut lanes, at, &events[at]);
    }
    Ok(lanes)
}

/// Begins the lane of the process that an event spawned.
fn push_born(lanes: &mut Vec<Lane>, at: usize, child: Option<u32>) -> Result<(), AllocError>
    ensures { OnOk result (lanes.new.items ≡ born_at at child lanes.old.items) }
{
    if child.is_some() {
        lanes.push(Lane {
            born: Some(at),
            ended: None,
        })?;
    }
    Ok(())
}

/// Closes the lane of a process that has ended behind an event, where none before has closed it.
fn close(lanes: &mut [Lane], at: usize, event: &Event)
    ensures { lanes.new ≡ ended_at at event.now.actor event.now.stands lanes.old }
{
    if let Stands::Ended(_) = event.stands {
        close_at(lanes, at, event.actor as usize);
    }
}

fn close_at(lanes: &mut [Lane], at: usize, pid: usize)
    ensures { lanes.new ≡ closed_in at pid (slice_get lanes.old pid) lanes.old }
{
    if pid < lanes.len() && lanes[pid].ended.is_none() {
        lanes[pid].ended = Some(at);
    }
}

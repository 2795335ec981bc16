//! Outcomes and reports that were put together by hand, with their texts.

use bx_board::{Report, Scheduled, report_text};
use bx_share::Same;
use bx_terms::{Atoms, Name, Term, Trap, fixed};
use bx_world::{Choice, Choices, Outcome, Output, Standing, Status, Statuses};
use std::alloc::{AllocError, Global};
use std::test::Fail;

/// How many things came of schedules, each of which differs from the first in one part.
const COUNT: u32 = 15;

fn open(alloc: Global, choices: &[Choice]) -> Result<Standing, AllocError> {
    let mut row = Choices::new(alloc);
    for choice in choices {
        row.push(*choice)?;
    }
    Ok(Standing::Open(row))
}

fn standing(alloc: Global, number: u32) -> Result<Standing, AllocError> {
    match number {
        5 => Ok(Standing::Quiet),
        6 => Ok(Standing::Trapped(Trap::Unset, 0)),
        7 => Ok(Standing::Trapped(Trap::BadPlace, 0)),
        8 => open(alloc, &[Choice::Run(0), Choice::Deliver(1, 0)]),
        _ => open(alloc, &[Choice::Run(0)]),
    }
}

fn statuses(alloc: Global, number: u32) -> Result<Statuses, AllocError> {
    let mut row = Statuses::new(alloc);
    let first = match number {
        9 => Status::Ended(Term::atom(fixed::NORMAL)),
        10 => Status::Ended(Term::atom(fixed::KILLED)),
        _ => Status::Ready,
    };
    row.push(first).map_err(|_| AllocError)?;
    if number == 11 {
        row.push(Status::Waiting).map_err(|_| AllocError)?;
    }
    Ok(row)
}

fn output(alloc: Global, number: u32) -> Result<Output, AllocError> {
    let mut row = Output::new(alloc);
    let pushed = match number {
        12 => row.push(0, Term::int(-7)),
        13 => row.push(1, Term::int(-7)),
        14 => row.push(0, Term::pid(0)),
        _ => Ok(()),
    };
    match pushed {
        Ok(()) => Ok(row),
        Err(_) => Err(AllocError),
    }
}

fn outcome(alloc: Global, number: u32) -> Result<Outcome, AllocError> {
    let state = standing(alloc, number)?;
    let statuses = statuses(alloc, number)?;
    let output = output(alloc, number)?;
    Ok(Outcome {
        state,
        statuses,
        output,
    })
}

fn scheduled(alloc: Global, number: u32) -> Result<Scheduled, AllocError> {
    let name = Name::new(alloc, if number == 1 { "b_-9Z" } else { "a" })?;
    let refused = match number {
        3 => Some(Choice::Run(0)),
        4 => Some(Choice::Deliver(0, 12)),
        _ => None,
    };
    let outcome = outcome(alloc, number)?;
    Ok(Scheduled {
        name,
        applied: if number == 2 { 14 } else { 2 },
        refused,
        outcome,
    })
}

/// Whether that one is the same as itself, put together again, and as no other.
fn is_alone(alloc: Global, number: u32) -> Result<bool, AllocError> {
    let one = scheduled(alloc, number)?;
    for other in 0..COUNT {
        let another = scheduled(alloc, other)?;
        if one.same(&another) != (other == number) {
            return Ok(false);
        }
    }
    Ok(true)
}

#[test]
fn each_part_tells_apart(rt: HostRuntime) -> Result<(), Fail> {
    for number in 0..COUNT {
        assert!(rt; is_alone(rt.alloc(), number)?, "{number}");
    }
    Ok(())
}

fn report(alloc: Global, numbers: &[u32]) -> Result<Report, AllocError> {
    let mut report = Report::new(alloc);
    for number in numbers {
        let one = scheduled(alloc, *number)?;
        report.push(one).map_err(|_| AllocError)?;
    }
    Ok(report)
}

fn text_of(alloc: Global, numbers: &[u32]) -> Result<String, Fail> {
    let atoms = Atoms::new(alloc)?;
    let report = report(alloc, numbers)?;
    Ok(report_text(alloc, &atoms, &report)?)
}

#[test]
fn texts_of_states(rt: HostRuntime) -> Result<(), Fail> {
    let rows = [
        (
            0,
            "schedule a\napplied 2\nstate open r0\nprocess <0.0.0> ready\nend\n",
        ),
        (
            1,
            "schedule b_-9Z\napplied 2\nstate open r0\nprocess <0.0.0> ready\nend\n",
        ),
        (
            2,
            "schedule a\napplied 14\nstate open r0\nprocess <0.0.0> ready\nend\n",
        ),
        (
            4,
            "schedule a\napplied 2\nstate stopped d0>12\nprocess <0.0.0> ready\nend\n",
        ),
        (
            5,
            "schedule a\napplied 2\nstate quiet\nprocess <0.0.0> ready\nend\n",
        ),
        (
            7,
            "schedule a\napplied 2\nstate trapped BadPlace <0.0.0>\nprocess <0.0.0> ready\nend\n",
        ),
        (
            8,
            "schedule a\napplied 2\nstate open r0 d1>0\nprocess <0.0.0> ready\nend\n",
        ),
    ];
    for (number, want) in rows {
        let text = text_of(rt.alloc(), &[number])?;
        assert!(rt; text.as_str() == want, "{text}");
    }
    Ok(())
}

#[test]
fn texts_of_processes_and_output(rt: HostRuntime) -> Result<(), Fail> {
    let rows = [
        (10, "process <0.0.0> ended killed\nend\n"),
        (11, "process <0.0.0> ready\nprocess <0.1.0> waiting\nend\n"),
        (13, "process <0.0.0> ready\noutput <0.1.0> -7\nend\n"),
        (14, "process <0.0.0> ready\noutput <0.0.0> <0.0.0>\nend\n"),
    ];
    for (number, want) in rows {
        let text = text_of(rt.alloc(), &[number])?;
        assert!(rt; text.as_str().ends_with(want), "{text}");
    }
    Ok(())
}

#[test]
fn schedules_in_order(rt: HostRuntime) -> Result<(), Fail> {
    let text = text_of(rt.alloc(), &[])?;
    assert!(rt; text.is_empty());
    let text = text_of(rt.alloc(), &[1, 5])?;
    assert!(rt;
        text.as_str()
            == "schedule b_-9Z\napplied 2\nstate open r0\nprocess <0.0.0> ready\nend\nschedule a\napplied 2\nstate quiet\nprocess <0.0.0> ready\nend\n",
        "{text}"
    );
    Ok(())
}

#[test]
fn sameness_of_reports(rt: HostRuntime) -> Result<(), Fail> {
    let one = report(rt.alloc(), &[1, 5])?;
    assert_eq!(rt; one.as_slice().len(), 2);
    assert!(rt; one.same(&report(rt.alloc(), &[1, 5])?));
    assert!(rt; !one.same(&report(rt.alloc(), &[5, 1])?));
    assert!(rt; !one.same(&report(rt.alloc(), &[1])?));
    Ok(())
}

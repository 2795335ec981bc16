//! Plans and their readings, worked out by hand.

use bx_plan::{Plan, Run as Repeat, Schedule, chains_of, read_choices, read_plan};
use bx_terms::Fault;
use bx_world::Choice;
use bx_world::Choice::{Deliver, Expire, Run};
use std::alloc::Global;
use std::test::Fail;

/// What a plan's text is: how many schedules, or the number of the refusal and its line.
fn outcome(rt: &HostRuntime, text: &[u8]) -> Result<(u8, usize), Fault> {
    match read_plan(rt.alloc(), text) {
        Ok(plan) => Ok((0, plan.len())),
        Err(Fault::BadLine { line }) => Ok((24, line)),
        Err(Fault::NameTwice { line }) => Ok((25, line)),
        Err(Fault::TooLong { line }) => Ok((26, line)),
        Err(fault) => Err(fault),
    }
}

/// Whether the schedule of this number makes these choices.
fn makes(rt: &HostRuntime, plan: &Plan, number: usize, choices: &[Choice]) -> Result<bool, Fault> {
    let Some(schedule) = plan.schedule(rt.alloc(), number) else {
        return Ok(false);
    };
    let schedule = schedule?;
    let made = schedule.to_choices(rt.alloc())?;
    Ok(made.as_slice() == choices && schedule.len() == choices.len())
}

#[test]
fn lines_in_order_with_their_choices(rt: HostRuntime) -> Result<(), Fail> {
    let text = "# \u{e9}\n\na: r0*2 d1>1023 r1023\n#\nb_-9Z: d0>0*1 e7\nc:".as_bytes();
    let plan = read_plan(rt.alloc(), text)?;
    assert_eq!(rt; plan.len(), 3);
    let lines: [(&str, &[Choice]); 3] = [
        ("a", &[Run(0), Run(0), Deliver(1, 1023), Run(1023)]),
        ("b_-9Z", &[Deliver(0, 0), Expire(7)]),
        ("c", &[]),
    ];
    for (number, (name, choices)) in lines.iter().enumerate() {
        assert!(rt; plan.label(number) == Some(*name), "at {number}");
        assert!(rt; makes(&rt, &plan, number, choices)?, "at {number}");
    }
    assert!(rt; plan.label(3).is_none());
    assert!(rt; plan.schedule(rt.alloc(), 3).is_none());
    Ok(())
}

#[test]
fn texts_and_their_outcomes(rt: HostRuntime) -> Result<(), Fail> {
    let name64 = b"aaaaaaaaaaaaaaaaaaaaaaaaaaaaaaaaaaaaaaaaaaaaaaaaaaaaaaaaaaaaaaaa:";
    let name65 = b"aaaaaaaaaaaaaaaaaaaaaaaaaaaaaaaaaaaaaaaaaaaaaaaaaaaaaaaaaaaaaaaaa:";
    let cases: [(&[u8], (u8, usize)); 36] = [
        (b"", (0, 0)),
        (b"\n\n", (0, 0)),
        (b"#a b:c", (0, 0)),
        (b"b:", (0, 1)),
        (b"a:\nb:\n", (0, 2)),
        (b"a: r0\nb: r0", (0, 2)),
        (name64, (0, 1)),
        (name65, (24, 1)),
        (b"a: r0*100000", (0, 1)),
        (b"a r0", (24, 1)),
        (b"a:\na:", (25, 2)),
        (b"a: r0*100001", (24, 1)),
        (b"a: r0*100000 r0", (26, 1)),
        (b"a: r0\na: r0*100001", (24, 2)),
        (b"a: r0\na: r0*100000 r0", (25, 2)),
        (b"a: r0*0", (24, 1)),
        (b"a: r0*01", (24, 1)),
        (b"a: r00", (24, 1)),
        (b"a: r1024", (24, 1)),
        (b"a: d0>1024", (24, 1)),
        (b"a: d1024>0", (24, 1)),
        (b"a: d0", (24, 1)),
        (b"a: d0>1>2", (24, 1)),
        (b"a: r", (24, 1)),
        (b"a: r+1", (24, 1)),
        (b"a: e1024", (24, 1)),
        (b"a: e", (24, 1)),
        (b"a: e0>1", (24, 1)),
        (b"a: r0*1*1", (24, 1)),
        (b"a: ", (24, 1)),
        (b"a:  r0", (24, 1)),
        (b"a: r0 ", (24, 1)),
        (b"a:\tr0", (24, 1)),
        (b"a: r0\r\n", (24, 1)),
        (b"\n #", (24, 2)),
        (b"a:\n#\xff\na:", (24, 2)),
    ];
    for (number, (text, want)) in cases.iter().enumerate() {
        let got = outcome(&rt, text)?;
        assert_eq!(rt; got.0, want.0, "case {number}");
        assert_eq!(rt; got.1, want.1, "case {number}");
    }
    Ok(())
}

#[test]
fn a_million_nodes_and_no_more(rt: HostRuntime) -> Result<(), Fail> {
    let mut text = String::new(rt.alloc());
    for k in 0..10 {
        write!(text, "s{k}: r{k}*100000\n")?;
    }
    for (last, want) in [
        ("t: r0", (0, 11)),
        ("t: r10", (26, 11)),
        ("t: r9*99999 r8", (26, 11)),
        ("", (0, 10)),
        ("t: r10\nbad", (26, 11)),
        ("t: r10\ns0: r1", (26, 11)),
        ("t: r10\nu: r11*100000 r11", (26, 11)),
        ("bad\nt: r10", (24, 11)),
        ("s0: r1\nt: r10", (25, 11)),
        ("u: r9*100000 r9\nt: r10", (26, 11)),
        ("\nu: r9\n#\nt: r10\nv: r11", (26, 14)),
    ] {
        let whole = format!(in rt.alloc(); "{}{last}", text.as_str())?;
        let got = outcome(&rt, whole.as_bytes())?;
        assert_eq!(rt; got.0, want.0, "{last}");
        assert_eq!(rt; got.1, want.1, "{last}");
    }
    Ok(())
}

/// Whether two texts are plans that are the same.
fn same_plans(rt: &HostRuntime, one: &[u8], other: &[u8]) -> Result<bool, Fault> {
    let one = read_plan(rt.alloc(), one)?;
    let other = read_plan(rt.alloc(), other)?;
    Ok(one.same(&other))
}

#[test]
fn plans_are_compared_by_names_and_choices(rt: HostRuntime) -> Result<(), Fail> {
    let rows: [(&[u8], &[u8], bool); 5] = [
        (b"a: r0*2\nb:", b"# again\na: r0 r0\n\nb:\n", true),
        (b"a: r0", b"b: r0", false),
        (b"a: r0", b"a: r0 r0", false),
        (b"a: r0 r0\nb: r0", b"b: r0\na: r0 r0", false),
        (b"a: d0>1", b"a: d1>0", false),
    ];
    for (number, (one, other, same)) in rows.iter().enumerate() {
        assert!(rt; same_plans(&rt, one, other)? == *same, "row {number}");
    }
    Ok(())
}

#[test]
fn neighbours_of_one_choice_are_one_run(rt: HostRuntime) -> Result<(), Fail> {
    let mut schedule = read_choices(rt.alloc(), b"r0*2 r0 r1 r1*3 e0")?.ok_or("refused")?;
    let runs = [(Run(0), 3), (Run(1), 4), (Expire(0), 1)];
    assert_eq!(rt; schedule.len(), 8);
    let mut left = schedule.all();
    for (choice, times) in runs {
        assert!(rt; left.next_run() == Some(Repeat { choice, times }));
    }
    assert!(rt; left.next_run().is_none());
    for (position, choice) in [
        (0, Some(Run(0))),
        (2, Some(Run(0))),
        (3, Some(Run(1))),
        (7, Some(Expire(0))),
        (8, None),
    ] {
        assert!(rt; schedule.get(position) == choice, "at {position}");
    }
    schedule.push(Expire(0), 2)?;
    schedule.push(Run(5), 0)?;
    let choices = schedule.to_choices(rt.alloc())?;
    assert_eq!(rt; choices.len(), 10);
    assert!(rt; Schedule::from_choices(rt.alloc(), &choices)?.same(&schedule));
    let runs = [(Run(0), 2), (Run(0), 1), (Run(1), 4), (Expire(0), 3)];
    let runs = runs.map(|(choice, times)| Repeat { choice, times });
    assert!(rt; Schedule::of(rt.alloc(), &runs)?.same(&schedule));
    assert!(rt; !Schedule::new(rt.alloc()).same(&schedule));
    assert!(rt; read_choices(rt.alloc(), b"r0*0")?.is_none());
    Ok(())
}

/// The schedule of so many entries `r0*100000`.
fn hundred_thousands(alloc: Global, entries: usize) -> Option<Schedule> {
    let mut text = String::from_str(alloc, "r0*100000").ok()?;
    for _more in 1..entries {
        text.push_str(" r0*100000").ok()?;
    }
    read_choices(alloc, text.as_bytes()).ok()?
}

/// How long it is then, and whether process 0 could be run so many times more.
fn lengthened(schedule: &mut Schedule, times: usize) -> (bool, usize) {
    let made = schedule.push(Run(0), times).is_ok();
    (made, schedule.len())
}

/// The most choices that a schedule holds.
const MOST: usize = usize::MAX / 2;

/// What comes of lengthening a schedule of 1,100,000 choices three times.
fn lengths(alloc: Global) -> Option<[(bool, usize); 3]> {
    let mut long = hundred_thousands(alloc, 11)?;
    let first = lengthened(&mut long, 0);
    let second = lengthened(&mut long, MOST - 1_100_000);
    let third = lengthened(&mut long, 1);
    Some([first, second, third])
}

#[test]
fn a_schedule_holds_as_many_choices_as_can_be_counted(rt: HostRuntime) {
    assert_eq!(&rt;
        lengths(rt.alloc()),
        Some([(true, 1_100_000), (true, MOST), (false, MOST)])
    );
}

#[test]
fn a_million_nodes_are_a_thousand_chains(rt: HostRuntime) -> Result<(), Fail> {
    let mut text = String::new(rt.alloc());
    for k in 0..1000 {
        write!(text, "s{k}: r{k}*1000\n")?;
    }
    let plan = read_plan(rt.alloc(), text.as_bytes())?;
    let chains = chains_of(rt.alloc(), &plan)?;
    assert_eq!(rt; chains.len(), 1001);
    assert_eq!(rt; chains.head(1000).past, 1000);
    for (last, want) in [("t: r999*999", (0, 1001)), ("t: r999*1001", (26, 1001))] {
        let whole = format!(in rt.alloc(); "{}{last}", text.as_str())?;
        assert!(rt; outcome(&rt, whole.as_bytes())? == want, "{last}");
    }
    Ok(())
}

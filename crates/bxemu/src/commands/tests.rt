use crate::commands::{Order, command_of};
use bx_engine::Form;
use clap::error::ErrorKind;
use std::alloc::{AllocError, Global};
use std::process::Abort;
use std::test::Fail;

/// The words of a line, parted by spaces.
fn words(alloc: Global, line: &str) -> Result<Vec<String>, AllocError> {
    let mut words = Vec::new(alloc);
    for word in line.split(' ') {
        words.push(String::from_str(alloc, word)?)?;
    }
    Ok(words)
}

/// Asserts that these are the files, parted by spaces.
fn assert_files(rt: &impl Abort, given: &[&str], files: &str) {
    let mut wanted = files.split(' ');
    for file in given {
        assert!(rt; wanted.next() == Some(*file));
    }
    assert!(rt; wanted.next().is_none());
}

/// Asserts what a run has for its start and its plan, and for its files, parted by spaces.
fn assert_run(rt: &impl Abort, order: &Order<'_>, start: &str, plan: &str, files: &str) {
    let Order::Run {
        start: start_given,
        plan: plan_given,
        files: files_given,
        ..
    } = order
    else {
        assert!(rt; false, "another order");
        return;
    };
    assert!(rt; *start_given == start);
    assert!(rt; *plan_given == plan);
    assert_files(rt, files_given, files);
}

#[test]
fn orders_runs(rt: HostRuntime) -> Result<(), Fail> {
    let rows = [
        ("bxemu run --start m:f --plan p a.S", "m:f", "p", "a.S"),
        (
            "bxemu run b.S --plan p a.S --start m:f c.S",
            "m:f",
            "p",
            "b.S a.S c.S",
        ),
        (
            "bxemu run --start=m:f --plan= a.S a.S",
            "m:f",
            "",
            "a.S a.S",
        ),
        ("x run --start run --plan help run", "run", "help", "run"),
        ("bxemu run --start m:f --plan - -", "m:f", "-", "-"),
        (
            "bxemu run --start +4 --plan p -- --plan -x --",
            "+4",
            "p",
            "--plan -x --",
        ),
        ("bxemu run --start  --plan p ", "", "p", ""),
    ];
    for (line, start, plan, files) in rows {
        let words = words(rt.alloc(), line)?;
        let order = command_of(rt.alloc(), words.as_slice())?;
        assert_run(&rt, &order, start, plan, files);
    }
    Ok(())
}

/// Asserts what a campaign has for the number of its workers, and for its files, parted by spaces.
fn assert_campaign(rt: &impl Abort, order: &Order<'_>, workers: u32, files: &str) {
    let Order::Campaign {
        start,
        plan,
        workers: workers_given,
        files: files_given,
        ..
    } = order
    else {
        assert!(rt; false, "another order");
        return;
    };
    assert!(rt; *start == "m:f" && *plan == "p" && *workers_given == workers);
    assert_files(rt, files_given, files);
}

#[test]
fn orders_campaigns(rt: HostRuntime) -> Result<(), Fail> {
    let rows = [
        ("bxemu campaign --start m:f --plan p a.S", 4, "a.S"),
        (
            "bxemu campaign --start m:f --plan p --workers 0 a.S",
            0,
            "a.S",
        ),
        (
            "bxemu campaign --workers=+64 b.S --plan p --start m:f a.S",
            64,
            "b.S a.S",
        ),
        (
            "bxemu campaign --start m:f --plan p --workers 4294967295 -- -x",
            4294967295,
            "-x",
        ),
    ];
    for (line, workers, files) in rows {
        let words = words(rt.alloc(), line)?;
        let order = command_of(rt.alloc(), words.as_slice())?;
        assert_campaign(&rt, &order, workers, files);
    }
    Ok(())
}

/// The form that a line's words order.
fn form_of_line(alloc: Global, line: &str) -> Result<Option<Form>, Fail> {
    let words = words(alloc, line)?;
    match command_of(alloc, words.as_slice())? {
        Order::Run { form, .. } => Ok(Some(form)),
        Order::Campaign { form, .. } => Ok(Some(form)),
        _ => Ok(None),
    }
}

#[test]
fn orders_summaries(rt: HostRuntime) -> Result<(), Fail> {
    let rows = [
        ("run --start m:f --plan p a.S", Form::Report),
        ("run --start m:f --plan p --summary a.S", Form::Summary),
        ("run a.S --plan p --start m:f --summary", Form::Summary),
        ("run --start m:f --plan=--summary a.S", Form::Report),
        ("run --start m:f --plan p -- --summary", Form::Report),
        ("campaign --start m:f --plan p a.S", Form::Report),
        ("campaign --summary a.S --plan p --start m:f", Form::Summary),
    ];
    for (words, form) in rows {
        let line = format!(in rt.alloc(); "bxemu {words}")?;
        assert!(rt;
            form_of_line(rt.alloc(), line.as_str())? == Some(form),
            "{line}"
        );
    }
    Ok(())
}

#[test]
fn orders_tidyings(rt: HostRuntime) -> Result<(), Fail> {
    let words = words(rt.alloc(), "bxemu tidy b.S --plan p --start m:f -- --plan")?;
    let Order::Tidy { start, plan, files } = command_of(rt.alloc(), words.as_slice())? else {
        assert!(rt; false, "another order");
        return Ok(());
    };
    assert!(rt; start == "m:f" && plan == "p");
    assert_files(&rt, &files, "b.S --plan");
    Ok(())
}

/// The schedule that a line's words name, and its files; none where they order no drawing.
fn chart_of<'a>(
    alloc: Global,
    words: &'a [String],
) -> Result<Option<(Option<&'a str>, Vec<&'a str>)>, Fail> {
    match command_of(alloc, words)? {
        Order::Chart {
            schedule,
            files,
            ..
        } => Ok(Some((schedule, files))),
        _ => Ok(None),
    }
}

#[test]
fn orders_drawings(rt: HostRuntime) -> Result<(), Fail> {
    let rows = [
        ("chart --start m:f --plan p --schedule s a.S", Some("s")),
        ("chart a.S --schedule= --plan p --start m:f", Some("")),
        ("chart --plan p --start m:f a.S", None),
    ];
    for (line, schedule) in rows {
        let line = format!(in rt.alloc(); "bxemu {line}")?;
        let words = words(rt.alloc(), line.as_str())?;
        let Some((given, files)) = chart_of(rt.alloc(), words.as_slice())? else {
            assert!(rt; false, "another order");
            return Ok(());
        };
        assert!(rt; given == schedule, "{line}");
        assert_files(&rt, &files, "a.S");
    }
    Ok(())
}

#[test]
fn orders_sessions(rt: HostRuntime) -> Result<(), Fail> {
    let words = words(rt.alloc(), "bxemu debug b.S --start m:f -- --plan")?;
    let Order::Debug { start, files } = command_of(rt.alloc(), words.as_slice())? else {
        assert!(rt; false, "another order");
        return Ok(());
    };
    assert!(rt; start == "m:f");
    assert_files(&rt, &files, "b.S --plan");
    Ok(())
}

/// The kind of the fault that a line's words have, or nothing where they have none.
fn kind_of_line(alloc: Global, line: &str) -> Result<Option<ErrorKind>, Fail> {
    let words = words(alloc, line)?;
    match command_of(alloc, words.as_slice()) {
        Ok(_order) => Ok(None),
        Err(error) => Ok(Some(error.kind())),
    }
}

#[test]
fn refuses_other_words(rt: HostRuntime) -> Result<(), Fail> {
    let rows = [
        ("bxemu", ErrorKind::MissingSubcommand),
        ("bxemu frob a.S", ErrorKind::InvalidSubcommand),
        ("bxemu dis", ErrorKind::MissingRequiredArgument),
        ("bxemu dis a.S b.S", ErrorKind::UnknownArgument),
        ("bxemu dis --plan p a.S", ErrorKind::UnknownArgument),
        ("bxemu debug a.S", ErrorKind::MissingRequiredArgument),
        (
            "bxemu debug --start m:f",
            ErrorKind::MissingRequiredArgument,
        ),
        (
            "bxemu debug --start m:f --plan p a.S",
            ErrorKind::UnknownArgument,
        ),
        ("bxemu -V", ErrorKind::DisplayVersion),
        ("bxemu --version", ErrorKind::DisplayVersion),
        ("bxemu run -V", ErrorKind::UnknownArgument),
        ("bxemu --help", ErrorKind::DisplayHelp),
        ("bxemu run --help", ErrorKind::DisplayHelp),
        ("bxemu help debug", ErrorKind::DisplayHelp),
    ];
    for (line, kind) in rows {
        assert!(rt; kind_of_line(rt.alloc(), line)? == Some(kind), "{line}");
    }
    Ok(())
}

#[test]
fn refuses_other_words_over_plans(rt: HostRuntime) -> Result<(), Fail> {
    let rows = [
        (
            "run --start m:f --plan p",
            ErrorKind::MissingRequiredArgument,
        ),
        ("run --plan p a.S", ErrorKind::MissingRequiredArgument),
        ("run --start m:f a.S", ErrorKind::MissingRequiredArgument),
        (
            "run --start m:f --start m:f --plan p a.S",
            ErrorKind::ArgumentConflict,
        ),
        ("run --start -1 --plan p a.S", ErrorKind::UnknownArgument),
        (
            "run --start m:f --plan p --workers 1 a.S",
            ErrorKind::UnknownArgument,
        ),
        (
            "run --start m:f --plan p --summary --summary a.S",
            ErrorKind::ArgumentConflict,
        ),
        (
            "run --start m:f --plan p --summary=true a.S",
            ErrorKind::TooManyValues,
        ),
        (
            "tidy --start m:f --plan p --summary a.S",
            ErrorKind::UnknownArgument,
        ),
        (
            "chart --start m:f --plan p --schedule a --schedule b a.S",
            ErrorKind::ArgumentConflict,
        ),
        (
            "run --start m:f --plan p --schedule a a.S",
            ErrorKind::UnknownArgument,
        ),
        (
            "campaign --start m:f a.S",
            ErrorKind::MissingRequiredArgument,
        ),
        (
            "campaign --start m:f --plan p --workers 4294967296 a.S",
            ErrorKind::ValueValidation,
        ),
        (
            "campaign --start m:f --plan p --workers four a.S",
            ErrorKind::ValueValidation,
        ),
        (
            "campaign --start m:f --plan p --workers -1 a.S",
            ErrorKind::UnknownArgument,
        ),
        (
            "campaign --start m:f --plan p --workers 1 --workers 1 a.S",
            ErrorKind::ArgumentConflict,
        ),
    ];
    for (words, kind) in rows {
        let line = format!(in rt.alloc(); "bxemu {words}")?;
        assert!(rt;
            kind_of_line(rt.alloc(), line.as_str())? == Some(kind),
            "{line}"
        );
    }
    Ok(())
}

mod desk;
mod orders;

use crate::program::{Task, names_of, run};
use bx_engine::{Form, fault_line};
use std::alloc::Global;
use std::test::Fail;

/// The line of the failure of a run over these files, parted by spaces, or nothing.
fn line_of_run(rt: &HostRuntime, alloc: Global, start: &str, files: &str) -> Result<String, Fail> {
    let files: Vec<&str> = files.split(' ').collect(alloc)?;
    let names = names_of(alloc, files.as_slice(), "/dev/null")?;
    let mut written = Vec::new(alloc);
    let mut report: Vec<u8> = Vec::new(alloc);
    let task = Task {
        start,
        names: names.as_slice(),
    };
    if let Err(failure) = run(rt, Form::Report, task, &mut b"".as_slice(), &mut report) {
        fault_line(&failure, names.as_slice(), &mut written);
    }
    Ok(String::from_utf8(written).ok().ok_or("text")?)
}

#[test]
fn tells_the_first_failure(rt: HostRuntime) -> Result<(), Fail> {
    let rows = [
        (
            "m:f",
            "/dev/null /dev/null",
            "bxemu: R8 BadForm line 1 in /dev/null\n",
        ),
        ("m:f ", "/nowhere/b.S", "bxemu: start\n"),
        (
            "m:f",
            "/dev/null /nowhere/b.S",
            "bxemu: read /nowhere/b.S\n",
        ),
        (
            "m:f",
            "/ /dev/zero /nowhere/c.S",
            "bxemu: read /nowhere/c.S\n",
        ),
        ("m:f", "/ /dev/null", "bxemu: read /\n"),
        ("m:f", "/dev/zero /", "bxemu: R16 TooLarge in /dev/zero\n"),
    ];
    for (start, files, line) in rows {
        let told = line_of_run(&rt, rt.alloc(), start, files)?;
        assert!(rt; told.as_str() == line, "{told}");
    }
    Ok(())
}

//! The files of an order, opened before any of them is read.

use crate::program::memory;
use bx_engine::Failure;
use std::io::Read;
use std::rt::Files;
use std::{fs, io};

/// Where an order's text is read from.
#[derive(Drop)]
pub enum Opened<'i, F, I> {
    File(F),
    /// Standard input, from where a plan is read whose file is `-`.
    Input(&'i mut I),
}

impl<'i, F: Read, I: Read> Read for Opened<'i, F, I> {
    fn read(&mut self, buf: &mut [u8]) -> io::Result<usize> {
        match self {
            Opened::File(file) => file.read(buf),
            Opened::Input(input) => input.read(buf),
        }
    }
}

/// Opens each file, the first that can't be opened being the failure.
pub fn open_all<R>(rt: &R, names: &[String]) -> Result<Vec<R::File>, Failure>
where
    R: Files + AllocGlobal,
{
    let mut opened = Vec::new(rt.alloc());
    for (i, name) in names.iter().enumerate() {
        let Ok(file) = fs::open(rt, name.as_str()) else {
            return Err(Failure::Read(i));
        };
        if opened.push(file).is_err() {
            return Err(memory());
        }
    }
    Ok(opened)
}

/// Opens the listings, and behind them the plan, which is standard input where its file is `-`.
pub fn open_with_plan<'i, R, I>(
    rt: &R,
    names: &[String],
    input: &'i mut I,
) -> Result<Vec<Opened<'i, R::File, I>>, Failure>
where
    R: Files + AllocGlobal,
{
    let Some((plan, listings)) = names.split_last() else {
        return Ok(Vec::new(rt.alloc()));
    };
    let mut opened = Vec::new(rt.alloc());
    for file in open_all(rt, listings)? {
        if opened.push(Opened::File(file)).is_err() {
            return Err(memory());
        }
    }
    let plan = if plan.as_str() == "-" {
        Opened::Input(input)
    } else {
        let Ok(file) = fs::open(rt, plan.as_str()) else {
            return Err(Failure::Read(listings.len()));
        };
        Opened::File(file)
    };
    if opened.push(plan).is_err() {
        return Err(memory());
    }
    Ok(opened)
}

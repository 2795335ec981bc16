//! What the words of a command line order.
ghost use Rattle.std.specs.Prelude.{◌≡◌, ◌≢◌, ◌⊎◌, ℕ, [], Some, IfErr, IfNone, IfOk, IfSome, codes, map, string_bytes};
ghost use Rattle.clap.specs.Words.{found_of, kind_of, rows_of, subcommand_of, subcommand_rows_of};
ghost use Rattle.clap.specs.Faults.{fault_of};
ghost use Rattle.clap.specs.Walk.{Text, all_of, first_of};
ghost use Rattle.bxemu.specs.CommandLines.{Lacks, Orders, OrdersNothing, Spells, form_by, program};

use crate::syntax::program_command;
use bx_engine::Form;
use clap::error::ErrorKind;
use clap::{ArgMatches, Error};
use std::alloc::{AllocError, Global};

/// What a command line orders.
#[derive(Debug, Drop)]
pub enum Order<'a> {
    /// Runs each schedule of a plan, from the start.
    Run {
        /// The function to start with, as `M:F`.
        start: &'a str,
        /// The file of the plan.
        plan: &'a str,
        /// The form of what is written.
        form: Form,
        /// The files of the listings, in order.
        files: Vec<&'a str>,
    },
    /// Runs each schedule of a plan by several workers.
    Campaign {
        /// The function to start with, as `M:F`.
        start: &'a str,
        /// The file of the plan.
        plan: &'a str,
        /// How many workers there are.
        workers: u32,
        /// The form of what is written.
        form: Form,
        /// The files of the listings, in order.
        files: Vec<&'a str>,
    },
    /// Tidies each schedule of a plan.
    Tidy {
        /// The function to start with, as `M:F`.
        start: &'a str,
        /// The file of the plan.
        plan: &'a str,
        /// The files of the listings, in order.
        files: Vec<&'a str>,
    },
    /// Draws a schedule of a plan.
    Chart {
        /// The function to start with, as `M:F`.
        start: &'a str,
        /// The file of the plan.
        plan: &'a str,
        /// The name of the schedule, where one is named.
        schedule: Option<&'a str>,
        /// The files of the listings, in order.
        files: Vec<&'a str>,
    },
    /// Opens a session, and does what lines of standard input say.
    Debug {
        /// The function to start with, as `M:F`.
        start: &'a str,
        /// The files of the listings, in order.
        files: Vec<&'a str>,
    },
    /// Writes the code form of a listing.
    Dis {
        /// The file of the listing.
        file: &'a str,
    },
}

/// What the words of a command line order, the program's name first.
///
/// An error has a text for the user: a usage fault, or the help that was asked for. Its kind is
/// `OutOfMemory` where memory ran out.
pub fn command_of<'a>(alloc: Global, words: &'a [String]) -> Result<Order<'a>, Error>
    ensures fault { IfOk result (λ _. fault_of program (map string_bytes words.entry.now) ≡ []) }
    ensures ok { IfOk result (Orders (subcommand_of program (map string_bytes words.entry.now))) }
    ensures err { IfErr result (OrdersNothing (map string_bytes words.entry.now)) }
{
    let matches = program_command(alloc)?.try_get_matches_from(words)?;
    order_of(alloc, &matches)
}

/// The order that the subcommand of a parse stands for.
fn order_of<'a>(alloc: Global, matches: &ArgMatches<'a>) -> Result<Order<'a>, Error>
    ensures ok { IfOk result (Orders (subcommand_rows_of matches.now)) }
    ensures err { IfErr result (Lacks (subcommand_rows_of matches.now)) }
{
    let Some((name, values)) = matches.subcommand() else {
        return Err(incomplete(alloc));
    };
    match name {
        "run" => run_order(alloc, values),
        "campaign" => campaign_order(alloc, values),
        "tidy" => tidy_order(alloc, values),
        "chart" => chart_order(alloc, values),
        "debug" => debug_order(alloc, values),
        "dis" => dis_order(alloc, values),
        _ => Err(incomplete(alloc)),
    }
}

/// What all orders over listings name.
#[derive(Drop)]
struct Listings<'a> {
    /// The function to start with, as `M:F`.
    start: &'a str,
    /// The files of the listings, in order.
    files: Vec<&'a str>,
}

/// The start and the listings, by the values of a subcommand.
fn listings_of<'a>(alloc: Global, values: &ArgMatches<'a>) -> Result<Listings<'a>, Error>
    ensures ok { IfOk result (λ it. (first_of (codes "start") (rows_of (found_of values.now)) ≡ Some it.start.now)
        × (all_of (codes "FILES") (rows_of (found_of values.now)) ≡ Some (map (λ file. file.now) it.files.items))) }
    ensures err { IfErr result (λ e. (name : Text) → name ≢ codes "dis" → Lacks (Some (name, rows_of (found_of values.now))) e) }
{
    let Some(start) = values.get_str("start") else {
        return Err(incomplete(alloc));
    };
    let Some(files) = values.get_raw("FILES") else {
        return Err(incomplete(alloc));
    };
    let files = Vec::from_slice(alloc, files)?;
    Ok(Listings { start, files })
}

/// The plan, by the values of a subcommand that takes one.
fn plan_of<'a>(alloc: Global, values: &ArgMatches<'a>) -> Result<&'a str, Error>
    ensures ok { IfOk result (λ plan. first_of (codes "plan") (rows_of (found_of values.now)) ≡ Some plan.now) }
    ensures err { IfErr result (λ e. (name : Text) → name ≢ codes "dis" → name ≢ codes "debug" → Lacks (Some (name, rows_of (found_of values.now))) e) }
{
    match values.get_str("plan") {
        Some(plan) => Ok(plan),
        None => Err(incomplete(alloc)),
    }
}

/// The order to run, by the values of `run`.
fn run_order<'a>(alloc: Global, values: &ArgMatches<'a>) -> Result<Order<'a>, Error>
    ensures ok { IfOk result (Orders (Some (codes "run", rows_of (found_of values.now)))) }
    ensures err { IfErr result (Lacks (Some (codes "run", rows_of (found_of values.now)))) }
{
    let plan = plan_of(alloc, values)?;
    let form = form_of(values);
    let Listings { start, files } = listings_of(alloc, values)?;
    Ok(Order::Run {
        start,
        plan,
        form,
        files,
    })
}

/// The order of a campaign, by the values of `campaign`.
fn campaign_order<'a>(alloc: Global, values: &ArgMatches<'a>) -> Result<Order<'a>, Error>
    ensures ok { IfOk result (Orders (Some (codes "campaign", rows_of (found_of values.now)))) }
    ensures err { IfErr result (Lacks (Some (codes "campaign", rows_of (found_of values.now)))) }
{
    let plan = plan_of(alloc, values)?;
    let workers = workers_of(alloc, values)?;
    let form = form_of(values);
    let Listings { start, files } = listings_of(alloc, values)?;
    Ok(Order::Campaign {
        start,
        plan,
        workers,
        form,
        files,
    })
}

/// The form that the values of `run` or `campaign` ask for.
fn form_of(values: &ArgMatches<'_>) -> Form
    ensures { result ≡ form_by (first_of (codes "summary") (rows_of (found_of values.now))) }
{
    match values.get_str("summary") {
        Some(value) if value == "true" => Form::Summary,
        _ => Form::Report,
    }
}

/// The number of workers, by the values of `campaign`.
fn workers_of(alloc: Global, values: &ArgMatches<'_>) -> Result<u32, Error>
    ensures ok { IfOk result (λ n. (text : Text) × (first_of (codes "workers") (rows_of (found_of values.now)) ≡ Some text) × Spells text n) }
    ensures err { IfErr result (Lacks (Some (codes "campaign", rows_of (found_of values.now)))) }
{
    let Some(text) = values.get_str("workers") else {
        return Err(incomplete(alloc));
    };
    match number_of(text) {
        Some(workers) => Ok(workers),
        None => Err(incomplete(alloc)),
    }
}

/// The number of 32 bits that a text spells.
fn number_of(text: &str) -> Option<u32>
    ensures some { IfSome result (Spells text.now) }
    ensures none { IfNone result ((n : ℕ) → Spells text.now n → ⊥) }
{
    let Ok(number) = text.parse::<i64>() else {
        return None;
    };
    match u32::try_from(number) {
        Ok(workers) => Some(workers),
        Err(_) => None,
    }
}

/// The order to tidy, by the values of `tidy`.
fn tidy_order<'a>(alloc: Global, values: &ArgMatches<'a>) -> Result<Order<'a>, Error>
    ensures ok { IfOk result (Orders (Some (codes "tidy", rows_of (found_of values.now)))) }
    ensures err { IfErr result (Lacks (Some (codes "tidy", rows_of (found_of values.now)))) }
{
    let plan = plan_of(alloc, values)?;
    let Listings { start, files } = listings_of(alloc, values)?;
    Ok(Order::Tidy { start, plan, files })
}

/// The order to draw, by the values of `chart`.
fn chart_order<'a>(alloc: Global, values: &ArgMatches<'a>) -> Result<Order<'a>, Error>
    ensures ok { IfOk result (Orders (Some (codes "chart", rows_of (found_of values.now)))) }
    ensures err { IfErr result (Lacks (Some (codes "chart", rows_of (found_of values.now)))) }
{
    let plan = plan_of(alloc, values)?;
    let schedule = values.get_str("schedule");
    let Listings { start, files } = listings_of(alloc, values)?;
    Ok(Order::Chart {
        start,
        plan,
        schedule,
        files,
    })
}

/// The order to open a session, by the values of `debug`.
fn debug_order<'a>(alloc: Global, values: &ArgMatches<'a>) -> Result<Order<'a>, Error>
    ensures ok { IfOk result (Orders (Some (codes "debug", rows_of (found_of values.now)))) }
    ensures err { IfErr result (Lacks (Some (codes "debug", rows_of (found_of values.now)))) }
{
    let Listings { start, files } = listings_of(alloc, values)?;
    Ok(Order::Debug { start, files })
}

/// The order to write a code form, by the values of `dis`.
fn dis_order<'a>(alloc: Global, values: &ArgMatches<'a>) -> Result<Order<'a>, Error>
    ensures ok { IfOk result (Orders (Some (codes "dis", rows_of (found_of values.now)))) }
    ensures err { IfErr result (Lacks (Some (codes "dis", rows_of (found_of values.now)))) }
{
    match values.get_str("FILE") {
        Some(file) => Ok(Order::Dis { file }),
        None => Err(incomplete(alloc)),
    }
}

/// The fault of a command line that lacks a part.
fn incomplete(alloc: Global) -> Error
    ensures { (kind_of result ≡ ErrorKind.MissingSubcommand) ⊎
        (kind_of result ≡ ErrorKind.OutOfMemory) }
{
    match incomplete_error(alloc) {
        Ok(error) => error,
        Err(error) => Error::from(error),
    }
}

/// The same with the program's usage, unless memory ran out.
fn incomplete_error(alloc: Global) -> Result<Error, AllocError>
    ensures { IfOk result (λ e. kind_of e ≡ ErrorKind.MissingSubcommand) }
{
    program_command(alloc)?.error(
        ErrorKind::MissingSubcommand,
        "the command line lacks a part",
    )
}

#[cfg(test)]
mod tests;

//! The program's subcommands and options, with the texts of its help.
ghost use Rattle.std.specs.Prelude.{◌≡◌, IfOk, codes, false};
ghost use Rattle.clap.specs.Words.{app_of, rule_of};
ghost use Rattle.clap.specs.declared.builder.command.Command.TheViews.{out-Command as fields_of};
ghost use Rattle.bxemu.specs.CommandLines.{campaign_command, chart_command, debug_command, dis_command, file_rule, files_rule, option_rule, over_plan, plan_program, program, run_command, running_program, schedule_rule, summary_rule, tidy_command, workers_rule};

use bx_debugger::SESSION_HELP;
use clap::{Arg, ArgAction, Command};
use std::alloc::{AllocError, Global};

/// The program's version, as `--version` tells it.
const VERSION: &str = "1.0.0";

/// The program with its subcommands.
pub fn program_command<'a>(alloc: Global) -> Result<Command<'a>, AllocError>
    ensures app { IfOk result (λ c. app_of c ≡ program) }
{
    plan_program(alloc)?
        .subcommand(debug_subcommand(alloc)?)?
        .subcommand(dis_subcommand(alloc)?)
}

/// The program with the subcommands that take a plan.
fn plan_program<'a>(alloc: Global) -> Result<Command<'a>, AllocError>
    ensures app { IfOk result (λ c. app_of c ≡ plan_program) }
{
    running_program(alloc)?
        .subcommand(tidy_subcommand(alloc)?)?
        .subcommand(chart_subcommand(alloc)?)
}

/// The program with the subcommands that run the schedules of a plan.
fn running_program<'a>(alloc: Global) -> Result<Command<'a>, AllocError>
    ensures app { IfOk result (λ c. app_of c ≡ running_program) }
{
    Command::new(alloc, "bxemu")
        .about("Runs Erlang assembly listings under given schedules")
        .version(VERSION)
        .subcommand_required(true)
        .subcommand(run_subcommand(alloc)?)?
        .subcommand(campaign_subcommand(alloc)?)
}

/// A subcommand that runs the schedules of a plan, with its start and the plan.
fn over_plan<'a>(alloc: Global, name: &'a str) -> Result<Command<'a>, AllocError>
    ensures app { IfOk result (λ c. app_of c ≡ over_plan name.now) }
    ensures local { IfOk result (λ c. (fields_of c).has_globals ≡ false) }
{
    Command::new(alloc, name)
        .arg(start_option(alloc))?
        .arg(plan_option(alloc))
}

/// `run`, with its options and files.
fn run_subcommand<'a>(alloc: Global) -> Result<Command<'a>, AllocError>
    ensures app { IfOk result (λ c. app_of c ≡ run_command) }
    ensures local { IfOk result (λ c. (fields_of c).has_globals ≡ false) }
{
    over_plan(alloc, "run")?
        .about("Runs each schedule of a plan and prints the report")
        .arg(summary_option(alloc))?
        .arg(files_argument(alloc))
}

/// `campaign`, with its options and files.
fn campaign_subcommand<'a>(alloc: Global) -> Result<Command<'a>, AllocError>
    ensures app { IfOk result (λ c. app_of c ≡ campaign_command) }
    ensures local { IfOk result (λ c. (fields_of c).has_globals ≡ false) }
{
    over_plan(alloc, "campaign")?
        .about("Runs each schedule of a plan by several workers and prints the same report")
        .arg(workers_option(alloc))?
        .arg(summary_option(alloc))?
        .arg(files_argument(alloc))
}

/// `tidy`, with its options and files.
fn tidy_subcommand<'a>(alloc: Global) -> Result<Command<'a>, AllocError>
    ensures app { IfOk result (λ c. app_of c ≡ tidy_command) }
    ensures local { IfOk result (λ c. (fields_of c).has_globals ≡ false) }
{
    over_plan(alloc, "tidy")?
        .about(
            "Exchanges independent choices of each schedule of a plan, so that those of one process stand together, and prints the plan",
        )
        .arg(files_argument(alloc))
}

/// `chart`, with its options and files.
fn chart_subcommand<'a>(alloc: Global) -> Result<Command<'a>, AllocError>
    ensures app { IfOk result (λ c. app_of c ≡ chart_command) }
    ensures local { IfOk result (λ c. (fields_of c).has_globals ≡ false) }
{
    over_plan(alloc, "chart")?
        .about("Draws who sent what to whom in a schedule of a plan, and when it arrived, as SVG")
        .arg(schedule_option(alloc))?
        .arg(files_argument(alloc))
}

/// `debug`, with its option and files.
fn debug_subcommand<'a>(alloc: Global) -> Result<Command<'a>, AllocError>
    ensures app { IfOk result (λ c. app_of c ≡ debug_command) }
    ensures local { IfOk result (λ c. (fields_of c).has_globals ≡ false) }
{
    Command::new(alloc, "debug")
        .about(
            "Opens a session: each line of standard input is a command that steps, moves or shows",
        )
        .after_help(SESSION_HELP)
        .arg(start_option(alloc))?
        .arg(files_argument(alloc))
}

/// `dis`, with its file.
fn dis_subcommand<'a>(alloc: Global) -> Result<Command<'a>, AllocError>
    ensures app { IfOk result (λ c. app_of c ≡ dis_command) }
    ensures local { IfOk result (λ c. (fields_of c).has_globals ≡ false) }
{
    Command::new(alloc, "dis")
        .about("Reads a listing, numbers its code and prints what the numbers spell")
        .arg(file_argument(alloc))
}

/// `--start M:F`.
fn start_option<'a>(alloc: Global) -> Arg<'a>
    ensures rule { rule_of result ≡ option_rule (codes "start") }
    ensures local { result.global ≡ false }
{
    Arg::new(alloc, "start")
        .long("start")
        .value_name("M:F")
        .help("The function to start with, of no arguments")
        .action(ArgAction::Set)
        .required(true)
}

/// `--plan FILE`.
fn plan_option<'a>(alloc: Global) -> Arg<'a>
    ensures rule { rule_of result ≡ option_rule (codes "plan") }
    ensures local { result.global ≡ false }
{
    Arg::new(alloc, "plan")
        .long("plan")
        .value_name("FILE")
        .help("The schedules to run; - is standard input")
        .action(ArgAction::Set)
        .required(true)
}

/// `--workers N`.
fn workers_option<'a>(alloc: Global) -> Arg<'a>
    ensures rule { rule_of result ≡ workers_rule }
    ensures local { result.global ≡ false }
{
    Arg::new(alloc, "workers")
        .long("workers")
        .value_name("N")
        .help("How many workers share the schedules, from 1 to 64")
        .action(ArgAction::Set)
        .value_parser(clap::value_parser!(u32))
        .default_value("4")
}

/// `--summary`.
fn summary_option<'a>(alloc: Global) -> Arg<'a>
    ensures rule { rule_of result ≡ summary_rule }
    ensures local { result.global ≡ false }
{
    Arg::new(alloc, "summary")
        .long("summary")
        .help(
            "Prints each distinct outcome once, with how many schedules have it, in place of the reports",
        )
        .action(ArgAction::SetTrue)
}

/// `--schedule NAME`.
fn schedule_option<'a>(alloc: Global) -> Arg<'a>
    ensures rule { rule_of result ≡ schedule_rule }
    ensures local { result.global ≡ false }
{
    Arg::new(alloc, "schedule")
        .long("schedule")
        .value_name("NAME")
        .help("The schedule to draw, where the plan has several")
        .action(ArgAction::Set)
}

/// The files of the listings.
fn files_argument<'a>(alloc: Global) -> Arg<'a>
    ensures rule { rule_of result ≡ files_rule }
    ensures local { result.global ≡ false }
{
    Arg::new(alloc, "FILES")
        .help("The assembly listings to load, in order")
        .action(ArgAction::Append)
        .required(true)
}

/// The file of the listing.
fn file_argument<'a>(alloc: Global) -> Arg<'a>
    ensures rule { rule_of result ≡ file_rule }
    ensures local { result.global ≡ false }
{
    Arg::new(alloc, "FILE")
        .help("The assembly listing to read")
        .action(ArgAction::Set)
        .required(true)
}

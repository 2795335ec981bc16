//! `help`: the commands.

ghost use Rattle.std.specs.Prelude.{◌≡◌, ◌++◌, OnOk, string_bytes};
ghost use Rattle.bx_debugger.specs.Help.{help_answer};

use std::alloc::AllocError;

/// The commands, a line each, behind a heading.
macro_rules! commands {
    ($heading:literal) => {
        concat!($heading, "  step C       Makes a choice: r0 runs process 0, d0>1 delivers the first signal from 0 to 1, e0 ends the wait of 0
  back N       Goes back over N choices
  forward N    Goes forward over N choices
  go C C ..    Makes choices in order, up to the first that stops it; C*N makes C N times
  until P      Runs process P up to before it next sends, asks for something, times out or sets a flag, or to its wait or end
  run P        Runs process P until it has sent or asked for something, or to its wait or end
  swap K       Exchanges choices K and K+1 where they are independent
  tidy         Puts the choices of one process together, as far as they are independent
  undo K       Takes back choice K and all that depend on it; forward makes them again
  break M:I    Lets go stop behind a run that leaves its process at item I of module M
  break M:F/A  Lets go stop where a call of that function begins
  clear M:I    Removes that breakpoint; M:F/A names one too
  show         Shows the outcome of the choices so far
  where        Shows for each process where it goes on, and the item there
  look P       Shows all that process P holds
  signals      Shows the signals that wait
  open         Shows the choices that are enabled, each with what it would meet
  list M:F/A   Shows the items of a function
  trace N      Shows the last N choices, each with what it met
  plan NAME    Shows the choices so far as a line of a plan
  help         Shows these lines
  quit         Ends the session")
    };
}

/// The commands, a line each.
const COMMANDS: &str = commands!("");

/// What the program's help says of the lines of a session.
pub const SESSION_HELP: &str = commands!("Commands, each a line of standard input:\n");

/// Adds the answer to `help`: the commands, and `end`.
pub(crate) fn push_help(out: &mut String) -> Result<(), AllocError>
    ensures { OnOk result (string_bytes out.new ≡ string_bytes out.old ++ help_answer) }
{
    out.push_str(COMMANDS)?;
    out.push_str("\nend\n")
}

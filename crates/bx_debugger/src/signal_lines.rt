//! `signals`: the signals that wait.

ghost use Rattle.std.specs.Prelude.{◌≡◌, ◌++◌, OnOk, codes, string_bytes};
ghost use Rattle.bx_terms.specs.Printed.{printed};
ghost use Rattle.bx_world.specs.Enabled.{delivery};
ghost use Rattle.bx_world.specs.Texts.{spelling};
ghost use Rattle.bx_debugger.specs.Signals.{channel_lines, signal_lines, signal_words, signals_answer};

use crate::words::push_term;
use bx_signals::{Channels, Signal};
use bx_terms::{Atoms, Term};
use std::alloc::{AllocError, Global};

/// Adds a word, and a term behind it.
fn push_behind(
    alloc: Global,
    out: &mut String,
    atoms: &Atoms,
    word: &str,
    term: &Term,
) -> Result<(), AllocError>
    ensures { OnOk result (string_bytes out.new
        ≡ string_bytes out.old ++ (word.now ++ printed atoms.now term.now)) }
{
    out.push_str(word)?;
    push_term(alloc, out, atoms, term)
}

/// Adds what kind of signal it is, and its term.
pub(crate) fn push_signal(
    alloc: Global,
    out: &mut String,
    atoms: &Atoms,
    signal: &Signal,
) -> Result<(), AllocError>
    ensures { OnOk result
        (string_bytes out.new ≡ string_bytes out.old ++ signal_words atoms.now signal.now) }
{
    match signal {
        Signal::Message(term) => push_behind(alloc, out, atoms, "message ", term),
        Signal::Link => out.push_str("link"),
        Signal::Unlink => out.push_str("unlink"),
        Signal::LinkExit(reason) => push_behind(alloc, out, atoms, "exit ", reason),
        Signal::Exit(reason) => push_behind(alloc, out, atoms, "exit/2 ", reason),
    }
}

fn push_signal_line(
    alloc: Global,
    out: &mut String,
    atoms: &Atoms,
    pair: (u32, u32),
    signal: &Signal,
) -> Result<(), AllocError>
    ensures { OnOk result (string_bytes out.new ≡ string_bytes out.old
        ++ (spelling (delivery pair) ++ codes " " ++ signal_words atoms.now signal.now ++ codes "\n")) }
{
    let (from, to) = pair;
    write!(out, "d{from}>{to} ")?;
    push_signal(alloc, out, atoms, signal)?;
    out.push_str("\n")
}

fn push_signal_lines(
    alloc: Global,
    out: &mut String,
    atoms: &Atoms,
    pair: (u32, u32),
    signals: &[Signal],
) -> Result<(), AllocError>
    ensures { OnOk result
        (string_bytes out.new ≡ string_bytes out.old ++ signal_lines atoms.now pair signals.now) }
{
    for signal in signals {
        push_signal_line(alloc, out, atoms, pair, signal)?;
    }
    Ok(())
}

fn push_channels(
    alloc: Global,
    out: &mut String,
    atoms: &Atoms,
    channels: &Channels,
    pairs: &[(u32, u32)],
) -> Result<(), AllocError>
    ensures { OnOk result (string_bytes out.new
        ≡ string_bytes out.old ++ channel_lines atoms.now channels.now pairs.now) }
{
    for pair in pairs {
        let signals = channels.waiting(alloc, pair.0, pair.1)?;
        push_signal_lines(alloc, out, atoms, *pair, &signals)?;
    }
    Ok(())
}

/// Adds the answer to `signals`: a line for each signal, channel by channel, and `end`.
pub(crate) fn push_signals(
    alloc: Global,
    out: &mut String,
    atoms: &Atoms,
    channels: &Channels,
) -> Result<(), AllocError>
    ensures { OnOk result
        (string_bytes out.new ≡ string_bytes out.old ++ signals_answer atoms.now channels.now) }
{
    let pairs = channels.pairs(alloc)?;
    push_channels(alloc, out, atoms, channels, &pairs)?;
    out.push_str("end\n")
}

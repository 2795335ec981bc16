//! What ends a run before it is done, with its line on standard error and its status.

ghost use Rattle.std.specs.Prelude.{◌≡◌, ◌++◌, ◌<◌, ◌≤◌, IfOk, OnOk, codes, decimal, length, map, option_map, string_bytes, take, take_while};
ghost use Rattle.std.specs.Io.KnownBytes.{Appends};
ghost use Rattle.bx_engine.specs.FaultLines.{counted, detail_of, is_plain, line_of, name_at, named, raw_text, refusal_text, status_of, text_of, unread_text};
ghost use Rattle.bx_terms.specs.Refusals.{refusal};
ghost use Rattle.bx_engine.specs.Units.{fault_in};

use bx_terms::Fault;
use itoa::Buffer;
use std::alloc::AllocError;
use std::io;
use std::io::Write;

/// Why a run of the program was not done.
///
/// A file goes by its number from 0: the listings in the order given, and then the plan.
#[derive(Debug, Drop)]
pub enum Failure {
    /// An input was refused, or memory ran out; the file is the one at fault, where there is one.
    Refused(Fault, Option<usize>),
    /// A file could not be opened or read.
    Read(usize),
    /// What was to be printed could not be written.
    Write,
    /// The start is no `M:F` of two atoms.
    Start,
}

impl From<AllocError> for Failure {
    ghost use Rattle.std.specs.Prelude.{◌≡◌, None};
    ghost use Rattle.bx_terms.specs.declared.faults.Fault.TheVariants.{Memory};
    ghost use Rattle.bx_engine.specs.declared.failures.Failure.TheVariants.{Refused};

    ghost from_gives = { λ _ failure. failure ≡ Refused Memory None };

    fn from(_: AllocError) -> Failure {
        Failure::Refused(Fault::Memory, None)
    }
}

impl Failure {
    /// The fault of the file of that number; out of memory is no file's fault.
    pub(crate) fn in_file(fault: Fault, file: usize) -> Failure
        ensures { result ≡ fault_in file fault }
    {
        match fault {
            Fault::Memory => Failure::Refused(Fault::Memory, None),
            fault => Failure::Refused(fault, Some(file)),
        }
    }

    /// The status that the program ends with: 1 for a refused input, 2 for a bad start, 3 for out of
    /// memory, 4 for a file or a stream.
    fn status(&self) -> u8
        ensures status { result ≡ status_of self.now }
        ensures few { (1 ≤ result) × (result ≤ 4) }
    {
        match self {
            Failure::Refused(fault, _) => match title(fault) {
                Some(_) => 1,
                None => 3,
            },
            Failure::Read(_) | Failure::Write => 4,
            Failure::Start => 2,
        }
    }
}

/// Writes a failure's line to standard error, and gives the status that the program ends with.
///
/// `names` are the files' names as the user gave them, in the order by which a failure numbers them.
/// The status, 1 to 4, is the same where the line can't be written.
pub fn fault_line<W: Write>(failure: &Failure, names: &[String], writer: &mut W) -> u8
    ensures status { result ≡ status_of failure.now }
    ensures few { (1 ≤ result) × (result ≤ 4) }
{
    let _ = write_failure(failure, names, writer);
    failure.status()
}

/// Writes the whole line of a failure.
fn write_failure<W: Write>(failure: &Failure, names: &[String], writer: &mut W) -> io::Result<()>
    ensures { OnOk result (Appends (W.contents writer.old) (W.contents writer.new)
        (line_of failure.now (map string_bytes names.now))) }
{
    write_text(failure, names, writer)?;
    writer.write_all(b"\n")
}

/// Writes the line of a failure but for its end.
fn write_text<W: Write>(failure: &Failure, names: &[String], writer: &mut W) -> io::Result<()>
    ensures { OnOk result (Appends (W.contents writer.old) (W.contents writer.new)
        (text_of failure.now (map string_bytes names.now))) }
{
    match failure {
        Failure::Refused(fault, file) => write_refusal(fault, file_name(*file, names), writer),
        Failure::Read(file) => write_unread(file_name(Some(*file), names), writer),
        Failure::Write => writer.write_all(b"bxemu: write"),
        Failure::Start => writer.write_all(b"bxemu: start"),
    }
}

/// Writes what is said of a refused input, or where memory ran out.
fn write_refusal<W: Write>(fault: &Fault, file: Option<&str>, writer: &mut W) -> io::Result<()>
    ensures { OnOk result (Appends (W.contents writer.old) (W.contents writer.new)
        (refusal_text fault.now (option_map (λ name. name.now) file.entry))) }
{
    let Some((number, name)) = title(fault) else {
        return writer.write_all(b"bxemu: memory");
    };
    write_title(number, name, writer)?;
    write_detail(fault, writer)?;
    write_name(" in ", file, writer)
}

/// Writes what is said of a file that can't be read.
fn write_unread<W: Write>(file: Option<&str>, writer: &mut W) -> io::Result<()>
    ensures { OnOk result (Appends (W.contents writer.old) (W.contents writer.new)
        (unread_text (option_map (λ name. name.now) file.entry))) }
{
    writer.write_all(b"bxemu: read")?;
    write_name(" ", file, writer)
}

/// The refusal's number and name, or `None` for out of memory.
#[tactic(auto, using(crate::proofs::LineLemmas::title_is, crate::proofs::LineLemmas::untitled))]
fn title(fault: &Fault) -> Option<(u8, &'static str)>
    ensures { option_map (λ t. (t.0, t.1.now)) result ≡ refusal fault.now }
{
    let number = fault.number()?;
    Some((number, fault.name()))
}

/// Writes a refusal's number and name.
fn write_title<W: Write>(number: u8, name: &str, writer: &mut W) -> io::Result<()>
    ensures { OnOk result (Appends (W.contents writer.old) (W.contents writer.new)
        (codes "bxemu: R" ++ decimal number ++ codes " " ++ name.now)) }
{
    write_counted("bxemu: R", usize::from(number), writer)?;
    writer.write_all(b" ")?;
    writer.write_all(name.as_bytes())
}

/// Writes where a refusal stands, or what it is about.
fn write_detail<W: Write>(fault: &Fault, writer: &mut W) -> io::Result<()>
    ensures { OnOk result (Appends (W.contents writer.old) (W.contents writer.new)
        (detail_of fault.now)) }
{
    match fault {
        Fault::TooManyAtoms { line } | Fault::AtomTooLong { line } => match line {
            Some(line) => write_counted(" line ", *line, writer),
            None => Ok(()),
        },
        Fault::BadToken { line }
        | Fault::BadTerm { line }
        | Fault::TooDeep { line }
        | Fault::Truncated { line }
        | Fault::NotUtf8 { line }
        | Fault::BadForm { line }
        | Fault::BadOperand { line }
        | Fault::LiteralRange { line }
        | Fault::RegisterRange { line }
        | Fault::BadLine { line }
        | Fault::NameTwice { line }
        | Fault::TooLong { line }
        | Fault::BadCommand { line } => write_counted(" line ", *line, writer),
        Fault::Unsupported { line, name } => {
            write_counted(" line ", *line, writer)?;
            writer.write_all(b" ")?;
            write_raw(name.as_str().as_bytes(), writer)
        }
        Fault::LabelTwice { label } | Fault::LabelMissing { label } => {
            write_counted(" ", *label as usize, writer)
        }
        Fault::EntryMissing { function } => write_counted(" ", *function, writer),
        Fault::NotIndependent { position } => write_counted(" ", *position, writer),
        Fault::TooLarge
        | Fault::ModuleTwice
        | Fault::ExportMissing
        | Fault::TooManyModules
        | Fault::NotEnabled
        | Fault::Halted
        | Fault::BeforeStart
        | Fault::AfterEnd
        | Fault::NotLeased
        | Fault::Foreign
        | Fault::Twice
        | Fault::Unfinished
        | Fault::NoEntry
        | Fault::Workers
        | Fault::Memory => Ok(()),
    }
}

/// The name of the file of that number, where there is one.
fn file_name(file: Option<usize>, names: &[String]) -> Option<&str>
    ensures { option_map (λ name. name.now) result ≡ name_at file (map string_bytes names.now) }
{
    Some(names.get(file?)?.as_str())
}

/// Writes a file's name behind `before`, and nothing where there is none.
fn write_name<W: Write>(before: &str, name: Option<&str>, writer: &mut W) -> io::Result<()>
    ensures { OnOk result (Appends (W.contents writer.old) (W.contents writer.new)
        (named before.now (option_map (λ text. text.now) name.entry))) }
{
    let Some(name) = name else {
        return Ok(());
    };
    writer.write_all(before.as_bytes())?;
    writer.write_all(name.as_bytes())
}

/// Writes a number behind `before`.
fn write_counted<W: Write>(before: &str, n: usize, writer: &mut W) -> io::Result<()>
    ensures { OnOk result (Appends (W.contents writer.old) (W.contents writer.new)
        (counted before.now n)) }
{
    let mut number = Buffer::new();
    writer.write_all(before.as_bytes())?;
    writer.write_all(number.format(n).as_bytes())
}

/// Writes a name with its control codes spelled.
fn write_raw<W: Write>(name: &[u8], writer: &mut W) -> io::Result<()>
    ensures { OnOk result (Appends (W.contents writer.old) (W.contents writer.new)
        (raw_text name.now)) }
{
    let mut done = 0;
    while done < name.len() {
        done += write_part(&name[done..], writer)?;
    }
    Ok(())
}

/// Writes the control code that a name begins with, spelled, or else all that stands before one,
/// and gives the number of bytes written so.
fn write_part<W: Write>(name: &[u8], writer: &mut W) -> io::Result<usize>
    requires { 0 < length name.now }
    ensures part { IfOk result (λ n. Appends (W.contents writer.old) (W.contents writer.new)
        (raw_text (take n name.now))) }
    ensures within { IfOk result (λ n. (0 < n) × (n ≤ length name.now)) }
{
    let plain = plain_length(name);
    if plain > 0 {
        writer.write_all(&name[..plain])?;
        return Ok(plain);
    }
    let code = name[0];
    write!(writer, "\\x{{{code:x}}}")?;
    Ok(1)
}

/// How many bytes stand before the first control code.
fn plain_length(name: &[u8]) -> usize
    ensures { result ≡ length (take_while is_plain name.now) }
{
    name.iter().take_while(|code| is_plain_code(**code)).count()
}

/// Whether a code shows as itself, and doesn't break a line.
fn is_plain_code(code: u8) -> bool
    ensures { result ≡ is_plain code }
{
    code >= 32 && code != 127
}

//! A program: loaded code, and where its items stand in their sources.

ghost use Rattle.std.specs.Prelude.{◌≡◌, ◌++◌, OnOk, option_map, string_bytes};
ghost use Rattle.bx_debugger.specs.Program.{file_text, located_text, location_words, name_character};

use bx_engine::Sources;
use bx_load::Image;
use bx_terms::Place;
use std::alloc::{AllocError, Global};
use std::marker::Model;

/// Loaded code, and where its items stand in their sources.
#[derive(Drop)]
pub(crate) struct Program<'a> {
    image: &'a Image,
    sources: &'a Sources,
}

impl<'a> Model for Program<'a> {
    ghost use Rattle.bx_load.specs.contracts.image.Image as images;
    ghost use Rattle.bx_debugger.specs.Program.{Program as Known, program_code};

    ghost Value = { Known };

    ghost coded = { program_code images.the_row.coded };

    ghost view = { λ p. record { image = p.image.now; sources = p.sources.now } };
}

impl<'a> Program<'a> {
    pub(crate) fn new(image: &'a Image, sources: &'a Sources) -> Program<'a>
        ensures { result ≡ record { image = image.entry.now; sources = sources.entry.now } }
    {
        Program { image, sources }
    }

    /// The loaded code.
    pub(crate) fn image(&self) -> &'a Image
        ensures { result.now ≡ self.now.image }
    {
        self.image
    }

    /// Adds an address, as `break` names it, and where in its source it stands.
    pub(crate) fn push_place(
        &self,
        alloc: Global,
        out: &mut String,
        place: Place,
    ) -> Result<(), AllocError>
        ensures { OnOk result
            (string_bytes out.new ≡ string_bytes out.old ++ located_text self.now place) }
    {
        let Ok(name) = self.image.place_name(alloc, place) else {
            return Err(AllocError);
        };
        out.push_str(name.as_str())?;
        push_location(alloc, out, self.sources.at(place))
    }
}

/// Adds the name of a file and a line in it, where there is one.
fn push_location(
    alloc: Global,
    out: &mut String,
    location: Option<(&str, u32)>,
) -> Result<(), AllocError>
    ensures { OnOk result (string_bytes out.new ≡ string_bytes out.old
        ++ location_words (option_map (λ l. (l.0.now, l.1)) location.entry)) }
{
    let Some((file, line)) = location else {
        return Ok(());
    };
    out.push_str(" ")?;
    push_file(alloc, out, file)?;
    write!(out, ":{line}")
}

/// Adds the name of a file, its control codes spelled.
#[tactic(auto, using(std::proofs::lemmas::Str::chars_from_encodes))]
fn push_file(alloc: Global, out: &mut String, file: &str) -> Result<(), AllocError>
    ensures { OnOk result (string_bytes out.new ≡ string_bytes out.old ++ file_text file.now) }
{
    for c in file.chars() {
        push_character(alloc, out, c)?;
    }
    Ok(())
}

fn push_character(alloc: Global, out: &mut String, c: char) -> Result<(), AllocError>
    ensures { OnOk result (string_bytes out.new ≡ string_bytes out.old ++ name_character c) }
{
    let code = c as u32;
    if code >= 32 && code != 127 {
        return out.push(c);
    }
    let spelled = format!(in alloc; "\\x{{{code:x}}}")?;
    out.push_str(spelled.as_str())
}

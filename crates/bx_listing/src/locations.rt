//! Where the items of a listing stand in its sources.

ghost use Rattle.std.specs.Prelude.{◌≡◌, ◌<◌, ◌^◌, ◌++◌, ◌∷◌, [], Some, None, length, map, option_map, option_and_then, slice_get, string_bytes, IfOk, OnOk, OnErr};
ghost use Rattle.bx_text.specs.View.{elements_seen};
ghost use Rattle.bx_listing.specs.Locations.{spelled, string, character, line_number, location, first_location, said_by, passed, Located};
ghost use Rattle.bx_listing.specs.Reading.{Begins};
ghost use Rattle.bx_listing.specs.Seen.{seen};

use crate::shapes::{Shape, list_elements, number, shape_of};
use crate::words::{FormWord, form_word};
use bx_text::{Elements, Node};
use std::alloc::{AllocError, Global};
use std::marker::Model;

/// A line of a file, by the file's number.
#[derive(Clone, Copy, Debug)]
struct Mark {
    file: u32,
    line: u32,
}

/// The places in files that are named, by number from 0. A file's name is kept once for all places in a row that are in it.
#[derive(Debug, Drop)]
struct Places {
    files: Vec<String>,
    marks: Vec<Mark>,
}

impl Model for Places {
    ghost use Rattle.std.specs.Prelude.{List, map, string_bytes};
    ghost use Rattle.bx_listing.specs.Locations.{Location};
    ghost use Rattle.bx_listing.specs.Marks.{marked, AreMarks};

    ghost Value = { List Location };

    ghost view = { λ p. map (marked (map string_bytes p.files.items)) p.marks.items };

    ghost invariant = { λ p. AreMarks (map string_bytes p.files.items) p.marks.items };
}

impl Places {
    ghost use Rattle.bx_listing.specs.Marks.{place};

    fn new(alloc: Global) -> Places
        ensures { result ≡ [] }
    {
        Places {
            files: Vec::new(alloc),
            marks: Vec::new(alloc),
        }
    }

    /// Adds a line of the file of that name; how many places there are then.
    fn add(&mut self, file: String, line: u32) -> Result<u32, AllocError>
        ensures added { OnOk result (self.new ≡ self.old ++ (string_bytes file, line) ∷ []) }
        ensures count { IfOk result (λ count. count ≡ length self.new) }
        ensures kept { OnErr result (self.new ≡ self.old) }
    {
        let count = self.marks.len();
        if count >= u32::MAX as usize || self.files.len() >= u32::MAX as usize {
            return Err(AllocError);
        }
        let file = number_of(&mut self.files, file)?;
        self.marks.push(Mark { file, line })?;
        Ok(count as u32 + 1)
    }

    /// The place of that number, from 1: the name of a file, and a line in it.
    fn get(&self, number: u32) -> Option<(&str, u32)>
        ensures { option_map (λ l. (l.0.now, l.1)) result ≡ place self.now number }
    {
        let at = (number as usize).checked_sub(1)?;
        let mark = self.marks.get(at)?;
        let file = self.files.get(mark.file as usize)?;
        Some((file.as_str(), mark.line))
    }
}

/// The number of a file of that name: the last one, where that has it, or one more.
fn number_of(files: &mut Vec<String>, file: String) -> Result<u32, AllocError>
    requires { length files.old.items < 2 ^ 32 }
    ensures named { IfOk result (λ n. slice_get (map string_bytes files.new.items) n ≡ Some (string_bytes file)) }
    ensures kept { Begins (map string_bytes files.old.items) (map string_bytes files.new.items) }
{
    let count = files.len();
    if count > 0 && files[count - 1] == file {
        return Ok((count - 1) as u32);
    }
    files.push(file)?;
    Ok(count as u32)
}

/// Where the items of a listing stand in its sources, as its lines say.
///
/// It takes four bytes an item, eight a line that names a place, and the name of a file once for all such lines in a row.
#[derive(Debug, Drop)]
pub struct Locations {
    places: Places,
    items: Vec<u32>,
    here: u32,
}

impl Model for Locations {
    ghost use Rattle.std.specs.Prelude.{map};
    ghost use Rattle.std.specs.List.{All};
    ghost use Rattle.bx_listing.specs.Locations.{Located, located_code};
    ghost use Rattle.bx_listing.specs.Marks.{place, IsPlace};

    ghost Value = { Located };

    ghost coded = { located_code };

    ghost view = { λ l. record
        { items = map (place l.places) l.items.items; here = place l.places l.here } };

    ghost invariant = { λ l. All (IsPlace l.places) l.items.items × IsPlace l.places l.here };
}

impl Locations {
    /// Of no items.
    pub fn new(alloc: Global) -> Locations
        ensures { result ≡ record { items = []; here = None } }
    {
        Locations {
            places: Places::new(alloc),
            items: Vec::new(alloc),
            here: 0,
        }
    }

    /// The name of the file and the line in it from which the item of that number comes, items being numbered from 0 through
    /// all functions; `None` where none is said, and past the last.
    pub fn at(&self, item: usize) -> Option<(&str, u32)>
        ensures { option_map (λ l. (l.0.now, l.1)) result ≡ option_and_then (λ l. l)
            (slice_get self.now.items item) }
    {
        let number = self.items.get(item)?;
        self.places.get(*number)
    }

    /// Passes over one form more.
    pub(crate) fn pass(&mut self, alloc: Global, form: Shape) -> Result<(), AllocError>
        ensures { OnOk result (self.new ≡ passed self.old (seen form.entry)) }
    {
        let Shape::Tagged(text, parts) = form else {
            return self.add_item();
        };
        match form_word(text) {
            FormWord::Function => self.move_to(None),
            FormWord::Annotation => Ok(()),
            FormWord::Named if text == "line" => {
                let place = said_by(alloc, parts)?;
                self.move_to(place)?;
                self.add_item()
            }
            _ => self.add_item(),
        }
    }

    /// The items that follow stand at that place.
    fn move_to(&mut self, place: Option<(String, u32)>) -> Result<(), AllocError>
        ensures { OnOk result (self.new ≡ record self.old {
          here = option_map (λ l. (string_bytes l.0, l.1)) place;
        }) }
    {
        self.here = match place {
            Some((file, line)) => self.places.add(file, line)?,
            None => 0,
        };
        Ok(())
    }

    /// An item more, at the place where items stand.
    fn add_item(&mut self) -> Result<(), AllocError>
        ensures { OnOk result (self.new ≡ record self.old { items = self.old.items ++ self.old.here ∷ [] }) }
    {
        self.items.push(self.here)?;
        Ok(())
    }

    /// Gives back what memory it has in reserve.
    pub(crate) fn fitted(mut self) -> Locations
        ensures { result ≡ self }
    {
        self.items.shrink_to_fit();
        self.places.marks.shrink_to_fit();
        self
    }
}

/// The character whose code a term is.
fn character(node: &Node) -> Option<char>
    ensures { result ≡ character node.now }
{
    char::from_u32(number(node)?)
}

/// The text of the characters whose codes these are; `None` where one is no character.
fn spelled(alloc: Global, nodes: Elements) -> Result<Option<String>, AllocError>
    ensures { IfOk result (λ text. option_map string_bytes text ≡ spelled (elements_seen nodes.entry)) }
{
    let mut text = String::new(alloc);
    for i in 0..nodes.len() {
        match character(nodes.at(i).node()) {
            Some(character) => text.push(character)?,
            None => return Ok(None),
        }
    }
    Ok(Some(text))
}

fn string(alloc: Global, node: &Node) -> Result<Option<String>, AllocError>
    ensures { IfOk result (λ text. option_map string_bytes text ≡ string node.now) }
{
    match list_elements(node) {
        Some(list) => spelled(alloc, list),
        None => Ok(None),
    }
}

fn line_number(node: &Node) -> Option<u32>
    ensures { result ≡ line_number node.now }
{
    match number(node)? {
        0 => None,
        line => Some(line),
    }
}

/// The name and the line of `{location,STRING,N}`.
fn location(alloc: Global, node: &Node) -> Result<Option<(String, u32)>, AllocError>
    ensures { IfOk result (λ place. option_map (λ l. (string_bytes l.0, l.1)) place ≡ location
        node.now) }
{
    let Shape::Tagged("location", [name, line]) = shape_of(node) else {
        return Ok(None);
    };
    let Some(line) = line_number(line) else {
        return Ok(None);
    };
    match string(alloc, name)? {
        Some(name) => Ok(Some((name, line))),
        None => Ok(None),
    }
}

/// The first of them that is a place.
fn first_location(alloc: Global, nodes: Elements) -> Result<Option<(String, u32)>, AllocError>
    ensures { IfOk result (λ place. option_map (λ l. (string_bytes l.0, l.1)) place ≡ first_location
        (elements_seen nodes.entry)) }
{
    for i in 0..nodes.len() {
        match location(alloc, nodes.at(i).node())? {
            Some(place) => return Ok(Some(place)),
            None => {}
        }
    }
    Ok(None)
}

/// What a `line` says of where items stand.
fn said_by(alloc: Global, parts: &[Node]) -> Result<Option<(String, u32)>, AllocError>
    ensures { IfOk result (λ place. option_map (λ l. (string_bytes l.0, l.1)) place ≡ said_by
        parts.now) }
{
    let [operand] = parts else {
        return Ok(None);
    };
    match list_elements(operand) {
        Some(list) => first_location(alloc, list),
        None => Ok(None),
    }
}

//! A place in a text, from which terms are read one after another.

ghost use Rattle.std.specs.Prelude.{◌+◌, ◌^◌, ◌<◌, length};

/// A place in a text: what follows, where that begins, and in which line.
#[derive(Clone, Copy, Debug)]
pub struct Reader<'a> {
    /// The bytes from the place on.
    pub rest: &'a [u8],
    /// How many bytes of the text stand before the place.
    pub at: usize,
    /// The line of the place, from 1.
    pub line: usize,
    ghost places_fit: { at + length rest.now < 2 ^ 64 },
    ghost lines_fit: { line + length rest.now < 2 ^ 64 },
}

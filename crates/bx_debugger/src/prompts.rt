//! What asks for lines.

/// What is called before the reader of commands is asked for more.
pub trait Prompt {
    /// Called with how many choices lead to where the session stands, and how many there are.
    fn ask(&self, at: usize, len: usize);
}

/// A prompt that does nothing.
#[derive(Clone, Copy, Debug, PartialEq, Eq)]
pub struct NoPrompt;

impl Prompt for NoPrompt {
    fn ask(&self, _at: usize, _len: usize) {}
}

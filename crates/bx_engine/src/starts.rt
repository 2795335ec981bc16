//! The start of a run, as the command line writes it.
ghost use Rattle.std.specs.Prelude.{◌≡◌, ◌↔◌, ◌≤◌, IfErr, IfOk, IsSome, IsTrue, OnErr, Some, length, option_map, slice_get, string_bytes};
ghost use Rattle.bx_engine.specs.Starts.{IsNoStart, start_in, token_in};

use crate::failures::Failure;
use bx_terms::Fault;
use bx_text::atom_at;
use std::alloc::{AllocError, Global};
use std::marker::Model;

/// The module and the function that a run starts with.
#[derive(Debug, Drop)]
pub struct Start {
    module: String,
    function: String,
}

impl Model for Start {
    ghost use Rattle.std.specs.Prelude.{ℕ, List, string_bytes};

    ghost Value = { List ℕ × List ℕ };

    ghost view = { λ a. (string_bytes a.module, string_bytes a.function) };
}

impl Start {
    /// The module's name.
    pub fn module(&self) -> &str
        ensures { result.now ≡ self.now.0 }
    {
        self.module.as_str()
    }

    /// The function's name.
    pub fn function(&self) -> &str
        ensures { result.now ≡ self.now.1 }
    {
        self.function.as_str()
    }

    /// Whether both name the same function of the same module.
    pub fn same(&self, other: &Start) -> bool
        ensures { IsTrue result ↔ (self.now ≡ other.now) }
    {
        self.module() == other.module() && self.function() == other.function()
    }
}

/// The start that `M:F` names, each one atom's token, bare or quoted, with nothing around them.
///
/// `Failure::Start` where the text is no such thing; memory may run out once an atom begins the text.
pub fn start_of(alloc: Global, text: &str) -> Result<Start, Failure>
    ensures ok { IfOk result (λ start. start_in text.now ≡ Some start) }
    ensures err { IfErr result (IsNoStart text.now) }
{
    let bytes = text.as_bytes();
    let Some((module, colon)) = token_at(alloc, bytes, 0)? else {
        return Err(Failure::Start);
    };
    if code_at(bytes, colon) != Some(b':') {
        return Err(Failure::Start);
    }
    let Some((function, end)) = token_at(alloc, bytes, colon + 1)? else {
        return Err(Failure::Start);
    };
    if end != bytes.len() {
        return Err(Failure::Start);
    }
    Ok(Start { module, function })
}

/// The atom whose token begins at a place of a text, and the place behind it; `None` where no good
/// token of an atom does.
pub fn token_at(
    alloc: Global,
    text: &[u8],
    at: usize,
) -> Result<Option<(String, usize)>, AllocError>
    requires { at ≤ length text.now }
    ensures ok { IfOk result (λ token.
        option_map (λ t. (string_bytes t.0, t.1)) token ≡ token_in text.now at) }
    ensures err { OnErr result (IsSome (token_in text.now at)) }
{
    match atom_at(alloc, text, at) {
        Ok(token) => Ok(token),
        Err(Fault::Memory) => Err(AllocError),
        Err(_) => Ok(None),
    }
}

/// The code at a place of a text, where one is.
fn code_at(text: &[u8], at: usize) -> Option<u8>
    ensures { result ≡ slice_get text.now at }
{
    text.get(at).copied()
}

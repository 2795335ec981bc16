//! Texts made of pieces. They promise nothing, so that each test is proved beside few clauses.

use std::alloc::{AllocError, Global};

/// These pieces, one behind another.
pub fn joined(alloc: Global, pieces: &[&str]) -> Result<String, AllocError> {
    let mut text = String::new(alloc);
    for piece in pieces {
        text.push_str(*piece)?;
    }
    Ok(text)
}

/// A number between two pieces.
pub fn numbered(
    alloc: Global,
    before: &str,
    number: u32,
    behind: &str,
) -> Result<String, AllocError> {
    format!(in alloc; "{before}{number}{behind}")
}

//! Erlang's term texts: tokens, terms and their full stops, read from bytes.
#![tactic(auto)]

mod binaries;
mod blanks;
mod brackets;
mod bytes;
mod escapes;
mod follows;
mod forms;
mod kept;
mod kinds;
pub mod laws;
mod letters;
mod lexemes;
mod lexing;
mod moves;
mod node;
mod numbers;
mod pairs;
mod passing;
mod printing;
mod quotes;
mod reader;
mod spellings;
mod strings;
mod terms;
mod tokens;
mod wanted;
mod word;
mod words;

pub use forms::{atom_at, next_term};
pub use letters::Letters;
pub use node::{Element, Elements, Node, Sort, Span, View};
pub use printing::print_node;
pub use reader::Reader;
pub use word::Word;

//! Reads a unit's program from its tokens. Which tokens are a program, and which one, is said in
//! `specs/Grammar`, by cases on trees that keep every token.
#![tactic(auto)]

mod brackets;
mod functions;
mod globals;
mod laws;
mod params;
mod parser;
mod parts;
mod text;
mod units;

pub use laws::{one_program, one_program_of_text, open_brackets_are_few, parsed_is_written};
pub use parser::parse;
pub use text::parse_text;

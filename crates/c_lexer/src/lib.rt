//! Cuts the text of a unit into tokens, or refuses it at its first fault. What the tokens of a text
//! are is said in `specs/`, by cases on the bytes.
#![tactic(auto)]

pub mod bytes;
mod directive;
pub mod keyword;
mod lexer;
mod piece;
pub mod punctuator;
mod words;

pub use c_grammar::{Token, Word};
pub use keyword::keywords_have_numbers;
pub use lexer::{lex, lexed_or_refused, one_refusal, one_token_list};
pub use punctuator::punctuators_have_numbers;

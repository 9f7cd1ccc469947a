//! Which texts, tokens and programs belong together: what `specs/` says stands above programs alone, and
//! lexer, parser and typing stand on it. The types here are those in which it is said.
#![tactic(auto)]

mod piece;
mod right;
mod token;

pub use piece::{Fault, Piece, Place};
pub use right::{Call, Right};
pub use token::{Token, Word};

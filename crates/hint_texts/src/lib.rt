//! Hints texts: what a text says of a program's functions and loops, as a list of items. Which text
//! is which list stands in `specs/Texts`.
#![tactic(auto)]

mod fact;
pub mod fault;
mod formula;
mod front;
pub mod hints;
mod items;
mod lexer;
mod read;
mod statement;
pub mod token;

pub use fault::Fault;
pub use hints::{Clause, ClauseKind, Head, Item, Quantified, Statement};
pub use read::{one_list_of_items, read_items};
pub use token::{Closing, Kind, Piece, Token};

//! Reads expressions from tokens. Which tokens are an expression is said in `specs/Expressions`, by
//! cases on trees that keep every token.
#![tactic(auto)]

pub mod expressions;
pub mod front;
pub mod parse_error;
pub mod pointer;
pub mod right;

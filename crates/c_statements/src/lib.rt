//! Reads the statements of a function's body from tokens. Which tokens are statements, and what they
//! become, is said in `specs/Statements`, by cases on trees that keep every token.
#![tactic(auto)]

pub mod pick;
pub mod scope;
pub mod simple;
pub mod statements;

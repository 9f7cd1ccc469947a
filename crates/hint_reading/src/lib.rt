//! Reads the hints of a program: what a text says of its functions and loops, where all of it may stand.
#![tactic(auto)]

mod clauses;
mod demands;
mod parts;
mod read;
mod subjects;

pub use read::{one_meaning, read_hints};

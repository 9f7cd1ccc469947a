//! What has to hold at the start of a program.
#![tactic(auto)]

mod arrays;
mod elements;
mod initial;
mod numbers;

pub use initial::initial_condition;

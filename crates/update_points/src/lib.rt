//! The points of a program at which it may be updated.
#![tactic(auto)]

mod gathering;
mod numbers;
mod points;

pub use points::{Points, list_points};

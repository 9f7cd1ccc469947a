//! The sorts of the names in conditions.
#![tactic(auto)]

mod kinds;
mod sorts;

pub use sorts::Sorts;

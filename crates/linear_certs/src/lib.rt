//! Elimination of the atoms of rows, one after the other (the method of Fourier and Motzkin):
//! either multipliers with which the rows add up to a constant that is false, or numbers that
//! satisfy them. The stages of the elimination and the point are defined in `specs/` over unbounded
//! numbers.
#![tactic(auto)]

mod answer;
mod closing;
mod divisor;
mod elimination;
mod entry;
mod given;
mod leaf;
mod limit;
mod mix;
mod pair;
mod point;
mod stage;

pub use answer::{are_given, far_sizes, refute, refuted_rows};
pub use entry::Entry;
pub use leaf::Leaf;

//! What hints say of a program: the contracts of functions and the invariants of loops.
#![tactic(auto)]

mod adding;
mod assigned;
mod clauses;
mod copy;
mod facts;
mod hints;
mod loops;

pub use clauses::Allowed;
pub use facts::Facts;
pub use hints::{Contract, Hints, LoopInvariants};

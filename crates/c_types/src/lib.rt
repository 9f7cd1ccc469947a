//! Which programs are typed, and what their names stand for. `check` gives a typed program with its
//! names resolved, or the first refusal.
#![tactic(auto)]

pub mod beside;
pub mod calls;
mod clients;
pub mod declarations;
pub mod endings;
pub mod expressions;
pub mod functions;
pub mod laws;
pub mod means;
pub mod programs;
pub mod resolving;
pub mod scope;
pub mod simple;
pub mod statements;
pub mod symbols;
pub mod typed;

pub use means::Means;
pub use scope::{Block, Scope};
pub use symbols::Symbols;
pub use typed::{Typed, check};

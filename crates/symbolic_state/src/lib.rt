//! What stands round a condition while a body is gone through from the front: what its names stand for, and what is
//! given. Each condition is finished in time linear in its size.
#![tactic(auto)]

mod bindings;
mod gathered;
pub mod laws;
mod pairs;
mod state;
mod step;
mod writing;

pub use state::SymbolicState;
pub use step::Step;

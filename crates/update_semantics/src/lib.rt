//! Runs of an old program, or of a client of it, that is updated to a new one once at most.
//!
//! A `World` has both programs, what the update takes, and the client, where there is one. `UpdMachine` makes a run's steps: it is the
//! machine of `plain_run` over names that stand for cells and functions of either version. `Meanings`
//! says what each name stands for.
#![tactic(auto)]

mod cells;
mod declared;
mod environment;
mod linked;
mod machine;
mod meanings;
mod state;
mod world;

pub use linked::{Function, Linked, Provenance};
pub use machine::UpdMachine;
pub use meanings::Meanings;
pub use world::World;

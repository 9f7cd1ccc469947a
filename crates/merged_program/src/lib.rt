//! The one program that two versions and a transformer are merged into, as it is defined: the bodies
//! of both versions and of the transformer under names of their own, a wrapper for each function that
//! the versions share, and a flag that says whether the update has happened.
#![tactic(auto)]

mod expansions;
mod expressions;
mod functions;
mod globals;
mod names;
mod program;
mod statements;

pub use program::merged_program;

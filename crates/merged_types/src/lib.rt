//! The law that the merged program of a world is typed, and is the resolved form of its own plain
//! form.
#![tactic(auto)]

mod laws;

pub use laws::merged_is_typed;

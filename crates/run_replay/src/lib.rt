//! Whole runs: the events of a number of steps, and how the run stands then.
#![tactic(auto)]

pub mod plain;
pub mod replay;
mod stepping;
mod steps;
pub mod updated;

pub use plain::replay_plain;
pub use replay::{Close, Replay};
pub use updated::replay_updated;

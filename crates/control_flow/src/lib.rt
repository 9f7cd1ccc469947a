//! The bodies of functions as graphs of what follows each statement.
#![tactic(auto)]

mod adding;
mod build;
mod counts;
mod graph;
mod node;

pub use build::control_flow;
pub use graph::Graph;
pub use node::Node;

//! The bodies of functions with what their conditions need: the invariants of loops, and fresh names.
#![tactic(auto)]

mod annotated;
mod annotating;
mod context;
mod place;
mod sets;

pub use annotated::Annotated;
pub use annotating::annotated_body;
pub use context::Context;

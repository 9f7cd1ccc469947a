//! Which programs are clients of two versions, and of which kind. `check_client` gives a typed client, or
//! the first refusal.
#![tactic(auto)]

mod client;
mod clients;
mod functions;
mod kind;
mod region;
mod spelled_expressions;
mod spelled_statements;
mod visible;

pub use client::{Client, check_client};
pub use kind::ClientKind;

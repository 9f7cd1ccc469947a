//! The conditions of a program: what has to hold so that no run of it has a fault.
#![tactic(auto)]

mod edge;
mod function;
mod function_context;
mod goals;
mod made;
mod program;
mod statements;
mod steps;
mod walk;

//! Runs of programs, statement by statement: the steps of every machine of the language (`Run`, over an
//! `Environment`), and the machine of programs that know no update.
//!
//! A step is in two halves: `action` finds what the next statement asks for and only reads, and `run`
//! does it. What can fail for want of memory comes before the first write.
#![tactic(auto)]

mod action;
mod answers;
mod arrays;
mod call;
mod environment;
mod eval;
mod frame;
mod indexed;
mod initial;
mod machine;
mod names;
mod plain;
mod run;
mod stack;
mod step;
mod value;

pub use answers::Answers;
pub use arrays::{Arrays, initial_arrays, set_element};
pub use environment::{Callee, Decision, Definition, Environment, Look};
pub use machine::Machine;
pub use plain::Plain;
pub use run::Run;
pub use step::{RunError, Step};
pub use value::Value;

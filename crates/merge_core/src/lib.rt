//! The merge of two versions of a program and a transformer into one ordinary program.
#![tactic(auto)]

mod merging;

pub use merging::merge;

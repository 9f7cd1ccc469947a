//! The conditions under which no run of a program has a fault: their list, which is defined from the last statement
//! to the first.
#![tactic(auto)]

pub mod laws;

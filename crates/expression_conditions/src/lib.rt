//! What an expression stands for in formulas, which conditions it owes, and which functions a call through a
//! pointer may reach.
#![tactic(auto)]

mod meaning;
mod owed;
mod values;

pub use meaning::{Meaning, form, val};
pub use owed::{Given, Goal, Owed, own, own_all, own_element};
pub use values::value_functions;

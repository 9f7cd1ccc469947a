//! Differences of integers with bounds: a cycle of rows that no integers satisfy, or integers that
//! satisfy every row. What satisfies a row, and which cycles refute rows, stands in `specs/Rows`.
#![tactic(auto)]

mod answer;
mod distances;
mod row;
mod walk;

pub use answer::{DiffLeaf, cycle_refutes, refute_diff};
pub use row::{DiffRow, are_inside};

//! Rows, which are linear inequalities and equations with whole coefficients, and their exact sums.
//! What a row says at a point, and what a sum of rows is, stands in `specs/` over unbounded numbers.
#![tactic(auto)]

mod laws;
mod number;
mod row;
mod sum;

pub use laws::{combination_refutes, sum_has_coefficients, sum_is_in_form, sum_is_true};
pub use row::{Row, RowFail};
pub use sum::add_times;

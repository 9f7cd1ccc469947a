//! Certificates of sequents: which rules apply, what they add, and whether a certificate checks.
#![tactic(auto)]

mod atoms;
mod branch;
mod check;
mod child;
mod close;
mod combination;
mod divide;
mod exchange;
mod exchanged;
mod find;
mod laws;
mod made;
mod open;
mod part;
mod places;
mod range;
mod round;
mod row;
mod rules;
mod run;
mod start;
mod step;
mod sum;
mod truth;

pub use atoms::{Atoms, row_of};
pub use check::check_cert;
pub use child::children;
pub use laws::{checked_is_valid, numbered_row_is_true, row_is_true, rule_is_sound, rules_follow};
pub use start::opening;

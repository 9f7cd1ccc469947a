//! The text of a merged program.
#![tactic(auto)]

mod declarations;
mod expressions;
mod program;
mod statements;
mod text;
mod typed;

pub use program::{print_program, program_text};
pub use typed::{height_is_kept, print};

//! Tables of names: a look-up takes the same time however many names there are.
#![tactic(auto)]

mod names;
mod table;

pub use names::{Numbered, ProgramNames};
pub use table::NameTable;

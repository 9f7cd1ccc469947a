//! Laws of merged programs: what a merged program shows is what the updating run shows.
#![tactic(auto)]

mod laws;

pub use laws::merged_program_shows_the_same;

//! Laws of the texts of merged programs: how high they are, where their statements stand, and that
//! they can be printed.
#![tactic(auto)]

mod laws;

pub use laws::{
    merged_programs_can_be_printed, printed_is_no_higher, transformer_positions_can_be_printed,
};

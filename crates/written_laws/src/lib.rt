//! Laws of programs that are written in a unit: what follows from the grammar and the tokens alone.
#![tactic(auto)]

mod laws;

pub use laws::{
    breaks_stand_in_loops, literals_are_ints, names_are_words, no_name_begins_with_a_dollar,
    positions_can_be_printed, reserved_names_are_allowed, results_go_to_locals,
    results_go_to_no_globals, typed_breaks_stand_in_loops, typed_literals_are_ints,
    typed_positions_can_be_printed, typed_results_go_to_no_globals,
};

//! Programs that are typed and in resolved form, and that resolution gives them.
#![tactic(auto)]

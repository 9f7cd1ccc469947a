//! Laws of conditions: what conditions in front of a statement say of the state that it makes, where they are true.
#![tactic(auto)]

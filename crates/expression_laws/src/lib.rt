//! Laws of expressions: a typed expression whose conditions are true has a value of its kind, and the formulas
//! made of it are worth that value.
#![tactic(auto)]

//! Which programs are state transformers of two versions. `check_xform` gives a typed transformer that
//! sets what changed, or the first refusal.
#![tactic(auto)]

mod always;
mod covering;
mod elements;
mod functions;
mod names;
mod transformers;
mod visible;
mod xform;

pub use xform::{Xform, check_xform};

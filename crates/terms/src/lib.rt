//! Formulas over whole numbers and arrays: their truth, the names in them, and what they become
//! where a name is replaced.
#![tactic(auto)]

pub mod build;
pub mod changes;
mod copy;
mod evaluate;
pub mod fact;
pub mod form;
pub mod laws;
mod names;
pub mod node;
pub mod part;
mod replace;
mod same;
pub mod sequent;
mod size;
pub mod sym;
pub mod valuation;
pub mod view;

pub use changes::Changes;
pub use evaluate::holds_at;
pub use fact::Fact;
pub use form::{ArrayTerm, Form, Term};
pub use names::{free, free_in_fact, free_in_sequent};
pub use node::{Node, NodeKind};
pub use part::{ArrayRef, FormRef, TermRef};
pub use replace::{
    subst, subst_all, subst_fact, subst_fact_all, subst_fact_row, subst_row, subst_term_all,
};
pub use sequent::{Label, Sequent, Sort, What};
pub use sym::Sym;
pub use valuation::Valuation;
pub use view::{ArrayView, FormView, TermView};

//! What is still to be put of a text.

ghost use Rattle.std.specs.Prelude.{◌≡◌, ◌++◌, ◌+◌, OnOk};
ghost use Rattle.formula_texts.specs.Code.Writing as spec;

use std::alloc::AllocError;
use terms::{ArrayRef, FormRef, TermRef};

/// A text as it stands, or a formula; a `TermPart` and a `FormPart` stand in brackets where they
/// are compound.
#[derive(Drop)]
pub enum Pending<'a> {
    Text(&'a [u8]),
    Term(TermRef<'a>),
    TermPart(TermRef<'a>),
    Array(ArrayRef<'a>),
    Form(FormRef<'a>),
    FormPart(FormRef<'a>),
}

/// Puts it on the stack.
#[tactic(auto, using(crate::proofs::StackLaws::top_text, crate::proofs::StackLaws::top_weight))]
pub fn push<'a>(stack: &mut Vec<Pending<'a>>, item: Pending<'a>) -> Result<(), AllocError>
    ensures text { OnOk result (spec.stack_text stack.new.items ≡ spec.pending_text item.entry ++ spec.stack_text stack.old.items) }
    ensures weight { OnOk result (spec.weights stack.new.items ≡ spec.weight item.entry + spec.weights stack.old.items) }
{
    Ok(stack.push(item)?)
}

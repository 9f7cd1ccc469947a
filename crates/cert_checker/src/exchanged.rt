//! A term exchanged for another one, wherever it stands in a form.

ghost use Rattle.std.specs.Prelude.{◌≡◌, ◌<◌, ◌∷◌, reverse, IfOk, OnOk};
ghost use Rattle.cert_checker.specs.declared.part.Part.TheVariants as part;
ghost use Rattle.cert_checker.specs.Places.{exchanged_form};
ghost use Rattle.cert_checker.specs.Code.Exchanging.{exchanged_after, parts_work};

use crate::part::{Part, take_array, take_form, take_term};
use std::alloc::{AllocError, Global};
use terms::build::{put_copies, put_operator};
use terms::{Form, Node, TermRef};

fn exchange_term<'a>(
    alloc: Global,
    from: &TermRef<'_>,
    to: &TermRef<'_>,
    term: TermRef<'a>,
    parts: &mut Vec<Part<'a>>,
    out: &mut Vec<Node>,
) -> Result<(), AllocError>
    ensures made { OnOk result
        (exchanged_after from.now to.now (reverse parts.new.items) out.new.items
        ≡ exchanged_after from.now to.now (part.Term term.entry ∷ reverse parts.old.items) out.old.items) }
    ensures less { OnOk result
        (parts_work (reverse parts.new.items) < parts_work (part.Term term.entry ∷ reverse parts.old.items)) }
{
    if from.nodes() == term.nodes() {
        return put_copies(alloc, out, to.nodes());
    }
    take_term(alloc, term, parts, out)
}

fn exchange_part<'a>(
    alloc: Global,
    from: &TermRef<'_>,
    to: &TermRef<'_>,
    next: Part<'a>,
    parts: &mut Vec<Part<'a>>,
    out: &mut Vec<Node>,
) -> Result<(), AllocError>
    ensures made { OnOk result
        (exchanged_after from.now to.now (reverse parts.new.items) out.new.items
        ≡ exchanged_after from.now to.now (next.entry ∷ reverse parts.old.items) out.old.items) }
    ensures less { OnOk result
        (parts_work (reverse parts.new.items) < parts_work (next.entry ∷ reverse parts.old.items)) }
{
    match next {
        Part::Term(term) => exchange_term(alloc, from, to, term, parts, out),
        Part::Array(array) => take_array(alloc, array, parts, out),
        Part::Form(form) => take_form(alloc, form, parts, out),
        Part::Operator(kind) => put_operator(out, kind),
    }
}

/// The form with `to` wherever `from` stands. Nothing is looked for inside what is replaced.
pub(crate) fn exchanged(
    alloc: Global,
    from: &TermRef<'_>,
    to: &TermRef<'_>,
    form: &Form,
) -> Result<Form, AllocError>
    ensures { IfOk result (λ made. made ≡ exchanged_form from.now to.now form.now) }
{
    let mut out = Vec::new(alloc);
    let mut parts = Vec::new(alloc);
    parts.push(Part::Form(form.as_ref()))?;
    while let Some(next) = parts.pop() {
        exchange_part(alloc, from, to, next, &mut parts, &mut out)?;
    }
    Ok(Form::from_nodes(out))
}

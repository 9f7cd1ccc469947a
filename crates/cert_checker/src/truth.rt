//! A term put in the place of a form's truth.

ghost use Rattle.std.specs.Prelude.{◌≡◌, ◌<◌, ◌∷◌, Some, reverse, IfOk, OnOk};
ghost use Rattle.cert_checker.specs.declared.part.Part.TheVariants as part;
ghost use Rattle.cert_checker.specs.Code.Exchanging.{parts_work};
ghost use Rattle.cert_checker.specs.Code.Truths.{put_form, put_after};

use crate::find::is_truth;
use crate::part::{Part, take_array, take_form, take_term};
use std::alloc::{AllocError, Global};
use terms::build::{put_copies, put_operator};
use terms::{Form, Node, Term, TermRef};

// A term, where so many truths come before the one that is looked for, or where that was found.
fn put_term<'a>(
    alloc: Global,
    by: &Term,
    term: TermRef<'a>,
    left: Option<u32>,
    parts: &mut Vec<Part<'a>>,
    out: &mut Vec<Node>,
) -> Result<Option<u32>, AllocError>
    ensures made { IfOk result (λ more. put_after by.now (reverse parts.new.items) more out.new.items
        ≡ put_after by.now (part.Term term.entry ∷ reverse parts.old.items) left out.old.items) }
    ensures less { OnOk result
        (parts_work (reverse parts.new.items) < parts_work (part.Term term.entry ∷ reverse parts.old.items)) }
{
    if !is_truth(&term) {
        take_term(alloc, term, parts, out)?;
        return Ok(left);
    }
    let Some(count) = left else {
        take_term(alloc, term, parts, out)?;
        return Ok(None);
    };
    if count == 0 {
        put_copies(alloc, out, by.nodes())?;
        return Ok(None);
    }
    take_term(alloc, term, parts, out)?;
    Ok(Some(count - 1))
}

fn put_part<'a>(
    alloc: Global,
    by: &Term,
    next: Part<'a>,
    left: Option<u32>,
    parts: &mut Vec<Part<'a>>,
    out: &mut Vec<Node>,
) -> Result<Option<u32>, AllocError>
    ensures made { IfOk result (λ more. put_after by.now (reverse parts.new.items) more out.new.items
        ≡ put_after by.now (next.entry ∷ reverse parts.old.items) left out.old.items) }
    ensures less { OnOk result
        (parts_work (reverse parts.new.items) < parts_work (next.entry ∷ reverse parts.old.items)) }
{
    match next {
        Part::Term(term) => put_term(alloc, by, term, left, parts, out),
        Part::Array(array) => {
            take_array(alloc, array, parts, out)?;
            Ok(left)
        }
        Part::Form(form) => {
            take_form(alloc, form, parts, out)?;
            Ok(left)
        }
        Part::Operator(kind) => {
            put_operator(out, kind)?;
            Ok(left)
        }
    }
}

/// The form with `by` in the place of the truth that has this number among them, counted from 0 from the left,
/// each before those in it. Where there are no more it is the form itself.
pub(crate) fn with_truth(
    alloc: Global,
    form: &Form,
    place: u32,
    by: &Term,
) -> Result<Form, AllocError>
    ensures { IfOk result (λ made. made ≡ (put_form by.now form.now (Some place)).0) }
{
    let mut left = Some(place);
    let mut out = Vec::new(alloc);
    let mut parts = Vec::new(alloc);
    parts.push(Part::Form(form.as_ref()))?;
    while let Some(next) = parts.pop() {
        left = put_part(alloc, by, next, left, &mut parts, &mut out)?;
    }
    Ok(Form::from_nodes(out))
}

//! Places in a form: those of a term that is exchanged, of truths and of divisions.

ghost use Rattle.std.specs.Prelude.{◌≡◌, IfOk, option_map, option_and_then, slice_get, filter_map, pos};
ghost use Rattle.terms.specs.Names.{terms_in_form};
ghost use Rattle.terms.specs.Trees.{number};
ghost use Rattle.cert_checker.specs.Places.{truths_in, division_of};
ghost use Rattle.cert_checker.specs.Code.Finding.{truth_form};

pub(crate) use crate::exchanged::exchanged;
use crate::find::{Wanted, division_of, find};
use crate::truth::with_truth;
use std::alloc::{AllocError, Global};
use terms::{Form, FormRef, Term, TermRef, TermView};

/// The form of a term that is its truth.
fn truth_form<'a>(term: &TermRef<'a>) -> Option<FormRef<'a>>
    ensures { result ≡ truth_form term.now }
{
    match term.view() {
        TermView::Truth(form) => Some(form),
        TermView::Num(_) => None,
        TermView::Of(_) => None,
        TermView::Add(_, _) => None,
        TermView::Sub(_, _) => None,
        TermView::Mul(_, _) => None,
        TermView::Div(_, _) => None,
        TermView::Rem(_, _) => None,
        TermView::Read(_, _) => None,
    }
}

fn truth_inside<'a>(
    alloc: Global,
    form: FormRef<'a>,
    place: u32,
) -> Result<Option<FormRef<'a>>, AllocError>
    ensures { IfOk result (λ found. found ≡ option_map (λ p. p.0) (slice_get (truths_in form.entry) place)) }
{
    match find(alloc, form, Wanted::Truth, place)? {
        Some(term) => Ok(truth_form(&term)),
        None => Ok(None),
    }
}

/// The form of the truth with this place among them, and the whole with 1 and with 0 in that place.
pub(crate) fn truth_at(
    alloc: Global,
    form: &Form,
    place: u32,
) -> Result<Option<(Form, Form, Form)>, AllocError>
    ensures { IfOk result (λ found. found ≡ option_map (λ p. (p.0, p.1 (number (pos 1)), p.1 (number (pos 0)))) (slice_get (truths_in form.now) place)) }
{
    let Some(inside) = truth_inside(alloc, form.as_ref(), place)? else {
        return Ok(None);
    };
    let one = Term::number(alloc, 1)?;
    let zero = Term::number(alloc, 0)?;
    let with_one = with_truth(alloc, form, place, &one)?;
    let with_zero = with_truth(alloc, form, place, &zero)?;
    Ok(Some((inside.copy(alloc)?, with_one, with_zero)))
}

/// What the division with this place among them divides, and by what.
pub(crate) fn division_at(
    alloc: Global,
    form: &Form,
    place: u32,
) -> Result<Option<(Term, i128)>, AllocError>
    ensures { IfOk result (λ found. found ≡ slice_get (filter_map division_of (terms_in_form form.now)) place) }
{
    let Some(term) = find(alloc, form.as_ref(), Wanted::Division, place)? else {
        return Ok(None);
    };
    let Some((of, by)) = division_of(&term) else {
        return Ok(None);
    };
    Ok(Some((of.copy(alloc)?, by)))
}

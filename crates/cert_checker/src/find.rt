//! Terms of a kind in a form, by their places from the left, each before its parts.

ghost use Rattle.std.specs.Prelude.{◌≡◌, ◌<◌, ◌∷◌, reverse, slice_get, filter, IfOk, OnOk};
ghost use Rattle.terms.specs.Names.{terms_in_form};
ghost use Rattle.cert_checker.specs.declared.part.Part.TheVariants as part;
ghost use Rattle.cert_checker.specs.Places.{by_number, division_of};
ghost use Rattle.cert_checker.specs.Code.Exchanging.{parts_work};
ghost use Rattle.cert_checker.specs.Code.Finding.{is_truth, is_wanted, IsSought};

use crate::part::{Part, open_array, open_form, open_term};
use std::alloc::{AllocError, Global};
use terms::{FormRef, TermRef, TermView};

/// Which terms are looked for: the truths of forms, or quotients and remainders by a number other than 0.
#[derive(Clone, Copy, Debug)]
pub(crate) enum Wanted {
    Truth,
    Division,
}

/// What a quotient or remainder divides, and the number by which it does.
fn by_number<'a>(dividend: TermRef<'a>, divisor: &TermRef<'_>) -> Option<(TermRef<'a>, i128)>
    ensures { result ≡ by_number dividend.entry divisor.now }
{
    match divisor.view() {
        TermView::Num(number) => {
            if number == 0 {
                None
            } else {
                Some((dividend, number))
            }
        }
        TermView::Of(_) => None,
        TermView::Add(_, _) => None,
        TermView::Sub(_, _) => None,
        TermView::Mul(_, _) => None,
        TermView::Div(_, _) => None,
        TermView::Rem(_, _) => None,
        TermView::Read(_, _) => None,
        TermView::Truth(_) => None,
    }
}

/// What a term divides, if it is a quotient or remainder by a number other than 0.
pub(crate) fn division_of<'a>(term: &TermRef<'a>) -> Option<(TermRef<'a>, i128)>
    ensures { result ≡ division_of term.now }
{
    match term.view() {
        TermView::Div(dividend, divisor) => by_number(dividend, &divisor),
        TermView::Rem(dividend, divisor) => by_number(dividend, &divisor),
        TermView::Num(_) => None,
        TermView::Of(_) => None,
        TermView::Add(_, _) => None,
        TermView::Sub(_, _) => None,
        TermView::Mul(_, _) => None,
        TermView::Read(_, _) => None,
        TermView::Truth(_) => None,
    }
}

pub(crate) fn is_truth(term: &TermRef<'_>) -> bool
    ensures { result ≡ is_truth term.now }
{
    match term.view() {
        TermView::Truth(_) => true,
        TermView::Num(_) => false,
        TermView::Of(_) => false,
        TermView::Add(_, _) => false,
        TermView::Sub(_, _) => false,
        TermView::Mul(_, _) => false,
        TermView::Div(_, _) => false,
        TermView::Rem(_, _) => false,
        TermView::Read(_, _) => false,
    }
}

fn is_wanted(wanted: Wanted, term: &TermRef<'_>) -> bool
    ensures { result ≡ is_wanted wanted term.now }
{
    match wanted {
        Wanted::Truth => is_truth(term),
        Wanted::Division => division_of(term).is_some(),
    }
}

/// The term that was looked for, or how many of its kind come before it still.
#[derive(Debug, Drop)]
enum Sought<'a> {
    Found(TermRef<'a>),
    Left(u32),
}

fn seek_term<'a>(
    term: TermRef<'a>,
    wanted: Wanted,
    left: u32,
    parts: &mut Vec<Part<'a>>,
) -> Result<Sought<'a>, AllocError>
    ensures sought { IfOk result (IsSought wanted (part.Term term.entry ∷ reverse parts.old.items) left (reverse parts.new.items)) }
    ensures less { OnOk result (parts_work (reverse parts.new.items) < parts_work (part.Term term.entry ∷ reverse parts.old.items)) }
{
    if !is_wanted(wanted, &term) {
        open_term(term, parts)?;
        return Ok(Sought::Left(left));
    }
    if left == 0 {
        return Ok(Sought::Found(term));
    }
    open_term(term, parts)?;
    Ok(Sought::Left(left - 1))
}

fn seek<'a>(
    next: Part<'a>,
    wanted: Wanted,
    left: u32,
    parts: &mut Vec<Part<'a>>,
) -> Result<Sought<'a>, AllocError>
    ensures sought { IfOk result (IsSought wanted (next.entry ∷ reverse parts.old.items) left (reverse parts.new.items)) }
    ensures less { OnOk result (parts_work (reverse parts.new.items) < parts_work (next.entry ∷ reverse parts.old.items)) }
{
    match next {
        Part::Term(term) => seek_term(term, wanted, left, parts),
        Part::Array(array) => {
            open_array(array, parts)?;
            Ok(Sought::Left(left))
        }
        Part::Form(form) => {
            open_form(form, parts)?;
            Ok(Sought::Left(left))
        }
        Part::Operator(_kind) => Ok(Sought::Left(left)),
    }
}

/// The term of the kind with this place among them, counted from 0.
pub(crate) fn find<'a>(
    alloc: Global,
    form: FormRef<'a>,
    wanted: Wanted,
    place: u32,
) -> Result<Option<TermRef<'a>>, AllocError>
    ensures { IfOk result (λ found. found
        ≡ slice_get (filter (is_wanted wanted) (terms_in_form form.entry)) place) }
{
    let mut left = place;
    let mut parts = Vec::new(alloc);
    parts.push(Part::Form(form))?;
    while let Some(next) = parts.pop() {
        match seek(next, wanted, left, &mut parts)? {
            Sought::Found(term) => return Ok(Some(term)),
            Sought::Left(more) => left = more,
        }
    }
    Ok(None)
}

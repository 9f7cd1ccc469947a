ghost use Rattle.std.specs.Prelude.{◌≡◌, pos, ◌+ℤ◌, ◌-ℤ◌, ◌*ℤ◌};
ghost use Rattle.terms.specs.Truth.{quotient_of, remainder_of, number_of};
ghost use Rattle.terms.specs.Valuations.{kept, term_value, element_value, form_value};
ghost use Rattle.terms.specs.Code.Operations.{worth, written};

use crate::valuation::element_of;
use crate::{ArrayRef, ArrayView, Form, FormRef, FormView, TermRef, TermView, Valuation};

/// An operation on two numbers.
#[derive(Clone, Copy)]
pub(crate) enum Operation {
    Sum,
    Difference,
    Product,
    Quotient,
    Remainder,
}

// The number, if it is at most 2^100 in size.
#[tactic(auto, unfolding(crate::specs::Valuations::kept, crate::specs::Valuations::is_small))]
fn small(number: i128) -> Option<i128>
    ensures { result ≡ kept number }
{
    if number.unsigned_abs() <= 1_267_650_600_228_229_401_496_703_205_376 {
        Some(number)
    } else {
        None
    }
}

fn sum(left: i128, right: i128) -> Option<i128>
    ensures { result ≡ kept (left +ℤ right) }
{
    small(left.checked_add(right)?)
}

fn difference(left: i128, right: i128) -> Option<i128>
    ensures { result ≡ kept (left -ℤ right) }
{
    small(left.checked_sub(right)?)
}

fn product(left: i128, right: i128) -> Option<i128>
    ensures { result ≡ kept (left *ℤ right) }
{
    small(left.checked_mul(right)?)
}

// Rounded toward zero; a quotient by 0 is 0.
fn quotient(left: i128, right: i128) -> Option<i128>
    ensures { result ≡ kept (quotient_of left right) }
{
    if right == 0 {
        small(0)
    } else {
        small(left.checked_div(right)?)
    }
}

// With the sign of `left`; by 0 it is `left`.
fn remainder(left: i128, right: i128) -> Option<i128>
    ensures { result ≡ kept (remainder_of left right) }
{
    if right == 0 {
        small(left)
    } else {
        small(left.wrapping_rem(right))
    }
}

impl Operation {
    #[tactic(auto, unfolding(crate::specs::Code::Operations::worth))]
    fn apply(self, left: i128, right: i128) -> Option<i128>
        ensures { result ≡ kept (worth self left right) }
    {
        match self {
            Operation::Sum => sum(left, right),
            Operation::Difference => difference(left, right),
            Operation::Product => product(left, right),
            Operation::Quotient => quotient(left, right),
            Operation::Remainder => remainder(left, right),
        }
    }
}

// 1 for a true form, 0 for a false one.
fn number(truth: bool) -> i128
    ensures { result ≡ number_of truth }
{
    if truth { 1 } else { 0 }
}

#[cycle(evaluating)]
#[tactic(auto, using(crate::proofs::ValueLaws::values))]
fn value(term: &TermRef, at: &Valuation) -> Option<i128>
    ensures { result ≡ term_value at.now term.now }
{
    match term.view() {
        TermView::Num(number) => small(number),
        TermView::Of(name) => small(at.number(name)?),
        TermView::Add(left, right) => Operation::Sum.apply(value(&left, at)?, value(&right, at)?),
        TermView::Sub(left, right) => Operation::Difference.apply(
            value(&left, at)?,
            value(&right, at)?,
        ),
        TermView::Mul(left, right) => Operation::Product.apply(
            value(&left, at)?,
            value(&right, at)?,
        ),
        TermView::Div(left, right) => Operation::Quotient.apply(
            value(&left, at)?,
            value(&right, at)?,
        ),
        TermView::Rem(left, right) => Operation::Remainder.apply(
            value(&left, at)?,
            value(&right, at)?,
        ),
        TermView::Read(array, index) => {
            let index = value(&index, at)?;
            small(element(&array, index, at)?)
        }
        TermView::Truth(form) => Some(number(truth(&form, at)?)),
    }
}

// What an array holds at `index` behind the storing of `value` at `place`, where it held `before`.
#[tactic(auto, unfolding(crate::specs::Code::Operations::written))]
fn written(index: i128, before: i128, place: i128, value: i128) -> i128
    ensures { result ≡ written index before place value }
{
    if place == index { value } else { before }
}

// What the array holds at the index.
#[cycle(evaluating)]
#[tactic(auto, using(crate::proofs::ValueLaws::values))]
fn element(array: &ArrayRef, index: i128, at: &Valuation) -> Option<i128>
    ensures { result ≡ element_value at.now array.now index }
{
    match array.view() {
        ArrayView::Base(name) => Some(element_of(at.row(name)?, index)),
        ArrayView::Store(inner, place, stored) => {
            let before = element(&inner, index, at)?;
            let place = value(&place, at)?;
            let stored = value(&stored, at)?;
            Some(written(index, before, place, stored))
        }
    }
}

#[cycle(evaluating)]
#[tactic(auto, using(crate::proofs::ValueLaws::values))]
fn truth(form: &FormRef, at: &Valuation) -> Option<bool>
    ensures { result ≡ form_value at.now form.now }
{
    match form.view() {
        FormView::True => Some(true),
        FormView::False => Some(false),
        FormView::Le(left, right) => Some(value(&left, at)? <= value(&right, at)?),
        FormView::Eq(left, right) => Some(value(&left, at)? == value(&right, at)?),
        FormView::Not(inner) => Some(!truth(&inner, at)?),
        FormView::And(left, right) => {
            let left = truth(&left, at)?;
            let right = truth(&right, at)?;
            Some(left && right)
        }
        FormView::Or(left, right) => {
            let left = truth(&left, at)?;
            let right = truth(&right, at)?;
            Some(left || right)
        }
    }
}

/// Whether the form is true at the valuation. None comes exactly where a name in the form isn't
/// listed there, as a number or as an array as it stands in the form, or where some term in the
/// form is worth more than 2^100 or less than -2^100. Every term counts, also one that could not
/// change the answer. It takes no memory.
pub fn holds_at(form: &Form, at: &Valuation) -> Option<bool>
    ensures { result ≡ form_value at.now form.now }
{
    truth(&form.as_ref(), at)
}

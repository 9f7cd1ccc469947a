ghost use Rattle.std.specs.Prelude.{◌≡◌, IfOk, ◌||◌, Some};
ghost use Rattle.std.specs.Option.{option_copied};
ghost use Rattle.terms.specs.Trees.{denied};
ghost use Rattle.cert_checker.specs.Rows.{plain_at, combination};
ghost use Rattle.cert_checker.specs.Rules.{is_contradiction, are_opposite, closes_as_written, closes_by_sum};
ghost use Rattle.cert_checker.specs.Code.Closing.{row_is_false};

use crate::combination::combined;
use linear_rows::Row;
use std::alloc::{AllocError, Global};
use terms::{Fact, Form, FormRef, FormView};

/// Whether the row says 0 <= b, or 0 = b, of a number b where that is false.
fn is_false_row(row: &Row) -> bool
    ensures { result ≡ row_is_false row.now }
{
    row.parts.as_slice().is_empty() && (row.bound < 0 || (row.equal && row.bound != 0))
}

/// The form of the fact with the number, if it is plain.
pub(crate) fn plain(facts: &[Fact], number: u32) -> Option<&Form>
    ensures { option_copied result ≡ plain_at facts.now number }
{
    match facts.get(number as usize) {
        Some(fact) => match fact {
            Fact::Plain(form) => Some(form),
            Fact::All { .. } => None,
        },
        None => None,
    }
}

fn is_true(form: &FormRef<'_>) -> bool
    ensures { result ≡ is_contradiction (Some (denied form.now)) }
{
    match form.view() {
        FormView::True => true,
        FormView::False => false,
        FormView::Le(_, _) => false,
        FormView::Eq(_, _) => false,
        FormView::Not(_) => false,
        FormView::And(_, _) => false,
        FormView::Or(_, _) => false,
    }
}

fn contradicts_itself(form: &Form) -> bool
    ensures { result ≡ is_contradiction (Some form.now) }
{
    match form.view() {
        FormView::True => false,
        FormView::False => true,
        FormView::Le(_, _) => false,
        FormView::Eq(_, _) => false,
        FormView::Not(inner) => is_true(&inner),
        FormView::And(_, _) => false,
        FormView::Or(_, _) => false,
    }
}

/// Whether the second form is the first one denied.
fn denies(first: &Form, second: &Form) -> bool
    ensures { result ≡ are_opposite (Some first.now) (Some second.now) }
{
    match second.view() {
        FormView::True => false,
        FormView::False => false,
        FormView::Le(_, _) => false,
        FormView::Eq(_, _) => false,
        FormView::Not(inner) => first.nodes() == inner.nodes(),
        FormView::And(_, _) => false,
        FormView::Or(_, _) => false,
    }
}

fn is_false_fact(facts: &[Fact], number: u32) -> bool
    ensures { result ≡ is_contradiction (plain_at facts.now number) }
{
    match plain(facts, number) {
        Some(form) => contradicts_itself(form),
        None => false,
    }
}

fn are_opposite_facts(facts: &[Fact], first: u32, second: u32) -> bool
    ensures { result ≡ are_opposite (plain_at facts.now first) (plain_at facts.now second) }
{
    let Some(one) = plain(facts, first) else {
        return false;
    };
    match plain(facts, second) {
        Some(other) => denies(one, other),
        None => false,
    }
}

/// Whether the pairs are one fact that is false by itself, or a fact and the same denied.
fn closes_as_written(facts: &[Fact], pairs: &[(u32, i128)]) -> bool
    ensures { result ≡ closes_as_written facts.now pairs.now }
{
    if pairs.len() == 1 {
        let (number, times) = pairs[0];
        return times == 1 && is_false_fact(facts, number);
    }
    if pairs.len() == 2 {
        let (first, once) = pairs[0];
        let (second, again) = pairs[1];
        return (once == 1 && again == 1) && are_opposite_facts(facts, first, second);
    }
    false
}

fn closes_by_sum(alloc: Global, facts: &[Fact], pairs: &[(u32, i128)]) -> Result<bool, AllocError>
    ensures { IfOk result (λ closes. closes ≡ closes_by_sum (combination facts.now pairs.now)) }
{
    let mut atoms = Vec::new(alloc);
    match combined(alloc, facts, pairs, &mut atoms)? {
        Some(row) => Ok(is_false_row(&row)),
        None => Ok(false),
    }
}

/// Whether the pairs close a branch.
pub(crate) fn closes(
    alloc: Global,
    facts: &[Fact],
    pairs: &[(u32, i128)],
) -> Result<bool, AllocError>
    ensures { IfOk result (λ closes. closes ≡ (closes_by_sum (combination facts.now pairs.now)
        || closes_as_written facts.now pairs.now)) }
{
    if closes_by_sum(alloc, facts, pairs)? {
        return Ok(true);
    }
    Ok(closes_as_written(facts, pairs))
}

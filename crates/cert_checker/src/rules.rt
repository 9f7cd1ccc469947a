//! Both, Case and Cut.
ghost use Rattle.std.specs.Prelude.{◌≡◌, [], ◌∷◌, IfOk, Some, option_map};
ghost use Rattle.terms.specs.Trees.{denied, both, either, equal};
ghost use Rattle.cert_checker.specs.Rules.{both_parts, each_case, cut};
ghost use Rattle.cert_checker.specs.Code.Made.{seen, as_facts};

use crate::made::{at_most_copy, denied_copy, less_copy, one_child, pair, single, two_children};
use std::alloc::{AllocError, Global};
use terms::{Fact, Form, FormRef, FormView, TermRef};

fn both_forms(
    alloc: Global,
    first: &FormRef<'_>,
    second: &FormRef<'_>,
) -> Result<Vec<Vec<Fact>>, AllocError>
    ensures { IfOk result (λ made. Some (seen made) ≡ as_facts (both_parts (both first.now second.now))) }
{
    let one = first.copy(alloc)?;
    let facts = pair(alloc, one, second.copy(alloc)?)?;
    one_child(alloc, facts)
}

fn both_denied(
    alloc: Global,
    first: &FormRef<'_>,
    second: &FormRef<'_>,
) -> Result<Vec<Vec<Fact>>, AllocError>
    ensures { IfOk result (λ made. Some (seen made) ≡ as_facts (both_parts (denied (either first.now second.now)))) }
{
    let one = denied_copy(alloc, first)?;
    let facts = pair(alloc, one, denied_copy(alloc, second)?)?;
    one_child(alloc, facts)
}

fn both_orders(
    alloc: Global,
    left: &TermRef<'_>,
    right: &TermRef<'_>,
) -> Result<Vec<Vec<Fact>>, AllocError>
    ensures { IfOk result (λ made. Some (seen made) ≡ as_facts (both_parts (equal left.now right.now))) }
{
    let one = at_most_copy(alloc, left, right)?;
    let facts = pair(alloc, one, at_most_copy(alloc, right, left)?)?;
    one_child(alloc, facts)
}

fn inner_form(alloc: Global, form: &FormRef<'_>) -> Result<Vec<Vec<Fact>>, AllocError>
    ensures { IfOk result (λ made. Some (seen made) ≡ as_facts (both_parts (denied (denied form.now)))) }
{
    let facts = single(alloc, form.copy(alloc)?)?;
    one_child(alloc, facts)
}

fn denied_parts(alloc: Global, form: &FormRef<'_>) -> Result<Option<Vec<Vec<Fact>>>, AllocError>
    ensures { IfOk result (λ made. option_map seen made ≡ as_facts (both_parts (denied form.now))) }
{
    match form.view() {
        FormView::Or(first, second) => Ok(Some(both_denied(alloc, &first, &second)?)),
        FormView::Not(inner) => Ok(Some(inner_form(alloc, &inner)?)),
        FormView::True => Ok(None),
        FormView::False => Ok(None),
        FormView::Le(_, _) => Ok(None),
        FormView::Eq(_, _) => Ok(None),
        FormView::And(_, _) => Ok(None),
    }
}

/// What Both adds.
pub(crate) fn parts(alloc: Global, form: &Form) -> Result<Option<Vec<Vec<Fact>>>, AllocError>
    ensures { IfOk result (λ made. option_map seen made ≡ as_facts (both_parts form.now)) }
{
    match form.view() {
        FormView::And(first, second) => Ok(Some(both_forms(alloc, &first, &second)?)),
        FormView::Not(inner) => denied_parts(alloc, &inner),
        FormView::Eq(left, right) => Ok(Some(both_orders(alloc, &left, &right)?)),
        FormView::True => Ok(None),
        FormView::False => Ok(None),
        FormView::Le(_, _) => Ok(None),
        FormView::Or(_, _) => Ok(None),
    }
}

fn either_form(
    alloc: Global,
    first: &FormRef<'_>,
    second: &FormRef<'_>,
) -> Result<Vec<Vec<Fact>>, AllocError>
    ensures { IfOk result (λ made. Some (seen made) ≡ as_facts (each_case (either first.now second.now))) }
{
    let one = single(alloc, first.copy(alloc)?)?;
    let other = single(alloc, second.copy(alloc)?)?;
    two_children(alloc, one, other)
}

fn either_denied(
    alloc: Global,
    first: &FormRef<'_>,
    second: &FormRef<'_>,
) -> Result<Vec<Vec<Fact>>, AllocError>
    ensures { IfOk result (λ made. Some (seen made) ≡ as_facts (each_case (denied (both first.now second.now)))) }
{
    let one = single(alloc, denied_copy(alloc, first)?)?;
    let other = single(alloc, denied_copy(alloc, second)?)?;
    two_children(alloc, one, other)
}

fn either_order(
    alloc: Global,
    left: &TermRef<'_>,
    right: &TermRef<'_>,
) -> Result<Vec<Vec<Fact>>, AllocError>
    ensures { IfOk result (λ made. Some (seen made) ≡ as_facts (each_case (denied (equal left.now right.now)))) }
{
    let one = single(alloc, less_copy(alloc, left, right)?)?;
    let other = single(alloc, less_copy(alloc, right, left)?)?;
    two_children(alloc, one, other)
}

fn denied_cases(alloc: Global, form: &FormRef<'_>) -> Result<Option<Vec<Vec<Fact>>>, AllocError>
    ensures { IfOk result (λ made. option_map seen made ≡ as_facts (each_case (denied form.now))) }
{
    match form.view() {
        FormView::And(first, second) => Ok(Some(either_denied(alloc, &first, &second)?)),
        FormView::Eq(left, right) => Ok(Some(either_order(alloc, &left, &right)?)),
        FormView::True => Ok(None),
        FormView::False => Ok(None),
        FormView::Le(_, _) => Ok(None),
        FormView::Not(_) => Ok(None),
        FormView::Or(_, _) => Ok(None),
    }
}

/// What Case adds.
pub(crate) fn cases(alloc: Global, form: &Form) -> Result<Option<Vec<Vec<Fact>>>, AllocError>
    ensures { IfOk result (λ made. option_map seen made ≡ as_facts (each_case form.now)) }
{
    match form.view() {
        FormView::Or(first, second) => Ok(Some(either_form(alloc, &first, &second)?)),
        FormView::Not(inner) => denied_cases(alloc, &inner),
        FormView::True => Ok(None),
        FormView::False => Ok(None),
        FormView::Le(_, _) => Ok(None),
        FormView::Eq(_, _) => Ok(None),
        FormView::And(_, _) => Ok(None),
    }
}

/// What Cut adds.
pub(crate) fn cut(alloc: Global, form: &Form) -> Result<Vec<Vec<Fact>>, AllocError>
    ensures { IfOk result (λ made. Some (seen made) ≡ as_facts (cut form.now)) }
{
    let one = single(alloc, form.copy(alloc)?)?;
    let other = single(alloc, denied_copy(alloc, &form.as_ref())?)?;
    two_children(alloc, one, other)
}

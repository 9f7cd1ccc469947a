//! Same and Truth.
ghost use Rattle.std.specs.Prelude.{◌≡◌, IfOk, Some, option_map, [], ◌∷◌};
ghost use Rattle.cert_checker.specs.Rules.{one_child, exchange, split_truth};
ghost use Rattle.cert_checker.specs.Code.Made.{seen, as_facts};

use crate::made::{denied_copy, one_child, pair, single, two_children};
use crate::places::{exchanged, truth_at};
use std::alloc::{AllocError, Global};
use terms::{Fact, Form, FormView};

fn one_form(alloc: Global, form: Form) -> Result<Option<Vec<Vec<Fact>>>, AllocError>
    ensures { IfOk result (λ made. option_map seen made ≡ as_facts (one_child (form ∷ []))) }
{
    let facts = single(alloc, form)?;
    Ok(Some(one_child(alloc, facts)?))
}

/// What Same adds.
pub(crate) fn exchange(
    alloc: Global,
    equality: &Form,
    form: &Form,
) -> Result<Option<Vec<Vec<Fact>>>, AllocError>
    ensures { IfOk result (λ made. option_map seen made ≡ as_facts (exchange equality.now form.now)) }
{
    match equality.view() {
        FormView::Eq(from, to) => one_form(alloc, exchanged(alloc, &from, &to, form)?),
        FormView::True => Ok(None),
        FormView::False => Ok(None),
        FormView::Le(_, _) => Ok(None),
        FormView::Not(_) => Ok(None),
        FormView::And(_, _) => Ok(None),
        FormView::Or(_, _) => Ok(None),
    }
}

/// What Truth adds.
pub(crate) fn split_truth(
    alloc: Global,
    place: u32,
    form: &Form,
) -> Result<Option<Vec<Vec<Fact>>>, AllocError>
    ensures { IfOk result (λ made. option_map seen made ≡ as_facts (split_truth place form.now)) }
{
    let Some((inner, with_one, with_zero)) = truth_at(alloc, form, place)? else {
        return Ok(None);
    };
    let denied = denied_copy(alloc, &inner.as_ref())?;
    let first = pair(alloc, inner, with_one)?;
    let second = pair(alloc, denied, with_zero)?;
    Ok(Some(two_children(alloc, first, second)?))
}

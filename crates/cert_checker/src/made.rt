//! Facts and children put together of copies.
ghost use Rattle.std.specs.Prelude.{◌≡◌, [], ◌∷◌, IfOk};
ghost use Rattle.terms.specs.declared.fact.Fact.TheVariants as fact;
ghost use Rattle.terms.specs.Trees.{plus, at_most, denied};
ghost use Rattle.cert_checker.specs.Rules.{one};
ghost use Rattle.cert_checker.specs.Code.Made.{seen};

use std::alloc::{AllocError, Global};
use terms::{Fact, Form, FormRef, Term, TermRef};

pub(crate) fn single(alloc: Global, form: Form) -> Result<Vec<Fact>, AllocError>
    ensures { IfOk result (λ made. made.items ≡ fact.Plain form ∷ []) }
{
    let mut made = Vec::new(alloc);
    made.push(Fact::Plain(form))?;
    Ok(made)
}

pub(crate) fn pair(alloc: Global, first: Form, second: Form) -> Result<Vec<Fact>, AllocError>
    ensures { IfOk result (λ made. made.items ≡ fact.Plain first ∷ (fact.Plain second ∷ [])) }
{
    let mut made = Vec::new(alloc);
    made.push(Fact::Plain(first))?;
    made.push(Fact::Plain(second))?;
    Ok(made)
}

pub(crate) fn one_child(alloc: Global, facts: Vec<Fact>) -> Result<Vec<Vec<Fact>>, AllocError>
    ensures { IfOk result (λ made. seen made ≡ facts.items ∷ []) }
{
    let mut made = Vec::new(alloc);
    made.push(facts)?;
    Ok(made)
}

pub(crate) fn two_children(
    alloc: Global,
    first: Vec<Fact>,
    second: Vec<Fact>,
) -> Result<Vec<Vec<Fact>>, AllocError>
    ensures { IfOk result (λ made. seen made ≡ first.items ∷ (second.items ∷ [])) }
{
    let mut made = Vec::new(alloc);
    made.push(first)?;
    made.push(second)?;
    Ok(made)
}

pub(crate) fn denied_copy(alloc: Global, form: &FormRef<'_>) -> Result<Form, AllocError>
    ensures { IfOk result (λ made. made ≡ denied form.now) }
{
    Form::denied(form.copy(alloc)?)
}

pub(crate) fn at_most_copy(
    alloc: Global,
    left: &TermRef<'_>,
    right: &TermRef<'_>,
) -> Result<Form, AllocError>
    ensures { IfOk result (λ made. made ≡ at_most left.now right.now) }
{
    let left = left.copy(alloc)?;
    Form::at_most(left, right.copy(alloc)?)
}

fn one_more(alloc: Global, term: &TermRef<'_>) -> Result<Term, AllocError>
    ensures { IfOk result (λ made. made ≡ plus term.now one) }
{
    let one = Term::number(alloc, 1)?;
    Term::add(term.copy(alloc)?, one)
}

/// That the one term is less than the other.
pub(crate) fn less_copy(
    alloc: Global,
    left: &TermRef<'_>,
    right: &TermRef<'_>,
) -> Result<Form, AllocError>
    ensures { IfOk result (λ made. made ≡ at_most (plus left.now one) right.now) }
{
    let left = one_more(alloc, left)?;
    Form::at_most(left, right.copy(alloc)?)
}

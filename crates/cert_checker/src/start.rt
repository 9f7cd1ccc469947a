//! The facts that a certificate starts from.
ghost use Rattle.std.specs.Prelude.{◌≡◌, [], ◌∷◌, ◌++◌, IfOk, OnOk};
ghost use Rattle.terms.specs.declared.fact.Fact.TheVariants as fact;
ghost use Rattle.terms.specs.Replacing.{number_by, replaced_form};
ghost use Rattle.terms.specs.Trees.{name, plus, at_most, denied};
ghost use Rattle.cert_checker.specs.Rules.{one};
ghost use Rattle.cert_checker.specs.Checks.{fresh, denied_fact, opening};

use crate::made::{denied_copy, single};
use c_lang::Name;
use std::alloc::{AllocError, Global};
use terms::{Fact, Form, Sequent, Sym, Term, subst};

/// The name for a number at which the goal is false.
pub(crate) fn fresh(alloc: Global) -> Result<Sym, AllocError>
    ensures { IfOk result (λ made. made ≡ fresh) }
{
    Ok(Sym {
        base: Name::new(alloc, b"$0")?,
        count: 0,
    })
}

fn fresh_number(alloc: Global) -> Result<Term, AllocError>
    ensures { IfOk result (λ made. made ≡ name fresh) }
{
    Term::name(alloc, fresh(alloc)?)
}

/// A copy of each fact, behind what stands there.
fn put_copies(alloc: Global, out: &mut Vec<Fact>, facts: &[Fact]) -> Result<(), AllocError>
    ensures { OnOk result (out.new.items ≡ out.old.items ++ facts.now) }
{
    for fact in facts {
        out.push(fact.copy(alloc)?)?;
    }
    Ok(())
}

fn from_low(alloc: Global, low: &Term) -> Result<Form, AllocError>
    ensures { IfOk result (λ made. made ≡ at_most low.now (name fresh)) }
{
    let number = fresh_number(alloc)?;
    Form::at_most(low.copy(alloc)?, number)
}

fn one_above(alloc: Global) -> Result<Term, AllocError>
    ensures { IfOk result (λ made. made ≡ plus (name fresh) one) }
{
    let number = fresh_number(alloc)?;
    Term::add(number, Term::number(alloc, 1)?)
}

fn below_high(alloc: Global, high: &Term) -> Result<Form, AllocError>
    ensures { IfOk result (λ made. made ≡ at_most (plus (name fresh) one) high.now) }
{
    let next = one_above(alloc)?;
    Form::at_most(next, high.copy(alloc)?)
}

fn denied_body(alloc: Global, bound: &Sym, body: &Form) -> Result<Form, AllocError>
    ensures { IfOk result (λ made. made ≡ denied (replaced_form (number_by bound.now (name fresh)) body.now)) }
{
    let number = fresh_number(alloc)?;
    Form::denied(subst(alloc, body, bound, &number)?)
}

fn denied_range(
    alloc: Global,
    bound: &Sym,
    low: &Term,
    high: &Term,
    body: &Form,
) -> Result<Vec<Fact>, AllocError>
    ensures { IfOk result (λ made. made.items ≡ denied_fact (fact.All bound.now low.now high.now body.now)) }
{
    let mut made = single(alloc, from_low(alloc, low)?)?;
    made.push(Fact::Plain(below_high(alloc, high)?))?;
    made.push(Fact::Plain(denied_body(alloc, bound, body)?))?;
    Ok(made)
}

fn denied_goal(alloc: Global, goal: &Fact) -> Result<Vec<Fact>, AllocError>
    ensures { IfOk result (λ made. made.items ≡ denied_fact goal.now) }
{
    match goal {
        Fact::Plain(form) => single(alloc, denied_copy(alloc, &form.as_ref())?),
        Fact::All { var, lo, hi, body } => denied_range(alloc, var, lo, hi, body),
    }
}

/// The hypotheses, and then the facts that stand where the goal is false.
pub fn opening(alloc: Global, sequent: &Sequent) -> Result<Vec<Fact>, AllocError>
    ensures { IfOk result (λ facts. facts.items ≡ opening sequent.now) }
{
    let mut facts = Vec::new(alloc);
    put_copies(alloc, &mut facts, sequent.hyps.as_slice())?;
    facts.append(&mut denied_goal(alloc, &sequent.goal)?)?;
    Ok(facts)
}

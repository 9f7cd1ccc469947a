//! What operators make of forms and terms.

ghost use Rattle.std.specs.Prelude.{Some};
ghost use Rattle.terms.specs.Trees as tree;
ghost use Rattle.formula_texts.specs.Grammar as grammar;
ghost use Rattle.formula_texts.specs.Code.Reading.{Gives};

use crate::stop::Stop;
use crate::token::Operator;
use crate::value::Value;
use std::alloc::Global;
use terms::{ArrayTerm, Form, Term};

/// The term, where it is one.
pub fn term_in(value: Value) -> Result<Term, Stop>
    ensures { Gives (λ term. term) result (grammar.term_in value) }
{
    match value {
        Value::Term(term) => Ok(term),
        Value::Form(_) => Err(Stop::NoText),
    }
}

/// The form, where it is one.
pub fn form_in(value: Value) -> Result<Form, Stop>
    ensures { Gives (λ form. form) result (grammar.form_in value) }
{
    match value {
        Value::Form(form) => Ok(form),
        Value::Term(_) => Err(Stop::NoText),
    }
}

fn next(alloc: Global, term: Term) -> Result<Term, Stop>
    ensures { Gives (λ made. made) result (Some (grammar.next term)) }
{
    Ok(Term::add(term, Term::number(alloc, 1)?)?)
}

fn sum(x: Value, y: Value) -> Result<Value, Stop>
    ensures { Gives (λ made. made) result (grammar.of_terms (grammar.term tree.plus) x y) }
{
    let left = term_in(x)?;
    Ok(Value::Term(Term::add(left, term_in(y)?)?))
}

fn difference(x: Value, y: Value) -> Result<Value, Stop>
    ensures { Gives (λ made. made) result (grammar.of_terms (grammar.term tree.minus) x y) }
{
    let left = term_in(x)?;
    Ok(Value::Term(Term::sub(left, term_in(y)?)?))
}

fn product(x: Value, y: Value) -> Result<Value, Stop>
    ensures { Gives (λ made. made) result (grammar.of_terms (grammar.term tree.times) x y) }
{
    let left = term_in(x)?;
    Ok(Value::Term(Term::mul(left, term_in(y)?)?))
}

/// A quotient.
pub fn quotient(x: Value, y: Value) -> Result<Value, Stop>
    ensures { Gives (λ made. made) result (grammar.of_terms (grammar.term tree.divided) x y) }
{
    let left = term_in(x)?;
    Ok(Value::Term(Term::div(left, term_in(y)?)?))
}

/// A remainder.
pub fn remainder(x: Value, y: Value) -> Result<Value, Stop>
    ensures { Gives (λ made. made) result (grammar.of_terms (grammar.term tree.remainder) x y) }
{
    let left = term_in(x)?;
    Ok(Value::Term(Term::rem(left, term_in(y)?)?))
}

fn conjunction(x: Value, y: Value) -> Result<Value, Stop>
    ensures { Gives (λ made. made) result (grammar.of_forms (grammar.form tree.both) x y) }
{
    let left = form_in(x)?;
    Ok(Value::Form(Form::both(left, form_in(y)?)?))
}

fn disjunction(x: Value, y: Value) -> Result<Value, Stop>
    ensures { Gives (λ made. made) result (grammar.of_forms (grammar.form tree.either) x y) }
{
    let left = form_in(x)?;
    Ok(Value::Form(Form::either(left, form_in(y)?)?))
}

fn less(alloc: Global, x: Value, y: Value) -> Result<Value, Stop>
    ensures { Gives (λ made. made) result (grammar.of_terms (λ t u. Value.Form (tree.at_most (grammar.next t) u)) x y) }
{
    let left = next(alloc, term_in(x)?)?;
    Ok(Value::Form(Form::at_most(left, term_in(y)?)?))
}

fn greater(alloc: Global, x: Value, y: Value) -> Result<Value, Stop>
    ensures { Gives (λ made. made) result (grammar.of_terms (λ t u. Value.Form (tree.at_most (grammar.next u) t)) x y) }
{
    let left = term_in(x)?;
    let right = next(alloc, term_in(y)?)?;
    Ok(Value::Form(Form::at_most(right, left)?))
}

fn at_most(x: Value, y: Value) -> Result<Value, Stop>
    ensures { Gives (λ made. made) result (grammar.of_terms (λ t u. Value.Form (tree.at_most t u)) x y) }
{
    let left = term_in(x)?;
    Ok(Value::Form(Form::at_most(left, term_in(y)?)?))
}

fn at_least(x: Value, y: Value) -> Result<Value, Stop>
    ensures { Gives (λ made. made) result (grammar.of_terms (λ t u. Value.Form (tree.at_most u t)) x y) }
{
    let left = term_in(x)?;
    Ok(Value::Form(Form::at_most(term_in(y)?, left)?))
}

fn equal(x: Value, y: Value) -> Result<Value, Stop>
    ensures { Gives (λ made. made) result (grammar.of_terms (λ t u. Value.Form (tree.equal t u)) x y) }
{
    let left = term_in(x)?;
    Ok(Value::Form(Form::equal(left, term_in(y)?)?))
}

fn unequal(x: Value, y: Value) -> Result<Value, Stop>
    ensures { Gives (λ made. made) result (grammar.of_terms (λ t u. Value.Form (tree.denied (tree.equal t u))) x y) }
{
    let left = term_in(x)?;
    Ok(Value::Form(Form::denied(Form::equal(left, term_in(y)?)?)?))
}

/// What an operator makes of its two sides.
pub fn apply(alloc: Global, operator: Operator, x: Value, y: Value) -> Result<Value, Stop>
    ensures { Gives (λ made. made) result (grammar.apply operator x y) }
{
    match operator {
        Operator::Or => disjunction(x, y),
        Operator::And => conjunction(x, y),
        Operator::Less => less(alloc, x, y),
        Operator::AtMost => at_most(x, y),
        Operator::Greater => greater(alloc, x, y),
        Operator::AtLeast => at_least(x, y),
        Operator::Equal => equal(x, y),
        Operator::Unequal => unequal(x, y),
        Operator::Plus => sum(x, y),
        Operator::Minus => difference(x, y),
        Operator::TightMinus => difference(x, y),
        Operator::Times => product(x, y),
    }
}

/// 0 without a term.
pub fn negated(alloc: Global, x: Value) -> Result<Value, Stop>
    ensures { Gives (λ made. made) result (grammar.negated x) }
{
    let term = term_in(x)?;
    Ok(Value::Term(Term::sub(Term::number(alloc, 0)?, term)?))
}

/// The denial of a form.
pub fn denied(x: Value) -> Result<Value, Stop>
    ensures { Gives (λ made. made) result (grammar.denied x) }
{
    Ok(Value::Form(Form::denied(form_in(x)?)?))
}

/// The truth of a form, as a number.
pub fn truth_of(x: Value) -> Result<Value, Stop>
    ensures { Gives (λ made. made) result (grammar.truth_of x) }
{
    Ok(Value::Term(Term::truth(form_in(x)?)?))
}

/// An element of an array.
pub fn element_of(row: ArrayTerm, index: Value) -> Result<Value, Stop>
    ensures { Gives (λ made. made) result (grammar.element_of row index) }
{
    Ok(Value::Term(Term::read(row, term_in(index)?)?))
}

/// An array with a value stored in it.
pub fn stored_of(row: ArrayTerm, index: Value, value: Value) -> Result<ArrayTerm, Stop>
    ensures { Gives (λ made. made) result (grammar.stored_of row index value) }
{
    let index = term_in(index)?;
    Ok(ArrayTerm::store(row, index, term_in(value)?)?)
}

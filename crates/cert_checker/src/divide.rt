//! Divide.
ghost use Rattle.std.specs.Prelude.{◌≡◌, ◌-ℤ◌, [], ◌∷◌, IfOk, Some, pos, negsuc, map, option_map, true, unsigned_abs};
ghost use Rattle.terms.specs.declared.fact.Fact.TheVariants as fact;
ghost use Rattle.terms.specs.Trees.{number, plus, times, divided, remainder, at_most, equal, both, either};
ghost use Rattle.terms.specs.Valuations.{is_small};
ghost use Rattle.cert_checker.specs.Rules.{between, division, divide};
ghost use Rattle.cert_checker.specs.Code.Made.{seen, as_facts};

use crate::made::{one_child, pair};
use crate::places::division_at;
use crate::sum::number_row;
use std::alloc::{AllocError, Global};
use terms::{Fact, Form, Term};

fn remainder(alloc: Global, of: &Term, by: i128) -> Result<Term, AllocError>
    ensures { IfOk result (λ made. made ≡ remainder of.now (number by)) }
{
    let divisor = Term::number(alloc, by)?;
    Term::rem(of.copy(alloc)?, divisor)
}

fn times_quotient(alloc: Global, of: &Term, by: i128) -> Result<Term, AllocError>
    ensures { IfOk result (λ made. made ≡ times (number by) (divided of.now (number by))) }
{
    let divisor = Term::number(alloc, by)?;
    let quotient = Term::div(of.copy(alloc)?, divisor)?;
    Term::mul(Term::number(alloc, by)?, quotient)
}

/// That the number is the divisor times the quotient and the remainder.
fn is_of_parts(alloc: Global, of: &Term, by: i128) -> Result<Form, AllocError>
    ensures { IfOk result (λ made. made ≡ equal of.now
        (plus (times (number by) (divided of.now (number by))) (remainder of.now (number by)))) }
{
    let product = times_quotient(alloc, of, by)?;
    let sum = Term::add(product, remainder(alloc, of, by)?)?;
    Form::equal(of.copy(alloc)?, sum)
}

fn at_least(alloc: Global, low: i128, of: &Term) -> Result<Form, AllocError>
    ensures { IfOk result (λ made. made ≡ at_most (number low) of.now) }
{
    let bound = Term::number(alloc, low)?;
    Form::at_most(bound, of.copy(alloc)?)
}

fn not_above(alloc: Global, of: &Term, high: i128) -> Result<Form, AllocError>
    ensures { IfOk result (λ made. made ≡ at_most of.now (number high)) }
{
    let bound = Term::number(alloc, high)?;
    Form::at_most(of.copy(alloc)?, bound)
}

fn between(alloc: Global, low: i128, of: &Term, high: i128) -> Result<Form, AllocError>
    ensures { IfOk result (λ made. made ≡ between low of.now high) }
{
    let first = at_least(alloc, low, of)?;
    Form::both(first, not_above(alloc, of, high)?)
}

fn up(alloc: Global, of: &Term, rest: &Term, most: i128) -> Result<Form, AllocError>
    ensures { IfOk result (λ made. made ≡ both (at_most (number (pos 0)) of.now) (between (pos 0) rest.now most)) }
{
    let sign = at_least(alloc, 0, of)?;
    Form::both(sign, between(alloc, 0, rest, most)?)
}

fn down(alloc: Global, of: &Term, rest: &Term, least: i128) -> Result<Form, AllocError>
    ensures { IfOk result (λ made. made ≡ both (at_most of.now (number (negsuc 0))) (between least rest.now (pos 0))) }
{
    let sign = not_above(alloc, of, -1)?;
    Form::both(sign, between(alloc, least, rest, 0)?)
}

fn size(by: i128) -> i128
    requires { is_small by ≡ true }
    ensures { result ≡ pos (unsigned_abs by) }
{
    by.unsigned_abs() as i128
}

/// The sign of the remainder, which is smaller than the divisor in size.
fn sign_of_remainder(alloc: Global, of: &Term, by: i128) -> Result<Form, AllocError>
    requires { is_small by ≡ true }
    ensures { IfOk result (λ made. made ≡ either
        (both (at_most (number (pos 0)) of.now) (between (pos 0) (remainder of.now (number by)) (pos (unsigned_abs by) -ℤ pos 1)))
        (both (at_most of.now (number (negsuc 0))) (between (pos 1 -ℤ pos (unsigned_abs by)) (remainder of.now (number by)) (pos 0)))) }
{
    let size = size(by);
    let rest = remainder(alloc, of, by)?;
    let positive = up(alloc, of, &rest, size - 1)?;
    Form::either(positive, down(alloc, of, &rest, 1 - size)?)
}

fn division(alloc: Global, of: &Term, by: i128) -> Result<Vec<Fact>, AllocError>
    requires { is_small by ≡ true }
    ensures { IfOk result (λ made. made.items ≡ map fact.Plain (division of.now by)) }
{
    let parts = is_of_parts(alloc, of, by)?;
    pair(alloc, parts, sign_of_remainder(alloc, of, by)?)
}

/// What Divide adds.
pub(crate) fn divide(
    alloc: Global,
    place: u32,
    form: &Form,
) -> Result<Option<Vec<Vec<Fact>>>, AllocError>
    ensures { IfOk result (λ made. option_map seen made ≡ as_facts (divide place form.now)) }
{
    let Some((of, by)) = division_at(alloc, form, place)? else {
        return Ok(None);
    };
    if !is_small(alloc, by) {
        return Ok(None);
    }
    let facts = division(alloc, &of, by)?;
    Ok(Some(one_child(alloc, facts)?))
}

#[tactic(auto, using(crate::proofs::SizeLaws::small_numbers))]
pub(crate) fn is_small(alloc: Global, number: i128) -> bool
    ensures { result ≡ is_small number }
{
    number_row(alloc, number).fits()
}

//! What is known of the elements of arrays at the start of a program.

ghost use Rattle.std.specs.Prelude.{◌≡◌, ◌++◌, IfOk, OnOk, length, pos};
ghost use Rattle.std.specs.Ordering.{int_eq};
ghost use Rattle.terms.specs.Trees.{number, name, read, array, equal};
ghost use Rattle.expression_conditions.specs.Meanings.{current};
ghost use Rattle.loop_invariants.specs.EntryNames.{bound};
ghost use Rattle.weakest_preconditions.specs.Conditions.{elements_are};
ghost use Rattle.initial_conditions.specs.Code.Elements as spec;

use c_lang::Name;
use name_changes::{bound, current};
use std::alloc::{AllocError, Global};
use terms::{ArrayTerm, Fact, Form, Term};

fn is_zero(element: &i32) -> bool
    ensures { result ≡ int_eq element.now (pos 0) }
{
    *element == 0
}

// The elements up to the last one that isn't 0.
fn without_trailing_zeros(elements: &[i32]) -> &[i32]
    ensures { result.now ≡ spec.without_trailing_zeros elements.now }
{
    let mut kept = elements;
    while let Some((last, rest)) = kept.split_last() {
        if !is_zero(last) {
            return kept;
        }
        kept = rest;
    }
    kept
}

// The element at the place has this value.
fn element_is(alloc: Global, base: &Name, place: usize, value: &i32) -> Result<Fact, AllocError>
    ensures { IfOk result (λ made. made ≡ spec.element_is (current base.now) place value.now) }
{
    let row = ArrayTerm::base(alloc, current(alloc, base)?)?;
    let element = Term::read(row, Term::number(alloc, place as i128)?)?;
    let value = Term::number(alloc, i128::from(*value))?;
    Ok(Fact::Plain(Form::equal(element, value)?))
}

// Puts what each of the first elements is.
fn put_each(
    alloc: Global,
    out: &mut Vec<Fact>,
    base: &Name,
    elements: &[i32],
) -> Result<(), AllocError>
    ensures { OnOk result (out.new.items ≡ out.old.items ++ spec.each_is (current base.now) 0 elements.now) }
{
    let mut place = 0;
    while place < elements.len() {
        out.push(element_is(alloc, base, place, &elements[place])?)?;
        place += 1;
    }
    Ok(())
}

// The element at the bound number is 0.
fn bound_is_zero(alloc: Global, base: &Name) -> Result<Form, AllocError>
    ensures { IfOk result (λ made. made ≡ equal (read (array (current base.now)) (name bound)) (number (pos 0))) }
{
    let row = ArrayTerm::base(alloc, current(alloc, base)?)?;
    let element = Term::read(row, Term::name(alloc, bound(alloc)?)?)?;
    Form::equal(element, Term::number(alloc, 0)?)
}

// The elements from the place `first` on are 0.
fn others_are_zero(
    alloc: Global,
    base: &Name,
    first: usize,
    count: usize,
) -> Result<Fact, AllocError>
    ensures { IfOk result (λ made. made ≡ spec.others_are_zero (current base.now) first count) }
{
    let body = bound_is_zero(alloc, base)?;
    let lo = Term::number(alloc, first as i128)?;
    let hi = Term::number(alloc, count as i128)?;
    Ok(Fact::All {
        var: bound(alloc)?,
        lo,
        hi,
        body,
    })
}

/// Puts what the elements are: a fact for each up to the last one that isn't 0, and one for the others. The only error
/// is want of memory.
pub(crate) fn put_elements(
    alloc: Global,
    out: &mut Vec<Fact>,
    base: &Name,
    elements: &[i32],
) -> Result<(), AllocError>
    ensures { OnOk result
        (out.new.items ≡ out.old.items ++ elements_are (current base.now) (length elements.now) 0 elements.now) }
{
    let first = without_trailing_zeros(elements);
    put_each(alloc, out, base, first)?;
    out.push(others_are_zero(alloc, base, first.len(), elements.len())?)?;
    Ok(())
}

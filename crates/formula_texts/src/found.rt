//! What was read, and what is made of the parts.

ghost use Rattle.std.specs.Prelude.{◌≡◌, ◌<◌, ◌≤◌, ◌^◌, ◌+◌, Some, IfOk, if◌then◌else◌};
ghost use Rattle.terms.specs.Trees as tree;
ghost use Rattle.formula_texts.specs.Grammar as grammar;
ghost use Rattle.formula_texts.specs.Code.Reading as spec;
ghost use Rattle.formula_texts.specs.Code.Reading.{Gives};
ghost use Rattle.formula_texts.specs.Code.Seen.{seen, seen_row, IsInside};

use crate::apply::{apply, denied, element_of, negated, quotient, remainder, stored_of, truth_of};
use crate::front::after;
use crate::size::Size;
use crate::stop::Stop;
use crate::token::{Mark, Operator, Token};
use crate::value::Value;
use std::alloc::Global;
use terms::{ArrayTerm, Form, Sym, Term};

/// A form or a term, its size, and what follows it.
#[derive(Drop)]
pub struct Found<'a> {
    pub value: Value,
    pub size: Size,
    pub rest: &'a [Token],
}

/// An array, its size, and what follows it.
#[derive(Drop)]
pub struct FoundRow<'a> {
    pub row: ArrayTerm,
    pub size: Size,
    pub rest: &'a [Token],
}

pub const LEAF_SIZE: Size = Size {
    height: 1,
    brackets: 0,
    operators: 0,
};

/// One part higher, with so many brackets and operators more.
pub fn grown(brackets: u32, operators: u32, size: Size) -> Size
    requires height { size.height + 1 < 2 ^ 32 }
    requires brackets { size.brackets + brackets < 2 ^ 32 }
    requires operators { size.operators + operators < 2 ^ 32 }
    ensures { result ≡ grammar.grown brackets operators size }
{
    Size {
        height: size.height + 1,
        brackets: size.brackets + brackets,
        operators: size.operators + operators,
    }
}

pub fn larger(size: Size, other: Size) -> Size
    ensures { result ≡ grammar.larger size other }
{
    Size {
        height: size.height.max(other.height),
        brackets: size.brackets.max(other.brackets),
        operators: size.operators.max(other.operators),
    }
}

/// A form or a term that is one part.
pub fn leaf(value: Value, rest: &[Token]) -> Found<'_>
    ensures read { seen result ≡ spec.leaf value rest.now }
    ensures size { result.size ≡ grammar.leaf_size }
{
    Found {
        value,
        size: LEAF_SIZE,
        rest,
    }
}

/// A number.
pub fn number(alloc: Global, number: i128, rest: &[Token]) -> Result<Found<'_>, Stop>
    ensures read { Gives seen result (spec.number_leaf rest.now number) }
    ensures size { IfOk result (λ x. x.size ≡ grammar.leaf_size) }
{
    Ok(leaf(Value::Term(Term::number(alloc, number)?), rest))
}

/// A name.
pub fn name(alloc: Global, symbol: Sym, rest: &[Token]) -> Result<Found<'_>, Stop>
    ensures read { Gives seen result (Some (spec.leaf (Value.Term (tree.name symbol)) rest.now)) }
    ensures size { IfOk result (λ x. x.size ≡ grammar.leaf_size) }
{
    Ok(leaf(Value::Term(Term::name(alloc, symbol)?), rest))
}

/// The form that always holds, or the one that never does.
pub fn constant(alloc: Global, holds: bool, rest: &[Token]) -> Result<Found<'_>, Stop>
    ensures read { Gives seen result (Some (spec.leaf (Value.Form (if holds then tree.always else tree.never)) rest.now)) }
    ensures size { IfOk result (λ x. x.size ≡ grammar.leaf_size) }
{
    let form = if holds {
        Form::always(alloc)?
    } else {
        Form::never(alloc)?
    };
    Ok(leaf(Value::Form(form), rest))
}

/// An array's name.
pub fn array_leaf(alloc: Global, symbol: Sym, rest: &[Token]) -> Result<FoundRow<'_>, Stop>
    ensures read { Gives seen_row result (Some (spec.array_leaf (symbol, rest.now))) }
    ensures size { IfOk result (λ x. x.size ≡ grammar.leaf_size) }
{
    Ok(FoundRow {
        row: ArrayTerm::base(alloc, symbol)?,
        size: LEAF_SIZE,
        rest,
    })
}

/// The part behind which this mark has to stand.
pub fn closed(mark: Mark, found: Found<'_>) -> Result<Found<'_>, Stop>
    ensures read { Gives seen result (spec.closed mark (seen found.entry)) }
    ensures size { IfOk result (λ x. x.size ≡ found.entry.size) }
{
    Ok(Found {
        rest: after(mark, found.rest)?,
        value: found.value,
        size: found.size,
    })
}

/// A term with a sign.
pub fn negation(alloc: Global, found: Found<'_>) -> Result<Found<'_>, Stop>
    requires height { found.size.height + 1 < 2 ^ 32 }
    requires small { IsInside found.size }
    ensures read { Gives seen result (spec.around 0 1 grammar.negated (seen found.entry)) }
    ensures size { IfOk result (λ x. x.size ≡ grammar.grown 0 1 found.entry.size) }
{
    Ok(Found {
        value: negated(alloc, found.value)?,
        size: grown(0, 1, found.size),
        rest: found.rest,
    })
}

/// A form that is denied.
pub fn denial(found: Found<'_>) -> Result<Found<'_>, Stop>
    requires height { found.size.height + 1 < 2 ^ 32 }
    requires small { IsInside found.size }
    ensures read { Gives seen result (spec.around 0 1 grammar.denied (seen found.entry)) }
    ensures size { IfOk result (λ x. x.size ≡ grammar.grown 0 1 found.entry.size) }
{
    Ok(Found {
        value: denied(found.value)?,
        size: grown(0, 1, found.size),
        rest: found.rest,
    })
}

/// The truth of a form.
pub fn truth(found: Found<'_>) -> Result<Found<'_>, Stop>
    requires height { found.size.height + 1 < 2 ^ 32 }
    requires small { IsInside found.size }
    ensures read { Gives seen result (spec.around 1 1 grammar.truth_of (seen found.entry)) }
    ensures size { IfOk result (λ x. x.size ≡ grammar.grown 1 1 found.entry.size) }
{
    Ok(Found {
        value: truth_of(found.value)?,
        size: grown(1, 1, found.size),
        rest: found.rest,
    })
}

/// What stands in brackets.
pub fn in_brackets(found: Found<'_>) -> Found<'_>
    requires height { found.size.height + 1 < 2 ^ 32 }
    requires small { IsInside found.size }
    ensures read { Some (seen result) ≡ spec.around 1 0 (λ v. Some v) (seen found.entry) }
    ensures size { result.size ≡ grammar.grown 1 0 found.entry.size }
{
    Found {
        value: found.value,
        size: grown(1, 0, found.size),
        rest: found.rest,
    }
}

/// Two parts with an operator between.
pub fn join<'a>(
    alloc: Global,
    operator: Operator,
    left: Found<'_>,
    right: Found<'a>,
) -> Result<Found<'a>, Stop>
    requires left { left.size.height + 1 < 2 ^ 32 }
    requires right { right.size.height + 1 < 2 ^ 32 }
    requires small { IsInside left.size × IsInside right.size }
    ensures read { Gives seen result (spec.pair 0 (grammar.apply operator) (seen left.entry) (seen right.entry)) }
    ensures size { IfOk result (λ x. x.size ≡ grammar.grown 0 1 (grammar.larger left.entry.size right.entry.size)) }
{
    Ok(Found {
        value: apply(alloc, operator, left.value, right.value)?,
        size: grown(0, 1, larger(left.size, right.size)),
        rest: right.rest,
    })
}

/// A quotient in brackets.
pub fn divided<'a>(left: Found<'_>, right: Found<'a>) -> Result<Found<'a>, Stop>
    requires left { left.size.height + 1 < 2 ^ 32 }
    requires right { right.size.height + 1 < 2 ^ 32 }
    requires small { IsInside left.size × IsInside right.size }
    ensures read { Gives seen result (spec.pair 1 (grammar.of_terms (grammar.term tree.divided)) (seen left.entry) (seen right.entry)) }
    ensures size { IfOk result (λ x. x.size ≡ grammar.grown 1 1 (grammar.larger left.entry.size right.entry.size)) }
{
    Ok(Found {
        value: quotient(left.value, right.value)?,
        size: grown(1, 1, larger(left.size, right.size)),
        rest: right.rest,
    })
}

/// A remainder in brackets.
pub fn with_remainder<'a>(left: Found<'_>, right: Found<'a>) -> Result<Found<'a>, Stop>
    requires left { left.size.height + 1 < 2 ^ 32 }
    requires right { right.size.height + 1 < 2 ^ 32 }
    requires small { IsInside left.size × IsInside right.size }
    ensures read { Gives seen result (spec.pair 1 (grammar.of_terms (grammar.term tree.remainder)) (seen left.entry) (seen right.entry)) }
    ensures size { IfOk result (λ x. x.size ≡ grammar.grown 1 1 (grammar.larger left.entry.size right.entry.size)) }
{
    Ok(Found {
        value: remainder(left.value, right.value)?,
        size: grown(1, 1, larger(left.size, right.size)),
        rest: right.rest,
    })
}

/// An element of an array.
pub fn indexed<'a>(row: FoundRow<'_>, index: Found<'a>) -> Result<Found<'a>, Stop>
    requires row { row.size.height + 1 < 2 ^ 32 }
    requires index { index.size.height + 1 < 2 ^ 32 }
    requires small { IsInside row.size × IsInside index.size }
    ensures read { Gives seen result (spec.indexed (seen_row row.entry) (seen index.entry)) }
    ensures size { IfOk result (λ x. x.size ≡ grammar.larger (grammar.grown 0 0 row.entry.size) (grammar.grown 1 1 index.entry.size)) }
{
    let size = larger(grown(0, 0, row.size), grown(1, 1, index.size));
    Ok(Found {
        value: element_of(row.row, index.value)?,
        size,
        rest: index.rest,
    })
}

/// An array with a value stored in it.
pub fn store<'a>(
    row: FoundRow<'_>,
    index: Found<'_>,
    value: Found<'a>,
) -> Result<FoundRow<'a>, Stop>
    requires row { row.size.height + 1 < 2 ^ 32 }
    requires index { index.size.height + 1 < 2 ^ 32 }
    requires value { value.size.height + 1 < 2 ^ 32 }
    requires small { IsInside row.size × IsInside index.size × IsInside value.size }
    ensures read { Gives seen_row result (spec.store (seen_row row.entry) (seen index.entry) (seen value.entry)) }
    ensures size { IfOk result (λ x. x.size ≡ grammar.grown 1 1 (grammar.larger row.entry.size (grammar.larger index.entry.size value.entry.size))) }
{
    let size = grown(1, 1, larger(row.size, larger(index.size, value.size)));
    Ok(FoundRow {
        row: stored_of(row.row, index.value, value.value)?,
        size,
        rest: value.rest,
    })
}

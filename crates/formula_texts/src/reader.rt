//! Reads forms and terms by descent: each level down has one less of the height that is left.

ghost use Rattle.std.specs.Prelude.{◌≡◌, ◌<◌, ◌^◌, ◌+◌, max, IfOk};
ghost use Rattle.formula_texts.specs.Grammar.{leaf_size};
ghost use Rattle.formula_texts.specs.Code.Reading as spec;
ghost use Rattle.formula_texts.specs.Code.Reading.{Gives};
ghost use Rattle.formula_texts.specs.Code.Seen.{seen, seen_row, IsWithin};

use crate::found::{
    Found, FoundRow, array_leaf, closed, constant, denial, divided, in_brackets, indexed, join,
    name, negation, number, store, truth, with_remainder,
};
use crate::front::{after, level, name_after, natural, next_operator, skip};
use crate::stop::Stop;
use crate::token::{Mark, Operator, Token};
use c_lang::Name;
use std::alloc::Global;
use terms::Sym;

/// How tightly `not` binds.
const NOT_LEVEL: u8 = 3;

/// How tightly a sign binds.
const SIGN_LEVEL: u8 = 7;

fn natural_leaf(alloc: Global, value: i128, rest: &[Token]) -> Result<Found<'_>, Stop>
    ensures read { Gives seen result (spec.natural_leaf value rest.now) }
    ensures size { IfOk result (λ x. x.size ≡ leaf_size) }
{
    match natural(value) {
        Some(value) => number(alloc, value, rest),
        None => Err(Stop::NoText),
    }
}

/// A number behind its sign.
fn negative(alloc: Global, tokens: &[Token]) -> Result<Found<'_>, Stop>
    ensures read { Gives seen result (spec.negative_leaf tokens.now) }
    ensures size { IfOk result (λ x. x.size ≡ leaf_size) }
{
    let [first, rest @ ..] = tokens else {
        return Err(Stop::NoText);
    };
    match first {
        Token::Number(value) => match natural(*value) {
            Some(value) => number(alloc, -value, rest),
            None => Err(Stop::NoText),
        },
        _ => Err(Stop::NoText),
    }
}

/// An element of an array, behind `[`.
#[cycle(expression)]
fn index_at<'a>(
    alloc: Global,
    below: u32,
    row: FoundRow<'_>,
    tokens: &'a [Token],
) -> Result<Found<'a>, Stop>
    requires room { below + 1 < 2 ^ 32 }
    requires row { IsWithin (max 1 below) row.size }
    ensures read { Gives seen result (spec.index_at (spec.readers below).value (spec.readers below).row (seen_row row.entry) tokens.now) }
    ensures size { IfOk result (λ x. IsWithin (below + 1) x.size) }
{
    let index = closed(Mark::SquareClose, expression(alloc, below, 1, tokens)?)?;
    indexed(row, index)
}

/// A name, or an element of the array with this name.
#[cycle(expression)]
fn named<'a>(alloc: Global, below: u32, symbol: Sym, tokens: &'a [Token]) -> Result<Found<'a>, Stop>
    requires { below + 1 < 2 ^ 32 }
    ensures read { Gives seen result (spec.named (spec.readers below).value (spec.readers below).row (symbol, tokens.now)) }
    ensures size { IfOk result (λ x. IsWithin (below + 1) x.size) }
{
    match skip(Mark::SquareOpen, tokens) {
        Some(inside) => index_at(alloc, below, array_leaf(alloc, symbol, tokens)?, inside),
        None => name(alloc, symbol, tokens),
    }
}

/// What stands behind `(`.
#[cycle(expression)]
fn bracket(alloc: Global, below: u32, tokens: &[Token]) -> Result<Found<'_>, Stop>
    requires { below + 1 < 2 ^ 32 }
    ensures read { Gives seen result (spec.bracket_at (spec.readers below).value (spec.readers below).row tokens.now) }
    ensures size { IfOk result (λ x. IsWithin (below + 1) x.size) }
{
    let left = expression(alloc, below, 1, tokens)?;
    if let Some(rest) = skip(Mark::Slash, left.rest) {
        let right = closed(Mark::RoundClose, expression(alloc, below, 1, rest)?)?;
        return divided(left, right);
    }
    if let Some(rest) = skip(Mark::Percent, left.rest) {
        let right = closed(Mark::RoundClose, expression(alloc, below, 1, rest)?)?;
        return with_remainder(left, right);
    }
    Ok(in_brackets(closed(Mark::RoundClose, left)?))
}

/// The truth of a form, behind `$truth`.
#[cycle(expression)]
fn truth_at(alloc: Global, below: u32, tokens: &[Token]) -> Result<Found<'_>, Stop>
    requires { below + 1 < 2 ^ 32 }
    ensures read { Gives seen result (spec.truth_at (spec.readers below).value (spec.readers below).row tokens.now) }
    ensures size { IfOk result (λ x. IsWithin (below + 1) x.size) }
{
    let inside = after(Mark::RoundOpen, tokens)?;
    truth(closed(Mark::RoundClose, expression(alloc, below, 1, inside)?)?)
}

/// An array that is stored to, behind `$store`.
#[cycle(expression)]
#[tactic(auto, unfolding(crate::specs::Code::Reading::store_at))]
fn store_at(alloc: Global, below: u32, tokens: &[Token]) -> Result<FoundRow<'_>, Stop>
    requires { below + 1 < 2 ^ 32 }
    ensures read { Gives seen_row result (spec.store_at (spec.readers below).value (spec.readers below).row tokens.now) }
    ensures size { IfOk result (λ x. IsWithin (below + 1) x.size) }
{
    let row = array(alloc, below, after(Mark::RoundOpen, tokens)?)?;
    let index = expression(alloc, below, 1, after(Mark::Comma, row.rest)?)?;
    let value = expression(alloc, below, 1, after(Mark::Comma, index.rest)?)?;
    store(row, index, closed(Mark::RoundClose, value)?)
}

/// An element of an array that is stored to.
#[cycle(expression)]
fn element_at(alloc: Global, below: u32, tokens: &[Token]) -> Result<Found<'_>, Stop>
    requires { below + 1 < 2 ^ 32 }
    ensures read { Gives seen result (spec.element_at (spec.readers below).value (spec.readers below).row tokens.now) }
    ensures size { IfOk result (λ x. IsWithin (below + 1) x.size) }
{
    let row = array(alloc, below, tokens)?;
    let inside = after(Mark::SquareOpen, row.rest)?;
    index_at(alloc, below, row, inside)
}

/// What stands behind an operator that no part stands before.
#[cycle(expression)]
fn signed(
    alloc: Global,
    below: u32,
    operator: Operator,
    tokens: &[Token],
) -> Result<Found<'_>, Stop>
    requires { below + 1 < 2 ^ 32 }
    ensures read { Gives seen result (spec.operator_by (spec.readers below).value (spec.readers below).row operator tokens.now) }
    ensures size { IfOk result (λ x. IsWithin (below + 1) x.size) }
{
    match operator {
        Operator::Minus => negation(alloc, expression(alloc, below, SIGN_LEVEL, tokens)?),
        Operator::TightMinus => negative(alloc, tokens),
        _ => Err(Stop::NoText),
    }
}

/// A part without an operator between.
#[cycle(expression)]
#[tactic(auto, unfolding(crate::specs::Code::Reading::operand))]
fn operand(alloc: Global, below: u32, least: u8, tokens: &[Token]) -> Result<Found<'_>, Stop>
    requires { below + 1 < 2 ^ 32 }
    ensures read { Gives seen result (spec.operand (spec.readers below).value (spec.readers below).row least tokens.now) }
    ensures size { IfOk result (λ x. IsWithin (below + 1) x.size) }
{
    let [first, rest @ ..] = tokens else {
        return Err(Stop::NoText);
    };
    match first {
        Token::Number(value) => natural_leaf(alloc, *value, rest),
        Token::Base(base) => based(alloc, below, base, rest),
        Token::Null => number(alloc, 0, rest),
        Token::True => constant(alloc, true, rest),
        Token::False => constant(alloc, false, rest),
        Token::Truth => truth_at(alloc, below, rest),
        Token::Store => element_at(alloc, below, tokens),
        Token::Not => not_at(alloc, below, least, rest),
        Token::Operator(operator) => signed(alloc, below, *operator, rest),
        Token::Mark(Mark::RoundOpen) => bracket(alloc, below, rest),
        Token::Mark(_) | Token::Count(_) => Err(Stop::NoText),
    }
}

/// A name with what may stand behind it.
#[cycle(expression)]
fn based<'a>(alloc: Global, below: u32, base: &Name, tokens: &'a [Token]) -> Result<Found<'a>, Stop>
    requires { below + 1 < 2 ^ 32 }
    ensures read { Gives seen result (spec.named (spec.readers below).value (spec.readers below).row (spec.name_after base.now tokens.now)) }
    ensures size { IfOk result (λ x. IsWithin (below + 1) x.size) }
{
    let (symbol, rest) = name_after(alloc, base, tokens)?;
    named(alloc, below, symbol, rest)
}

/// A form that is denied, behind `not`.
#[cycle(expression)]
fn not_at(alloc: Global, below: u32, least: u8, tokens: &[Token]) -> Result<Found<'_>, Stop>
    requires { below + 1 < 2 ^ 32 }
    ensures read { Gives seen result (spec.not_at (spec.readers below).value (spec.readers below).row least tokens.now) }
    ensures size { IfOk result (λ x. IsWithin (below + 1) x.size) }
{
    if least > NOT_LEVEL {
        return Err(Stop::NoText);
    }
    denial(expression(alloc, below, NOT_LEVEL, tokens)?)
}

/// An array at most `deep` high.
#[cycle(expression)]
#[tactic(auto, unfolding(crate::specs::Code::Reading::readers, crate::specs::Code::Reading::array_at))]
fn array(alloc: Global, deep: u32, tokens: &[Token]) -> Result<FoundRow<'_>, Stop>
    ensures read { Gives seen_row result ((spec.readers deep).row tokens.now) }
    ensures size { IfOk result (λ x. IsWithin deep x.size) }
{
    if deep == 0 {
        return Err(Stop::NoText);
    }
    let [first, rest @ ..] = tokens else {
        return Err(Stop::NoText);
    };
    match first {
        Token::Base(base) => {
            let (symbol, rest) = name_after(alloc, base, rest)?;
            array_leaf(alloc, symbol, rest)
        }
        Token::Store => store_at(alloc, deep - 1, rest),
        _ => Err(Stop::NoText),
    }
}

/// A form or a term at most `deep` high, with operators of at least this level outside brackets.
#[cycle(expression)]
#[tactic(auto, unfolding(crate::specs::Code::Reading::readers))]
pub fn expression(alloc: Global, deep: u32, least: u8, tokens: &[Token]) -> Result<Found<'_>, Stop>
    ensures read { Gives seen result ((spec.readers deep).value least tokens.now) }
    ensures size { IfOk result (λ x. IsWithin deep x.size) }
{
    if deep == 0 {
        return Err(Stop::NoText);
    }
    let mut left = operand(alloc, deep - 1, least, tokens)?;
    while let Some((operator, rest)) = next_operator(left.rest) {
        if level(operator) < least {
            break;
        }
        if left.size.height >= deep {
            return Err(Stop::NoText);
        }
        let right = expression(alloc, deep - 1, level(operator) + 1, rest)?;
        left = join(alloc, operator, left, right)?;
    }
    Ok(left)
}

//! Globals, behind their name or their pointer.

ghost use Rattle.std.specs.Prelude.{[], ◌≡◌, ◌<◌, ◌≤◌, ◌+◌, ◌^◌, length, IfOk, OnOk};
ghost use Rattle.c_expressions.specs.Code.ParseSteps.{Gives, separated};
ghost use Rattle.c_parser.specs.Code.UnitReading as spec;
ghost use Rattle.c_grammar.specs.Units as units;

use crate::parts::{Parts, arity_refusals, array_refusals};
use c_expressions::front::{after, name_at, number_at, skip};
use c_expressions::parse_error::ParseError;
use c_expressions::pointer::pointer_at;
use c_lang::{GlobalVar, Name, Pos, Refusal, Shape};
use c_lexer::{Token, punctuator};
use sqlite_items::Items;
use std::alloc::{AllocError, Global};

// A number with or without a sign.
#[tactic(auto, unfolding(crate::specs::Code::UnitReading::signed_at))]
fn signed_at(tokens: &[Token]) -> Result<(i32, &[Token]), ParseError>
    ensures read { Gives (λ x. (x.0, x.1.now)) result (spec.signed_at tokens.now) }
    ensures rest { IfOk result (λ x. length x.1.now < length tokens.now) }
{
    match skip(punctuator::MINUS, tokens) {
        Some(digits) => {
            let Some((number, rest)) = number_at(digits) else {
                return Err(ParseError::Syntax(digits.len()));
            };
            Ok((-(number as i32), rest))
        }
        None => {
            let Some((number, rest)) = number_at(tokens) else {
                return Err(ParseError::Syntax(tokens.len()));
            };
            Ok((number as i32, rest))
        }
    }
}

fn add_number(
    alloc: Global,
    parts: &mut Parts,
    pos: Pos,
    name: &Name,
    value: i32,
) -> Result<(), AllocError>
    ensures { OnOk result (parts.new ≡ units.with_number parts.old pos name.now value) }
{
    let global = GlobalVar {
        name: name.copy(alloc)?,
        shape: Shape::Int(value),
        pos,
    };
    parts.add_global(global, 1, Items::new(alloc))
}

// An `int`'s initial value, behind its name.
#[tactic(auto, unfolding(crate::specs::Code::UnitReading::initial_at))]
fn initial_at(tokens: &[Token]) -> Result<(i32, &[Token]), ParseError>
    ensures read { Gives (λ x. (x.0, x.1.now)) result (spec.initial_at tokens.now) }
    ensures rest { IfOk result (λ x. length x.1.now ≤ length tokens.now) }
{
    match skip(punctuator::EQUALS, tokens) {
        Some(given) => signed_at(given),
        None => Ok((0, tokens)),
    }
}

/// An `int`, behind its name.
#[tactic(auto, unfolding(crate::specs::Code::UnitReading::number_global))]
pub fn number_global<'a>(
    alloc: Global,
    parts: &mut Parts,
    pos: Pos,
    name: &Name,
    tokens: &'a [Token],
) -> Result<&'a [Token], ParseError>
    ensures read { Gives (λ rest. (parts.new, rest.now)) result (spec.number_global parts.old pos name.now tokens.now) }
    ensures rest { IfOk result (λ rest. length rest.now < length tokens.now) }
{
    let (value, end) = initial_at(tokens)?;
    let rest = after(punctuator::SEMICOLON, end)?;
    add_number(alloc, parts, pos, name, value)?;
    Ok(rest)
}

fn value<'a>(values: &mut Items<i32>, tokens: &'a [Token]) -> Result<&'a [Token], ParseError>
    ensures read { Gives (λ rest. (values.new, rest.now)) result (spec.value values.old tokens.now) }
    ensures rest { IfOk result (λ rest. length rest.now < length tokens.now) }
{
    let (number, rest) = signed_at(tokens)?;
    values.push(number)?;
    Ok(rest)
}

fn values(alloc: Global, tokens: &[Token]) -> Result<(Items<i32>, &[Token]), ParseError>
    ensures read { Gives (λ x. (x.0, x.1.now)) result (separated spec.value (length tokens.now + 1) [] tokens.now) }
    ensures rest { IfOk result (λ x. length x.1.now < length tokens.now) }
{
    let mut all = Items::new(alloc);
    let mut rest = tokens;
    loop {
        let next = value(&mut all, rest)?;
        match skip(punctuator::COMMA, next) {
            None => return Ok((all, next)),
            Some(others) => rest = others,
        }
    }
}

// An array's initializers, behind its length.
#[tactic(auto, unfolding(crate::specs::Code::UnitReading::values_at))]
fn values_at(alloc: Global, tokens: &[Token]) -> Result<(Items<i32>, &[Token]), ParseError>
    ensures read { Gives (λ x. (x.0, x.1.now)) result (spec.values_at tokens.now) }
    ensures rest { IfOk result (λ x. length x.1.now ≤ length tokens.now) }
{
    match skip(punctuator::EQUALS, tokens) {
        Some(given) => {
            let inside = after(punctuator::BRACE_OPEN, given)?;
            let (all, closing) = values(alloc, inside)?;
            Ok((all, after(punctuator::BRACE_CLOSE, closing)?))
        }
        None => Ok((Items::new(alloc), tokens)),
    }
}

// The initializers and then zeros, or nothing where the array is refused.
fn kept_values(
    alloc: Global,
    early: &Items<Refusal>,
    size: u32,
    values: Items<i32>,
) -> Result<Items<i32>, AllocError>
    ensures { IfOk result (λ x. x ≡ units.kept_values early.now size values) }
{
    if !early.is_empty() {
        return Ok(Items::new(alloc));
    }
    let missing = (size as usize).saturating_sub(values.len());
    let zeros = vec![in alloc; 0; missing]?;
    let mut kept = values;
    kept.append(Items::from_vec(zeros))?;
    Ok(kept)
}

fn add_array(
    alloc: Global,
    parts: &mut Parts,
    pos: Pos,
    name: &Name,
    size: u32,
    values: Items<i32>,
) -> Result<(), AllocError>
    ensures { OnOk result (parts.new ≡ units.with_array parts.old pos name.now size values) }
{
    let early = array_refusals(alloc, pos, parts.room(), size, values.len())?;
    let kept = kept_values(alloc, &early, size, values)?;
    let global = GlobalVar {
        name: name.copy(alloc)?,
        shape: Shape::Arr(kept),
        pos,
    };
    parts.add_global(global, size, early)
}

/// An array, behind its opening bracket.
#[tactic(auto, unfolding(crate::specs::Code::UnitReading::array_global))]
pub fn array_global<'a>(
    alloc: Global,
    parts: &mut Parts,
    pos: Pos,
    name: &Name,
    tokens: &'a [Token],
) -> Result<&'a [Token], ParseError>
    ensures read { Gives (λ rest. (parts.new, rest.now)) result (spec.array_global parts.old pos name.now tokens.now) }
    ensures rest { IfOk result (λ rest. length rest.now < length tokens.now) }
{
    let Some((size, closing)) = number_at(tokens) else {
        return Err(ParseError::Syntax(tokens.len()));
    };
    let start = after(punctuator::SQUARE_CLOSE, closing)?;
    let (values, end) = values_at(alloc, start)?;
    let rest = after(punctuator::SEMICOLON, end)?;
    add_array(alloc, parts, pos, name, size, values)?;
    Ok(rest)
}

fn zero_at(tokens: &[Token]) -> Result<&[Token], ParseError>
    ensures read { Gives (λ x. x.now) result (spec.zero_at tokens.now) }
    ensures rest { IfOk result (λ x. length x.now < length tokens.now) }
{
    match number_at(tokens) {
        Some((0, rest)) => Ok(rest),
        _ => Err(ParseError::Syntax(tokens.len())),
    }
}

// A pointer's initial value, behind the pointer.
#[tactic(auto, unfolding(crate::specs::Code::UnitReading::target_at))]
fn target_at(alloc: Global, tokens: &[Token]) -> Result<(Option<Name>, &[Token]), ParseError>
    ensures read { Gives (λ x. (x.0, x.1.now)) result (spec.target_at tokens.now) }
    ensures rest { IfOk result (λ x. length x.1.now ≤ length tokens.now) }
{
    let Some(given) = skip(punctuator::EQUALS, tokens) else {
        return Ok((None, tokens));
    };
    match name_at(given) {
        Some((name, rest)) => Ok((Some(name.copy(alloc)?), rest)),
        None => Ok((None, zero_at(given)?)),
    }
}

fn add_pointer(
    alloc: Global,
    parts: &mut Parts,
    pos: Pos,
    name: &Name,
    arity: u8,
    target: Option<Name>,
) -> Result<(), AllocError>
    ensures { OnOk result (parts.new ≡ units.with_pointer parts.old pos name.now arity target) }
{
    let early = arity_refusals(alloc, pos, arity)?;
    let global = GlobalVar {
        name: name.copy(alloc)?,
        shape: Shape::Fp(arity, target),
        pos,
    };
    parts.add_global(global, 1, early)
}

/// A pointer, behind its `int`.
#[tactic(auto, unfolding(crate::specs::Code::UnitReading::pointer_global))]
pub fn pointer_global<'a>(
    alloc: Global,
    parts: &mut Parts,
    pos: Pos,
    tokens: &'a [Token],
) -> Result<&'a [Token], ParseError>
    ensures read { Gives (λ rest. (parts.new, rest.now)) result (spec.pointer_global parts.old pos tokens.now) }
    ensures rest { IfOk result (λ rest. length rest.now < length tokens.now) }
{
    let pointer = pointer_at(tokens)?;
    let (target, end) = target_at(alloc, pointer.rest)?;
    let rest = after(punctuator::SEMICOLON, end)?;
    add_pointer(alloc, parts, pos, pointer.name, pointer.arity, target)?;
    Ok(rest)
}

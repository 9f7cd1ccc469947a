//! The declarations of a unit.

ghost use Rattle.std.specs.Prelude.{◌≡◌, ◌<◌, ◌+◌, length, IfOk};
ghost use Rattle.c_expressions.specs.Code.ParseSteps.{Gives};
ghost use Rattle.c_parser.specs.Code.UnitReading as spec;
ghost use Rattle.c_grammar.specs.Units as units;

use crate::functions::{Head, headed};
use crate::globals::{array_global, number_global, pointer_global};
use crate::parts::Parts;
use c_expressions::front::{after, name_at, skip};
use c_expressions::parse_error::ParseError;
use c_lang::{Name, Pos, Program, Unit};
use c_lexer::{Token, Word, keyword, punctuator};
use std::alloc::Global;

// A declaration that begins with `int` and a name, behind the name.
fn named<'a>(
    alloc: Global,
    unit: Unit,
    deep: u32,
    parts: &mut Parts,
    pos: Pos,
    name: &Name,
    tokens: &'a [Token],
) -> Result<&'a [Token], ParseError>
    ensures read { Gives (λ rest. (parts.new, rest.now)) result (spec.named unit deep parts.old pos name.now tokens.now) }
    ensures rest { IfOk result (λ rest. length rest.now < length tokens.now) }
{
    if let Some(inside) = skip(punctuator::ROUND_OPEN, tokens) {
        let head = Head {
            pos,
            gives: true,
            name,
        };
        return headed(alloc, unit, deep, parts, head, inside);
    }
    match skip(punctuator::SQUARE_OPEN, tokens) {
        Some(inside) => array_global(alloc, parts, pos, name, inside),
        None => number_global(alloc, parts, pos, name, tokens),
    }
}

// A declaration that begins with `int`, behind the keyword.
#[tactic(auto, unfolding(crate::specs::Code::UnitReading::int_external))]
fn int_external<'a>(
    alloc: Global,
    unit: Unit,
    deep: u32,
    parts: &mut Parts,
    pos: Pos,
    tokens: &'a [Token],
) -> Result<&'a [Token], ParseError>
    ensures read { Gives (λ rest. (parts.new, rest.now)) result (spec.int_external unit deep parts.old pos tokens.now) }
    ensures rest { IfOk result (λ rest. length rest.now < length tokens.now) }
{
    match name_at(tokens) {
        Some((name, rest)) => named(alloc, unit, deep, parts, pos, name, rest),
        None => pointer_global(alloc, parts, pos, tokens),
    }
}

// A declaration that begins with `void`, behind the keyword.
#[tactic(auto, unfolding(crate::specs::Code::UnitReading::void_external))]
fn void_external<'a>(
    alloc: Global,
    unit: Unit,
    deep: u32,
    parts: &mut Parts,
    pos: Pos,
    tokens: &'a [Token],
) -> Result<&'a [Token], ParseError>
    ensures read { Gives (λ rest. (parts.new, rest.now)) result (spec.void_external unit deep parts.old pos tokens.now) }
    ensures rest { IfOk result (λ rest. length rest.now < length tokens.now) }
{
    let Some((name, rest)) = name_at(tokens) else {
        return Err(ParseError::Syntax(tokens.len()));
    };
    let inside = after(punctuator::ROUND_OPEN, rest)?;
    let head = Head {
        pos,
        gives: false,
        name,
    };
    headed(alloc, unit, deep, parts, head, inside)
}

#[tactic(auto, unfolding(crate::specs::Code::UnitReading::external))]
fn external<'a>(
    alloc: Global,
    unit: Unit,
    deep: u32,
    parts: &mut Parts,
    tokens: &'a [Token],
) -> Result<&'a [Token], ParseError>
    ensures read { Gives (λ rest. (parts.new, rest.now)) result (spec.external unit deep parts.old tokens.now) }
    ensures rest { IfOk result (λ rest. length rest.now < length tokens.now) }
{
    let [first, rest @ ..] = tokens else {
        return Err(ParseError::Syntax(0));
    };
    match &first.what {
        Word::Key(keyword::INT) => int_external(alloc, unit, deep, parts, first.pos, rest),
        Word::Key(keyword::VOID) => void_external(alloc, unit, deep, parts, first.pos, rest),
        _ => Err(ParseError::Syntax(tokens.len())),
    }
}

fn externals(alloc: Global, unit: Unit, deep: u32, tokens: &[Token]) -> Result<Parts, ParseError>
    ensures { Gives (λ x. x) result (spec.externals unit deep (length tokens.now + 1) (units.no_parts unit) tokens.now) }
{
    let mut parts = Parts::new(alloc, unit);
    let mut rest = tokens;
    while !rest.is_empty() {
        rest = external(alloc, unit, deep, &mut parts, rest)?;
    }
    Ok(parts)
}

/// The program of a unit, whose statements are at most `deep` high.
#[tactic(auto, unfolding(crate::specs::Code::UnitReading::unit_at))]
pub fn unit_at(
    alloc: Global,
    unit: Unit,
    deep: u32,
    tokens: &[Token],
) -> Result<Program, ParseError>
    ensures { Gives (λ x. x) result (spec.unit_at unit deep tokens.now) }
{
    let parts = externals(alloc, unit, deep, tokens)?;
    Ok(parts.program()?)
}

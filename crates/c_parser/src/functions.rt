//! Prototypes and functions, behind the opening bracket of their parameters.

ghost use Rattle.std.specs.Prelude.{[], ◌≡◌, ◌<◌, ◌≤◌, ◌+◌, ◌^◌, length, map, IfOk, OnOk};
ghost use Rattle.c_expressions.specs.Code.ParseSteps.{Gives};
ghost use Rattle.c_parser.specs.Code.UnitReading as spec;
ghost use Rattle.c_grammar.specs.Units as units;

use crate::params::{Param, Params, params_at};
use crate::parts::Parts;
use c_expressions::front::skip;
use c_expressions::parse_error::ParseError;
use c_lang::{Func, Kind, Name, Pos, Proto, Refusal, Stmt, Unit};
use c_lexer::{Token, punctuator};
use c_statements::scope::Scope;
use c_statements::statements::items;
use sqlite_items::Items;
use std::alloc::{AllocError, Global};

/// What stands before the parameters of a prototype or a function.
#[derive(Clone, Copy)]
pub struct Head<'a> {
    pub pos: Pos,
    pub gives: bool,
    pub name: &'a Name,
}

// The parameters of a function, which all have names; `left` tokens are behind them, the next one
// counted.
fn named_params(
    alloc: Global,
    params: &[Param],
    left: usize,
) -> Result<Items<(Kind, Name)>, ParseError>
    ensures { Gives (λ x. x) result (spec.named_params [] params.now) }
{
    let mut named = Items::new(alloc);
    for param in params {
        let Some(name) = &param.name else {
            return Err(ParseError::Syntax(left));
        };
        named.push((param.kind, name.copy(alloc)?))?;
    }
    Ok(named)
}

// What is declared where the body of a function begins.
fn body_start(
    alloc: Global,
    params: &[(Kind, Name)],
    early: Items<Refusal>,
) -> Result<Scope, AllocError>
    ensures scope { IfOk result (λ x. x ≡ units.body_start params.now early) }
    ensures count { IfOk result (λ x. x.count ≡ 0) }
{
    let mut scope = Scope::new(alloc, early);
    for param in params {
        scope.declare(alloc, &param.1)?;
    }
    Ok(scope)
}

// Adds a function to the declarations.
fn add_function(
    alloc: Global,
    parts: &mut Parts,
    head: Head<'_>,
    params: Items<(Kind, Name)>,
    body: Items<Stmt>,
    early: Items<Refusal>,
) -> Result<(), AllocError>
    ensures { OnOk result (parts.new ≡ units.with_func parts.old (record { name = head.entry.name.now; params = params; gives = head.entry.gives; body = body; pos = head.entry.pos }) early) }
{
    let func = Func {
        name: head.name.copy(alloc)?,
        params,
        gives: head.gives,
        body,
        pos: head.pos,
    };
    parts.add_func(func, early)
}

fn with_body<'a>(
    alloc: Global,
    unit: Unit,
    deep: u32,
    parts: &mut Parts,
    head: Head<'_>,
    params: Items<(Kind, Name)>,
    early: Items<Refusal>,
    tokens: &'a [Token],
) -> Result<&'a [Token], ParseError>
    ensures read { Gives (λ rest. (parts.new, rest.now)) result (spec.with_body unit deep parts.old head.entry.pos head.entry.gives head.entry.name.now params early tokens.now) }
    ensures rest { IfOk result (λ rest. length rest.now ≤ length tokens.now) }
{
    let mut scope = body_start(alloc, params.as_slice(), early)?;
    let body = items(alloc, unit, deep, false, &mut scope, tokens)?;
    add_function(alloc, parts, head, params, body.stmts, scope.early())?;
    Ok(body.rest)
}

#[tactic(auto, unfolding(crate::specs::Code::UnitReading::function_at))]
fn function_at<'a>(
    alloc: Global,
    unit: Unit,
    deep: u32,
    parts: &mut Parts,
    head: Head<'_>,
    params: Params,
    tokens: &'a [Token],
) -> Result<&'a [Token], ParseError>
    ensures read { Gives (λ rest. (parts.new, rest.now)) result (spec.function_at unit deep parts.old head.entry.pos head.entry.gives head.entry.name.now params tokens.now) }
    ensures rest { IfOk result (λ rest. length rest.now ≤ length tokens.now) }
{
    let left = tokens.len().saturating_add(1);
    let named = named_params(alloc, params.list.as_slice(), left)?;
    with_body(alloc, unit, deep, parts, head, named, params.early, tokens)
}

fn kinds_of(alloc: Global, params: &[Param]) -> Result<Items<Kind>, AllocError>
    ensures { IfOk result (λ x. x ≡ map (λ y. y.kind) params.now) }
{
    let mut kinds = Items::new(alloc);
    for param in params {
        kinds.push(param.kind)?;
    }
    Ok(kinds)
}

// Adds a prototype to the declarations.
fn add_prototype(
    alloc: Global,
    parts: &mut Parts,
    head: Head<'_>,
    params: Params,
) -> Result<(), AllocError>
    ensures { OnOk result (parts.new ≡ spec.with_prototype parts.old head.entry.pos head.entry.gives head.entry.name.now params) }
{
    let proto = Proto {
        name: head.name.copy(alloc)?,
        params: kinds_of(alloc, params.list.as_slice())?,
        gives: head.gives,
        pos: head.pos,
    };
    parts.add_proto(proto, params.early)
}

/// A prototype or a function, behind the opening bracket of its parameters.
#[tactic(auto, unfolding(crate::specs::Code::UnitReading::headed))]
pub fn headed<'a>(
    alloc: Global,
    unit: Unit,
    deep: u32,
    parts: &mut Parts,
    head: Head<'_>,
    tokens: &'a [Token],
) -> Result<&'a [Token], ParseError>
    ensures read { Gives (λ rest. (parts.new, rest.now)) result (spec.headed unit deep parts.old head.entry.pos head.entry.gives head.entry.name.now tokens.now) }
    ensures rest { IfOk result (λ rest. length rest.now < length tokens.now) }
{
    let (params, rest) = params_at(alloc, head.pos, tokens)?;
    if let Some(behind) = skip(punctuator::SEMICOLON, rest) {
        add_prototype(alloc, parts, head, params)?;
        return Ok(behind);
    }
    match skip(punctuator::BRACE_OPEN, rest) {
        Some(inside) => function_at(alloc, unit, deep, parts, head, params, inside),
        None => Err(ParseError::Syntax(rest.len())),
    }
}

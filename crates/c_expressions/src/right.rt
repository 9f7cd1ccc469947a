//! Right sides: an expression, or a call; and conditions.

ghost use Rattle.std.specs.Prelude.{◌≡◌, ◌≤◌, ◌<◌, ◌+◌, ◌-◌, ◌^◌, max, length, IfOk};
ghost use Rattle.c_expressions.specs.Code.ParseSteps.{Gives, separated};
ghost use Rattle.c_grammar.specs.Scopes as scopes;
ghost use Rattle.c_expressions.specs.Code.SideReading as spec;
ghost use Rattle.c_expressions.specs.Code.Seen.{seen, seen_args, seen_called, seen_side};

use crate::expressions::{Found, expression};
use crate::front::{after, number_at, skip};
use crate::parse_error::ParseError;
use c_grammar::{Call, Right};
use c_lang::{Expr, Name, Unit};
use c_lexer::{Token, Word, keyword, punctuator};
use sqlite_items::{Boxed, Items};
use std::alloc::Global;

/// Arguments, and the height of the highest part of their call, whose name has height 1.
#[derive(Drop)]
pub struct Args {
    pub exprs: Items<Expr>,
    pub height: u32,
}

#[derive(Drop)]
pub struct Called<'a> {
    pub call: Call,
    pub height: u32,
    pub rest: &'a [Token],
}

#[derive(Drop)]
pub struct Side<'a> {
    pub right: Right,
    pub height: u32,
    pub rest: &'a [Token],
}

pub fn is_merge(unit: Unit) -> bool
    ensures { result ≡ scopes.is_merge unit }
{
    matches!(unit, Unit::Merge)
}

fn argument<'a>(
    alloc: Global,
    below: u32,
    args: Args,
    tokens: &'a [Token],
) -> Result<(Args, &'a [Token]), ParseError>
    ensures read { Gives (λ x. (seen_args x.0, x.1.now)) result (spec.argument below (seen_args args) tokens.now) }
    ensures height { IfOk result (λ x. x.0.height ≤ max args.height below) }
    ensures rest { IfOk result (λ x. length x.1.now < length tokens.now) }
{
    let found = expression(alloc, below, 1, tokens)?;
    let mut exprs = args.exprs;
    exprs.push(found.expr.into_inner())?;
    let height = args.height.max(found.height);
    Ok((Args { exprs, height }, found.rest))
}

fn arguments(alloc: Global, below: u32, tokens: &[Token]) -> Result<(Args, &[Token]), ParseError>
    ensures read { Gives (λ x. (seen_args x.0, x.1.now)) result (separated (spec.argument below) (length tokens.now + 1) spec.no_args tokens.now) }
    ensures height { IfOk result (λ x. x.0.height ≤ max 1 below) }
    ensures rest { IfOk result (λ x. length x.1.now < length tokens.now) }
{
    let mut args = Args {
        exprs: Items::new(alloc),
        height: 1,
    };
    let mut rest = tokens;
    loop {
        let next = argument(alloc, below, args, rest)?;
        match skip(punctuator::COMMA, next.1) {
            None => return Ok(next),
            Some(others) => {
                args = next.0;
                rest = others;
            }
        }
    }
}

/// The call of a function, behind the opening bracket.
#[tactic(auto, unfolding(crate::specs::Code::SideReading::call_at))]
pub fn call_at<'a>(
    alloc: Global,
    below: u32,
    callee: &Name,
    tokens: &'a [Token],
) -> Result<Called<'a>, ParseError>
    ensures read { Gives seen_called result (spec.call_at below callee.now tokens.now) }
    ensures height { IfOk result (λ x. x.height ≤ below) }
    ensures rest { IfOk result (λ x. length x.rest.now < length tokens.now) }
{
    if below < 2 {
        return Err(ParseError::Syntax(tokens.len() + 1));
    }
    if let Some(rest) = skip(punctuator::ROUND_CLOSE, tokens) {
        return Ok(Called {
            call: Call::Function(callee.copy(alloc)?, Items::new(alloc)),
            height: 2,
            rest,
        });
    }
    let (args, tokens) = arguments(alloc, below - 1, tokens)?;
    let rest = after(punctuator::ROUND_CLOSE, tokens)?;
    Ok(Called {
        call: Call::Function(callee.copy(alloc)?, args.exprs),
        height: args.height + 1,
        rest,
    })
}

/// `client_in()`, behind its keyword.
#[tactic(auto, unfolding(crate::specs::Code::SideReading::input_at))]
pub fn input_at(below: u32, tokens: &[Token]) -> Result<Called<'_>, ParseError>
    ensures read { Gives seen_called result (spec.input_at below tokens.now) }
    ensures height { IfOk result (λ x. x.height ≤ below) }
    ensures rest { IfOk result (λ x. length x.rest.now < length tokens.now) }
{
    if below == 0 {
        return Err(ParseError::Syntax(tokens.len() + 1));
    }
    let inside = after(punctuator::ROUND_OPEN, tokens)?;
    let rest = after(punctuator::ROUND_CLOSE, inside)?;
    Ok(Called {
        call: Call::Input,
        height: 1,
        rest,
    })
}

/// `dsu_choice(k)`, behind its keyword.
#[tactic(auto, unfolding(crate::specs::Code::SideReading::choice_at))]
pub fn choice_at(unit: Unit, below: u32, tokens: &[Token]) -> Result<Called<'_>, ParseError>
    ensures read { Gives seen_called result (spec.choice_at unit below tokens.now) }
    ensures height { IfOk result (λ x. x.height ≤ below) }
    ensures rest { IfOk result (λ x. length x.rest.now < length tokens.now) }
{
    if !is_merge(unit) || below < 2 {
        return Err(ParseError::Syntax(tokens.len() + 1));
    }
    let inside = after(punctuator::ROUND_OPEN, tokens)?;
    let Some((k, closing)) = number_at(inside) else {
        return Err(ParseError::Syntax(inside.len()));
    };
    let rest = after(punctuator::ROUND_CLOSE, closing)?;
    Ok(Called {
        call: Call::Choice(k),
        height: 2,
        rest,
    })
}

fn value(alloc: Global, below: u32, tokens: &[Token]) -> Result<Side<'_>, ParseError>
    ensures read { Gives seen_side result (spec.value_at below tokens.now) }
    ensures height { IfOk result (λ x. x.height ≤ below) }
    ensures rest { IfOk result (λ x. length x.rest.now < length tokens.now) }
{
    let found = expression(alloc, below, 1, tokens)?;
    Ok(Side {
        right: Right::Value(found.expr),
        height: found.height,
        rest: found.rest,
    })
}

fn call_side(call: Called<'_>) -> Side<'_>
    ensures read { seen_side result ≡ record { right = Right.Call call.entry.call; height = call.entry.height; rest = call.entry.rest.now } }
    ensures height { result.height ≡ call.entry.height }
    ensures rest { result.rest.now ≡ call.entry.rest.now }
{
    Side {
        right: Right::Call(call.call),
        height: call.height,
        rest: call.rest,
    }
}

/// A right side that is at most `below` high.
#[tactic(auto, unfolding(crate::specs::Code::SideReading::right_side))]
pub fn right_side(
    alloc: Global,
    unit: Unit,
    below: u32,
    tokens: &[Token],
) -> Result<Side<'_>, ParseError>
    ensures read { Gives seen_side result (spec.right_side unit below tokens.now) }
    ensures height { IfOk result (λ x. x.height ≤ below) }
    ensures rest { IfOk result (λ x. length x.rest.now < length tokens.now) }
{
    let [first, rest @ ..] = tokens else {
        return Err(ParseError::Syntax(0));
    };
    match &first.what {
        Word::Ident(name) => match skip(punctuator::ROUND_OPEN, rest) {
            Some(inside) => Ok(call_side(call_at(alloc, below, name, inside)?)),
            None => value(alloc, below, tokens),
        },
        Word::Key(keyword::CLIENT_IN) => Ok(call_side(input_at(below, rest)?)),
        Word::Key(keyword::DSU_CHOICE) => Ok(call_side(choice_at(unit, below, rest)?)),
        Word::Key(_) => Err(ParseError::Syntax(tokens.len())),
        _ => value(alloc, below, tokens),
    }
}

/// An expression in the brackets of its statement.
#[tactic(auto, unfolding(crate::specs::Code::SideReading::condition))]
pub fn condition(alloc: Global, below: u32, tokens: &[Token]) -> Result<Found<'_>, ParseError>
    ensures read { Gives seen result (spec.condition below tokens.now) }
    ensures height { IfOk result (λ x. x.height ≤ below) }
    ensures rest { IfOk result (λ x. length x.rest.now < length tokens.now) }
{
    let inside = after(punctuator::ROUND_OPEN, tokens)?;
    let found = expression(alloc, below, 1, inside)?;
    let rest = after(punctuator::ROUND_CLOSE, found.rest)?;
    Ok(Found {
        expr: found.expr,
        height: found.height,
        rest,
    })
}

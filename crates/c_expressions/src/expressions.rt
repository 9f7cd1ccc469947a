//! Expressions, by descent: each level down has one less of the height that is left.

ghost use Rattle.std.specs.Prelude.{◌≡◌, ◌≤◌, ◌<◌, ◌+◌, ◌^◌, length, max, IfOk, IfSome, Some, option_map};
ghost use Rattle.c_expressions.specs.Code.ExpressionReading as spec;
ghost use Rattle.c_expressions.specs.Code.ParseSteps.{Gives};
ghost use Rattle.c_expressions.specs.Code.Seen.{seen};

use crate::front::{after, skip};
use crate::parse_error::ParseError;
use c_lang::{Expr, Name, Op};
use c_lexer::{Token, Word, punctuator};
use sqlite_items::Boxed;
use std::alloc::{AllocError, Global};

fn operator_of(word: &Word) -> Option<Op>
    ensures { result ≡ spec.operator_of word.now }
{
    match word {
        Word::Punct(punctuator::PLUS) => Some(Op::Add),
        Word::Punct(punctuator::MINUS) => Some(Op::Sub),
        Word::Punct(punctuator::STAR) => Some(Op::Mul),
        Word::Punct(punctuator::SLASH) => Some(Op::Div),
        Word::Punct(punctuator::PERCENT) => Some(Op::Rem),
        Word::Punct(punctuator::LESS) => Some(Op::Lt),
        Word::Punct(punctuator::GREATER) => Some(Op::Gt),
        Word::Punct(punctuator::AT_MOST) => Some(Op::Le),
        Word::Punct(punctuator::AT_LEAST) => Some(Op::Ge),
        Word::Punct(punctuator::SAME) => Some(Op::Eq),
        Word::Punct(punctuator::DIFFERENT) => Some(Op::Ne),
        Word::Punct(punctuator::AND) => Some(Op::And),
        Word::Punct(punctuator::OR) => Some(Op::Or),
        _ => None,
    }
}

fn next_operator(tokens: &[Token]) -> Option<(Op, &[Token])>
    ensures value { option_map (λ x. (x.0, x.1.now)) result ≡ spec.next_operator tokens.now }
    ensures rest { IfSome result (λ x. length x.1.now < length tokens.now) }
{
    let [first, rest @ ..] = tokens else {
        return None;
    };
    Some((operator_of(&first.what)?, rest))
}

/// An expression, its height, and what follows it.
#[derive(Drop)]
pub struct Found<'a> {
    pub expr: Boxed<Expr>,
    pub height: u32,
    pub rest: &'a [Token],
}

fn join<'a>(
    alloc: Global,
    op: Op,
    left: Found<'_>,
    right: Found<'a>,
) -> Result<Found<'a>, AllocError>
    requires left { left.height + 1 < 2 ^ 32 }
    requires right { right.height + 1 < 2 ^ 32 }
    ensures read { IfOk result (λ x. seen x ≡ spec.join op (seen left.entry) (seen right.entry)) }
    ensures height { IfOk result (λ x. x.height ≡ max left.entry.height right.entry.height + 1) }
    ensures rest { IfOk result (λ x. x.rest.now ≡ right.entry.rest.now) }
{
    let height = left.height.max(right.height) + 1;
    Ok(Found {
        expr: Boxed::new(alloc, Expr::Bin(op, left.expr, right.expr))?,
        height,
        rest: right.rest,
    })
}

fn negation(alloc: Global, found: Found<'_>) -> Result<Found<'_>, ParseError>
    requires { found.height + 1 < 2 ^ 32 }
    ensures read { Gives seen result (Some (spec.raise Expr.Neg (seen found.entry))) }
    ensures height { IfOk result (λ x. x.height ≡ found.entry.height + 1) }
    ensures rest { IfOk result (λ x. length x.rest.now ≤ length found.entry.rest.now) }
{
    Ok(Found {
        expr: Boxed::new(alloc, Expr::Neg(found.expr))?,
        height: found.height + 1,
        rest: found.rest,
    })
}

fn logical_not(alloc: Global, found: Found<'_>) -> Result<Found<'_>, ParseError>
    requires { found.height + 1 < 2 ^ 32 }
    ensures read { Gives seen result (Some (spec.raise Expr.Not (seen found.entry))) }
    ensures height { IfOk result (λ x. x.height ≡ found.entry.height + 1) }
    ensures rest { IfOk result (λ x. length x.rest.now ≤ length found.entry.rest.now) }
{
    Ok(Found {
        expr: Boxed::new(alloc, Expr::Not(found.expr))?,
        height: found.height + 1,
        rest: found.rest,
    })
}

fn in_brackets(found: Found<'_>) -> Result<Found<'_>, ParseError>
    requires { found.height + 1 < 2 ^ 32 }
    ensures read { Gives seen result (spec.closed 1 (spec.raise (λ a. a) (seen found.entry))) }
    ensures height { IfOk result (λ x. x.height ≡ found.entry.height + 1) }
    ensures rest { IfOk result (λ x. length x.rest.now ≤ length found.entry.rest.now) }
{
    Ok(Found {
        rest: after(punctuator::ROUND_CLOSE, found.rest)?,
        expr: found.expr,
        height: found.height + 1,
    })
}

fn element<'a>(alloc: Global, name: &Name, found: Found<'a>) -> Result<Found<'a>, ParseError>
    requires { found.height + 1 < 2 ^ 32 }
    ensures read { Gives seen result (spec.closed 5 (spec.raise (Expr.Elem name.now) (seen found.entry))) }
    ensures height { IfOk result (λ x. x.height ≡ found.entry.height + 1) }
    ensures rest { IfOk result (λ x. length x.rest.now ≤ length found.entry.rest.now) }
{
    let rest = after(punctuator::SQUARE_CLOSE, found.rest)?;
    Ok(Found {
        expr: Boxed::new(alloc, Expr::Elem(name.copy(alloc)?, found.expr))?,
        height: found.height + 1,
        rest,
    })
}

fn leaf(alloc: Global, expr: Expr, rest: &[Token]) -> Result<Found<'_>, ParseError>
    ensures read { Gives seen result (Some (record { expr = expr; height = 1; rest = rest.now })) }
    ensures height { IfOk result (λ x. x.height ≡ 1) }
    ensures rest { IfOk result (λ x. x.rest.now ≡ rest.now) }
{
    Ok(Found {
        expr: Boxed::new(alloc, expr)?,
        height: 1,
        rest,
    })
}

fn variable<'a>(alloc: Global, name: &Name, rest: &'a [Token]) -> Result<Found<'a>, ParseError>
    ensures read { Gives seen result (Some (record { expr = Expr.Var name.now; height = 1; rest = rest.now })) }
    ensures height { IfOk result (λ x. x.height ≡ 1) }
    ensures rest { IfOk result (λ x. x.rest.now ≡ rest.now) }
{
    leaf(alloc, Expr::Var(name.copy(alloc)?), rest)
}

#[cycle(expression)]
#[tactic(auto, unfolding(crate::specs::Code::ExpressionReading::operand))]
fn operand(alloc: Global, below: u32, tokens: &[Token]) -> Result<Found<'_>, ParseError>
    requires { below + 1 < 2 ^ 32 }
    ensures read { Gives seen result (spec.operand (spec.expr below) tokens.now) }
    ensures height { IfOk result (λ x. (1 ≤ x.height) × (x.height ≤ below + 1)) }
    ensures rest { IfOk result (λ x. length x.rest.now < length tokens.now) }
{
    let [first, rest @ ..] = tokens else {
        return Err(ParseError::Syntax(0));
    };
    match &first.what {
        Word::Number(n) => leaf(alloc, Expr::Lit(*n), rest),
        Word::Ident(name) => match skip(punctuator::SQUARE_OPEN, rest) {
            Some(inside) => element(alloc, name, expression(alloc, below, 1, inside)?),
            None => variable(alloc, name, rest),
        },
        Word::Punct(punctuator::ROUND_OPEN) => in_brackets(expression(alloc, below, 1, rest)?),
        Word::Punct(punctuator::MINUS) => negation(alloc, expression(alloc, below, 7, rest)?),
        Word::Punct(punctuator::BANG) => logical_not(alloc, expression(alloc, below, 7, rest)?),
        _ => Err(ParseError::Syntax(tokens.len())),
    }
}

/// At most `deep` high, and with operators of at least this level outside brackets. With no height
/// left it is the token before that has no program.
#[cycle(expression)]
#[tactic(auto, unfolding(crate::specs::Code::ExpressionReading::expr))]
pub fn expression(
    alloc: Global,
    deep: u32,
    least: u8,
    tokens: &[Token],
) -> Result<Found<'_>, ParseError>
    ensures read { Gives seen result (spec.expr deep least tokens.now) }
    ensures height { IfOk result (λ x. (1 ≤ x.height) × (x.height ≤ deep)) }
    ensures rest { IfOk result (λ x. length x.rest.now < length tokens.now) }
{
    if deep == 0 {
        return Err(ParseError::Syntax(tokens.len() + 1));
    }
    let mut left = operand(alloc, deep - 1, tokens)?;
    while let Some((op, rest)) = next_operator(left.rest) {
        if op.level() < least {
            break;
        }
        if left.height >= deep {
            return Err(ParseError::Syntax(left.rest.len()));
        }
        let right = expression(alloc, deep - 1, op.level() + 1, rest)?;
        left = join(alloc, op, left, right)?;
    }
    Ok(left)
}

//! Pointers to functions, behind their `int`.

ghost use Rattle.std.specs.Prelude.{◌≡◌, ◌≤◌, ◌<◌, ◌+◌, length, IfOk};
ghost use Rattle.c_expressions.specs.Code.ParseSteps.{Gives, separated};
ghost use Rattle.c_expressions.specs.Code.SideReading as spec;
ghost use Rattle.c_expressions.specs.Code.Seen.{seen_pointer};

use crate::front::{after, after_key, name_at, skip, skip_key};
use crate::parse_error::ParseError;
use c_lang::Name;
use c_lexer::{Token, keyword, punctuator};

/// A pointer's name, the number of its parameters, or 33 where it has more than 32, and what
/// follows it.
#[derive(Drop)]
pub struct Pointer<'a> {
    pub name: &'a Name,
    pub arity: u8,
    pub rest: &'a [Token],
}

fn count_int(count: u8, tokens: &[Token]) -> Result<(u8, &[Token]), ParseError>
    requires { count ≤ 33 }
    ensures read { Gives (λ x. (x.0, x.1.now)) result (spec.count_int count tokens.now) }
    ensures count { IfOk result (λ x. x.0 ≤ 33) }
    ensures rest { IfOk result (λ x. length x.1.now < length tokens.now) }
{
    let rest = after_key(keyword::INT, tokens)?;
    Ok(((count + 1).min(33), rest))
}

fn ints(tokens: &[Token]) -> Result<(u8, &[Token]), ParseError>
    ensures read { Gives (λ x. (x.0, x.1.now)) result (separated spec.count_int (length tokens.now + 1) 0 tokens.now) }
    ensures count { IfOk result (λ x. x.0 ≤ 33) }
    ensures rest { IfOk result (λ x. length x.1.now < length tokens.now) }
{
    let mut count = 0;
    let mut rest = tokens;
    loop {
        let next = count_int(count, rest)?;
        match skip(punctuator::COMMA, next.1) {
            None => return Ok(next),
            Some(others) => {
                count = next.0;
                rest = others;
            }
        }
    }
}

#[tactic(auto, unfolding(crate::specs::Code::SideReading::ints_at))]
fn ints_at(tokens: &[Token]) -> Result<(u8, &[Token]), ParseError>
    ensures read { Gives (λ x. (x.0, x.1.now)) result (spec.ints_at tokens.now) }
    ensures count { IfOk result (λ x. x.0 ≤ 33) }
    ensures rest { IfOk result (λ x. length x.1.now < length tokens.now) }
{
    if let Some(rest) = skip(punctuator::ROUND_CLOSE, tokens) {
        return Ok((0, rest));
    }
    match skip_key(keyword::VOID, tokens) {
        Some(inside) => Ok((0, after(punctuator::ROUND_CLOSE, inside)?)),
        None => {
            let (count, closing) = ints(tokens)?;
            Ok((count, after(punctuator::ROUND_CLOSE, closing)?))
        }
    }
}

/// `(*NAME)(int, int)`.
#[tactic(auto, unfolding(crate::specs::Code::SideReading::pointer_at))]
pub fn pointer_at(tokens: &[Token]) -> Result<Pointer<'_>, ParseError>
    ensures read { Gives seen_pointer result (spec.pointer_at tokens.now) }
    ensures arity { IfOk result (λ x. x.arity ≤ 33) }
    ensures rest { IfOk result (λ x. length x.rest.now < length tokens.now) }
{
    let star = after(punctuator::ROUND_OPEN, tokens)?;
    let named = after(punctuator::STAR, star)?;
    let Some((name, closing)) = name_at(named) else {
        return Err(ParseError::Syntax(named.len()));
    };
    let params = after(punctuator::ROUND_CLOSE, closing)?;
    let inside = after(punctuator::ROUND_OPEN, params)?;
    let (arity, rest) = ints_at(inside)?;
    Ok(Pointer { name, arity, rest })
}

//! What stands at the front of the tokens.

ghost use Rattle.std.specs.Prelude.{◌≡◌, ◌<◌, ◌≤◌, ◌^◌, ◌+◌, pos, length, IfOk, IfSome, option_map};
ghost use Rattle.formula_texts.specs.Grammar.{level};
ghost use Rattle.formula_texts.specs.Code.Reading as spec;
ghost use Rattle.formula_texts.specs.Code.Reading.{Gives};

use crate::stop::Stop;
use crate::token::{Mark, Operator, Token};
use c_lang::Name;
use std::alloc::{AllocError, Global};
use terms::Sym;

/// The number by which marks are told apart.
fn mark_number(mark: Mark) -> u8
    ensures { result ≡ spec.mark_number mark }
{
    match mark {
        Mark::RoundOpen => 0,
        Mark::RoundClose => 1,
        Mark::SquareOpen => 2,
        Mark::SquareClose => 3,
        Mark::Comma => 4,
        Mark::Slash => 5,
        Mark::Percent => 6,
    }
}

/// The rest after this mark, where it stands at the front.
pub fn skip(mark: Mark, tokens: &[Token]) -> Option<&[Token]>
    ensures value { option_map (λ rest. rest.now) result ≡ spec.after mark tokens.now }
    ensures rest { IfSome result (λ rest. length rest.now < length tokens.now) }
{
    match tokens {
        [first, rest @ ..] => match first {
            Token::Mark(found) if mark_number(*found) == mark_number(mark) => Some(rest),
            _ => None,
        },
        [] => None,
    }
}

/// The rest after this mark, which has to stand at the front.
pub fn after(mark: Mark, tokens: &[Token]) -> Result<&[Token], Stop>
    ensures value { Gives (λ rest. rest.now) result (spec.after mark tokens.now) }
    ensures rest { IfOk result (λ rest. length rest.now < length tokens.now) }
{
    match skip(mark, tokens) {
        Some(rest) => Ok(rest),
        None => Err(Stop::NoText),
    }
}

/// The count behind a base, and the rest; 0 where there is none.
fn count_after(tokens: &[Token]) -> (u32, &[Token])
    ensures value { (result.0, result.1.now) ≡ spec.count_after tokens.now }
    ensures rest { length result.1.now ≤ length tokens.now }
{
    match tokens {
        [first, rest @ ..] => match first {
            Token::Count(count) => (*count, rest),
            _ => (0, tokens),
        },
        [] => (0, tokens),
    }
}

/// A name whose base stands before the tokens, and the rest.
pub fn name_after<'a>(
    alloc: Global,
    base: &Name,
    tokens: &'a [Token],
) -> Result<(Sym, &'a [Token]), AllocError>
    ensures value { IfOk result (λ found. (found.0, found.1.now) ≡ spec.name_after base.now tokens.now) }
    ensures rest { IfOk result (λ found. length found.1.now ≤ length tokens.now) }
{
    let (count, rest) = count_after(tokens);
    let base = base.copy(alloc)?;
    Ok((Sym { base, count }, rest))
}

/// The number, where it isn't negative.
pub fn natural(number: i128) -> Option<i128>
    ensures value { result ≡ spec.natural number }
{
    if number < 0 { None } else { Some(number) }
}

/// The operator at the front, and the rest.
pub fn next_operator(tokens: &[Token]) -> Option<(Operator, &[Token])>
    ensures value { option_map (λ x. (x.0, x.1.now)) result ≡ spec.next_operator tokens.now }
    ensures rest { IfSome result (λ x. length x.1.now < length tokens.now) }
{
    match tokens {
        [first, rest @ ..] => match first {
            Token::Operator(operator) => Some((*operator, rest)),
            _ => None,
        },
        [] => None,
    }
}

/// How tightly an operator binds.
pub fn level(operator: Operator) -> u8
    ensures value { result ≡ level operator }
    ensures small { result ≤ 6 }
{
    match operator {
        Operator::Or => 1,
        Operator::And => 2,
        Operator::Less
        | Operator::AtMost
        | Operator::Greater
        | Operator::AtLeast
        | Operator::Equal
        | Operator::Unequal => 4,
        Operator::Plus | Operator::Minus | Operator::TightMinus => 5,
        Operator::Times => 6,
    }
}

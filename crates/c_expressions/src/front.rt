//! What stands at the front of the tokens.

ghost use Rattle.std.specs.Prelude.{◌≡◌, ◌<◌, ◌^◌, length, IfOk, IfSome, option_map};
ghost use Rattle.c_expressions.specs.Code.ParseSteps as spec;
ghost use Rattle.c_expressions.specs.Code.ParseSteps.{Gives};

use crate::parse_error::ParseError;
use c_lang::Name;
use c_lexer::{Token, Word};

/// The rest after this punctuator, where it stands at the front.
pub fn skip(mark: u8, tokens: &[Token]) -> Option<&[Token]>
    ensures value { option_map (λ rest. rest.now) result ≡ spec.after mark tokens.now }
    ensures rest { IfSome result (λ rest. length rest.now < length tokens.now) }
{
    match tokens {
        [first, rest @ ..] => match &first.what {
            Word::Punct(k) if *k == mark => Some(rest),
            _ => None,
        },
        [] => None,
    }
}

/// The rest after this keyword, where it stands at the front.
pub fn skip_key(key: u8, tokens: &[Token]) -> Option<&[Token]>
    ensures value { option_map (λ rest. rest.now) result ≡ spec.after_key key tokens.now }
    ensures rest { IfSome result (λ rest. length rest.now < length tokens.now) }
{
    match tokens {
        [first, rest @ ..] => match &first.what {
            Word::Key(k) if *k == key => Some(rest),
            _ => None,
        },
        [] => None,
    }
}

/// The rest after this punctuator, which has to stand at the front.
pub fn after(mark: u8, tokens: &[Token]) -> Result<&[Token], ParseError>
    ensures value { Gives (λ rest. rest.now) result (spec.after mark tokens.now) }
    ensures rest { IfOk result (λ rest. length rest.now < length tokens.now) }
{
    match skip(mark, tokens) {
        Some(rest) => Ok(rest),
        None => Err(ParseError::Syntax(tokens.len())),
    }
}

/// A name at the front, and the rest.
pub fn name_at(tokens: &[Token]) -> Option<(&Name, &[Token])>
    ensures value { option_map (λ x. (x.0.now, x.1.now)) result ≡ spec.name_at tokens.now }
    ensures rest { IfSome result (λ x. length x.1.now < length tokens.now) }
{
    match tokens {
        [first, rest @ ..] => match &first.what {
            Word::Ident(name) => Some((name, rest)),
            _ => None,
        },
        [] => None,
    }
}

fn natural(number: i32) -> Option<u32>
    ensures value { result ≡ spec.natural number }
    ensures small { IfSome result (λ n. n < 2 ^ 31) }
{
    if number < 0 {
        None
    } else {
        Some(number as u32)
    }
}

/// A number at the front, and the rest.
pub fn number_at(tokens: &[Token]) -> Option<(u32, &[Token])>
    ensures value { option_map (λ x. (x.0, x.1.now)) result ≡ spec.number_at tokens.now }
    ensures small { IfSome result (λ x. x.0 < 2 ^ 31) }
    ensures rest { IfSome result (λ x. length x.1.now < length tokens.now) }
{
    match tokens {
        [first, rest @ ..] => match &first.what {
            Word::Number(number) => Some((natural(*number)?, rest)),
            _ => None,
        },
        [] => None,
    }
}

/// The rest after this keyword, which has to stand at the front.
pub fn after_key(key: u8, tokens: &[Token]) -> Result<&[Token], ParseError>
    ensures value { Gives (λ rest. rest.now) result (spec.after_key key tokens.now) }
    ensures rest { IfOk result (λ rest. length rest.now < length tokens.now) }
{
    match skip_key(key, tokens) {
        Some(rest) => Ok(rest),
        None => Err(ParseError::Syntax(tokens.len())),
    }
}

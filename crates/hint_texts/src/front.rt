//! What stands at the front of the tokens.

ghost use Rattle.std.specs.Prelude.{◌≡◌, ◌<◌, ◌≤◌, length, option_map, IfSome, IfOk};
ghost use Rattle.std.specs.Option.{option_copied};
ghost use Rattle.formula_texts.specs.Code.Reading.{Gives, mark_number};
ghost use Rattle.hint_texts.specs.Code.Reading as spec;

use crate::token::{Closing, Kind, Token};
use c_lang::Name;
use c_lexer::bytes::is_same;
use formula_texts::stop::Stop;
use formula_texts::token::{Mark, Token as FormulaToken};

/// The largest number of a hints text.
const NUMBER_LIMIT: i128 = 2_147_483_647;

/// The name, where the token may be one.
pub fn name_in(kind: &Kind) -> Option<&Name>
    ensures { option_copied result ≡ spec.name_in kind.now }
{
    match kind {
        Kind::Name(name) => Some(name),
        _ => None,
    }
}

/// The name at the front, and the rest.
pub fn name_at(tokens: &[Token]) -> Result<(&Name, &[Token]), Stop>
    ensures value { Gives (λ x. (x.0.now, x.1.now)) result (spec.name_at tokens.now) }
    ensures shorter { IfOk result (λ x. length x.1.now < length tokens.now) }
{
    let [first, rest @ ..] = tokens else {
        return Err(Stop::NoText);
    };
    match name_in(&first.kind) {
        Some(name) => Ok((name, rest)),
        None => Err(Stop::NoText),
    }
}

/// The number by which marks are told apart.
fn mark_number(mark: Mark) -> u8
    ensures { result ≡ mark_number mark }
{
    match mark {
        Mark::RoundOpen => 0,
        Mark::RoundClose => 1,
        Mark::SquareOpen => 2,
        Mark::SquareClose => 3,
        Mark::Comma => 4,
        Mark::Slash => 5,
        Mark::Percent => 6,
    }
}

fn is_mark_token(mark: Mark, token: &FormulaToken) -> bool
    ensures { result ≡ spec.is_mark_token mark token.now }
{
    match token {
        FormulaToken::Mark(found) => mark_number(*found) == mark_number(mark),
        _ => false,
    }
}

/// Whether the token is this mark.
pub fn is_mark(mark: Mark, kind: &Kind) -> bool
    ensures { result ≡ spec.is_mark mark kind.now }
{
    match kind {
        Kind::Part(token) => is_mark_token(mark, token),
        _ => false,
    }
}

/// The rest behind this mark, which has to stand at the front.
pub fn mark_at(mark: Mark, tokens: &[Token]) -> Result<&[Token], Stop>
    ensures value { Gives (λ rest. rest.now) result (spec.mark_at mark tokens.now) }
    ensures shorter { IfOk result (λ rest. length rest.now < length tokens.now) }
{
    match tokens {
        [first, rest @ ..] if is_mark(mark, &first.kind) => Ok(rest),
        _ => Err(Stop::NoText),
    }
}

fn small_number(number: i128) -> Option<u32>
    ensures { result ≡ spec.small_number number }
{
    if 0 <= number && number <= NUMBER_LIMIT {
        Some(number as u32)
    } else {
        None
    }
}

fn number_token(token: &FormulaToken) -> Option<u32>
    ensures { result ≡ spec.number_token token.now }
{
    match token {
        FormulaToken::Number(number) => small_number(*number),
        _ => None,
    }
}

fn number_in(kind: &Kind) -> Option<u32>
    ensures { result ≡ spec.number_in kind.now }
{
    match kind {
        Kind::Part(token) => number_token(token),
        _ => None,
    }
}

/// The number at the front, and the rest.
pub fn number_at(tokens: &[Token]) -> Result<(u32, &[Token]), Stop>
    ensures value { Gives (λ x. (x.0, x.1.now)) result (spec.number_at tokens.now) }
    ensures shorter { IfOk result (λ x. length x.1.now < length tokens.now) }
{
    let [first, rest @ ..] = tokens else {
        return Err(Stop::NoText);
    };
    match number_in(&first.kind) {
        Some(number) => Ok((number, rest)),
        None => Err(Stop::NoText),
    }
}

/// Whether the token is this word.
pub fn is_word(word: &[u8], kind: &Kind) -> bool
    ensures { result ≡ spec.is_word word.now kind.now }
{
    match kind {
        Kind::Name(name) => is_same(name.as_bytes(), word),
        _ => false,
    }
}

/// The rest behind this word, which has to stand at the front.
pub fn word_at<'a>(word: &[u8], tokens: &'a [Token]) -> Result<&'a [Token], Stop>
    ensures { Gives (λ rest. rest.now) result (spec.word_at word.now tokens.now) }
{
    match tokens {
        [first, rest @ ..] if is_word(word, &first.kind) => Ok(rest),
        _ => Err(Stop::NoText),
    }
}

fn closing_number(closing: Closing) -> u8
    ensures { result ≡ spec.closing_number closing }
{
    match closing {
        Closing::Semicolon => 0,
        Closing::Colon => 1,
        Closing::Range => 2,
    }
}

fn is_closing(closing: Closing, kind: &Kind) -> bool
    ensures { result ≡ spec.is_closing closing kind.now }
{
    match kind {
        Kind::Closing(found) => closing_number(*found) == closing_number(closing),
        _ => false,
    }
}

/// How many tokens stand before the first such end.
fn length_to(closing: Closing, tokens: &[Token]) -> usize
    ensures value { result ≡ spec.length_to closing tokens.now }
    ensures within { result ≤ length tokens.now }
{
    let mut end = 0;
    while end < tokens.len() && !is_closing(closing, &tokens[end].kind) {
        end += 1;
    }
    end
}

/// What stands before the first such end, and what stands behind it.
#[tactic(auto, using(crate::proofs::CutLaws::cut_found, crate::proofs::CutLaws::cut_nothing))]
pub fn cut(closing: Closing, tokens: &[Token]) -> Result<(&[Token], &[Token]), Stop>
    ensures value { Gives (λ x. (x.0.now, x.1.now)) result (spec.cut closing tokens.now) }
    ensures shorter { IfOk result (λ x. length x.1.now < length tokens.now) }
{
    let end = length_to(closing, tokens);
    if end == tokens.len() {
        return Err(Stop::NoText);
    }
    Ok((&tokens[..end], &tokens[end + 1..]))
}

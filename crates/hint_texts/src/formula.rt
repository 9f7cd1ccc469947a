//! Reads forms and sums.

ghost use Rattle.std.specs.Prelude.{◌≡◌, ◌<◌, ◌≤◌, length, IfOk};
ghost use Rattle.name_tables.specs.Declarations.{function_number};
ghost use Rattle.formula_texts.specs.Code.Reading.{Gives, value_in};
ghost use Rattle.hint_texts.specs.Grammar as grammar;
ghost use Rattle.hint_texts.specs.Code.Reading as spec;

use crate::front::{is_mark, mark_at, name_at};
use crate::token::{Kind, Token};
use c_lang::Name;
use c_lexer::bytes::is_same;
use formula_texts::stop::Stop;
use formula_texts::token::{Mark, Token as FormulaToken};
use formula_texts::{Limits, Value, read_tokens};
use name_tables::ProgramNames;
use std::alloc::{AllocError, Global};
use terms::{Form, Term};

/// How far a formula may be nested.
const LIMITS: Limits = Limits {
    brackets: 64,
    operators: 64,
};

fn copy_of(alloc: Global, token: &FormulaToken) -> Result<FormulaToken, AllocError>
    ensures { IfOk result (λ made. made ≡ token.now) }
{
    Ok(match token {
        FormulaToken::Base(base) => FormulaToken::Base(base.copy(alloc)?),
        FormulaToken::Count(count) => FormulaToken::Count(*count),
        FormulaToken::Number(number) => FormulaToken::Number(*number),
        FormulaToken::Operator(operator) => FormulaToken::Operator(*operator),
        FormulaToken::Not => FormulaToken::Not,
        FormulaToken::Null => FormulaToken::Null,
        FormulaToken::True => FormulaToken::True,
        FormulaToken::False => FormulaToken::False,
        FormulaToken::Truth => FormulaToken::Truth,
        FormulaToken::Store => FormulaToken::Store,
        FormulaToken::Mark(mark) => FormulaToken::Mark(*mark),
    })
}

/// The name of a global's value at entry.
fn entry_base(alloc: Global, global: &Name) -> Result<Name, AllocError>
    ensures { IfOk result (λ name. name ≡ grammar.entry_base global.now) }
{
    let mut name = Vec::from_slice(alloc, b"pre(")?;
    name.extend_from_slice(global.as_bytes())?;
    name.extend_from_slice(b")")?;
    Ok(Name::from_vec(name))
}

fn opens(tokens: &[Token]) -> bool
    ensures { result ≡ spec.opens tokens.now }
{
    match tokens {
        [first, ..] => is_mark(Mark::RoundOpen, &first.kind),
        [] => false,
    }
}

/// A global's value at entry, behind `pre`.
fn entry_at(alloc: Global, tokens: &[Token]) -> Result<(FormulaToken, &[Token]), Stop>
    ensures value { Gives (λ x. (x.0, x.1.now)) result (spec.entry_at tokens.now) }
    ensures shorter { IfOk result (λ x. length x.1.now < length tokens.now) }
{
    let inside = mark_at(Mark::RoundOpen, tokens)?;
    let (global, behind) = name_at(inside)?;
    let rest = mark_at(Mark::RoundClose, behind)?;
    Ok((FormulaToken::Base(entry_base(alloc, global)?), rest))
}

/// A name, with what stands behind it.
fn named<'a>(
    alloc: Global,
    name: &Name,
    tokens: &'a [Token],
) -> Result<(FormulaToken, &'a [Token]), Stop>
    ensures value { Gives (λ x. (x.0, x.1.now)) result (spec.named name.now tokens.now) }
    ensures shorter { IfOk result (λ x. length x.1.now ≤ length tokens.now) }
{
    if is_same(name.as_bytes(), b"pre") && opens(tokens) {
        return entry_at(alloc, tokens);
    }
    Ok((FormulaToken::Base(name.copy(alloc)?), tokens))
}

/// A function's number, behind `&`.
fn function_at<'a>(
    names: &ProgramNames<'_>,
    tokens: &'a [Token],
) -> Result<(FormulaToken, &'a [Token]), Stop>
    ensures value { Gives (λ x. (x.0, x.1.now)) result (spec.function_at (function_number names.now) tokens.now) }
    ensures shorter { IfOk result (λ x. length x.1.now < length tokens.now) }
{
    let (name, rest) = name_at(tokens)?;
    let number = names.number(name);
    if 0 < number {
        Ok((FormulaToken::Number(number as i128), rest))
    } else {
        Err(Stop::NoText)
    }
}

/// The token of a formula at the front, and the rest.
fn part_at<'a>(
    alloc: Global,
    names: &ProgramNames<'_>,
    tokens: &'a [Token],
) -> Result<(FormulaToken, &'a [Token]), Stop>
    ensures value { Gives (λ x. (x.0, x.1.now)) result (spec.part_at (function_number names.now) tokens.now) }
    ensures shorter { IfOk result (λ x. length x.1.now < length tokens.now) }
{
    let [first, rest @ ..] = tokens else {
        return Err(Stop::NoText);
    };
    match &first.kind {
        Kind::Part(token) => Ok((copy_of(alloc, token)?, rest)),
        Kind::Cell(name) => Ok((FormulaToken::Base(name.copy(alloc)?), rest)),
        Kind::Name(name) => named(alloc, name, rest),
        Kind::Function => function_at(names, rest),
        Kind::Closing(_) => Err(Stop::NoText),
    }
}

/// The tokens of a formula.
fn parts(
    alloc: Global,
    names: &ProgramNames<'_>,
    tokens: &[Token],
) -> Result<Vec<FormulaToken>, Stop>
    ensures { Gives (λ parts. parts.items) result (spec.parts_of (function_number names.now) tokens.now) }
{
    let mut parts = Vec::new(alloc);
    let mut rest = tokens;
    while !rest.is_empty() {
        let (part, after) = part_at(alloc, names, rest)?;
        parts.push(part)?;
        rest = after;
    }
    Ok(parts)
}

#[tactic(auto, using(crate::proofs::FormulaLaws::value_found))]
fn value_in(alloc: Global, parts: &[FormulaToken]) -> Result<Value, Stop>
    ensures { Gives (λ value. value) result (value_in grammar.bracket_limit grammar.operator_limit parts.now) }
{
    match read_tokens(alloc, LIMITS, parts)? {
        Some(value) => Ok(value),
        None => Err(Stop::NoText),
    }
}

fn value(alloc: Global, names: &ProgramNames<'_>, tokens: &[Token]) -> Result<Value, Stop>
    ensures { Gives (λ value. value) result (spec.value_of (function_number names.now) tokens.now) }
{
    let parts = parts(alloc, names, tokens)?;
    value_in(alloc, parts.as_slice())
}

/// The form that the tokens are.
pub fn form(alloc: Global, names: &ProgramNames<'_>, tokens: &[Token]) -> Result<Form, Stop>
    ensures { Gives (λ form. form) result (spec.form_of (function_number names.now) tokens.now) }
{
    match value(alloc, names, tokens)? {
        Value::Form(form) => Ok(form),
        Value::Term(_) => Err(Stop::NoText),
    }
}

/// The sum that the tokens are.
pub fn sum(alloc: Global, names: &ProgramNames<'_>, tokens: &[Token]) -> Result<Term, Stop>
    ensures { Gives (λ term. term) result (spec.sum_of (function_number names.now) tokens.now) }
{
    match value(alloc, names, tokens)? {
        Value::Term(term) => Ok(term),
        Value::Form(_) => Err(Stop::NoText),
    }
}

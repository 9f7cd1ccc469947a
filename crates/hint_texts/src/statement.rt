//! Reads clauses, and the beginnings of items.

ghost use Rattle.std.specs.Prelude.{◌≡◌, ◌<◌, ◌≤◌, length, IfOk};
ghost use Rattle.std.specs.Option.{option_map};
ghost use Rattle.name_tables.specs.Declarations.{function_number};
ghost use Rattle.formula_texts.specs.Code.Reading.{Gives};
ghost use Rattle.hint_texts.specs.Code.Runs.{Gives as Reads};
ghost use Rattle.hint_texts.specs.Code.Reading as spec;
ghost use Rattle.hint_texts.specs.declared.hints.ClauseKind.TheVariants as clause;
ghost use Rattle.hint_texts.specs.declared.hints.Head.TheVariants as head;

use crate::fact::fact;
use crate::fault::Fault;
use crate::front::{cut, mark_at, name_at, name_in, number_at};
use crate::hints::{Clause, ClauseKind, Head, Quantified, Statement};
use crate::token::{Closing, Token};
use c_lang::Name;
use c_lexer::bytes::is_same;
use formula_texts::stop::Stop;
use formula_texts::token::Mark;
use name_tables::ProgramNames;
use sqlite_items::Items;
use std::alloc::Global;

/// A comma and a name.
fn next_at(tokens: &[Token]) -> Result<(&Name, &[Token]), Stop>
    ensures value { Gives (λ x. (x.0.now, x.1.now)) result (spec.next_at tokens.now) }
    ensures shorter { IfOk result (λ x. length x.1.now < length tokens.now) }
{
    name_at(mark_at(Mark::Comma, tokens)?)
}

/// The names behind the first one.
fn more_names(alloc: Global, first: &Name, tokens: &[Token]) -> Result<Items<Name>, Stop>
    ensures { Gives (λ names. names) result (spec.more_names first.now tokens.now) }
{
    let mut names = Items::new(alloc);
    names.push(first.copy(alloc)?)?;
    let mut rest = tokens;
    while !rest.is_empty() {
        let (name, after) = next_at(rest)?;
        names.push(name.copy(alloc)?)?;
        rest = after;
    }
    Ok(names)
}

/// The names that the tokens are, with commas between.
fn names(alloc: Global, tokens: &[Token]) -> Result<Items<Name>, Stop>
    ensures { Gives (λ names. names) result (spec.names_of tokens.now) }
{
    let [first, rest @ ..] = tokens else {
        return Ok(Items::new(alloc));
    };
    match name_in(&first.kind) {
        Some(name) => more_names(alloc, name, rest),
        None => Err(Stop::NoText),
    }
}

/// A clause, before the rest.
fn says(line: u32, kind: ClauseKind, rest: &[Token]) -> (Statement, &[Token])
    ensures { (result.0, result.1.now) ≡ spec.said line rest.now kind }
{
    (Statement::Says(Clause { line, kind }), rest)
}

/// A fact up to its `;`.
fn fact_at<'a>(
    alloc: Global,
    names: &ProgramNames<'_>,
    tokens: &'a [Token],
) -> Result<(Quantified, &'a [Token]), Stop>
    ensures value { Gives (λ x. (x.0, x.1.now)) result (spec.fact_at (function_number names.now) tokens.now) }
    ensures shorter { IfOk result (λ x. length x.1.now ≤ length tokens.now) }
{
    let (inside, rest) = cut(Closing::Semicolon, tokens)?;
    Ok((fact(alloc, names, inside)?, rest))
}

/// The names of an `assigns` up to its `;`.
fn names_at(alloc: Global, tokens: &[Token]) -> Result<(Items<Name>, &[Token]), Stop>
    ensures value { Gives (λ x. (x.0, x.1.now)) result (spec.names_at tokens.now) }
    ensures shorter { IfOk result (λ x. length x.1.now ≤ length tokens.now) }
{
    let (inside, rest) = cut(Closing::Semicolon, tokens)?;
    Ok((names(alloc, inside)?, rest))
}

fn requires_at<'a>(
    alloc: Global,
    names: &ProgramNames<'_>,
    line: u32,
    tokens: &'a [Token],
) -> Result<(Statement, &'a [Token]), Stop>
    ensures value { Gives (λ x. (x.0, x.1.now)) result (spec.fact_clause (function_number names.now) clause.Requires line tokens.now) }
    ensures shorter { IfOk result (λ x. length x.1.now ≤ length tokens.now) }
{
    let (fact, rest) = fact_at(alloc, names, tokens)?;
    Ok(says(line, ClauseKind::Requires(fact), rest))
}

fn ensures_at<'a>(
    alloc: Global,
    names: &ProgramNames<'_>,
    line: u32,
    tokens: &'a [Token],
) -> Result<(Statement, &'a [Token]), Stop>
    ensures value { Gives (λ x. (x.0, x.1.now)) result (spec.fact_clause (function_number names.now) clause.Ensures line tokens.now) }
    ensures shorter { IfOk result (λ x. length x.1.now ≤ length tokens.now) }
{
    let (fact, rest) = fact_at(alloc, names, tokens)?;
    Ok(says(line, ClauseKind::Ensures(fact), rest))
}

fn invariant_at<'a>(
    alloc: Global,
    names: &ProgramNames<'_>,
    line: u32,
    tokens: &'a [Token],
) -> Result<(Statement, &'a [Token]), Stop>
    ensures value { Gives (λ x. (x.0, x.1.now)) result (spec.fact_clause (function_number names.now) clause.Invariant line tokens.now) }
    ensures shorter { IfOk result (λ x. length x.1.now ≤ length tokens.now) }
{
    let (fact, rest) = fact_at(alloc, names, tokens)?;
    Ok(says(line, ClauseKind::Invariant(fact), rest))
}

fn assigns_at(alloc: Global, line: u32, tokens: &[Token]) -> Result<(Statement, &[Token]), Stop>
    ensures value { Gives (λ x. (x.0, x.1.now)) result (spec.assigns_clause line tokens.now) }
    ensures shorter { IfOk result (λ x. length x.1.now ≤ length tokens.now) }
{
    let (cells, rest) = names_at(alloc, tokens)?;
    Ok(says(line, ClauseKind::Assigns(cells), rest))
}

fn both_at(alloc: Global, line: u32, tokens: &[Token]) -> Result<(Statement, &[Token]), Stop>
    ensures value { Gives (λ x. (x.0, x.1.now)) result (spec.begins head.Both line tokens.now) }
    ensures shorter { IfOk result (λ x. length x.1.now ≤ length tokens.now) }
{
    let (name, rest) = name_at(tokens)?;
    Ok((Statement::Begins(line, Head::Both(name.copy(alloc)?)), rest))
}

fn one_at(alloc: Global, line: u32, tokens: &[Token]) -> Result<(Statement, &[Token]), Stop>
    ensures value { Gives (λ x. (x.0, x.1.now)) result (spec.begins head.At line tokens.now) }
    ensures shorter { IfOk result (λ x. length x.1.now ≤ length tokens.now) }
{
    let (name, rest) = name_at(tokens)?;
    Ok((Statement::Begins(line, Head::At(name.copy(alloc)?)), rest))
}

fn loop_at(alloc: Global, line: u32, tokens: &[Token]) -> Result<(Statement, &[Token]), Stop>
    ensures value { Gives (λ x. (x.0, x.1.now)) result (spec.loop_begins line tokens.now) }
    ensures shorter { IfOk result (λ x. length x.1.now ≤ length tokens.now) }
{
    let (name, behind) = name_at(tokens)?;
    let (number, rest) = number_at(behind)?;
    Ok((
        Statement::Begins(line, Head::Loop(name.copy(alloc)?, number)),
        rest,
    ))
}

/// What stands behind its first word.
#[tactic(auto, unfolding(crate::specs::Code::Reading::statement_by))]
fn statement_by<'a>(
    alloc: Global,
    names: &ProgramNames<'_>,
    line: u32,
    word: &Name,
    tokens: &'a [Token],
) -> Result<(Statement, &'a [Token]), Stop>
    ensures value { Gives (λ x. (x.0, x.1.now)) result (spec.statement_by (function_number names.now) line word.now tokens.now) }
    ensures shorter { IfOk result (λ x. length x.1.now ≤ length tokens.now) }
{
    let word = word.as_bytes();
    if is_same(word, b"both") {
        both_at(alloc, line, tokens)
    } else if is_same(word, b"at") {
        one_at(alloc, line, tokens)
    } else if is_same(word, b"loop") {
        loop_at(alloc, line, tokens)
    } else if is_same(word, b"requires") {
        requires_at(alloc, names, line, tokens)
    } else if is_same(word, b"ensures") {
        ensures_at(alloc, names, line, tokens)
    } else if is_same(word, b"invariant") {
        invariant_at(alloc, names, line, tokens)
    } else if is_same(word, b"assigns") {
        assigns_at(alloc, line, tokens)
    } else {
        Err(Stop::NoText)
    }
}

/// The clause or the beginning of an item at the front, and the rest.
fn statement_at<'a>(
    alloc: Global,
    names: &ProgramNames<'_>,
    tokens: &'a [Token],
) -> Result<(Statement, &'a [Token]), Stop>
    ensures value { Gives (λ x. (x.0, x.1.now)) result (spec.statement_at (function_number names.now) tokens.now) }
    ensures shorter { IfOk result (λ x. length x.1.now < length tokens.now) }
{
    let [first, rest @ ..] = tokens else {
        return Err(Stop::NoText);
    };
    match name_in(&first.kind) {
        Some(word) => statement_by(alloc, names, first.line, word, rest),
        None => Err(Stop::NoText),
    }
}

/// The same, of tokens that begin on this line.
pub fn statement_on<'a>(
    alloc: Global,
    names: &ProgramNames<'_>,
    line: u32,
    tokens: &'a [Token],
) -> Result<(Statement, &'a [Token]), Fault>
    ensures value { Reads (λ x. (x.0, x.1.now)) result (spec.statement_at (function_number names.now) tokens.now) }
    ensures shorter { IfOk result (λ x. length x.1.now < length tokens.now) }
{
    match statement_at(alloc, names, tokens) {
        Ok(found) => Ok(found),
        Err(Stop::NoMemory) => Err(Fault::NoMemory),
        Err(Stop::NoText) => Err(Fault::NoText(line)),
    }
}

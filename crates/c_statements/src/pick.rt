//! A client's choice between a call for the time after the update and one for the time before.

ghost use Rattle.std.specs.Prelude.{◌≡◌, ◌≤◌, ◌<◌, ◌+◌, ◌-◌, ◌^◌, length, IfOk, IfSome, Some, option_map};
ghost use Rattle.c_expressions.specs.Code.ParseSteps.{Gives};
ghost use Rattle.c_grammar.specs.Scopes as scopes;
ghost use Rattle.c_statements.specs.Code.StatementReading as spec;
ghost use Rattle.c_expressions.specs.Code.Seen.{seen_called};
ghost use Rattle.c_statements.specs.Code.Seen.{seen_one, seen_read};

use crate::scope::is_client;
use crate::simple::{Parsed, call_to, only};
use c_expressions::front::{after, after_key, name_at, skip, skip_key};
use c_expressions::parse_error::ParseError;
use c_expressions::right::{Called, call_at};
use c_lang::{Dest, Name, Pos, Stmt, Unit};
use c_lexer::{Token, Word, keyword, punctuator};
use sqlite_items::Boxed;
use std::alloc::Global;

/// One call of a pick, as a statement.
#[derive(Drop)]
pub struct One<'a> {
    pub stmt: Boxed<Stmt>,
    pub height: u32,
    pub rest: &'a [Token],
}

fn call_behind<'a>(
    alloc: Global,
    below: u32,
    callee: &Name,
    tokens: &'a [Token],
) -> Result<Called<'a>, ParseError>
    ensures read { Gives seen_called result (spec.call_behind below callee.now tokens.now) }
    ensures height { IfOk result (λ x. x.height ≤ below) }
    ensures rest { IfOk result (λ x. length x.rest.now < length tokens.now) }
{
    let inside = after(punctuator::ROUND_OPEN, tokens)?;
    call_at(alloc, below, callee, inside)
}

// A call behind its name, up to the semicolon.
fn end_one<'a>(
    alloc: Global,
    below: u32,
    pos: Pos,
    dest: Dest,
    callee: &Name,
    tokens: &'a [Token],
) -> Result<One<'a>, ParseError>
    requires { below + 1 < 2 ^ 32 }
    ensures read { Gives seen_one result (spec.end_one pos dest (spec.call_behind below callee.now tokens.now)) }
    ensures height { IfOk result (λ x. x.height ≤ below + 1) }
    ensures rest { IfOk result (λ x. length x.rest.now < length tokens.now) }
{
    let called = call_behind(alloc, below, callee, tokens)?;
    let rest = after(punctuator::SEMICOLON, called.rest)?;
    Ok(One {
        stmt: Boxed::new(alloc, call_to(pos, dest, called.call))?,
        height: called.height + 1,
        rest,
    })
}

#[tactic(auto, unfolding(crate::specs::Code::StatementReading::one_at))]
fn one_at(alloc: Global, below: u32, tokens: &[Token]) -> Result<One<'_>, ParseError>
    requires { below + 1 < 2 ^ 32 }
    ensures read { Gives seen_one result (spec.one_at below tokens.now) }
    ensures height { IfOk result (λ x. x.height ≤ below + 1) }
    ensures rest { IfOk result (λ x. length x.rest.now < length tokens.now) }
{
    let [first, rest @ ..] = tokens else {
        return Err(ParseError::Syntax(0));
    };
    let Word::Ident(name) = &first.what else {
        return Err(ParseError::Syntax(tokens.len()));
    };
    match skip(punctuator::EQUALS, rest) {
        None => end_one(alloc, below, first.pos, Dest::Nowhere, name, rest),
        Some(given) => match name_at(given) {
            None => Err(ParseError::Syntax(given.len())),
            Some((callee, args)) => {
                let dest = Dest::Into(name.copy(alloc)?);
                end_one(alloc, below, first.pos, dest, callee, args)
            }
        },
    }
}

#[tactic(auto, unfolding(crate::specs::Code::StatementReading::side_of_pick))]
fn side_of_pick(alloc: Global, below: u32, tokens: &[Token]) -> Result<One<'_>, ParseError>
    requires { below + 1 < 2 ^ 32 }
    ensures read { Gives seen_one result (spec.side_of_pick below tokens.now) }
    ensures height { IfOk result (λ x. x.height ≤ below + 1) }
    ensures rest { IfOk result (λ x. length x.rest.now < length tokens.now) }
{
    match skip(punctuator::BRACE_OPEN, tokens) {
        None => one_at(alloc, below, tokens),
        Some(inside) => {
            let one = one_at(alloc, below, inside)?;
            let rest = after(punctuator::BRACE_CLOSE, one.rest)?;
            Ok(One {
                stmt: one.stmt,
                height: one.height,
                rest,
            })
        }
    }
}

/// The rest behind `(dsu_updated`, where it stands at the front.
pub fn updated_at(tokens: &[Token]) -> Option<&[Token]>
    ensures value { option_map (λ rest. rest.now) result ≡ spec.updated_at tokens.now }
    ensures rest { IfSome result (λ rest. length rest.now < length tokens.now) }
{
    skip_key(keyword::DSU_UPDATED, skip(punctuator::ROUND_OPEN, tokens)?)
}

/// `below` bounds the height of a call alone.
fn pick_sides(
    alloc: Global,
    below: u32,
    pos: Pos,
    tokens: &[Token],
) -> Result<Parsed<'_>, ParseError>
    requires { below + 2 < 2 ^ 32 }
    ensures read { (scope : scopes.Scope) → Gives (seen_read scope) result (spec.pick_sides below pos scope tokens.now) }
    ensures height { IfOk result (λ x. x.height ≤ below + 2) }
    ensures rest { IfOk result (λ x. length x.rest.now < length tokens.now) }
{
    let later = side_of_pick(alloc, below, tokens)?;
    let other = after_key(keyword::ELSE, later.rest)?;
    let earlier = side_of_pick(alloc, below, other)?;
    let height = later.height.max(earlier.height) + 1;
    let stmts = only(
        alloc,
        Stmt::Pick {
            pos,
            after: later.stmt,
            before: earlier.stmt,
        },
    )?;
    Ok(Parsed {
        stmts,
        height,
        is_open: false,
        rest: earlier.rest,
    })
}

/// A pick, behind `if (dsu_updated`.
#[tactic(auto, unfolding(crate::specs::Code::StatementReading::pick_at))]
pub fn pick_at(
    alloc: Global,
    unit: Unit,
    below: u32,
    pos: Pos,
    tokens: &[Token],
) -> Result<Parsed<'_>, ParseError>
    requires { below + 1 < 2 ^ 32 }
    ensures read { (scope : scopes.Scope) → Gives (seen_read scope) result (spec.pick_at unit below pos scope tokens.now) }
    ensures height { IfOk result (λ x. x.height ≤ below + 1) }
    ensures rest { IfOk result (λ x. length x.rest.now < length tokens.now) }
{
    if !is_client(unit) || below < 3 {
        return Err(ParseError::Syntax(tokens.len() + 1));
    }
    let opened = after(punctuator::ROUND_OPEN, tokens)?;
    let closed = after(punctuator::ROUND_CLOSE, opened)?;
    let inside = after(punctuator::ROUND_CLOSE, closed)?;
    pick_sides(alloc, below - 1, pos, inside)
}

//! Statements and bodies, by descent: each level down has one less of the height that is left.

ghost use Rattle.std.specs.Prelude.{[], ◌∷◌, ◌≡◌, ◌≤◌, ◌<◌, ◌+◌, ◌^◌, ℕ, List, length, IfOk, MatchResult};
ghost use Rattle.c_lang.specs.declared.unit.Unit.{Unit};
ghost use Rattle.c_grammar.specs.declared.token.Token.{Token};
ghost use Rattle.c_statements.specs.Blocks.{IsBlock, IsNoBlock};
ghost use Rattle.c_grammar.specs.Scopes as scopes;
ghost use Rattle.c_statements.specs.Code.StatementReading.{Read};
ghost use Rattle.c_expressions.specs.Code.ParseSteps.{Gives};
ghost use Rattle.c_statements.specs.Code.StatementReading as spec;
ghost use Rattle.c_statements.specs.Code.Seen.{seen_read, IsWithin};

use crate::pick::{pick_at, updated_at};
use crate::scope::Scope;
use crate::simple::{
    Parsed, assert_at, declaration, force_at, named, only, output_at, point_at, return_at, run,
    single,
};
use c_expressions::front::{skip, skip_key};
use c_expressions::parse_error::ParseError;
use c_expressions::right::{choice_at, condition, input_at};
use c_lang::{Expr, Pos, Stmt, Unit};
use c_lexer::{Token, Word, keyword, punctuator};
use sqlite_items::{Boxed, Items};
use std::alloc::{AllocError, Global};

fn if_stmt(
    alloc: Global,
    pos: Pos,
    cond: Boxed<Expr>,
    yes: Items<Stmt>,
    no: Items<Stmt>,
) -> Result<Items<Stmt>, AllocError>
    ensures { IfOk result (λ x. x ≡ Stmt.If pos cond yes no ∷ []) }
{
    let cond = cond.into_inner();
    only(alloc, Stmt::If { pos, cond, yes, no })
}

/// The statements and declarations up to `}`.
#[cycle(stmt)]
pub fn items<'a>(
    alloc: Global,
    unit: Unit,
    below: u32,
    in_loop: bool,
    scope: &mut Scope,
    tokens: &'a [Token],
) -> Result<Parsed<'a>, ParseError>
    requires count { scope.old.count + length tokens.now < 2 ^ 64 }
    ensures read { Gives (seen_read scope.new) result (spec.items (spec.stmt unit below) below (length tokens.now + 1) in_loop (spec.nothing scope.old tokens.now)) }
    ensures within { IfOk result (λ x. IsWithin below scope.old scope.new tokens.now x) }
{
    let mut stmts = Items::new(alloc);
    let mut height = 0;
    let mut rest = tokens;
    loop {
        if let Some(behind) = skip(punctuator::BRACE_CLOSE, rest) {
            return Ok(Parsed {
                stmts,
                height,
                is_open: false,
                rest: behind,
            });
        }
        let next = stmt(alloc, unit, below, true, in_loop, scope, rest)?;
        stmts.append(next.stmts)?;
        height = height.max(next.height);
        rest = next.rest;
    }
}

#[cycle(stmt)]
#[tactic(auto, unfolding(crate::specs::Code::StatementReading::body))]
fn body<'a>(
    alloc: Global,
    unit: Unit,
    below: u32,
    in_loop: bool,
    scope: &mut Scope,
    tokens: &'a [Token],
) -> Result<Parsed<'a>, ParseError>
    requires count { scope.old.count + length tokens.now < 2 ^ 64 }
    ensures read { Gives (seen_read scope.new) result (spec.body (spec.stmt unit below) below in_loop scope.old tokens.now) }
    ensures within { IfOk result (λ x. IsWithin below scope.old scope.new tokens.now x) }
{
    match skip(punctuator::BRACE_OPEN, tokens) {
        Some(inside) => items(alloc, unit, below, in_loop, scope, inside),
        None => stmt(alloc, unit, below, false, in_loop, scope, tokens),
    }
}

#[cycle(stmt)]
#[tactic(auto, unfolding(crate::specs::Code::StatementReading::branch))]
fn branch<'a>(
    alloc: Global,
    unit: Unit,
    below: u32,
    in_loop: bool,
    pos: Pos,
    scope: &mut Scope,
    tokens: &'a [Token],
) -> Result<Parsed<'a>, ParseError>
    requires deep { below + 1 < 2 ^ 32 }
    requires count { scope.old.count + length tokens.now < 2 ^ 64 }
    ensures read { Gives (seen_read scope.new) result (spec.branch (spec.stmt unit below) below in_loop pos scope.old tokens.now) }
    ensures within { IfOk result (λ x. IsWithin (below + 1) scope.old scope.new tokens.now x) }
{
    let cond = condition(alloc, below, tokens)?;
    let yes = body(alloc, unit, below, in_loop, scope, cond.rest)?;
    match skip_key(keyword::ELSE, yes.rest) {
        None => Ok(Parsed {
            stmts: if_stmt(alloc, pos, cond.expr, yes.stmts, Items::new(alloc))?,
            height: cond.height.max(yes.height) + 1,
            is_open: true,
            rest: yes.rest,
        }),
        Some(rest) => {
            let no = body(alloc, unit, below, in_loop, scope, rest)?;
            Ok(Parsed {
                stmts: if_stmt(alloc, pos, cond.expr, yes.stmts, no.stmts)?,
                height: cond.height.max(yes.height.max(no.height)) + 1,
                is_open: no.is_open,
                rest: no.rest,
            })
        }
    }
}

#[cycle(stmt)]
#[tactic(auto, unfolding(crate::specs::Code::StatementReading::repeat))]
fn repeat<'a>(
    alloc: Global,
    unit: Unit,
    below: u32,
    pos: Pos,
    scope: &mut Scope,
    tokens: &'a [Token],
) -> Result<Parsed<'a>, ParseError>
    requires deep { below + 1 < 2 ^ 32 }
    requires count { scope.old.count + length tokens.now < 2 ^ 64 }
    ensures read { Gives (seen_read scope.new) result (spec.repeat (spec.stmt unit below) below pos scope.old tokens.now) }
    ensures within { IfOk result (λ x. IsWithin (below + 1) scope.old scope.new tokens.now x) }
{
    let cond = condition(alloc, below, tokens)?;
    let inner = body(alloc, unit, below, true, scope, cond.rest)?;
    let stmt = Stmt::While {
        pos,
        cond: cond.expr.into_inner(),
        body: inner.stmts,
    };
    Ok(Parsed {
        stmts: only(alloc, stmt)?,
        height: cond.height.max(inner.height) + 1,
        is_open: inner.is_open,
        rest: inner.rest,
    })
}

/// A statement that begins with a keyword and has no bodies, behind the keyword.
#[tactic(auto, unfolding(crate::specs::Code::StatementReading::keyword_stmt))]
fn keyword<'a>(
    alloc: Global,
    unit: Unit,
    below: u32,
    key: u8,
    pos: Pos,
    scope: &mut Scope,
    tokens: &'a [Token],
) -> Result<Parsed<'a>, ParseError>
    requires deep { below + 1 < 2 ^ 32 }
    requires count { scope.old.count + length tokens.now < 2 ^ 64 }
    ensures read { Gives (seen_read scope.new) result (spec.keyword_stmt unit below pos scope.old key tokens.now) }
    ensures within { IfOk result (λ x. IsWithin (below + 1) scope.old scope.new tokens.now x) }
{
    match key {
        keyword::RETURN => return_at(alloc, unit, below, pos, scope, tokens),
        keyword::ASSERT => assert_at(alloc, below, pos, tokens),
        keyword::CLIENT_OUT => output_at(alloc, below, pos, tokens),
        keyword::CLIENT_IN => run(alloc, pos, input_at(below, tokens)?),
        keyword::DSU_CHOICE => run(alloc, pos, choice_at(unit, below, tokens)?),
        keyword::DSU_UPDATE => point_at(alloc, unit, below, pos, tokens),
        keyword::DSU_FORCE => force_at(alloc, unit, pos, tokens),
        _ => Err(ParseError::Syntax(tokens.len() + 1)),
    }
}

/// A statement that begins with a keyword, behind the keyword.
#[cycle(stmt)]
fn key_stmt<'a>(
    alloc: Global,
    unit: Unit,
    below: u32,
    may_declare: bool,
    in_loop: bool,
    key: u8,
    pos: Pos,
    scope: &mut Scope,
    tokens: &'a [Token],
) -> Result<Parsed<'a>, ParseError>
    requires deep { below + 1 < 2 ^ 32 }
    requires count { scope.old.count + length tokens.now < 2 ^ 64 }
    ensures read { Gives (seen_read scope.new) result (spec.key_stmt (spec.stmt unit below) below unit may_declare in_loop pos scope.old key tokens.now) }
    ensures within { IfOk result (λ x. IsWithin (below + 1) scope.old scope.new tokens.now x) }
{
    if key == keyword::IF {
        return match updated_at(tokens) {
            Some(inside) => pick_at(alloc, unit, below, pos, inside),
            None => branch(alloc, unit, below, in_loop, pos, scope, tokens),
        };
    }
    if key == keyword::WHILE {
        return repeat(alloc, unit, below, pos, scope, tokens);
    }
    if key == keyword::INT {
        return if may_declare {
            declaration(alloc, unit, below, pos, scope, tokens)
        } else {
            Err(ParseError::Syntax(tokens.len() + 1))
        };
    }
    if key == keyword::BREAK {
        return if in_loop {
            single(alloc, Stmt::Break { pos }, 1, tokens)
        } else {
            Err(ParseError::Syntax(tokens.len() + 1))
        };
    }
    keyword(alloc, unit, below, key, pos, scope, tokens)
}

/// A statement, or where it may stand a declaration, whose parts are at most `below` high.
#[cycle(stmt)]
#[tactic(auto, unfolding(crate::specs::Code::StatementReading::stmt_at))]
fn stmt_at<'a>(
    alloc: Global,
    unit: Unit,
    below: u32,
    may_declare: bool,
    in_loop: bool,
    scope: &mut Scope,
    tokens: &'a [Token],
) -> Result<Parsed<'a>, ParseError>
    requires deep { below + 1 < 2 ^ 32 }
    requires count { scope.old.count + length tokens.now < 2 ^ 64 }
    ensures read { Gives (seen_read scope.new) result (spec.stmt_at (spec.stmt unit below) below unit may_declare in_loop scope.old tokens.now) }
    ensures within { IfOk result (λ x. IsWithin (below + 1) scope.old scope.new tokens.now x) }
    ensures some { IfOk result (λ x. length x.rest.now < length tokens.now) }
{
    let [first, rest @ ..] = tokens else {
        return Err(ParseError::Syntax(0));
    };
    let pos = first.pos;
    match &first.what {
        Word::Punct(punctuator::SEMICOLON) => Ok(Parsed {
            stmts: only(alloc, Stmt::Skip { pos })?,
            height: 1,
            is_open: false,
            rest,
        }),
        Word::Ident(name) => named(alloc, unit, below, pos, name, scope, rest),
        Word::Key(key) => key_stmt(
            alloc,
            unit,
            below,
            may_declare,
            in_loop,
            *key,
            pos,
            scope,
            rest,
        ),
        _ => Err(ParseError::Syntax(tokens.len())),
    }
}

/// A statement, or where it may stand a declaration, that is at most `deep` high.
#[cycle(stmt)]
pub fn stmt<'a>(
    alloc: Global,
    unit: Unit,
    deep: u32,
    may_declare: bool,
    in_loop: bool,
    scope: &mut Scope,
    tokens: &'a [Token],
) -> Result<Parsed<'a>, ParseError>
    requires count { scope.old.count + length tokens.now < 2 ^ 64 }
    ensures read { Gives (seen_read scope.new) result (spec.stmt unit deep may_declare in_loop scope.old tokens.now) }
    ensures within { IfOk result (λ x. IsWithin deep scope.old scope.new tokens.now x) }
    ensures some { IfOk result (λ x. length x.rest.now < length tokens.now) }
{
    if deep == 0 {
        return Err(ParseError::Syntax(tokens.len() + 1));
    }
    stmt_at(alloc, unit, deep - 1, may_declare, in_loop, scope, tokens)
}

/// The statements of a function's body, behind its `{` and up to its `}`.
pub fn block<'a>(
    alloc: Global,
    unit: Unit,
    deep: u32,
    scope: &mut Scope,
    tokens: &'a [Token],
) -> Result<Parsed<'a>, ParseError>
    requires count { scope.old.count + length tokens.now < 2 ^ 64 }
    ensures { MatchResult result (λ x. IsBlock unit deep scope.old tokens.now (seen_read scope.new x)) (λ e. IsNoBlock e unit deep scope.old tokens.now) }
{
    items(alloc, unit, deep, false, scope, tokens)
}

/// Tokens have at most one body at the front.
pub fn one_block()
    ensures { (unit : Unit) (deep : ℕ) (scope : scopes.Scope) (ts : List Token) (a b : Read) → IsBlock unit deep scope ts a → IsBlock unit deep scope ts b → a ≡ b }
{}

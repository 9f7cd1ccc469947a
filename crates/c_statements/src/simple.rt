//! Statements and declarations that have no bodies.

ghost use Rattle.std.specs.Prelude.{[], ◌∷◌, ◌≡◌, ◌≤◌, ◌<◌, ◌+◌, ◌^◌, length, IfOk, OnOk, Some};
ghost use Rattle.c_expressions.specs.Code.ParseSteps.{Gives};
ghost use Rattle.c_grammar.specs.Scopes as scopes;
ghost use Rattle.c_grammar.specs.Statements as grammar;
ghost use Rattle.c_statements.specs.Code.StatementReading as spec;
ghost use Rattle.c_expressions.specs.Code.Seen.{seen_called};
ghost use Rattle.c_statements.specs.Code.Seen.{seen_read, IsWithin};

use crate::scope::{Scope, is_client};
use c_expressions::expressions::expression;
use c_expressions::front::{after, name_at, number_at, skip};
use c_expressions::parse_error::ParseError;
use c_expressions::pointer::{Pointer, pointer_at};
use c_expressions::right::{Called, call_at, condition, is_merge, right_side};
use c_grammar::{Call, Right};
use c_lang::{Dest, Expr, Kind, Name, Pos, Stmt, Unit};
use c_lexer::{Token, Word, punctuator};
use sqlite_items::{Boxed, Items};
use std::alloc::{AllocError, Global};

/// The statements that were read, and whether they end in an `if` without `else`.
#[derive(Drop)]
pub struct Parsed<'a> {
    pub stmts: Items<Stmt>,
    pub height: u32,
    pub is_open: bool,
    pub rest: &'a [Token],
}

pub fn only(alloc: Global, stmt: Stmt) -> Result<Items<Stmt>, AllocError>
    ensures { IfOk result (λ x. x ≡ stmt ∷ []) }
{
    let mut stmts = Items::new(alloc);
    stmts.push(stmt)?;
    Ok(stmts)
}

/// Up to the semicolon.
fn done(stmts: Items<Stmt>, height: u32, tokens: &[Token]) -> Result<Parsed<'_>, ParseError>
    ensures read { (scope : scopes.Scope) → Gives (seen_read scope) result (spec.done stmts height scope tokens.now) }
    ensures height { IfOk result (λ x. x.height ≡ height) }
    ensures rest { IfOk result (λ x. length x.rest.now < length tokens.now) }
{
    let rest = after(punctuator::SEMICOLON, tokens)?;
    Ok(Parsed {
        stmts,
        height,
        is_open: false,
        rest,
    })
}

/// One statement, up to its semicolon.
pub fn single(
    alloc: Global,
    stmt: Stmt,
    height: u32,
    tokens: &[Token],
) -> Result<Parsed<'_>, ParseError>
    ensures read { (scope : scopes.Scope) → Gives (seen_read scope) result (spec.done (stmt ∷ []) height scope tokens.now) }
    ensures height { IfOk result (λ x. x.height ≡ height) }
    ensures rest { IfOk result (λ x. length x.rest.now < length tokens.now) }
{
    done(only(alloc, stmt)?, height, tokens)
}

pub fn call_to(pos: Pos, dest: Dest, call: Call) -> Stmt
    ensures { result ≡ grammar.call_to pos dest call }
{
    match call {
        Call::Function(callee, args) => Stmt::Call {
            pos,
            dest,
            callee,
            args,
        },
        Call::Input => Stmt::Input { pos, dest },
        Call::Choice(k) => Stmt::Choice { pos, dest, k },
    }
}

fn right_to(pos: Pos, dest: Dest, right: Right) -> Stmt
    ensures { result ≡ grammar.right_to pos dest right }
{
    match right {
        Right::Value(value) => Stmt::Set {
            pos,
            dest,
            value: value.into_inner(),
        },
        Right::Call(call) => call_to(pos, dest, call),
    }
}

/// The name of one temporary more, and its value.
fn temporary(alloc: Global, scope: &mut Scope) -> Result<(Name, Boxed<Expr>), AllocError>
    requires { scope.old.count + 1 < 2 ^ 64 }
    ensures name { IfOk result (λ x. x.0 ≡ scopes.temporary (scope.old.count + 1)) }
    ensures value { IfOk result (λ x. x.1 ≡ Expr.Var (scopes.temporary (scope.old.count + 1))) }
    ensures scope { OnOk result (scope.new ≡ scopes.one_more scope.old) }
{
    let name = scope.next_temporary(alloc)?;
    let value = Boxed::new(alloc, Expr::Var(name.copy(alloc)?))?;
    Ok((name, value))
}

/// The statement that stores a call's result in the next temporary, and the temporary.
fn to_temporary(
    alloc: Global,
    pos: Pos,
    scope: &mut Scope,
    call: Call,
) -> Result<(Items<Stmt>, Boxed<Expr>), AllocError>
    requires { scope.old.count + 1 < 2 ^ 64 }
    ensures stmts { IfOk result (λ x. x.0 ≡ grammar.call_to pos (Dest.Fresh Kind.Int (scopes.temporary (scope.old.count + 1))) call ∷ []) }
    ensures value { IfOk result (λ x. x.1 ≡ Expr.Var (scopes.temporary (scope.old.count + 1))) }
    ensures scope { OnOk result (scope.new ≡ scopes.one_more scope.old) }
{
    let (name, value) = temporary(alloc, scope)?;
    let stmts = only(alloc, call_to(pos, Dest::Fresh(Kind::Int, name), call))?;
    Ok((stmts, value))
}

/// A right side's value, behind the statement that stores a call's result in a temporary.
fn store(
    alloc: Global,
    pos: Pos,
    scope: &mut Scope,
    right: Right,
) -> Result<(Items<Stmt>, Boxed<Expr>), AllocError>
    requires { scope.old.count + 1 < 2 ^ 64 }
    ensures before { IfOk result (λ x. x.0 ≡ (grammar.stored pos scope.old right).before) }
    ensures value { IfOk result (λ x. x.1 ≡ (grammar.stored pos scope.old right).value) }
    ensures scope { OnOk result (scope.new ≡ (grammar.stored pos scope.old right).scope) }
    ensures count { OnOk result (scope.new.count ≤ scope.old.count + 1) }
{
    match right {
        Right::Value(value) => Ok((Items::new(alloc), value)),
        Right::Call(call) => to_temporary(alloc, pos, scope, call),
    }
}

fn set(
    alloc: Global,
    pos: Pos,
    name: Name,
    scope: &mut Scope,
    right: Right,
) -> Result<Items<Stmt>, AllocError>
    requires { scope.old.count + 1 < 2 ^ 64 }
    ensures stmts { IfOk result (λ x. x ≡ grammar.set_stmts pos name scope.old right) }
    ensures scope { OnOk result (scope.new ≡ grammar.set_scope pos name scope.old right) }
    ensures count { OnOk result (scope.new.count ≤ scope.old.count + 1) }
{
    if scope.is_declared(&name) {
        return only(alloc, right_to(pos, Dest::Into(name), right));
    }
    let (mut stmts, value) = store(alloc, pos, scope, right)?;
    stmts.push(Stmt::Set {
        pos,
        dest: Dest::Into(name),
        value: value.into_inner(),
    })?;
    Ok(stmts)
}

fn set_element(
    alloc: Global,
    pos: Pos,
    array: &Name,
    index: Boxed<Expr>,
    scope: &mut Scope,
    right: Right,
) -> Result<Items<Stmt>, AllocError>
    requires { scope.old.count + 1 < 2 ^ 64 }
    ensures stmts { IfOk result (λ x. x ≡ grammar.element_stmts pos array.now index scope.old right) }
    ensures scope { OnOk result (scope.new ≡ (grammar.stored pos scope.old right).scope) }
    ensures count { OnOk result (scope.new.count ≤ scope.old.count + 1) }
{
    let array = array.copy(alloc)?;
    let (mut stmts, value) = store(alloc, pos, scope, right)?;
    stmts.push(Stmt::SetElem {
        pos,
        array,
        index: index.into_inner(),
        value: value.into_inner(),
    })?;
    Ok(stmts)
}

fn returned(
    alloc: Global,
    pos: Pos,
    scope: &mut Scope,
    right: Right,
) -> Result<Items<Stmt>, AllocError>
    requires { scope.old.count + 1 < 2 ^ 64 }
    ensures stmts { IfOk result (λ x. x ≡ grammar.return_stmts pos scope.old right) }
    ensures scope { OnOk result (scope.new ≡ (grammar.stored pos scope.old right).scope) }
    ensures count { OnOk result (scope.new.count ≤ scope.old.count + 1) }
{
    let (mut stmts, value) = store(alloc, pos, scope, right)?;
    stmts.push(Stmt::Return {
        pos,
        value: Some(value.into_inner()),
    })?;
    Ok(stmts)
}

/// `NAME = ..;`, behind the `=`.
#[tactic(auto, unfolding(crate::specs::Code::StatementReading::assign))]
fn assign<'a>(
    alloc: Global,
    unit: Unit,
    below: u32,
    pos: Pos,
    name: &Name,
    scope: &mut Scope,
    tokens: &'a [Token],
) -> Result<Parsed<'a>, ParseError>
    requires deep { below + 1 < 2 ^ 32 }
    requires count { scope.old.count + length tokens.now < 2 ^ 64 }
    ensures read { Gives (seen_read scope.new) result (spec.assign unit below pos name.now scope.old tokens.now) }
    ensures within { IfOk result (λ x. IsWithin (below + 1) scope.old scope.new tokens.now x) }
{
    let side = right_side(alloc, unit, below, tokens)?;
    let height = side.height + 1;
    let stmts = set(alloc, pos, name.copy(alloc)?, scope, side.right)?;
    done(stmts, height, side.rest)
}

/// `NAME[..] = ..;`, behind the `[`.
#[tactic(auto, unfolding(crate::specs::Code::StatementReading::assign_element))]
fn assign_element<'a>(
    alloc: Global,
    unit: Unit,
    below: u32,
    pos: Pos,
    name: &Name,
    scope: &mut Scope,
    tokens: &'a [Token],
) -> Result<Parsed<'a>, ParseError>
    requires deep { below + 1 < 2 ^ 32 }
    requires count { scope.old.count + length tokens.now < 2 ^ 64 }
    ensures read { Gives (seen_read scope.new) result (spec.assign_element unit below pos name.now scope.old tokens.now) }
    ensures within { IfOk result (λ x. IsWithin (below + 1) scope.old scope.new tokens.now x) }
{
    let index = expression(alloc, below, 1, tokens)?;
    let equals = after(punctuator::SQUARE_CLOSE, index.rest)?;
    let given = after(punctuator::EQUALS, equals)?;
    let side = right_side(alloc, unit, below, given)?;
    let height = index.height.max(side.height) + 1;
    let stmts = set_element(alloc, pos, name, index.expr, scope, side.right)?;
    done(stmts, height, side.rest)
}

/// A call whose result goes nowhere.
pub fn run(alloc: Global, pos: Pos, called: Called<'_>) -> Result<Parsed<'_>, ParseError>
    requires { called.height + 1 < 2 ^ 32 }
    ensures read { (scope : scopes.Scope) → Gives (seen_read scope) result (spec.run pos scope (Some (seen_called called.entry))) }
    ensures height { IfOk result (λ x. x.height ≡ called.entry.height + 1) }
    ensures rest { IfOk result (λ x. length x.rest.now < length called.entry.rest.now) }
{
    let height = called.height + 1;
    single(
        alloc,
        call_to(pos, Dest::Nowhere, called.call),
        height,
        called.rest,
    )
}

/// A statement that begins with a name, behind the name.
#[tactic(auto, unfolding(crate::specs::Code::StatementReading::named_stmt))]
pub fn named<'a>(
    alloc: Global,
    unit: Unit,
    below: u32,
    pos: Pos,
    name: &Name,
    scope: &mut Scope,
    tokens: &'a [Token],
) -> Result<Parsed<'a>, ParseError>
    requires deep { below + 1 < 2 ^ 32 }
    requires count { scope.old.count + length tokens.now < 2 ^ 64 }
    ensures read { Gives (seen_read scope.new) result (spec.named_stmt unit below pos name.now scope.old tokens.now) }
    ensures within { IfOk result (λ x. IsWithin (below + 1) scope.old scope.new tokens.now x) }
{
    let [first, rest @ ..] = tokens else {
        return Err(ParseError::Syntax(0));
    };
    match &first.what {
        Word::Punct(punctuator::EQUALS) => assign(alloc, unit, below, pos, name, scope, rest),
        Word::Punct(punctuator::SQUARE_OPEN) => {
            assign_element(alloc, unit, below, pos, name, scope, rest)
        }
        Word::Punct(punctuator::ROUND_OPEN) => run(alloc, pos, call_at(alloc, below, name, rest)?),
        _ => Err(ParseError::Syntax(tokens.len())),
    }
}

/// A declaration behind its name or its pointer.
#[tactic(auto, unfolding(crate::specs::Code::StatementReading::initialized))]
fn initialized<'a>(
    alloc: Global,
    unit: Unit,
    below: u32,
    pos: Pos,
    kind: Kind,
    name: &Name,
    scope: &mut Scope,
    tokens: &'a [Token],
) -> Result<Parsed<'a>, ParseError>
    requires deep { below + 1 < 2 ^ 32 }
    ensures read { Gives (seen_read scope.new) result (spec.initialized unit below pos kind name.now scope.old tokens.now) }
    ensures within { IfOk result (λ x. IsWithin (below + 1) scope.old scope.new tokens.now x) }
{
    scope.declare(alloc, name)?;
    let given = after(punctuator::EQUALS, tokens)?;
    let side = right_side(alloc, unit, below, given)?;
    let height = side.height + 1;
    let dest = Dest::Fresh(kind, name.copy(alloc)?);
    single(alloc, right_to(pos, dest, side.right), height, side.rest)
}

#[tactic(auto, unfolding(crate::specs::Code::StatementReading::declare_pointer))]
fn declare_pointer<'a>(
    alloc: Global,
    unit: Unit,
    below: u32,
    pos: Pos,
    scope: &mut Scope,
    tokens: &'a [Token],
) -> Result<Parsed<'a>, ParseError>
    requires deep { below + 1 < 2 ^ 32 }
    ensures read { Gives (seen_read scope.new) result (spec.declare_pointer unit below pos scope.old tokens.now) }
    ensures within { IfOk result (λ x. IsWithin (below + 1) scope.old scope.new tokens.now x) }
{
    let Pointer { name, arity, rest } = pointer_at(tokens)?;
    scope.refuse_arity(pos, arity)?;
    initialized(alloc, unit, below, pos, Kind::Fp(arity), name, scope, rest)
}

/// A declaration, behind its `int`.
pub fn declaration<'a>(
    alloc: Global,
    unit: Unit,
    below: u32,
    pos: Pos,
    scope: &mut Scope,
    tokens: &'a [Token],
) -> Result<Parsed<'a>, ParseError>
    requires deep { below + 1 < 2 ^ 32 }
    ensures read { Gives (seen_read scope.new) result (spec.declaration unit below pos scope.old tokens.now) }
    ensures within { IfOk result (λ x. IsWithin (below + 1) scope.old scope.new tokens.now x) }
{
    match name_at(tokens) {
        Some((name, rest)) => initialized(alloc, unit, below, pos, Kind::Int, name, scope, rest),
        None => declare_pointer(alloc, unit, below, pos, scope, tokens),
    }
}

/// `return`, behind its keyword.
#[tactic(auto, unfolding(crate::specs::Code::StatementReading::return_at))]
pub fn return_at<'a>(
    alloc: Global,
    unit: Unit,
    below: u32,
    pos: Pos,
    scope: &mut Scope,
    tokens: &'a [Token],
) -> Result<Parsed<'a>, ParseError>
    requires deep { below + 1 < 2 ^ 32 }
    requires count { scope.old.count + length tokens.now < 2 ^ 64 }
    ensures read { Gives (seen_read scope.new) result (spec.return_at unit below pos scope.old tokens.now) }
    ensures within { IfOk result (λ x. IsWithin (below + 1) scope.old scope.new tokens.now x) }
{
    if let Some(rest) = skip(punctuator::SEMICOLON, tokens) {
        return Ok(Parsed {
            stmts: only(alloc, Stmt::Return { pos, value: None })?,
            height: 1,
            is_open: false,
            rest,
        });
    }
    let side = right_side(alloc, unit, below, tokens)?;
    let height = side.height + 1;
    let stmts = returned(alloc, pos, scope, side.right)?;
    done(stmts, height, side.rest)
}

/// `assert(..);`, behind its keyword.
#[tactic(auto, unfolding(crate::specs::Code::StatementReading::checked))]
pub fn assert_at(
    alloc: Global,
    below: u32,
    pos: Pos,
    tokens: &[Token],
) -> Result<Parsed<'_>, ParseError>
    requires { below + 1 < 2 ^ 32 }
    ensures read { (scope : scopes.Scope) → Gives (seen_read scope) result (spec.checked (Stmt.Assert pos) below scope tokens.now) }
    ensures height { IfOk result (λ x. x.height ≤ below + 1) }
    ensures rest { IfOk result (λ x. length x.rest.now < length tokens.now) }
{
    let found = condition(alloc, below, tokens)?;
    let height = found.height + 1;
    let cond = found.expr.into_inner();
    single(alloc, Stmt::Assert { pos, cond }, height, found.rest)
}

/// `client_out(..);`, behind its keyword.
#[tactic(auto, unfolding(crate::specs::Code::StatementReading::checked))]
pub fn output_at(
    alloc: Global,
    below: u32,
    pos: Pos,
    tokens: &[Token],
) -> Result<Parsed<'_>, ParseError>
    requires { below + 1 < 2 ^ 32 }
    ensures read { (scope : scopes.Scope) → Gives (seen_read scope) result (spec.checked (Stmt.Output pos) below scope tokens.now) }
    ensures height { IfOk result (λ x. x.height ≤ below + 1) }
    ensures rest { IfOk result (λ x. length x.rest.now < length tokens.now) }
{
    let found = condition(alloc, below, tokens)?;
    let height = found.height + 1;
    let value = found.expr.into_inner();
    single(alloc, Stmt::Output { pos, value }, height, found.rest)
}

/// `dsu_update(k);`, behind its keyword.
#[tactic(auto, unfolding(crate::specs::Code::StatementReading::point_at))]
pub fn point_at(
    alloc: Global,
    unit: Unit,
    below: u32,
    pos: Pos,
    tokens: &[Token],
) -> Result<Parsed<'_>, ParseError>
    ensures read { (scope : scopes.Scope) → Gives (seen_read scope) result (spec.point_at unit below pos scope tokens.now) }
    ensures height { IfOk result (λ x. x.height ≤ below + 1) }
    ensures rest { IfOk result (λ x. length x.rest.now < length tokens.now) }
{
    if is_merge(unit) || below == 0 {
        return Err(ParseError::Syntax(tokens.len() + 1));
    }
    let inside = after(punctuator::ROUND_OPEN, tokens)?;
    let Some((k, closing)) = number_at(inside) else {
        return Err(ParseError::Syntax(inside.len()));
    };
    let end = after(punctuator::ROUND_CLOSE, closing)?;
    single(alloc, Stmt::Point { pos, k }, 2, end)
}

/// `dsu_force();`, behind its keyword.
#[tactic(auto, unfolding(crate::specs::Code::StatementReading::force_at))]
pub fn force_at(
    alloc: Global,
    unit: Unit,
    pos: Pos,
    tokens: &[Token],
) -> Result<Parsed<'_>, ParseError>
    ensures read { (scope : scopes.Scope) → Gives (seen_read scope) result (spec.force_at unit pos scope tokens.now) }
    ensures height { IfOk result (λ x. x.height ≤ 1) }
    ensures rest { IfOk result (λ x. length x.rest.now < length tokens.now) }
{
    if !is_client(unit) {
        return Err(ParseError::Syntax(tokens.len() + 1));
    }
    let inside = after(punctuator::ROUND_OPEN, tokens)?;
    let end = after(punctuator::ROUND_CLOSE, inside)?;
    single(alloc, Stmt::Force { pos }, 1, end)
}

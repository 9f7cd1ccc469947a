//! Statements and blocks: each in its resolved form, or its first refusal. Of the scope after an error
//! nothing is said.

ghost use Rattle.std.specs.Prelude.{◌≡◌, OnOk, map};
ghost use Rattle.c_lang.specs.Trees as tree;
ghost use Rattle.c_lang.specs.Trees.{expression_of, statement_of};
ghost use Rattle.c_types.specs.Code.SeenScopes.{seen_scope, seen_block};
ghost use Rattle.c_types.specs.Bodies.{body_of};
ghost use Rattle.c_types.specs.Checks.{Checked};
ghost use Rattle.c_types.specs.Scopes.{with_dest};
ghost use Rattle.c_types.specs.Statements as spec;

use crate::clients::{force, pick};
use crate::scope::{Block, Scope, add_dest};
use crate::simple::{
    assert_that, call, call_by, choice, input, int, output, point, return_with, set, set_element,
};
use crate::symbols::Symbols;
use c_lang::{Expr, Fail, Pos, Stmt};
use sqlite_items::Items;
use std::alloc::{AllocError, Global};

// The local that the statement declares.
fn add_local(alloc: Global, symbols: &mut Symbols, s: &Stmt) -> Result<(), AllocError>
    ensures { OnOk result (symbols.new ≡ with_dest symbols.old (spec.dest_of (statement_of s.now))) }
{
    match s {
        Stmt::Set { dest, .. }
        | Stmt::Call { dest, .. }
        | Stmt::CallBy { dest, .. }
        | Stmt::Input { dest, .. }
        | Stmt::Choice { dest, .. } => add_dest(alloc, symbols, dest),
        Stmt::Skip { .. }
        | Stmt::SetElem { .. }
        | Stmt::If { .. }
        | Stmt::While { .. }
        | Stmt::Break { .. }
        | Stmt::Return { .. }
        | Stmt::Assert { .. }
        | Stmt::Output { .. }
        | Stmt::Point { .. }
        | Stmt::Force { .. }
        | Stmt::Pick { .. } => Ok(()),
    }
}

fn add_locals(alloc: Global, symbols: &mut Symbols, stmts: &[Stmt]) -> Result<(), AllocError>
    ensures { OnOk result (symbols.new ≡ spec.with_locals symbols.old (body_of stmts.now)) }
{
    for s in stmts {
        add_local(alloc, symbols, s)?;
    }
    Ok(())
}

/// A statement of a block in its resolved form, or its first refusal. What it declares is then in
/// scope.
#[cycle(statement)]
pub fn statement(alloc: Global, scope: &mut Scope, block: Block, s: &Stmt) -> Result<Stmt, Fail>
    ensures checked { spec.IsStatement (seen_block block) (seen_scope scope.old) (statement_of s.now) result }
    ensures scope { OnOk result (seen_scope scope.new ≡ spec.scope_after (seen_scope scope.old) (statement_of s.now)) }
{
    match s {
        Stmt::Skip { pos } => Ok(Stmt::Skip { pos: *pos }),
        Stmt::Set { pos, dest, value } => set(alloc, scope, block, *pos, dest, value),
        Stmt::SetElem {
            pos,
            array,
            index,
            value,
        } => set_element(alloc, scope, *pos, array, index, value),
        Stmt::Call {
            pos,
            dest,
            callee,
            args,
        } => call(alloc, scope, block, *pos, dest, callee, args.as_slice()),
        Stmt::CallBy {
            pos,
            dest,
            pointer,
            args,
        } => call_by(alloc, scope, block, *pos, dest, pointer, args.as_slice()),
        Stmt::If { pos, cond, yes, no } => {
            let cond = int(alloc, scope, *pos, cond)?;
            let yes = inner(alloc, scope, yes.as_slice())?;
            let no = inner(alloc, scope, no.as_slice())?;
            Ok(Stmt::If {
                pos: *pos,
                cond: cond.into_inner(),
                yes,
                no,
            })
        }
        Stmt::While { pos, cond, body } => turn(alloc, scope, body.as_slice(), *pos, cond),
        Stmt::Break { pos } => Ok(Stmt::Break { pos: *pos }),
        Stmt::Return { pos, value } => return_with(alloc, scope, *pos, value),
        Stmt::Assert { pos, cond } => assert_that(alloc, scope, *pos, cond),
        Stmt::Input { pos, dest } => input(alloc, scope, block, *pos, dest),
        Stmt::Output { pos, value } => output(alloc, scope, *pos, value),
        Stmt::Point { pos, k } => point(scope, *pos, *k),
        Stmt::Choice { pos, dest, k } => choice(alloc, scope, block, *pos, dest, *k),
        Stmt::Force { pos } => force(scope, *pos),
        Stmt::Pick { pos, after, before } => {
            pick(alloc, scope, block, *pos, after.get(), before.get())
        }
    }
}

#[cycle(statement)]
fn turn(
    alloc: Global,
    scope: &mut Scope,
    body: &[Stmt],
    pos: Pos,
    cond: &Expr,
) -> Result<Stmt, Fail>
    ensures checked { spec.IsStatement (spec.block_in (seen_scope scope.old)) (seen_scope scope.old) (tree.while_loop pos (expression_of cond.now) (body_of body.now)) result }
    ensures scope { OnOk result (seen_scope scope.new ≡ spec.scope_after (seen_scope scope.old) (tree.while_loop pos (expression_of cond.now) (body_of body.now))) }
{
    let cond = int(alloc, scope, pos, cond)?;
    let body = inner(alloc, scope, body)?;
    Ok(Stmt::While {
        pos,
        cond: cond.into_inner(),
        body,
    })
}

#[cycle(statement)]
fn sequence(
    alloc: Global,
    scope: &mut Scope,
    block: Block,
    stmts: &[Stmt],
) -> Result<Items<Stmt>, Fail>
    ensures checked { spec.IsSequence (seen_block block) (seen_scope scope.old) (body_of stmts.now) result }
    ensures scope { OnOk result (seen_scope scope.new ≡ spec.scope_after_all (seen_scope scope.old) (body_of stmts.now)) }
{
    let mut all = Items::new(alloc);
    for s in stmts {
        all.push(statement(alloc, scope, block, s)?)?;
    }
    Ok(all)
}

// The statements of a block within a block, in which no force may stand.
#[cycle(statement)]
fn inner(alloc: Global, scope: &mut Scope, stmts: &[Stmt]) -> Result<Items<Stmt>, Fail>
    ensures checked { spec.IsBlock (seen_scope scope.old) (body_of stmts.now) result }
    ensures scope { OnOk result (seen_scope scope.new ≡ spec.after_block (seen_scope scope.old) (body_of stmts.now)) }
{
    let forced = scope.forced.take();
    let all = body(alloc, scope, stmts)?;
    scope.forced = forced;
    Ok(all)
}

/// The statements of a function's body, in their resolved form, or their first refusal. The body's locals
/// leave the scope at its end.
#[cycle(statement)]
pub fn body(alloc: Global, scope: &mut Scope, stmts: &[Stmt]) -> Result<Items<Stmt>, Fail>
    ensures checked { spec.IsBody (seen_scope scope.old) (body_of stmts.now) result }
    ensures scope { OnOk result (seen_scope scope.new ≡ spec.after_body (seen_scope scope.old) (body_of stmts.now)) }
{
    let block = Block {
        base: scope.locals.len(),
        mark: scope.ahead.len(),
    };
    add_locals(alloc, &mut scope.ahead, stmts)?;
    let all = sequence(alloc, scope, block, stmts)?;
    add_locals(alloc, &mut scope.told, stmts)?;
    scope.locals.truncate(block.base);
    scope.ahead.truncate(block.mark);
    Ok(all)
}

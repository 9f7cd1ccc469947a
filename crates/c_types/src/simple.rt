//! Statements without bodies: each in its resolved form, or its first refusal. Of the scope after an
//! error nothing is said.

ghost use Rattle.std.specs.Prelude.{◌≡◌, OnOk, map};
ghost use Rattle.std.specs.Option.{option_map};
ghost use Rattle.c_lang.specs.Trees as tree;
ghost use Rattle.c_lang.specs.Trees.{expression_of};
ghost use Rattle.c_lang.specs.declared.stmt.Kind.TheVariants.{Int};
ghost use Rattle.c_lang.specs.declared.stmt.Stmt.{Stmt};
ghost use Rattle.c_types.specs.Code.SeenScopes.{seen_scope, seen_block};
ghost use Rattle.c_types.specs.Calls as calls;
ghost use Rattle.c_types.specs.Checks.{Checked, Stops, at_place};
ghost use Rattle.c_types.specs.Expressions as expression;
ghost use Rattle.c_types.specs.Scopes.{declared, names_of};
ghost use Rattle.c_types.specs.Statements as spec;

use crate::calls::{
    element_kind, place_in, resolve_args, resolve_call, resolve_value, wrong_call, wrong_call_by,
    wrong_element, wrong_return, wrong_use,
};
use crate::expressions::wrong;
use crate::means::smaller;
use crate::resolving::{boxed, resolve};
use crate::scope::{Block, Scope, copy_dest, declare, wrong_dest, wrong_effect};
use c_lang::{Dest, Expr, Fail, Kind, Name, Pos, Refusal, Stmt, refusal};
use sqlite_items::Boxed;
use std::alloc::Global;

/// The refusal by this number, where there is one.
pub fn stop(number: Option<u8>, pos: Pos) -> Result<(), Fail>
    ensures { Stops result (at_place number pos) }
{
    match number {
        None => Ok(()),
        Some(number) => Err(Fail::Refused(Refusal {
            number,
            pos,
            name: None,
        })),
    }
}

/// An int that is looked at by itself.
pub fn int(alloc: Global, scope: &Scope, pos: Pos, e: &Expr) -> Result<Boxed<Expr>, Fail>
    ensures { Checked result (at_place (expression.wrong (names_of (seen_scope scope.now)) Int (expression_of e.now)) pos) (expression.resolved (names_of (seen_scope scope.now)) Int (expression_of e.now)) }
{
    stop(wrong(scope, Kind::Int, e), pos)?;
    Ok(boxed(alloc, scope, Kind::Int, e)?)
}

/// A value that goes to a name.
pub fn set(
    alloc: Global,
    scope: &mut Scope,
    block: Block,
    pos: Pos,
    dest: &Dest,
    value: &Expr,
) -> Result<Stmt, Fail>
    ensures checked { spec.IsStatement (seen_block block) (seen_scope scope.old) (tree.set pos dest.now (expression_of value.now)) result }
    ensures scope { OnOk result (seen_scope scope.new ≡ spec.scope_after (seen_scope scope.old) (tree.set pos dest.now (expression_of value.now))) }
{
    let place = place_in(scope, dest, value);
    let number = smaller(wrong_dest(scope, block, dest), wrong(scope, place, value));
    stop(number, pos)?;
    let value = boxed(alloc, scope, place, value)?;
    declare(alloc, scope, dest)?;
    let dest = copy_dest(alloc, dest)?;
    Ok(Stmt::Set {
        pos,
        dest,
        value: value.into_inner(),
    })
}

/// A value that goes to an element.
pub fn set_element(
    alloc: Global,
    scope: &Scope,
    pos: Pos,
    array: &Name,
    index: &Expr,
    value: &Expr,
) -> Result<Stmt, Fail>
    ensures { spec.IsStatement (spec.block_in (seen_scope scope.now)) (seen_scope scope.now) (tree.set_element pos array.now (expression_of index.now) (expression_of value.now)) result }
{
    stop(wrong_element(scope, array, index, value), pos)?;
    let kind = element_kind(scope, scope.look(array), value);
    let array = array.copy(alloc)?;
    let index = boxed(alloc, scope, Kind::Int, index)?;
    let value = resolve(alloc, scope, kind, value)?;
    Ok(Stmt::SetElem {
        pos,
        array,
        index: index.into_inner(),
        value,
    })
}

/// A call by name, which may be that of a pointer.
pub fn call(
    alloc: Global,
    scope: &mut Scope,
    block: Block,
    pos: Pos,
    dest: &Dest,
    callee: &Name,
    args: &[Expr],
) -> Result<Stmt, Fail>
    ensures checked { spec.IsStatement (seen_block block) (seen_scope scope.old) (tree.call pos dest.now callee.now (map expression_of args.now)) result }
    ensures scope { OnOk result (seen_scope scope.new ≡ spec.scope_after (seen_scope scope.old) (tree.call pos dest.now callee.now (map expression_of args.now))) }
{
    let inside = wrong_call(scope, scope.look(callee), dest, args);
    stop(smaller(wrong_dest(scope, block, dest), inside), pos)?;
    let stmt = Boxed::new(alloc, resolve_call(alloc, scope, pos, dest, callee, args)?)?;
    declare(alloc, scope, dest)?;
    Ok(stmt.into_inner())
}

/// A call that is written as one through a pointer.
pub fn call_by(
    alloc: Global,
    scope: &mut Scope,
    block: Block,
    pos: Pos,
    dest: &Dest,
    pointer: &Name,
    args: &[Expr],
) -> Result<Stmt, Fail>
    ensures checked { spec.IsStatement (seen_block block) (seen_scope scope.old) (tree.call_by pos dest.now pointer.now (map expression_of args.now)) result }
    ensures scope { OnOk result (seen_scope scope.new ≡ spec.scope_after (seen_scope scope.old) (tree.call_by pos dest.now pointer.now (map expression_of args.now))) }
{
    let inside = wrong_call_by(scope, scope.look(pointer), dest, args);
    stop(smaller(wrong_dest(scope, block, dest), inside), pos)?;
    let args = resolve_args(alloc, scope, &[], args)?;
    let pointer = pointer.copy(alloc)?;
    declare(alloc, scope, dest)?;
    let dest = copy_dest(alloc, dest)?;
    Ok(Stmt::CallBy {
        pos,
        dest,
        pointer,
        args,
    })
}

fn wrong_answer(scope: &Scope, block: Block, dest: &Dest) -> Option<u8>
    ensures { result ≡ spec.wrong_answer (seen_block block) (seen_scope scope.now) dest.now }
{
    let inside = smaller(wrong_effect(scope), wrong_use(scope, true, dest));
    smaller(wrong_dest(scope, block, dest), inside)
}

// The destination of an input or a choice.
fn answer(
    alloc: Global,
    scope: &mut Scope,
    block: Block,
    pos: Pos,
    dest: &Dest,
) -> Result<Dest, Fail>
    ensures checked { Checked result (at_place (spec.wrong_answer (seen_block block) (seen_scope scope.old) dest.now) pos) dest.now }
    ensures scope { OnOk result (seen_scope scope.new ≡ declared (seen_scope scope.old) dest.now) }
{
    stop(wrong_answer(scope, block, dest), pos)?;
    declare(alloc, scope, dest)?;
    Ok(copy_dest(alloc, dest)?)
}

/// An input.
pub fn input(
    alloc: Global,
    scope: &mut Scope,
    block: Block,
    pos: Pos,
    dest: &Dest,
) -> Result<Stmt, Fail>
    ensures checked { spec.IsStatement (seen_block block) (seen_scope scope.old) (tree.input pos dest.now) result }
    ensures scope { OnOk result (seen_scope scope.new ≡ spec.scope_after (seen_scope scope.old) (tree.input pos dest.now)) }
{
    let dest = answer(alloc, scope, block, pos, dest)?;
    Ok(Stmt::Input { pos, dest })
}

/// A choice.
pub fn choice(
    alloc: Global,
    scope: &mut Scope,
    block: Block,
    pos: Pos,
    dest: &Dest,
    k: u32,
) -> Result<Stmt, Fail>
    ensures checked { spec.IsStatement (seen_block block) (seen_scope scope.old) (tree.choice pos dest.now k) result }
    ensures scope { OnOk result (seen_scope scope.new ≡ spec.scope_after (seen_scope scope.old) (tree.choice pos dest.now k)) }
{
    let dest = answer(alloc, scope, block, pos, dest)?;
    Ok(Stmt::Choice { pos, dest, k })
}

/// An output.
pub fn output(alloc: Global, scope: &Scope, pos: Pos, value: &Expr) -> Result<Stmt, Fail>
    ensures { spec.IsStatement (spec.block_in (seen_scope scope.now)) (seen_scope scope.now) (tree.output pos (expression_of value.now)) result }
{
    let number = smaller(wrong_effect(scope), wrong(scope, Kind::Int, value));
    stop(number, pos)?;
    let value = resolve(alloc, scope, Kind::Int, value)?;
    Ok(Stmt::Output { pos, value })
}

/// An assertion.
pub fn assert_that(alloc: Global, scope: &Scope, pos: Pos, cond: &Expr) -> Result<Stmt, Fail>
    ensures { spec.IsStatement (spec.block_in (seen_scope scope.now)) (seen_scope scope.now) (tree.assert_that pos (expression_of cond.now)) result }
{
    stop(wrong(scope, Kind::Int, cond), pos)?;
    let cond = resolve(alloc, scope, Kind::Int, cond)?;
    Ok(Stmt::Assert { pos, cond })
}

/// A point.
pub fn point(scope: &Scope, pos: Pos, k: u32) -> Result<Stmt, Fail>
    ensures { spec.IsStatement (spec.block_in (seen_scope scope.now)) (seen_scope scope.now) (tree.point pos k) result }
{
    stop(wrong_effect(scope), pos)?;
    Ok(Stmt::Point { pos, k })
}

/// A `return`.
pub fn return_with(
    alloc: Global,
    scope: &Scope,
    pos: Pos,
    value: &Option<Expr>,
) -> Result<Stmt, Fail>
    ensures { spec.IsStatement (spec.block_in (seen_scope scope.now)) (seen_scope scope.now) (tree.return_with pos (option_map expression_of value.now)) result }
{
    stop(wrong_return(scope, scope.gives, value), pos)?;
    let value = resolve_value(alloc, scope, value)?;
    Ok(Stmt::Return { pos, value })
}

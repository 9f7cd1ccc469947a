//! Statements under the names of the merged program. The only error of each function is want of memory.

ghost use Rattle.std.specs.Prelude.{◌≡◌, IfOk, map, [], ◌∷◌};
ghost use Rattle.c_lang.specs.Trees as tree;
ghost use Rattle.std.specs.Option.{option_map};
ghost use Rattle.c_lang.specs.Trees.{expression_of, statement_of};
ghost use Rattle.update_semantics.specs.Linked.{provenance_of};
ghost use Rattle.merged_program.specs.Code.Built as built;

use crate::expansions::{asking, by_version, forcing};
use crate::expressions::{arguments, boxed, dest, optional, renamed};
use crate::names::{function, variable};
use c_lang::{Dest, Expr, Name, Pos, Stmt};
use sqlite_items::Items;
use std::alloc::{AllocError, Global};
use update_semantics::{Meanings, Provenance};

fn set(
    alloc: Global,
    meanings: &Meanings<'_>,
    origin: Provenance,
    pos: Pos,
    to: &Dest,
    value: &Expr,
) -> Result<Stmt, AllocError>
    ensures { IfOk result (λ s. s ≡ built.mirrored meanings.now (provenance_of origin) (tree.set pos to.now (expression_of value.now))) }
{
    let value = boxed(alloc, meanings, origin, value)?;
    let dest = dest(alloc, meanings, origin, to)?;
    Ok(Stmt::Set {
        pos,
        dest,
        value: value.into_inner(),
    })
}

fn set_element(
    alloc: Global,
    meanings: &Meanings<'_>,
    origin: Provenance,
    pos: Pos,
    array: &Name,
    index: &Expr,
    value: &Expr,
) -> Result<Stmt, AllocError>
    ensures { IfOk result (λ s. s ≡ built.mirrored meanings.now (provenance_of origin) (tree.set_element pos array.now (expression_of index.now) (expression_of value.now))) }
{
    let array = variable(alloc, meanings, origin, array)?;
    let index = boxed(alloc, meanings, origin, index)?;
    let value = renamed(alloc, meanings, origin, value)?;
    Ok(Stmt::SetElem {
        pos,
        array,
        index: index.into_inner(),
        value,
    })
}

fn call(
    alloc: Global,
    meanings: &Meanings<'_>,
    origin: Provenance,
    pos: Pos,
    to: &Dest,
    callee: &Name,
    args: &[Expr],
) -> Result<Stmt, AllocError>
    ensures { IfOk result (λ s. s ≡ built.mirrored meanings.now (provenance_of origin) (tree.call pos to.now callee.now (map expression_of args.now))) }
{
    let args = arguments(alloc, meanings, origin, args)?;
    let callee = function(alloc, meanings, origin, callee)?;
    let dest = dest(alloc, meanings, origin, to)?;
    Ok(Stmt::Call {
        pos,
        dest,
        callee,
        args,
    })
}

fn call_by(
    alloc: Global,
    meanings: &Meanings<'_>,
    origin: Provenance,
    pos: Pos,
    to: &Dest,
    pointer: &Name,
    args: &[Expr],
) -> Result<Stmt, AllocError>
    ensures { IfOk result (λ s. s ≡ built.mirrored meanings.now (provenance_of origin) (tree.call_by pos to.now pointer.now (map expression_of args.now))) }
{
    let args = arguments(alloc, meanings, origin, args)?;
    let pointer = variable(alloc, meanings, origin, pointer)?;
    let dest = dest(alloc, meanings, origin, to)?;
    Ok(Stmt::CallBy {
        pos,
        dest,
        pointer,
        args,
    })
}

// A point that is permitted asks in old code; every other point does nothing.
fn point(
    alloc: Global,
    meanings: &Meanings<'_>,
    origin: Provenance,
    pos: Pos,
    k: u32,
) -> Result<Stmt, AllocError>
    ensures { IfOk result (λ s. s ≡ built.mirrored meanings.now (provenance_of origin) (tree.point pos k)) }
{
    let may_update = match origin {
        Provenance::Old | Provenance::Client => true,
        Provenance::New | Provenance::Xform => false,
    };
    if may_update && meanings.world().points().permits(k) {
        asking(alloc, pos, k)
    } else {
        Ok(Stmt::Skip { pos })
    }
}

fn return_with(
    alloc: Global,
    meanings: &Meanings<'_>,
    origin: Provenance,
    pos: Pos,
    value: &Option<Expr>,
) -> Result<Stmt, AllocError>
    ensures { IfOk result (λ s. s ≡ built.mirrored meanings.now (provenance_of origin) (tree.return_with pos (option_map expression_of value.now))) }
{
    let value = optional(alloc, meanings, origin, value)?;
    Ok(Stmt::Return { pos, value })
}

fn assert_that(
    alloc: Global,
    meanings: &Meanings<'_>,
    origin: Provenance,
    pos: Pos,
    cond: &Expr,
) -> Result<Stmt, AllocError>
    ensures { IfOk result (λ s. s ≡ built.mirrored meanings.now (provenance_of origin) (tree.assert_that pos (expression_of cond.now))) }
{
    let cond = renamed(alloc, meanings, origin, cond)?;
    Ok(Stmt::Assert { pos, cond })
}

fn input(
    alloc: Global,
    meanings: &Meanings<'_>,
    origin: Provenance,
    pos: Pos,
    to: &Dest,
) -> Result<Stmt, AllocError>
    ensures { IfOk result (λ s. s ≡ built.mirrored meanings.now (provenance_of origin) (tree.input pos to.now)) }
{
    let dest = dest(alloc, meanings, origin, to)?;
    Ok(Stmt::Input { pos, dest })
}

fn output(
    alloc: Global,
    meanings: &Meanings<'_>,
    origin: Provenance,
    pos: Pos,
    value: &Expr,
) -> Result<Stmt, AllocError>
    ensures { IfOk result (λ s. s ≡ built.mirrored meanings.now (provenance_of origin) (tree.output pos (expression_of value.now))) }
{
    let value = renamed(alloc, meanings, origin, value)?;
    Ok(Stmt::Output { pos, value })
}

fn choice(
    alloc: Global,
    meanings: &Meanings<'_>,
    origin: Provenance,
    pos: Pos,
    to: &Dest,
    k: u32,
) -> Result<Stmt, AllocError>
    ensures { IfOk result (λ s. s ≡ built.mirrored meanings.now (provenance_of origin) (tree.choice pos to.now k)) }
{
    let dest = dest(alloc, meanings, origin, to)?;
    Ok(Stmt::Choice { pos, dest, k })
}

/// A statement of code of this origin.
#[cycle(merged)]
pub fn merged(
    alloc: Global,
    meanings: &Meanings<'_>,
    origin: Provenance,
    s: &Stmt,
) -> Result<Stmt, AllocError>
    ensures { IfOk result (λ r. r ≡ built.statement meanings.now (provenance_of origin) s.now) }
{
    match s {
        Stmt::Skip { pos } => Ok(Stmt::Skip { pos: *pos }),
        Stmt::Set {
            pos,
            dest: to,
            value,
        } => set(alloc, meanings, origin, *pos, to, value),
        Stmt::SetElem {
            pos,
            array,
            index,
            value,
        } => set_element(alloc, meanings, origin, *pos, array, index, value),
        Stmt::Call {
            pos,
            dest: to,
            callee,
            args,
        } => call(alloc, meanings, origin, *pos, to, callee, args.as_slice()),
        Stmt::CallBy {
            pos,
            dest: to,
            pointer,
            args,
        } => call_by(alloc, meanings, origin, *pos, to, pointer, args.as_slice()),
        Stmt::If { pos, cond, yes, no } => if_else(
            alloc,
            meanings,
            origin,
            *pos,
            cond,
            yes.as_slice(),
            no.as_slice(),
        ),
        Stmt::While {
            pos,
            cond,
            body: turn,
        } => while_loop(alloc, meanings, origin, *pos, cond, turn.as_slice()),
        Stmt::Break { pos } => Ok(Stmt::Break { pos: *pos }),
        Stmt::Return { pos, value } => return_with(alloc, meanings, origin, *pos, value),
        Stmt::Assert { pos, cond } => assert_that(alloc, meanings, origin, *pos, cond),
        Stmt::Input { pos, dest: to } => input(alloc, meanings, origin, *pos, to),
        Stmt::Output { pos, value } => output(alloc, meanings, origin, *pos, value),
        Stmt::Point { pos, k } => point(alloc, meanings, origin, *pos, *k),
        Stmt::Choice { pos, dest: to, k } => choice(alloc, meanings, origin, *pos, to, *k),
        Stmt::Force { pos } => forcing(alloc, *pos),
        Stmt::Pick { pos, after, before } => pick(
            alloc,
            meanings,
            origin,
            *pos,
            after.get(),
            before.get(),
        ),
    }
}

// The body of a pick's branch.
#[cycle(merged)]
fn one(
    alloc: Global,
    meanings: &Meanings<'_>,
    origin: Provenance,
    s: &Stmt,
) -> Result<Items<Stmt>, AllocError>
    ensures { IfOk result (λ r. r ≡ built.statement meanings.now (provenance_of origin) s.now ∷ []) }
{
    let mut all = Items::new(alloc);
    all.push(merged(alloc, meanings, origin, s)?)?;
    Ok(all)
}

#[cycle(merged)]
fn if_else(
    alloc: Global,
    meanings: &Meanings<'_>,
    origin: Provenance,
    pos: Pos,
    cond: &Expr,
    yes: &[Stmt],
    no: &[Stmt],
) -> Result<Stmt, AllocError>
    ensures { IfOk result (λ s. s ≡ built.mirrored meanings.now (provenance_of origin) (tree.if_else pos (expression_of cond.now) (tree.statements (map statement_of yes.now)) (tree.statements (map statement_of no.now)))) }
{
    let yes = body(alloc, meanings, origin, yes)?;
    let no = body(alloc, meanings, origin, no)?;
    let cond = renamed(alloc, meanings, origin, cond)?;
    Ok(Stmt::If { pos, cond, yes, no })
}

#[cycle(merged)]
fn while_loop(
    alloc: Global,
    meanings: &Meanings<'_>,
    origin: Provenance,
    pos: Pos,
    cond: &Expr,
    turn: &[Stmt],
) -> Result<Stmt, AllocError>
    ensures { IfOk result (λ s. s ≡ built.mirrored meanings.now (provenance_of origin) (tree.while_loop pos (expression_of cond.now) (tree.statements (map statement_of turn.now)))) }
{
    let body = body(alloc, meanings, origin, turn)?;
    let cond = renamed(alloc, meanings, origin, cond)?;
    Ok(Stmt::While { pos, cond, body })
}

// A pick tests the flag.
#[cycle(merged)]
fn pick(
    alloc: Global,
    meanings: &Meanings<'_>,
    origin: Provenance,
    pos: Pos,
    after: &Stmt,
    before: &Stmt,
) -> Result<Stmt, AllocError>
    ensures { IfOk result (λ s. s ≡ built.mirrored meanings.now (provenance_of origin) (tree.pick pos (statement_of after.now) (statement_of before.now))) }
{
    let yes = one(alloc, meanings, origin, after)?;
    let no = one(alloc, meanings, origin, before)?;
    by_version(alloc, pos, yes, no)
}

/// The statements of a body.
#[cycle(merged)]
pub fn body(
    alloc: Global,
    meanings: &Meanings<'_>,
    origin: Provenance,
    stmts: &[Stmt],
) -> Result<Items<Stmt>, AllocError>
    ensures { IfOk result (λ r. r ≡ built.statements meanings.now (provenance_of origin) stmts.now) }
{
    let mut all = Items::new(alloc);
    for s in stmts {
        all.push(merged(alloc, meanings, origin, s)?)?;
    }
    Ok(all)
}

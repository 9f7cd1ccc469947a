//! Statements of clients: each in its resolved form, or its first refusal. Of the scope after an error
//! nothing is said.

ghost use Rattle.std.specs.Prelude.{◌≡◌, OnOk, Some, None};
ghost use Rattle.c_lang.specs.Refusals.{client_call};
ghost use Rattle.c_lang.specs.Trees as tree;
ghost use Rattle.c_lang.specs.Trees.{statement_of};
ghost use Rattle.c_types.specs.Code.SeenScopes.{seen_scope, seen_block, seen_picks};
ghost use Rattle.c_types.specs.Checks.{Checked, at_place};
ghost use Rattle.c_types.specs.Statements as spec;

use crate::calls::{resolve_picked, wrong_picked};
use crate::means::smaller;
use crate::scope::{Block, Picks, Scope, wrong_dest};
use crate::simple::stop;
use crate::symbols::Symbols;
use c_lang::{Fail, Pos, Refusal, Stmt, refusal};
use sqlite_items::Boxed;
use std::alloc::Global;
use std::mem;

// 21, where a force or a pick may not stand, or is none.
fn misplaced<T>(pos: Pos) -> Result<T, Fail>
    ensures { (whole : T) → Checked result (at_place (Some client_call) pos) whole }
{
    Err(Fail::Refused(Refusal {
        number: refusal::CLIENT_CALL,
        pos,
        name: None,
    }))
}

/// A force. Behind it other names are visible.
pub fn force(scope: &mut Scope, pos: Pos) -> Result<Stmt, Fail>
    ensures checked { spec.IsStatement (spec.block_in (seen_scope scope.old)) (seen_scope scope.old) (tree.force pos) result }
    ensures scope { OnOk result (seen_scope scope.new ≡ spec.scope_after (seen_scope scope.old) (tree.force pos)) }
{
    match scope.forced.take() {
        Some(others) => {
            scope.outside = others;
            Ok(Stmt::Force { pos })
        }
        None => misplaced(pos),
    }
}

// The statement as a call of a pick that stands here.
fn picked_call(
    alloc: Global,
    scope: &Scope,
    block: Block,
    at: Pos,
    s: &Stmt,
) -> Result<Boxed<Stmt>, Fail>
    requires { scope.now.picks ≡ None }
    ensures { Checked result (spec.refusal_of_picked at (seen_block block) (seen_scope scope.now) scope.now.outside (statement_of s.now)) (spec.resolved_picked at (seen_scope scope.now) scope.now.outside (statement_of s.now)) }
{
    match s {
        Stmt::Call {
            pos,
            dest,
            callee,
            args,
        } => {
            let inside = wrong_picked(scope, scope.look(callee), dest, args.as_slice());
            stop(smaller(wrong_dest(scope, block, dest), inside), *pos)?;
            let call = resolve_picked(alloc, scope, *pos, dest, callee, args.as_slice())?;
            Ok(Boxed::new(alloc, call)?)
        }
        Stmt::Set { .. }
        | Stmt::SetElem { .. }
        | Stmt::CallBy { .. }
        | Stmt::If { .. }
        | Stmt::While { .. }
        | Stmt::Break { .. }
        | Stmt::Return { .. }
        | Stmt::Assert { .. }
        | Stmt::Input { .. }
        | Stmt::Output { .. }
        | Stmt::Point { .. }
        | Stmt::Choice { .. }
        | Stmt::Skip { .. }
        | Stmt::Force { .. }
        | Stmt::Pick { .. } => misplaced(at),
    }
}

// The same with other names.
fn picked(
    alloc: Global,
    scope: &mut Scope,
    names: &mut Symbols,
    block: Block,
    at: Pos,
    s: &Stmt,
) -> Result<Boxed<Stmt>, Fail>
    requires { scope.old.picks ≡ None }
    ensures checked { Checked result (spec.refusal_of_picked at (seen_block block) (seen_scope scope.old) names.old (statement_of s.now)) (spec.resolved_picked at (seen_scope scope.old) names.old (statement_of s.now)) }
    ensures scope { OnOk result (scope.new ≡ scope.old) }
    ensures names { OnOk result (names.new ≡ names.old) }
{
    mem::swap(&mut scope.outside, names);
    let call = picked_call(alloc, scope, block, at, s)?;
    mem::swap(&mut scope.outside, names);
    Ok(call)
}

// Both calls of a pick.
fn both(
    alloc: Global,
    scope: &mut Scope,
    names: &mut Picks,
    block: Block,
    pos: Pos,
    after: &Stmt,
    before: &Stmt,
) -> Result<Stmt, Fail>
    requires { scope.old.picks ≡ None }
    ensures checked { Checked result (spec.refusal_of_pick pos (seen_block block) (seen_scope scope.old) (Some (seen_picks names.old)) (statement_of after.now) (statement_of before.now))
        (spec.resolved_pick pos (seen_scope scope.old) (Some (seen_picks names.old)) (statement_of after.now) (statement_of before.now)) }
    ensures scope { OnOk result (scope.new ≡ scope.old) }
    ensures names { OnOk result (names.new ≡ names.old) }
{
    let after = picked(alloc, scope, &mut names.after, block, pos, after)?;
    let before = picked(alloc, scope, &mut names.before, block, pos, before)?;
    Ok(Stmt::Pick { pos, after, before })
}

/// A pick.
pub fn pick(
    alloc: Global,
    scope: &mut Scope,
    block: Block,
    pos: Pos,
    after: &Stmt,
    before: &Stmt,
) -> Result<Stmt, Fail>
    ensures checked { spec.IsStatement (seen_block block) (seen_scope scope.old) (tree.pick pos (statement_of after.now) (statement_of before.now)) result }
    ensures scope { OnOk result (seen_scope scope.new ≡ spec.scope_after (seen_scope scope.old) (tree.pick pos (statement_of after.now) (statement_of before.now))) }
{
    let Some(mut names) = scope.picks.take() else {
        return misplaced(pos);
    };
    let both = both(alloc, scope, &mut names, block, pos, after, before);
    scope.picks = Some(names);
    both
}

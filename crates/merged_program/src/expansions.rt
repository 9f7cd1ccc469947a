//! Statements that no source has: those that stand for points, forces and picks, and the bodies of wrappers
//! and of `main`. The only error of each function is want of memory.

ghost use Rattle.std.specs.Prelude.{◌≡◌, IfOk, Some, [], map, true, false};
ghost use Rattle.c_lang.specs.Trees.{stmt_of, stmts_of, expr_of, variable, return_with};
ghost use Rattle.c_lang.specs.declared.stmt.Stmt.TheVariants as stmt;
ghost use Rattle.merged_program.specs.Names.{now_name, result_name};
ghost use Rattle.merged_program.specs.Statements as spec;

use c_lang::{Dest, Expr, Kind, Name, Op, Pos, Stmt};
use sqlite_items::{Boxed, Items};
use std::alloc::{AllocError, Global};

const NOW: &[u8] = b"dsu_now";

const CHOICE: &[u8] = b"dsu_c";

const RESULT: &[u8] = b"dsu_r";

const TRANSFORM: &[u8] = b"dsu_xform_dsu_transform";

fn variable(alloc: Global, name: &[u8]) -> Result<Boxed<Expr>, AllocError>
    ensures { IfOk result (λ e. e ≡ expr_of (variable name.now)) }
{
    Boxed::new(alloc, Expr::Var(Name::new(alloc, name)?))
}

// The variable compared with 0.
fn test(alloc: Global, op: Op, name: &[u8]) -> Result<Expr, AllocError>
    ensures { IfOk result (λ e. e ≡ expr_of (spec.with_zero op name.now)) }
{
    let variable = variable(alloc, name)?;
    let zero = Boxed::new(alloc, Expr::Lit(0))?;
    Ok(Expr::Bin(op, variable, zero))
}

// An `if` with no `else`, on a variable compared with 0.
fn when(alloc: Global, pos: Pos, op: Op, name: &[u8], yes: Items<Stmt>) -> Result<Stmt, AllocError>
    ensures { IfOk result (λ s. s ≡ stmt.If pos (expr_of (spec.with_zero op name.now)) yes []) }
{
    let cond = test(alloc, op, name)?;
    Ok(Stmt::If {
        pos,
        cond,
        yes,
        no: Items::new(alloc),
    })
}

/// An `if` on whether the update has happened.
pub fn by_version(
    alloc: Global,
    pos: Pos,
    new: Items<Stmt>,
    old: Items<Stmt>,
) -> Result<Stmt, AllocError>
    ensures { IfOk result (λ s. s ≡ stmt.If pos (expr_of (spec.is_set now_name)) new old) }
{
    let cond = test(alloc, Op::Ne, NOW)?;
    Ok(Stmt::If {
        pos,
        cond,
        yes: new,
        no: old,
    })
}

// The flag is set, and the transformer runs.
fn swap(alloc: Global, pos: Pos) -> Result<Items<Stmt>, AllocError>
    ensures { IfOk result (λ ss. ss ≡ stmts_of (spec.swap pos)) }
{
    let mut all = Items::new(alloc);
    let now = Name::new(alloc, NOW)?;
    all.push(Stmt::Set {
        pos,
        dest: Dest::Into(now),
        value: Expr::Lit(1),
    })?;
    let callee = Name::new(alloc, TRANSFORM)?;
    all.push(Stmt::Call {
        pos,
        dest: Dest::Nowhere,
        callee,
        args: Items::new(alloc),
    })?;
    Ok(all)
}

// Where the answer says so, the update happens.
fn test_choice(alloc: Global, pos: Pos) -> Result<Stmt, AllocError>
    ensures { IfOk result (λ s. s ≡ stmt_of (spec.answered pos)) }
{
    let yes = swap(alloc, pos)?;
    when(alloc, pos, Op::Ne, CHOICE, yes)
}

fn question(alloc: Global, pos: Pos, k: u32) -> Result<Items<Stmt>, AllocError>
    ensures { IfOk result (λ ss. ss ≡ stmts_of (spec.question pos k)) }
{
    let mut all = Items::new(alloc);
    let choice = Name::new(alloc, CHOICE)?;
    all.push(Stmt::Choice {
        pos,
        dest: Dest::Fresh(Kind::Int, choice),
        k,
    })?;
    all.push(test_choice(alloc, pos)?)?;
    Ok(all)
}

/// A point that asks.
pub fn asking(alloc: Global, pos: Pos, k: u32) -> Result<Stmt, AllocError>
    ensures { IfOk result (λ s. s ≡ stmt_of (spec.asking pos k)) }
{
    let yes = question(alloc, pos, k)?;
    when(alloc, pos, Op::Eq, NOW, yes)
}

/// A client's force.
pub fn forcing(alloc: Global, pos: Pos) -> Result<Stmt, AllocError>
    ensures { IfOk result (λ s. s ≡ stmt_of (spec.forcing pos)) }
{
    let yes = swap(alloc, pos)?;
    when(alloc, pos, Op::Eq, NOW, yes)
}

fn arguments(alloc: Global, params: &[(Kind, Name)]) -> Result<Items<Expr>, AllocError>
    ensures { IfOk result (λ es. es ≡ map expr_of (spec.values_of params.now)) }
{
    let mut all = Items::new(alloc);
    for param in params {
        all.push(Expr::Var(param.1.copy(alloc)?))?;
    }
    Ok(all)
}

// A call whose result goes on.
fn call(
    alloc: Global,
    pos: Pos,
    dest: Dest,
    callee: &Name,
    params: &[(Kind, Name)],
) -> Result<Stmt, AllocError>
    ensures { IfOk result (λ s. s ≡ stmt_of (spec.call_with pos dest callee.now params.now)) }
{
    let args = arguments(alloc, params)?;
    let callee = callee.copy(alloc)?;
    Ok(Stmt::Call {
        pos,
        dest,
        callee,
        args,
    })
}

// A call that gives nothing.
fn plain_call(
    alloc: Global,
    pos: Pos,
    callee: &Name,
    params: &[(Kind, Name)],
) -> Result<Items<Stmt>, AllocError>
    ensures { IfOk result (λ ss. ss ≡ stmts_of (spec.hand pos false callee.now params.now)) }
{
    let mut all = Items::new(alloc);
    all.push(call(alloc, pos, Dest::Nowhere, callee, params)?)?;
    Ok(all)
}

// The result of the call before.
fn return_result(alloc: Global, pos: Pos) -> Result<Stmt, AllocError>
    ensures { IfOk result (λ s. s ≡ stmt_of (return_with pos (Some (variable result_name)))) }
{
    let result = Name::new(alloc, RESULT)?;
    Ok(Stmt::Return {
        pos,
        value: Some(Expr::Var(result)),
    })
}

// A call whose result is handed on.
fn handed_call(
    alloc: Global,
    pos: Pos,
    callee: &Name,
    params: &[(Kind, Name)],
) -> Result<Items<Stmt>, AllocError>
    ensures { IfOk result (λ ss. ss ≡ stmts_of (spec.hand pos true callee.now params.now)) }
{
    let name = Name::new(alloc, RESULT)?;
    let mut all = Items::new(alloc);
    all.push(call(alloc, pos, Dest::Fresh(Kind::Int, name), callee, params)?)?;
    all.push(return_result(alloc, pos)?)?;
    Ok(all)
}

/// A call of this function with these parameters, whose result is handed on, where it has one.
pub fn hand(
    alloc: Global,
    pos: Pos,
    gives: bool,
    callee: &Name,
    params: &[(Kind, Name)],
) -> Result<Items<Stmt>, AllocError>
    ensures { IfOk result (λ ss. ss ≡ stmts_of (spec.hand pos gives callee.now params.now)) }
{
    if gives {
        handed_call(alloc, pos, callee, params)
    } else {
        plain_call(alloc, pos, callee, params)
    }
}

/// A wrapper's one statement: the current version's function is called.
pub fn wrapping(
    alloc: Global,
    pos: Pos,
    gives: bool,
    new: &Name,
    old: &Name,
    params: &[(Kind, Name)],
) -> Result<Stmt, AllocError>
    ensures { IfOk result (λ s. s ≡ stmt_of (spec.wrapping pos gives new.now old.now params.now)) }
{
    let yes = hand(alloc, pos, gives, new, params)?;
    let no = hand(alloc, pos, gives, old, params)?;
    by_version(alloc, pos, yes, no)
}

/// `return 0;`.
pub fn return_zero(pos: Pos) -> Stmt
    ensures { result ≡ stmt_of (spec.return_zero pos) }
{
    Stmt::Return {
        pos,
        value: Some(Expr::Lit(0)),
    }
}

//! The points of a program in text order.

ghost use Rattle.std.specs.Prelude.{◌≡◌, ◌++◌, OnOk, map};
ghost use Rattle.std.specs.List.{flat_map};
ghost use Rattle.c_lang.specs.Trees.{statement_of, statements};
ghost use Rattle.update_points.specs.Points as spec;

use c_lang::{Func, Pos, Stmt};
use std::alloc::AllocError;

/// A point with its number.
#[derive(Clone, Copy, Debug, PartialEq, Eq)]
pub struct PointAt {
    pub k: u32,
    pub pos: Pos,
}

#[cycle(gather)]
fn gather_at(points: &mut Vec<PointAt>, stmt: &Stmt) -> Result<(), AllocError>
    ensures { OnOk result (points.new.items ≡ points.old.items ++ spec.points_at (statement_of stmt.now)) }
{
    match stmt {
        Stmt::Point { pos, k } => {
            points.push(PointAt { k: *k, pos: *pos })?;
            Ok(())
        }
        Stmt::If { yes, no, .. } => {
            gather_in(points, yes.as_slice())?;
            gather_in(points, no.as_slice())
        }
        Stmt::While { body, .. } => gather_in(points, body.as_slice()),
        Stmt::Pick { after, before, .. } => {
            gather_at(points, after.get())?;
            gather_at(points, before.get())
        }
        _ => Ok(()),
    }
}

#[cycle(gather)]
fn gather_in(points: &mut Vec<PointAt>, stmts: &[Stmt]) -> Result<(), AllocError>
    ensures { OnOk result (points.new.items ≡ points.old.items ++ spec.points_in (statements (map statement_of stmts.now))) }
{
    for stmt in stmts {
        gather_at(points, stmt)?;
    }
    Ok(())
}

/// Adds the points of the functions, in text order.
pub fn gather(points: &mut Vec<PointAt>, funcs: &[Func]) -> Result<(), AllocError>
    ensures { OnOk result (points.new.items ≡ points.old.items ++ flat_map spec.points_of_func funcs.now) }
{
    for func in funcs {
        gather_in(points, func.body.as_slice())?;
    }
    Ok(())
}

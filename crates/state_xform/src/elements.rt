//! The arrays of which functions set elements, found in one walk.

ghost use Rattle.std.specs.Prelude.{◌≡◌, ◌||◌, IfOk, OnOk, map};
ghost use Rattle.c_lang.specs.Names.{Bytes};
ghost use Rattle.c_lang.specs.Trees.{statement_of, statements};
ghost use Rattle.state_xform.specs.Code.NameSets.{has};
ghost use Rattle.state_xform.specs.Elements as spec;
ghost use Rattle.state_xform.specs.Transformers.{is_filled};

use crate::names::NameSet;
use c_lang::{Func, Stmt};
use std::alloc::{AllocError, Global};

#[cycle(arrays)]
fn add_at<'p>(names: &mut NameSet<'p>, stmt: &'p Stmt) -> Result<(), AllocError>
    ensures { OnOk result ((x : Bytes) →
        has names.new x ≡ (spec.sets_element x (statement_of stmt.entry.now) || has names.old x)) }
{
    match stmt {
        Stmt::SetElem { array, .. } => names.add(array),
        Stmt::If { yes, no, .. } => {
            add_in(names, no.as_slice())?;
            add_in(names, yes.as_slice())
        }
        Stmt::While { body, .. } => add_in(names, body.as_slice()),
        _ => Ok(()),
    }
}

#[cycle(arrays)]
fn add_in<'p>(names: &mut NameSet<'p>, stmts: &'p [Stmt]) -> Result<(), AllocError>
    ensures { OnOk result ((x : Bytes) →
        has names.new x ≡ (spec.sets_element_in x (statements (map statement_of stmts.entry.now)) || has names.old x)) }
{
    for stmt in stmts {
        add_at(names, stmt)?;
    }
    Ok(())
}

/// The names of the arrays of which some function sets an element. The only error is want of memory.
/// The time is linear in the functions' size.
pub fn element_names<'p>(alloc: Global, funcs: &'p [Func]) -> Result<NameSet<'p>, AllocError>
    ensures { IfOk result (λ names. (x : Bytes) → has names x ≡ is_filled funcs.entry.now x) }
{
    let mut names = NameSet::empty(alloc);
    for func in funcs {
        add_in(&mut names, func.body.as_slice())?;
    }
    Ok(names)
}

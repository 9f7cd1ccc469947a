//! The kinds of a function's parameters and locals.

ghost use Rattle.std.specs.Prelude.{◌≡◌, ◌∷◌, [], OnOk, IfOk, map};
ghost use Rattle.c_lang.specs.Names.{Bytes};
ghost use Rattle.c_lang.specs.Trees.{statement_of, statements};
ghost use Rattle.name_tables.specs.Tables.{found};
ghost use Rattle.weakest_preconditions.specs.Sorts as spec;
ghost use Rattle.condition_sorts.specs.Tables.{HasKinds};

use c_lang::{Dest, Func, Kind, Name, Stmt};
use name_tables::NameTable;
use std::alloc::{AllocError, Global};

// The name has this kind, unless it has one already.
fn add<'p>(table: &mut NameTable<'p, Kind>, name: &'p Name, kind: Kind) -> Result<(), AllocError>
    ensures { OnOk result ((x : Bytes) → found table.new x ≡ spec.or_else (found table.old x) (spec.parameter_kind x ((kind, name.entry.now) ∷ []))) }
{
    if table.get(name).is_none() {
        table.put(name, kind)?;
    }
    Ok(())
}

fn add_dest<'p>(table: &mut NameTable<'p, Kind>, dest: &'p Dest) -> Result<(), AllocError>
    ensures { OnOk result ((x : Bytes) → found table.new x ≡ spec.or_else (found table.old x) (spec.declared_by x dest.entry.now)) }
{
    match dest {
        Dest::Nowhere => Ok(()),
        Dest::Into(_) => Ok(()),
        Dest::Fresh(kind, name) => add(table, name, *kind),
    }
}

#[cycle(add_kinds)]
fn add_kinds_of_two<'p>(
    table: &mut NameTable<'p, Kind>,
    first: &'p [Stmt],
    second: &'p [Stmt],
) -> Result<(), AllocError>
    ensures { OnOk result ((x : Bytes) → found table.new x ≡ spec.or_else (found table.old x)
        (spec.or_else (spec.local_kind_in x (statements (map statement_of first.entry.now))) (spec.local_kind_in x (statements (map statement_of second.entry.now))))) }
{
    add_kinds_in(table, first)?;
    add_kinds_in(table, second)
}

// Adds what the statement declares.
#[cycle(add_kinds)]
fn add_kinds<'p>(table: &mut NameTable<'p, Kind>, stmt: &'p Stmt) -> Result<(), AllocError>
    ensures { OnOk result ((x : Bytes) → found table.new x ≡ spec.or_else (found table.old x) (spec.local_kind x (statement_of stmt.entry.now))) }
{
    match stmt {
        Stmt::Skip { .. } => Ok(()),
        Stmt::Set { dest, .. } => add_dest(table, dest),
        Stmt::SetElem { .. } => Ok(()),
        Stmt::Call { dest, .. } => add_dest(table, dest),
        Stmt::CallBy { dest, .. } => add_dest(table, dest),
        Stmt::If { yes, no, .. } => add_kinds_of_two(table, yes.as_slice(), no.as_slice()),
        Stmt::While { body, .. } => add_kinds_in(table, body.as_slice()),
        Stmt::Break { .. } => Ok(()),
        Stmt::Return { .. } => Ok(()),
        Stmt::Assert { .. } => Ok(()),
        Stmt::Input { dest, .. } => add_dest(table, dest),
        Stmt::Output { .. } => Ok(()),
        Stmt::Point { .. } => Ok(()),
        Stmt::Choice { dest, .. } => add_dest(table, dest),
        Stmt::Force { .. } => Ok(()),
        Stmt::Pick { .. } => Ok(()),
    }
}

// Adds what the statements declare.
#[cycle(add_kinds)]
fn add_kinds_in<'p>(table: &mut NameTable<'p, Kind>, stmts: &'p [Stmt]) -> Result<(), AllocError>
    ensures { OnOk result ((x : Bytes) → found table.new x
        ≡ spec.or_else (found table.old x) (spec.local_kind_in x (statements (map statement_of stmts.entry.now)))) }
{
    for stmt in stmts {
        add_kinds(table, stmt)?;
    }
    Ok(())
}

fn add_parameters<'p>(
    table: &mut NameTable<'p, Kind>,
    params: &'p [(Kind, Name)],
) -> Result<(), AllocError>
    ensures { OnOk result ((x : Bytes) → found table.new x ≡ spec.or_else (found table.old x) (spec.parameter_kind x params.entry.now)) }
{
    for param in params {
        add(table, &param.1, param.0)?;
    }
    Ok(())
}

/// The kinds of the function's parameters and locals by their names. The only error is want of memory.
pub(crate) fn kinds<'p>(alloc: Global, func: &'p Func) -> Result<NameTable<'p, Kind>, AllocError>
    ensures { IfOk result (λ table. HasKinds table func.entry.now) }
{
    let mut table = NameTable::new(alloc);
    add_parameters(&mut table, func.params.as_slice())?;
    add_kinds_in(&mut table, func.body.as_slice())?;
    Ok(table)
}

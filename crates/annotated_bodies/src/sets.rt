//! What statements set.

ghost use Rattle.std.specs.Prelude.{◌≡◌, ◌∷◌, [], ◌++◌, OnOk, map};
ghost use Rattle.c_lang.specs.Trees.{statement_of, statements};
ghost use Rattle.loop_invariants.specs.SetNames as set_names;
ghost use Rattle.weakest_preconditions.specs.Annotating as spec;
ghost use Rattle.annotated_bodies.specs.Sources.{context_in, names_in};

use crate::Context;
use c_lang::{Dest, Name, Stmt};
use std::alloc::{AllocError, Global};

/// Adds the name into which a result goes, if there is one. The only error is want of memory.
pub(crate) fn add_dest<'c>(out: &mut Vec<&'c Name>, dest: &'c Dest) -> Result<(), AllocError>
    ensures { OnOk result (names_in out.new.items ≡ names_in out.old.items ++ set_names.set_by dest.entry.now) }
{
    match dest {
        Dest::Nowhere => Ok(()),
        Dest::Into(name) => Ok(out.push(name)?),
        Dest::Fresh(_, name) => Ok(out.push(name)?),
    }
}

fn add_name<'c>(out: &mut Vec<&'c Name>, name: &'c Name) -> Result<(), AllocError>
    ensures { OnOk result (names_in out.new.items ≡ names_in out.old.items ++ (name.entry.now ∷ [])) }
{
    out.push(name)?;
    Ok(())
}

fn add_call<'c>(
    context: &'c Context<'_>,
    out: &mut Vec<&'c Name>,
    dest: &'c Dest,
    callee: &Name,
) -> Result<(), AllocError>
    ensures { OnOk result (names_in out.new.items
        ≡ names_in out.old.items ++ (set_names.set_by dest.entry.now ++ (context_in context.entry.now).assigns callee.now)) }
{
    add_dest(out, dest)?;
    context.add_assigns(out, callee)
}

fn add_call_by<'c>(
    alloc: Global,
    context: &'c Context<'_>,
    out: &mut Vec<&'c Name>,
    dest: &'c Dest,
    arity: usize,
) -> Result<(), AllocError>
    ensures { OnOk result (names_in out.new.items
        ≡ names_in out.old.items ++ (set_names.set_by dest.entry.now ++ set_names.reached_assigns (context_in context.entry.now) arity)) }
{
    add_dest(out, dest)?;
    context.add_reached_assigns(alloc, out, arity)
}

#[cycle(add_sets)]
fn add_sets_of_two<'c>(
    alloc: Global,
    context: &'c Context<'_>,
    out: &mut Vec<&'c Name>,
    first: &'c [Stmt],
    second: &'c [Stmt],
) -> Result<(), AllocError>
    ensures { OnOk result (names_in out.new.items ≡ names_in out.old.items
        ++ (set_names.sets_in (context_in context.entry.now) (statements (map statement_of first.entry.now))
        ++ set_names.sets_in (context_in context.entry.now) (statements (map statement_of second.entry.now)))) }
{
    add_sets_in(alloc, context, out, first)?;
    add_sets_in(alloc, context, out, second)
}

// Adds what the statement sets.
#[cycle(add_sets)]
fn add_sets<'c>(
    alloc: Global,
    context: &'c Context<'_>,
    out: &mut Vec<&'c Name>,
    stmt: &'c Stmt,
) -> Result<(), AllocError>
    ensures { OnOk result (names_in out.new.items
        ≡ names_in out.old.items ++ set_names.sets (context_in context.entry.now) (statement_of stmt.entry.now)) }
{
    match stmt {
        Stmt::Skip { .. } => Ok(()),
        Stmt::Set { dest, .. } => add_dest(out, dest),
        Stmt::SetElem { array, .. } => add_name(out, array),
        Stmt::Call { dest, callee, .. } => add_call(context, out, dest, callee),
        Stmt::CallBy { dest, args, .. } => add_call_by(alloc, context, out, dest, args.len()),
        Stmt::If { yes, no, .. } => {
            add_sets_of_two(alloc, context, out, yes.as_slice(), no.as_slice())
        }
        Stmt::While { body, .. } => add_sets_in(alloc, context, out, body.as_slice()),
        Stmt::Break { .. } => Ok(()),
        Stmt::Return { .. } => Ok(()),
        Stmt::Assert { .. } => Ok(()),
        Stmt::Input { dest, .. } => add_dest(out, dest),
        Stmt::Output { .. } => Ok(()),
        Stmt::Point { .. } => Ok(()),
        Stmt::Choice { dest, .. } => add_dest(out, dest),
        Stmt::Force { .. } => Ok(()),
        Stmt::Pick { .. } => Ok(()),
    }
}

/// Adds what the statements set, in their order, with each name as often as it is set. The only error is want of
/// memory.
#[cycle(add_sets)]
pub(crate) fn add_sets_in<'c>(
    alloc: Global,
    context: &'c Context<'_>,
    out: &mut Vec<&'c Name>,
    stmts: &'c [Stmt],
) -> Result<(), AllocError>
    ensures { OnOk result (names_in out.new.items ≡ names_in out.old.items
        ++ set_names.sets_in (context_in context.entry.now) (statements (map statement_of stmts.entry.now))) }
{
    for stmt in stmts {
        add_sets(alloc, context, out, stmt)?;
    }
    Ok(())
}

//! The loops of a function by their numbers.

ghost use Rattle.std.specs.Prelude.{◌≡◌, ◌++◌, ◌∷◌, [], map, suc, IfOk, OnOk};
ghost use Rattle.std.specs.Option.{option_map};
ghost use Rattle.c_lang.specs.Trees.{statement_of, statements};
ghost use Rattle.loop_invariants.specs.Loops as spec;
ghost use Rattle.loop_invariants.specs.Code.Seeking as seeking;
ghost use Rattle.loop_invariants.specs.Code.Seeking.{names_in, seen_sought};

use c_lang::{Dest, Func, Name, Stmt};
use std::alloc::{AllocError, Global};

/// What is visible at a loop that was found, or how many loops more stand before it.
#[derive(Drop)]
pub(crate) enum Sought<'p> {
    Found(Vec<&'p Name>),
    Left(u32),
}

fn add_declared<'p>(visible: &mut Vec<&'p Name>, dest: &'p Dest) -> Result<(), AllocError>
    ensures { OnOk result (names_in visible.new.items ≡ names_in visible.old.items ++ spec.declared_in dest.entry.now) }
{
    match dest {
        Dest::Nowhere => Ok(()),
        Dest::Into(_) => Ok(()),
        Dest::Fresh(_, name) => {
            visible.push(name)?;
            Ok(())
        }
    }
}

// What the statement declares is visible behind it.
fn declare<'p>(visible: &mut Vec<&'p Name>, stmt: &'p Stmt) -> Result<(), AllocError>
    ensures { OnOk result (names_in visible.new.items ≡ names_in visible.old.items ++ spec.declared (statement_of stmt.entry.now)) }
{
    match stmt {
        Stmt::Skip { .. } => Ok(()),
        Stmt::Set { dest, .. } => add_declared(visible, dest),
        Stmt::SetElem { .. } => Ok(()),
        Stmt::Call { dest, .. } => add_declared(visible, dest),
        Stmt::CallBy { dest, .. } => add_declared(visible, dest),
        Stmt::If { .. } => Ok(()),
        Stmt::While { .. } => Ok(()),
        Stmt::Break { .. } => Ok(()),
        Stmt::Return { .. } => Ok(()),
        Stmt::Assert { .. } => Ok(()),
        Stmt::Input { dest, .. } => add_declared(visible, dest),
        Stmt::Output { .. } => Ok(()),
        Stmt::Point { .. } => Ok(()),
        Stmt::Choice { dest, .. } => add_declared(visible, dest),
        Stmt::Force { .. } => Ok(()),
        Stmt::Pick { .. } => Ok(()),
    }
}

fn found<'p>(alloc: Global, visible: &[&'p Name]) -> Result<Sought<'p>, AllocError>
    ensures { IfOk result (λ sought. seen_sought sought ≡ seeking.found (names_in visible.now)) }
{
    Ok(Sought::Found(Vec::from_slice(alloc, visible)?))
}

#[cycle(seek)]
fn at_loop<'p>(
    alloc: Global,
    visible: &[&'p Name],
    before: u32,
    body: &'p [Stmt],
) -> Result<Sought<'p>, AllocError>
    ensures { IfOk result (λ sought. seen_sought sought ≡ seeking.at_loop before (names_in visible.now)
        (λ n. seeking.seek_in n (names_in visible.now) (statements (map statement_of body.entry.now)))) }
{
    match before.checked_sub(1) {
        None => found(alloc, visible),
        Some(left) => seek_in(alloc, visible, left, body),
    }
}

#[cycle(seek)]
fn seek<'p>(
    alloc: Global,
    visible: &[&'p Name],
    before: u32,
    stmt: &'p Stmt,
) -> Result<Sought<'p>, AllocError>
    ensures { IfOk result (λ sought. seen_sought sought ≡ seeking.seek before (names_in visible.now) (statement_of stmt.entry.now)) }
{
    match stmt {
        Stmt::Skip { .. } => Ok(Sought::Left(before)),
        Stmt::Set { .. } => Ok(Sought::Left(before)),
        Stmt::SetElem { .. } => Ok(Sought::Left(before)),
        Stmt::Call { .. } => Ok(Sought::Left(before)),
        Stmt::CallBy { .. } => Ok(Sought::Left(before)),
        Stmt::If { yes, no, .. } => {
            match seek_in(alloc, visible, before, yes.as_slice())? {
                Sought::Found(names) => Ok(Sought::Found(names)),
                Sought::Left(left) => seek_in(alloc, visible, left, no.as_slice()),
            }
        }
        Stmt::While { body, .. } => at_loop(alloc, visible, before, body.as_slice()),
        Stmt::Break { .. } => Ok(Sought::Left(before)),
        Stmt::Return { .. } => Ok(Sought::Left(before)),
        Stmt::Assert { .. } => Ok(Sought::Left(before)),
        Stmt::Input { .. } => Ok(Sought::Left(before)),
        Stmt::Output { .. } => Ok(Sought::Left(before)),
        Stmt::Point { .. } => Ok(Sought::Left(before)),
        Stmt::Choice { .. } => Ok(Sought::Left(before)),
        Stmt::Force { .. } => Ok(Sought::Left(before)),
        Stmt::Pick { .. } => Ok(Sought::Left(before)),
    }
}

#[cycle(seek)]
fn seek_in<'p>(
    alloc: Global,
    visible: &[&'p Name],
    before: u32,
    stmts: &'p [Stmt],
) -> Result<Sought<'p>, AllocError>
    ensures { IfOk result (λ sought. seen_sought sought
        ≡ seeking.seek_in before (names_in visible.now) (statements (map statement_of stmts.entry.now))) }
{
    let mut seen = Vec::from_slice(alloc, visible)?;
    let mut left = before;
    for stmt in stmts {
        match seek(alloc, &seen, left, stmt)? {
            Sought::Found(names) => return Ok(Sought::Found(names)),
            Sought::Left(rest) => left = rest,
        }
        declare(&mut seen, stmt)?;
    }
    Ok(Sought::Left(left))
}

fn parameter_names<'p>(alloc: Global, func: &'p Func) -> Result<Vec<&'p Name>, AllocError>
    ensures { IfOk result (λ names. names_in names.items ≡ map (λ p. p.1) func.entry.now.params) }
{
    let mut names = Vec::new(alloc);
    for parameter in func.params.as_slice() {
        names.push(&parameter.1)?;
    }
    Ok(names)
}

fn seek_in_func<'p>(alloc: Global, func: &'p Func, before: u32) -> Result<Sought<'p>, AllocError>
    ensures { IfOk result (λ sought. seen_sought sought
        ≡ seeking.seek_in before (map (λ p. p.1) func.entry.now.params) (statements (map statement_of func.entry.now.body))) }
{
    let visible = parameter_names(alloc, func)?;
    seek_in(alloc, &visible, before, func.body.as_slice())
}

/// The parameters and locals that are visible at the function's loop of this number, counted from 1 in the
/// order of the text, if it has that many loops. The only error is want of memory.
pub(crate) fn visible_at<'p>(
    alloc: Global,
    func: &'p Func,
    number: u32,
) -> Result<Option<Vec<&'p Name>>, AllocError>
    ensures { IfOk result (λ visible. option_map (λ names. names_in names.items) visible ≡ spec.visible_at func.entry.now number) }
{
    match number.checked_sub(1) {
        None => Ok(None),
        Some(before) => match seek_in_func(alloc, func, before)? {
            Sought::Found(names) => Ok(Some(names)),
            Sought::Left(_) => Ok(None),
        },
    }
}

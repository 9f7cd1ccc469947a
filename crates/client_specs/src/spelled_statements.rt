//! Statements of a client with their names as its resolved form spells them. The only error of each function
//! is want of memory.

ghost use Rattle.std.specs.Prelude.{◌≡◌, IfOk, map};
ghost use Rattle.c_lang.specs.declared.stmt.Stmt.TheVariants as stmt;
ghost use Rattle.client_specs.specs.declared.region.Region.TheVariants.{After, Before};
ghost use Rattle.c_lang.specs.Trees as tree;
ghost use Rattle.std.specs.Option.{option_map};
ghost use Rattle.c_lang.specs.Trees.{expression_of, statement_of};
ghost use Rattle.client_specs.specs.Code.Built as built;
ghost use Rattle.client_specs.specs.Spelled as spec;
ghost use Rattle.version_names.specs.Parts.{parts_in};

use crate::clients::is_force;
use crate::region::Region;
use crate::spelled_expressions::{arguments, boxed, function, optional, spelled};
use c_lang::{Dest, Expr, Name, Pos, Stmt};
use c_types::scope::copy_dest;
use sqlite_items::{Boxed, Items};
use std::alloc::{AllocError, Global};
use version_names::Links;

fn set(
    alloc: Global,
    links: &Links,
    region: Region,
    pos: Pos,
    to: &Dest,
    value: &Expr,
) -> Result<Stmt, AllocError>
    ensures { IfOk result (λ s. s ≡ built.mirrored (parts_in links.now) region (tree.set pos to.now (expression_of value.now))) }
{
    let value = boxed(alloc, links, region, value)?;
    let dest = copy_dest(alloc, to)?;
    Ok(Stmt::Set {
        pos,
        dest,
        value: value.into_inner(),
    })
}

fn set_element(
    alloc: Global,
    links: &Links,
    region: Region,
    pos: Pos,
    array: &Name,
    index: &Expr,
    value: &Expr,
) -> Result<Stmt, AllocError>
    ensures { IfOk result (λ s. s ≡ built.mirrored (parts_in links.now) region (tree.set_element pos array.now (expression_of index.now) (expression_of value.now))) }
{
    let array = array.copy(alloc)?;
    let index = boxed(alloc, links, region, index)?;
    let value = spelled(alloc, links, region, value)?;
    Ok(Stmt::SetElem {
        pos,
        array,
        index: index.into_inner(),
        value,
    })
}

fn call(
    alloc: Global,
    links: &Links,
    region: Region,
    pos: Pos,
    to: &Dest,
    callee: &Name,
    args: &[Expr],
) -> Result<Stmt, AllocError>
    ensures { IfOk result (λ s. s ≡ built.mirrored (parts_in links.now) region (tree.call pos to.now callee.now (map expression_of args.now))) }
{
    let args = arguments(alloc, links, region, args)?;
    let callee = function(alloc, links, region, callee)?;
    let dest = copy_dest(alloc, to)?;
    Ok(Stmt::Call {
        pos,
        dest,
        callee,
        args,
    })
}

fn call_by(
    alloc: Global,
    links: &Links,
    region: Region,
    pos: Pos,
    to: &Dest,
    pointer: &Name,
    args: &[Expr],
) -> Result<Stmt, AllocError>
    ensures { IfOk result (λ s. s ≡ built.mirrored (parts_in links.now) region (tree.call_by pos to.now pointer.now (map expression_of args.now))) }
{
    let args = arguments(alloc, links, region, args)?;
    let pointer = pointer.copy(alloc)?;
    let dest = copy_dest(alloc, to)?;
    Ok(Stmt::CallBy {
        pos,
        dest,
        pointer,
        args,
    })
}

fn return_with(
    alloc: Global,
    links: &Links,
    region: Region,
    pos: Pos,
    value: &Option<Expr>,
) -> Result<Stmt, AllocError>
    ensures { IfOk result (λ s. s ≡ built.mirrored (parts_in links.now) region (tree.return_with pos (option_map expression_of value.now))) }
{
    let value = optional(alloc, links, region, value)?;
    Ok(Stmt::Return { pos, value })
}

fn assert_that(
    alloc: Global,
    links: &Links,
    region: Region,
    pos: Pos,
    cond: &Expr,
) -> Result<Stmt, AllocError>
    ensures { IfOk result (λ s. s ≡ built.mirrored (parts_in links.now) region (tree.assert_that pos (expression_of cond.now))) }
{
    let cond = spelled(alloc, links, region, cond)?;
    Ok(Stmt::Assert { pos, cond })
}

fn input(alloc: Global, pos: Pos, to: &Dest) -> Result<Stmt, AllocError>
    ensures { IfOk result (λ s. s ≡ stmt.Input pos to.now) }
{
    let dest = copy_dest(alloc, to)?;
    Ok(Stmt::Input { pos, dest })
}

fn output(
    alloc: Global,
    links: &Links,
    region: Region,
    pos: Pos,
    value: &Expr,
) -> Result<Stmt, AllocError>
    ensures { IfOk result (λ s. s ≡ built.mirrored (parts_in links.now) region (tree.output pos (expression_of value.now))) }
{
    let value = spelled(alloc, links, region, value)?;
    Ok(Stmt::Output { pos, value })
}

fn choice(alloc: Global, pos: Pos, to: &Dest, k: u32) -> Result<Stmt, AllocError>
    ensures { IfOk result (λ s. s ≡ stmt.Choice pos to.now k) }
{
    let dest = copy_dest(alloc, to)?;
    Ok(Stmt::Choice { pos, dest, k })
}

/// A statement at a place of this region.
#[cycle(statement)]
pub fn statement(alloc: Global, links: &Links, region: Region, s: &Stmt) -> Result<Stmt, AllocError>
    ensures { IfOk result (λ r. r ≡ built.statement (parts_in links.now) region s.now) }
{
    match s {
        Stmt::Skip { pos } => Ok(Stmt::Skip { pos: *pos }),
        Stmt::Set {
            pos,
            dest: to,
            value,
        } => set(alloc, links, region, *pos, to, value),
        Stmt::SetElem {
            pos,
            array,
            index,
            value,
        } => set_element(alloc, links, region, *pos, array, index, value),
        Stmt::Call {
            pos,
            dest: to,
            callee,
            args,
        } => call(alloc, links, region, *pos, to, callee, args.as_slice()),
        Stmt::CallBy {
            pos,
            dest: to,
            pointer,
            args,
        } => call_by(alloc, links, region, *pos, to, pointer, args.as_slice()),
        Stmt::If { pos, cond, yes, no } => if_else(
            alloc,
            links,
            region,
            *pos,
            cond,
            yes.as_slice(),
            no.as_slice(),
        ),
        Stmt::While {
            pos,
            cond,
            body: turn,
        } => while_loop(alloc, links, region, *pos, cond, turn.as_slice()),
        Stmt::Break { pos } => Ok(Stmt::Break { pos: *pos }),
        Stmt::Return { pos, value } => return_with(alloc, links, region, *pos, value),
        Stmt::Assert { pos, cond } => assert_that(alloc, links, region, *pos, cond),
        Stmt::Input { pos, dest: to } => input(alloc, *pos, to),
        Stmt::Output { pos, value } => output(alloc, links, region, *pos, value),
        Stmt::Point { pos, k } => Ok(Stmt::Point { pos: *pos, k: *k }),
        Stmt::Choice { pos, dest: to, k } => choice(alloc, *pos, to, *k),
        Stmt::Force { pos } => Ok(Stmt::Force { pos: *pos }),
        Stmt::Pick { pos, after, before } => { pick(alloc, links, *pos, after.get(), before.get()) }
    }
}

#[cycle(statement)]
fn if_else(
    alloc: Global,
    links: &Links,
    region: Region,
    pos: Pos,
    cond: &Expr,
    yes: &[Stmt],
    no: &[Stmt],
) -> Result<Stmt, AllocError>
    ensures { IfOk result (λ s. s ≡ built.mirrored (parts_in links.now) region (tree.if_else pos (expression_of cond.now) (tree.statements (map statement_of yes.now)) (tree.statements (map statement_of no.now)))) }
{
    let yes = body(alloc, links, region, yes)?;
    let no = body(alloc, links, region, no)?;
    let cond = spelled(alloc, links, region, cond)?;
    Ok(Stmt::If { pos, cond, yes, no })
}

#[cycle(statement)]
fn while_loop(
    alloc: Global,
    links: &Links,
    region: Region,
    pos: Pos,
    cond: &Expr,
    turn: &[Stmt],
) -> Result<Stmt, AllocError>
    ensures { IfOk result (λ s. s ≡ built.mirrored (parts_in links.now) region (tree.while_loop pos (expression_of cond.now) (tree.statements (map statement_of turn.now)))) }
{
    let body = body(alloc, links, region, turn)?;
    let cond = spelled(alloc, links, region, cond)?;
    Ok(Stmt::While { pos, cond, body })
}

#[cycle(statement)]
fn boxed_statement(
    alloc: Global,
    links: &Links,
    region: Region,
    s: &Stmt,
) -> Result<Boxed<Stmt>, AllocError>
    ensures { IfOk result (λ r. r ≡ built.statement (parts_in links.now) region s.now) }
{
    Boxed::new(alloc, statement(alloc, links, region, s)?)
}

#[cycle(statement)]
fn pick(
    alloc: Global,
    links: &Links,
    pos: Pos,
    after: &Stmt,
    before: &Stmt,
) -> Result<Stmt, AllocError>
    ensures { IfOk result (λ s. s ≡ stmt.Pick pos (built.statement (parts_in links.now) After after.now) (built.statement (parts_in links.now) Before before.now)) }
{
    let after = boxed_statement(alloc, links, Region::After, after)?;
    let before = boxed_statement(alloc, links, Region::Before, before)?;
    Ok(Stmt::Pick { pos, after, before })
}

fn region_after(region: Region, s: &Stmt) -> Region
    ensures { result ≡ spec.region_after region (statement_of s.now) }
{
    if is_force(s) { Region::Behind } else { region }
}

/// The statements of a block.
#[cycle(statement)]
pub fn body(
    alloc: Global,
    links: &Links,
    region: Region,
    stmts: &[Stmt],
) -> Result<Items<Stmt>, AllocError>
    ensures { IfOk result (λ r. r ≡ built.statements (parts_in links.now) region stmts.now) }
{
    let mut all = Items::new(alloc);
    let mut here = region;
    for s in stmts {
        all.push(statement(alloc, links, here, s)?)?;
        here = region_after(here, s);
    }
    Ok(all)
}

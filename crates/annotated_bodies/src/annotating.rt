//! The statements of a function with their annotations, in the order of the text.

ghost use Rattle.std.specs.Prelude.{◌≡◌, suc, ◌++◌, true, if◌then◌else◌, [], IfOk, OnOk, map};
ghost use Rattle.c_lang.specs.Trees.{statement_of, statements};
ghost use Rattle.weakest_preconditions.specs.Annotated.{none};
ghost use Rattle.loop_invariants.specs.SetNames as set_names;
ghost use Rattle.weakest_preconditions.specs.Annotating as spec;
ghost use Rattle.weakest_preconditions.specs.Conditions as conditions;
ghost use Rattle.annotated_bodies.specs.Places.{seen_place};
ghost use Rattle.annotated_bodies.specs.Seen.{seen_annotated, annotated_by, seen_body};
ghost use Rattle.annotated_bodies.specs.Sources.{context_in, names_in};

use crate::place::Place;
use crate::sets::{add_dest, add_sets_in};
use crate::{Annotated, Context};
use c_lang::{Dest, Func, Name, Stmt};
use loop_invariants::Facts;
use sqlite_items::Items;
use std::alloc::{AllocError, Global};
use terms::Sym;

// A statement that gives no fresh names and has no parts.
fn plain<'c>(alloc: Global, stmt: &'c Stmt) -> Annotated<'c>
    ensures { seen_annotated result ≡ annotated_by (statement_of stmt.entry.now) none none [] [] [] }
{
    Annotated {
        stmt,
        first: Items::new(alloc),
        second: Items::new(alloc),
        invariants: Facts::none(),
        outcome: Items::new(alloc),
        fresh: Items::new(alloc),
    }
}

fn giving<'c>(
    alloc: Global,
    stmt: &'c Stmt,
    outcome: Items<Sym>,
    fresh: Items<Sym>,
) -> Annotated<'c>
    ensures { seen_annotated result ≡ annotated_by (statement_of stmt.entry.now) none none [] outcome fresh }
{
    Annotated {
        stmt,
        first: Items::new(alloc),
        second: Items::new(alloc),
        invariants: Facts::none(),
        outcome,
        fresh,
    }
}

// A statement that sets no more than where its result goes.
fn setting<'c>(
    alloc: Global,
    place: &mut Place<'c>,
    stmt: &'c Stmt,
    dest: &'c Dest,
) -> Result<Annotated<'c>, AllocError>
    ensures made { IfOk result (λ a. seen_annotated a
        ≡ annotated_by (statement_of stmt.entry.now) none none [] [] (spec.fresh (seen_place place.old) (set_names.set_by dest.entry.now))) }
    ensures place { OnOk result (seen_place place.new ≡ spec.renewed (set_names.set_by dest.entry.now) (seen_place place.old)) }
{
    let mut bases = Vec::new(alloc);
    add_dest(&mut bases, dest)?;
    let fresh = place.fresh(alloc, &bases)?;
    place.renew(alloc, &bases)?;
    Ok(giving(alloc, stmt, Items::new(alloc), fresh))
}

// The base of a call's result.
fn result_base<'c>(
    alloc: Global,
    context: &'c Context<'_>,
    dest: &'c Dest,
    gives: bool,
) -> Result<Vec<&'c Name>, AllocError>
    ensures { IfOk result (λ bases. names_in bases.items ≡ spec.result_of dest.entry.now gives) }
{
    let mut bases = Vec::new(alloc);
    match dest {
        Dest::Nowhere => {
            if gives {
                bases.push(context.result_base())?;
            }
        }
        Dest::Into(name) => bases.push(name)?,
        Dest::Fresh(_, name) => bases.push(name)?,
    }
    Ok(bases)
}

fn call<'c>(
    alloc: Global,
    context: &'c Context<'_>,
    place: &mut Place<'c>,
    stmt: &'c Stmt,
    dest: &'c Dest,
    callee: &Name,
) -> Result<Annotated<'c>, AllocError>
    ensures made { IfOk result (λ a. seen_annotated a ≡ annotated_by (statement_of stmt.entry.now) none none []
        (spec.fresh (seen_place place.old) (spec.result_of dest.entry.now ((context_in context.entry.now).gives callee.now)))
        (spec.fresh (seen_place place.old) ((context_in context.entry.now).assigns callee.now))) }
    ensures place { OnOk result (seen_place place.new ≡ spec.renewed
        (spec.result_of dest.entry.now ((context_in context.entry.now).gives callee.now) ++ (context_in context.entry.now).assigns callee.now)
        (seen_place place.old)) }
{
    let mut bases = result_base(alloc, context, dest, context.gives(callee))?;
    let outcome = place.fresh(alloc, &bases)?;
    let mut cells = Vec::new(alloc);
    context.add_assigns(&mut cells, callee)?;
    let fresh = place.fresh(alloc, &cells)?;
    context.add_assigns(&mut bases, callee)?;
    place.renew(alloc, &bases)?;
    Ok(giving(alloc, stmt, outcome, fresh))
}

fn call_by<'c>(
    alloc: Global,
    context: &'c Context<'_>,
    place: &mut Place<'c>,
    stmt: &'c Stmt,
    dest: &'c Dest,
    arity: usize,
) -> Result<Annotated<'c>, AllocError>
    ensures made { IfOk result (λ a. seen_annotated a ≡ annotated_by (statement_of stmt.entry.now) none none []
        (spec.fresh (seen_place place.old) (spec.result_of dest.entry.now true))
        (spec.fresh (seen_place place.old) (set_names.reached_assigns (context_in context.entry.now) arity))) }
    ensures place { OnOk result (seen_place place.new ≡ spec.renewed
        (spec.result_of dest.entry.now true ++ set_names.reached_assigns (context_in context.entry.now) arity)
        (seen_place place.old)) }
{
    let mut bases = result_base(alloc, context, dest, true)?;
    let outcome = place.fresh(alloc, &bases)?;
    let mut cells = Vec::new(alloc);
    context.add_reached_assigns(alloc, &mut cells, arity)?;
    let fresh = place.fresh(alloc, &cells)?;
    context.add_reached_assigns(alloc, &mut bases, arity)?;
    place.renew(alloc, &bases)?;
    Ok(giving(alloc, stmt, outcome, fresh))
}

#[cycle(annotated)]
fn if_else<'c>(
    alloc: Global,
    context: &'c Context<'_>,
    func: &Name,
    place: &mut Place<'c>,
    stmt: &'c Stmt,
    yes: &'c [Stmt],
    no: &'c [Stmt],
) -> Result<Annotated<'c>, AllocError>
    ensures made { IfOk result (λ a. seen_annotated a ≡ annotated_by (statement_of stmt.entry.now)
        (spec.annotated_all (context_in context.entry.now) func.now (seen_place place.old) (statements (map statement_of yes.entry.now)))
        (spec.annotated_all (context_in context.entry.now) func.now
        (spec.past_all (context_in context.entry.now) (statements (map statement_of yes.entry.now)) (seen_place place.old))
        (statements (map statement_of no.entry.now)))
        [] [] []) }
    ensures place { OnOk result (seen_place place.new ≡ spec.past_all (context_in context.entry.now) (statements (map statement_of no.entry.now))
        (spec.past_all (context_in context.entry.now) (statements (map statement_of yes.entry.now)) (seen_place place.old))) }
{
    let first = annotated_all(alloc, context, func, place, yes)?;
    let second = annotated_all(alloc, context, func, place, no)?;
    Ok(Annotated {
        stmt,
        first,
        second,
        invariants: Facts::none(),
        outcome: Items::new(alloc),
        fresh: Items::new(alloc),
    })
}

#[cycle(annotated)]
fn while_loop<'c>(
    alloc: Global,
    context: &'c Context<'_>,
    func: &Name,
    place: &mut Place<'c>,
    stmt: &'c Stmt,
    turn: &'c [Stmt],
) -> Result<Annotated<'c>, AllocError>
    ensures made { IfOk result (λ a. seen_annotated a ≡ annotated_by (statement_of stmt.entry.now)
        (spec.annotated_all (context_in context.entry.now) func.now
        (spec.inside (context_in context.entry.now) (statements (map statement_of turn.entry.now)) (seen_place place.old))
        (statements (map statement_of turn.entry.now)))
        none
        ((context_in context.entry.now).invariants func.now (suc (seen_place place.old).loops))
        []
        (spec.fresh (seen_place place.old) (set_names.sets_in (context_in context.entry.now) (statements (map statement_of turn.entry.now))))) }
    ensures place { OnOk result (seen_place place.new ≡ spec.past_all (context_in context.entry.now) (statements (map statement_of turn.entry.now))
        (spec.inside (context_in context.entry.now) (statements (map statement_of turn.entry.now)) (seen_place place.old))) }
{
    let mut bases = Vec::new(alloc);
    add_sets_in(alloc, context, &mut bases, turn)?;
    let fresh = place.fresh(alloc, &bases)?;
    place.renew(alloc, &bases)?;
    place.begin_loop()?;
    let invariants = context.hints().loop_facts(func, place.loops());
    let first = annotated_all(alloc, context, func, place, turn)?;
    Ok(Annotated {
        stmt,
        first,
        second: Items::new(alloc),
        invariants,
        outcome: Items::new(alloc),
        fresh,
    })
}

#[cycle(annotated)]
fn annotated<'c>(
    alloc: Global,
    context: &'c Context<'_>,
    func: &Name,
    place: &mut Place<'c>,
    stmt: &'c Stmt,
) -> Result<Annotated<'c>, AllocError>
    ensures made { IfOk result (λ a. seen_annotated a
        ≡ spec.annotated (context_in context.entry.now) func.now (seen_place place.old) (statement_of stmt.entry.now)) }
    ensures place { OnOk result (seen_place place.new ≡ spec.past (context_in context.entry.now) (statement_of stmt.entry.now) (seen_place place.old)) }
{
    match stmt {
        Stmt::Skip { .. } => Ok(plain(alloc, stmt)),
        Stmt::Set { .. } => Ok(plain(alloc, stmt)),
        Stmt::SetElem { .. } => Ok(plain(alloc, stmt)),
        Stmt::Call { dest, callee, .. } => call(alloc, context, place, stmt, dest, callee),
        Stmt::CallBy { dest, args, .. } => call_by(alloc, context, place, stmt, dest, args.len()),
        Stmt::If { yes, no, .. } => {
            if_else(
                alloc,
                context,
                func,
                place,
                stmt,
                yes.as_slice(),
                no.as_slice(),
            )
        }
        Stmt::While { body, .. } => {
            while_loop(alloc, context, func, place, stmt, body.as_slice())
        }
        Stmt::Break { .. } => Ok(plain(alloc, stmt)),
        Stmt::Return { .. } => Ok(plain(alloc, stmt)),
        Stmt::Assert { .. } => Ok(plain(alloc, stmt)),
        Stmt::Input { dest, .. } => setting(alloc, place, stmt, dest),
        Stmt::Output { .. } => Ok(plain(alloc, stmt)),
        Stmt::Point { .. } => Ok(plain(alloc, stmt)),
        Stmt::Choice { dest, .. } => setting(alloc, place, stmt, dest),
        Stmt::Force { .. } => Ok(plain(alloc, stmt)),
        Stmt::Pick { .. } => Ok(plain(alloc, stmt)),
    }
}

// The statements with their annotations, from a place on, which goes behind them.
#[cycle(annotated)]
fn annotated_all<'c>(
    alloc: Global,
    context: &'c Context<'_>,
    func: &Name,
    place: &mut Place<'c>,
    stmts: &'c [Stmt],
) -> Result<Items<Annotated<'c>>, AllocError>
    ensures made { IfOk result (λ all. seen_body all
        ≡ spec.annotated_all (context_in context.entry.now) func.now (seen_place place.old) (statements (map statement_of stmts.entry.now))) }
    ensures place { OnOk result (seen_place place.new
        ≡ spec.past_all (context_in context.entry.now) (statements (map statement_of stmts.entry.now)) (seen_place place.old)) }
{
    let mut all = Vec::new(alloc);
    for stmt in stmts {
        all.push(annotated(alloc, context, func, place, stmt)?)?;
    }
    Ok(Items::from_vec(all))
}

/// The statements of a function's body with their annotations. The only error is want of memory.
pub fn annotated_body<'c>(
    alloc: Global,
    context: &'c Context<'_>,
    func: &'c Func,
) -> Result<Items<Annotated<'c>>, AllocError>
    ensures { IfOk result (λ body. seen_body body ≡ conditions.annotated_body (context_in context.entry.now) func.entry.now) }
{
    let mut place = Place::new(alloc);
    annotated_all(alloc, context, &func.name, &mut place, func.body.as_slice())
}

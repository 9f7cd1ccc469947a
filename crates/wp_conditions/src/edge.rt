//! The ways on from a statement, and those that are still to be followed.

ghost use Rattle.std.specs.Prelude.{◌≡◌, [], ◌∷◌, ◌++◌, OnOk, map};
ghost use Rattle.c_lang.specs.Trees.{expression_of};
ghost use Rattle.expression_conditions.specs.Numbers.{numbers_in};
ghost use Rattle.annotated_bodies.specs.Sources.{context_in};
ghost use Rattle.annotated_bodies.specs.Seen.{seen_annotated};
ghost use Rattle.wp_conditions.specs.Code.Edges as edges;
ghost use Rattle.wp_conditions.specs.Code.Waiting.{seen_edge, seen_stack, at_mark};

use crate::steps::{assume, deny, go_behind, go_reached, turn};
use annotated_bodies::{Annotated, Context};
use c_lang::{Func, Stmt};
use std::alloc::{AllocError, Global};
use symbolic_state::SymbolicState;

/// The way on from a statement: behind it, where its condition holds or doesn't, or behind the function that a call
/// through a pointer reached; or one on which nothing changes.
#[derive(Clone, Copy)]
pub(crate) enum Edge<'b, 'p> {
    Straight,
    Behind(&'b Annotated<'p>),
    Holds(&'b Annotated<'p>),
    Fails(&'b Annotated<'p>),
    Reached(&'b Annotated<'p>, &'p Func),
}

/// An edge that is to be followed to the node with a number, where so many steps stand round it.
#[derive(Clone, Copy)]
pub(crate) struct Waiting<'b, 'p> {
    pub(crate) mark: usize,
    pub(crate) edge: Edge<'b, 'p>,
    pub(crate) number: usize,
}

fn follow_holds(
    alloc: Global,
    context: &Context<'_>,
    state: &mut SymbolicState,
    annotated: &Annotated<'_>,
) -> Result<(), AllocError>
    ensures { OnOk result (state.new ≡ edges.holds_steps (context_in context.now) (seen_annotated annotated.now) state.old) }
{
    match annotated.stmt {
        Stmt::If { cond, .. } => assume(alloc, context.names(), state, cond),
        Stmt::While { cond, .. } => {
            turn(
                alloc,
                state,
                &annotated.invariants,
                annotated.fresh.as_slice(),
            )?;
            assume(alloc, context.names(), state, cond)
        }
        Stmt::Skip { .. } => Ok(()),
        Stmt::Set { .. } => Ok(()),
        Stmt::SetElem { .. } => Ok(()),
        Stmt::Call { .. } => Ok(()),
        Stmt::CallBy { .. } => Ok(()),
        Stmt::Break { .. } => Ok(()),
        Stmt::Return { .. } => Ok(()),
        Stmt::Assert { .. } => Ok(()),
        Stmt::Input { .. } => Ok(()),
        Stmt::Output { .. } => Ok(()),
        Stmt::Point { .. } => Ok(()),
        Stmt::Choice { .. } => Ok(()),
        Stmt::Force { .. } => Ok(()),
        Stmt::Pick { .. } => Ok(()),
    }
}

fn follow_fails(
    alloc: Global,
    context: &Context<'_>,
    state: &mut SymbolicState,
    annotated: &Annotated<'_>,
) -> Result<(), AllocError>
    ensures { OnOk result (state.new ≡ edges.fails_steps (context_in context.now) (seen_annotated annotated.now) state.old) }
{
    match annotated.stmt {
        Stmt::If { cond, .. } => deny(alloc, context.names(), state, cond),
        Stmt::While { cond, .. } => {
            turn(
                alloc,
                state,
                &annotated.invariants,
                annotated.fresh.as_slice(),
            )?;
            deny(alloc, context.names(), state, cond)
        }
        Stmt::Skip { .. } => Ok(()),
        Stmt::Set { .. } => Ok(()),
        Stmt::SetElem { .. } => Ok(()),
        Stmt::Call { .. } => Ok(()),
        Stmt::CallBy { .. } => Ok(()),
        Stmt::Break { .. } => Ok(()),
        Stmt::Return { .. } => Ok(()),
        Stmt::Assert { .. } => Ok(()),
        Stmt::Input { .. } => Ok(()),
        Stmt::Output { .. } => Ok(()),
        Stmt::Point { .. } => Ok(()),
        Stmt::Choice { .. } => Ok(()),
        Stmt::Force { .. } => Ok(()),
        Stmt::Pick { .. } => Ok(()),
    }
}

/// Follows an edge. The only error is want of memory.
pub(crate) fn follow(
    alloc: Global,
    context: &Context<'_>,
    state: &mut SymbolicState,
    edge: &Edge<'_, '_>,
) -> Result<(), AllocError>
    ensures { OnOk result (state.new ≡ edges.edge_steps (context_in context.now) (seen_edge edge.now) state.old) }
{
    match edge {
        Edge::Straight => Ok(()),
        Edge::Behind(annotated) => go_behind(alloc, context, state, annotated),
        Edge::Holds(annotated) => follow_holds(alloc, context, state, annotated),
        Edge::Fails(annotated) => follow_fails(alloc, context, state, annotated),
        Edge::Reached(annotated, func) => go_reached(alloc, context, state, annotated, &func.name),
    }
}

fn push<'b, 'p>(
    waiting: &mut Vec<Waiting<'b, 'p>>,
    mark: usize,
    edge: Edge<'b, 'p>,
    number: usize,
) -> Result<(), AllocError>
    ensures { OnOk result (seen_stack waiting.new.items ≡ record { mark = mark; edge = seen_edge edge.entry; number = number } ∷ seen_stack waiting.old.items) }
{
    waiting.push(Waiting { mark, edge, number })?;
    Ok(())
}

// Where the condition holds, and before that where it doesn't.
fn push_both<'b, 'p>(
    waiting: &mut Vec<Waiting<'b, 'p>>,
    mark: usize,
    annotated: &'b Annotated<'p>,
    first: usize,
    second: usize,
) -> Result<(), AllocError>
    ensures { OnOk result (seen_stack waiting.new.items ≡ at_mark mark ((edges.holds (seen_annotated annotated.entry.now), first)
        ∷ ((edges.fails (seen_annotated annotated.entry.now), second) ∷ [])) ++ seen_stack waiting.old.items) }
{
    push(waiting, mark, Edge::Fails(annotated), second)?;
    push(waiting, mark, Edge::Holds(annotated), first)
}

// Behind each of the functions, the first one on top.
fn push_reached<'b, 'p>(
    waiting: &mut Vec<Waiting<'b, 'p>>,
    mark: usize,
    annotated: &'b Annotated<'p>,
    funcs: &[&'p Func],
    first: usize,
) -> Result<(), AllocError>
    ensures { OnOk result (seen_stack waiting.new.items ≡ at_mark mark (map (λ f. (edges.reached (seen_annotated annotated.entry.now) f, first))
        (map (λ d. d.name) (map (λ f. f.now) funcs.now))) ++ seen_stack waiting.old.items) }
{
    for func in funcs.iter().rev() {
        push(waiting, mark, Edge::Reached(annotated, func), first)?;
    }
    Ok(())
}

fn push_candidates<'b, 'p>(
    alloc: Global,
    context: &'p Context<'p>,
    waiting: &mut Vec<Waiting<'b, 'p>>,
    mark: usize,
    annotated: &'b Annotated<'p>,
    arity: usize,
    first: usize,
) -> Result<(), AllocError>
    ensures { OnOk result (seen_stack waiting.new.items ≡ at_mark mark (map (λ f. (edges.reached (seen_annotated annotated.entry.now) f, first))
        ((context_in context.entry.now).reached arity)) ++ seen_stack waiting.old.items) }
{
    let funcs = context.reached(alloc, arity)?;
    push_reached(waiting, mark, annotated, &funcs, first)
}

/// Adds the edges of a statement, the first one on top. The only error is want of memory.
pub(crate) fn push_edges<'b, 'p>(
    alloc: Global,
    context: &'p Context<'p>,
    waiting: &mut Vec<Waiting<'b, 'p>>,
    mark: usize,
    annotated: &'b Annotated<'p>,
    first: usize,
    second: usize,
) -> Result<(), AllocError>
    ensures { OnOk result (seen_stack waiting.new.items
        ≡ at_mark mark (edges.edges (context_in context.entry.now) (seen_annotated annotated.entry.now) first second) ++ seen_stack waiting.old.items) }
{
    match annotated.stmt {
        Stmt::If { .. } => push_both(waiting, mark, annotated, first, second),
        Stmt::While { .. } => push_both(waiting, mark, annotated, first, second),
        Stmt::Return { .. } => Ok(()),
        Stmt::CallBy { args, .. } => {
            push_candidates(alloc, context, waiting, mark, annotated, args.len(), first)
        }
        Stmt::Skip { .. } => push(waiting, mark, Edge::Behind(annotated), first),
        Stmt::Set { .. } => push(waiting, mark, Edge::Behind(annotated), first),
        Stmt::SetElem { .. } => push(waiting, mark, Edge::Behind(annotated), first),
        Stmt::Call { .. } => push(waiting, mark, Edge::Behind(annotated), first),
        Stmt::Break { .. } => push(waiting, mark, Edge::Behind(annotated), first),
        Stmt::Assert { .. } => push(waiting, mark, Edge::Behind(annotated), first),
        Stmt::Input { .. } => push(waiting, mark, Edge::Behind(annotated), first),
        Stmt::Output { .. } => push(waiting, mark, Edge::Behind(annotated), first),
        Stmt::Point { .. } => push(waiting, mark, Edge::Behind(annotated), first),
        Stmt::Choice { .. } => push(waiting, mark, Edge::Behind(annotated), first),
        Stmt::Force { .. } => push(waiting, mark, Edge::Behind(annotated), first),
        Stmt::Pick { .. } => push(waiting, mark, Edge::Behind(annotated), first),
    }
}

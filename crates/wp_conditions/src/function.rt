//! The conditions of one function.

ghost use Rattle.std.specs.Prelude.{◌≡◌, ◌≤◌, ◌<◌, true, false, length, min, IfOk, OnOk};
ghost use Rattle.weakest_preconditions.specs.Wp.{wp_all};
ghost use Rattle.weakest_preconditions.specs.Conditions.{at_end, annotated_body, function_conditions};
ghost use Rattle.annotated_bodies.specs.Sources.{context_in};
ghost use Rattle.control_flow.specs.Seen.{conditions_in};
ghost use Rattle.wp_conditions.specs.Code.Edges as edges;
ghost use Rattle.wp_conditions.specs.Code.Growing.{grown};
ghost use Rattle.wp_conditions.specs.Code.Functions.{IsAdded};

use crate::function_context::FunctionContext;
use crate::made::Made;
use crate::walk::walk;
use annotated_bodies::{Context, annotated_body};
use c_lang::Func;
use control_flow::{Graph, control_flow};
use std::alloc::{AllocError, Global};
use symbolic_state::SymbolicState;

/// How many conditions a function may have.
pub(crate) const CONDITION_LIMIT: u64 = 4096;

// What stands round all conditions of a function: its globals and parameters at entry, and what it asks.
fn entered(alloc: Global, site: &FunctionContext<'_>) -> Result<SymbolicState, AllocError>
    ensures { IfOk result (λ state. state ≡ edges.entry_steps (edges.context_for site.now) site.now.2) }
{
    let mut state = SymbolicState::new(alloc);
    let context = site.context();
    state.enter(alloc, context.names().program(), site.func())?;
    let needs = context.hints().needs(&site.func().name);
    state.assume_all(alloc, needs.as_slice())?;
    Ok(state)
}

#[tactic(auto, using(crate::proofs::FunctionLaws::function_is))]
fn put_body<'b, 'p>(
    alloc: Global,
    site: &FunctionContext<'p>,
    graph: &Graph<'b, 'p>,
    made: &mut Made,
) -> Result<(), AllocError>
    requires context { graph.now.context.now ≡ (site.now.0, site.now.1) }
    requires func { graph.now.func.now ≡ site.now.2 }
    requires conditions { conditions_in graph.now graph.now.entry ≡ wp_all (edges.context_for site.now) site.now.2.name
        (annotated_body (edges.context_for site.now) site.now.2) (at_end (edges.context_for site.now) site.now.2) (at_end (edges.context_for site.now) site.now.2) }
    ensures { OnOk result (made.new ≡ grown site.now.0 site.now.2 made.old (function_conditions (edges.context_for site.now) site.now.2)) }
{
    let mut state = entered(alloc, site)?;
    walk(alloc, site, graph, &mut state, made)
}

// Adds the conditions at the graph's entry, unless there are too many.
fn add_graph<'b, 'p>(
    alloc: Global,
    context: &'p Context<'p>,
    func: &'p Func,
    graph: &Graph<'b, 'p>,
    made: &mut Made,
) -> Result<bool, AllocError>
    requires context { graph.now.context.now ≡ context.now }
    requires func { graph.now.func.now ≡ func.now }
    requires conditions { conditions_in graph.now graph.now.entry ≡ wp_all (context_in context.now) func.now.name
        (annotated_body (context_in context.now) func.now) (at_end (context_in context.now) func.now) (at_end (context_in context.now) func.now) }
    ensures { IfOk result (λ added. IsAdded context.entry.now func.entry.now made.old made.new added) }
{
    if graph.count(graph.entry()) > CONDITION_LIMIT {
        return Ok(false);
    }
    let site = FunctionContext::new(alloc, context, func)?;
    put_body(alloc, &site, graph, made)?;
    Ok(true)
}

/// Adds the conditions of the function and answers true, or answers false where there are too many. The only error
/// is want of memory.
pub(crate) fn add_function<'p>(
    alloc: Global,
    context: &'p Context<'p>,
    func: &'p Func,
    made: &mut Made,
) -> Result<bool, AllocError>
    ensures { IfOk result (λ added. IsAdded context.entry.now func.entry.now made.old made.new added) }
{
    let body = annotated_body(alloc, context, func)?;
    let graph = control_flow(alloc, context, func, body.as_slice())?;
    add_graph(alloc, context, func, &graph, made)
}

//! The walk that makes a function's conditions from the front, each when it comes to it.

ghost use Rattle.std.specs.Prelude.{◌≡◌, [], ◌∷◌, ◌++◌, IfOk, OnOk, map, length};
ghost use Rattle.annotated_bodies.specs.Seen.{seen_annotated};
ghost use Rattle.symbolic_state.specs.Steps.{finished};
ghost use Rattle.control_flow.specs.Seen.{conditions_in};
ghost use Rattle.wp_conditions.specs.Code.Edges as edges;
ghost use Rattle.wp_conditions.specs.Code.Edges.{straight};
ghost use Rattle.wp_conditions.specs.Code.Growing.{grown};
ghost use Rattle.wp_conditions.specs.Code.Waiting.{left, Stacked, at_mark, seen_waiting, seen_stack};

use crate::edge::{Edge, Waiting, follow, push_edges};
use crate::function_context::FunctionContext;
use crate::goals::put_goals;
use crate::made::Made;
use crate::statements::{put_end, put_statement};
use annotated_bodies::Annotated;
use control_flow::{Graph, Node};
use std::alloc::{AllocError, Global};
use symbolic_state::SymbolicState;
use terms::{Label, What};

// Makes the conditions of a statement, and adds its edges.
fn arrive_at_statement<'b, 'p>(
    alloc: Global,
    site: &FunctionContext<'p>,
    state: &mut SymbolicState,
    waiting: &mut Vec<Waiting<'b, 'p>>,
    made: &mut Made,
    annotated: &'b Annotated<'p>,
    first: usize,
    second: usize,
) -> Result<(), AllocError>
    ensures made { OnOk result (made.new ≡ grown site.now.0 site.now.2 made.old
        (edges.here (edges.context_for site.now) site.now.2.name (seen_annotated annotated.entry.now) state.old)) }
    ensures state { OnOk result (state.new ≡ state.old) }
    ensures waiting { OnOk result (seen_stack waiting.new.items
        ≡ at_mark (length state.old) (edges.edges (edges.context_for site.now) (seen_annotated annotated.entry.now) first second) ++ seen_stack waiting.old.items) }
{
    put_statement(alloc, site, state, made, annotated)?;
    push_edges(
        alloc,
        site.context(),
        waiting,
        state.mark(),
        annotated,
        first,
        second,
    )
}

// Makes the conditions at the node with a number, and adds its edges.
fn arrive<'b, 'p>(
    alloc: Global,
    site: &FunctionContext<'p>,
    graph: &Graph<'b, 'p>,
    state: &mut SymbolicState,
    waiting: &mut Vec<Waiting<'b, 'p>>,
    made: &mut Made,
    number: usize,
) -> Result<(), AllocError>
    requires context { graph.now.context.now ≡ (site.now.0, site.now.1) }
    requires func { graph.now.func.now ≡ site.now.2 }
    requires stacked { Stacked (length state.now) (seen_stack waiting.now.items) }
    ensures made { OnOk result (
        grown site.now.0 site.now.2 made.new (left (edges.context_for site.now) (conditions_in graph.now) state.new (seen_stack waiting.new.items))
        ≡ grown site.now.0 site.now.2 made.old (map (finished state.old) (conditions_in graph.now number)
        ++ left (edges.context_for site.now) (conditions_in graph.now) state.old (seen_stack waiting.old.items))) }
    ensures stacked { OnOk result (Stacked (length state.new) (seen_stack waiting.new.items)) }
{
    match graph.node(number) {
        None => Ok(()),
        Some(Node::Ends) => put_end(alloc, site, state, made),
        Some(Node::Turns(pos, invariants)) => {
            let label = Label {
                pos: *pos,
                what: What::InvariantKept,
            };
            put_goals(alloc, site.sorts(), state, made, label, invariants)
        }
        Some(
            Node::Does {
                stmt,
                first,
                second,
            },
        ) => arrive_at_statement(alloc, site, state, waiting, made, stmt, *first, *second),
    }
}

// Follows an edge to its node, if there are conditions, and makes those of the node.
fn go<'b, 'p>(
    alloc: Global,
    site: &FunctionContext<'p>,
    graph: &Graph<'b, 'p>,
    state: &mut SymbolicState,
    waiting: &mut Vec<Waiting<'b, 'p>>,
    made: &mut Made,
    entry: Waiting<'b, 'p>,
) -> Result<(), AllocError>
    requires context { graph.now.context.now ≡ (site.now.0, site.now.1) }
    requires func { graph.now.func.now ≡ site.now.2 }
    requires stacked { Stacked (length state.now) (seen_waiting entry ∷ seen_stack waiting.now.items) }
    ensures made { OnOk result (
        grown site.now.0 site.now.2 made.new (left (edges.context_for site.now) (conditions_in graph.now) state.new (seen_stack waiting.new.items))
        ≡ grown site.now.0 site.now.2 made.old
        (left (edges.context_for site.now) (conditions_in graph.now) state.old (seen_waiting entry.entry ∷ seen_stack waiting.old.items))) }
    ensures stacked { OnOk result (Stacked (length state.new) (seen_stack waiting.new.items)) }
{
    state.cut_back(entry.mark);
    if graph.count(entry.number) == 0 {
        return Ok(());
    }
    follow(alloc, site.context(), state, &entry.edge)?;
    arrive(alloc, site, graph, state, waiting, made, entry.number)
}

// The graph's entry, where so many steps stand round it.
fn start<'b, 'p>(
    alloc: Global,
    graph: &Graph<'b, 'p>,
    mark: usize,
) -> Result<Vec<Waiting<'b, 'p>>, AllocError>
    ensures { IfOk result (λ all. seen_stack all.items ≡ record { mark = mark; edge = straight; number = graph.now.entry } ∷ []) }
{
    let mut waiting: Vec<Waiting<'b, 'p>> = Vec::new(alloc);
    waiting.push(Waiting {
        mark,
        edge: Edge::Straight,
        number: graph.entry(),
    })?;
    Ok(waiting)
}

/// Makes the conditions of the function of the graph, behind what stands round them. The only error is want of
/// memory.
pub(crate) fn walk<'b, 'p>(
    alloc: Global,
    site: &FunctionContext<'p>,
    graph: &Graph<'b, 'p>,
    state: &mut SymbolicState,
    made: &mut Made,
) -> Result<(), AllocError>
    requires context { graph.now.context.now ≡ (site.now.0, site.now.1) }
    requires func { graph.now.func.now ≡ site.now.2 }
    ensures { OnOk result (made.new ≡ grown site.now.0 site.now.2 made.old (map (finished state.old) (conditions_in graph.now graph.now.entry))) }
{
    let mut waiting = start(alloc, graph, state.mark())?;
    for _ in 0..u64::MAX {
        if made.is_full() {
            return Ok(());
        }
        let Some(entry) = waiting.pop() else {
            return Ok(());
        };
        go(alloc, site, graph, state, &mut waiting, made, entry)?;
    }
    Err(AllocError)
}

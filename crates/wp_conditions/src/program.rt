//! The conditions of a whole program.

ghost use Rattle.std.specs.Prelude.{◌≡◌, IfOk, OnOk, map, length, min};
ghost use Rattle.weakest_preconditions.specs.Conditions.{at_end, annotated_body, function_conditions, initial_condition};
ghost use Rattle.weakest_preconditions.specs.Wp.{wp_all};
ghost use Rattle.loop_invariants.specs.Binding.{BindsBound};
ghost use Rattle.control_flow.specs.Seen.{conditions_in};
ghost use Rattle.annotated_bodies.specs.Sources.{context_in};
ghost use Rattle.symbolic_state.specs.Steps.{without_sorts};
ghost use Rattle.wp_conditions.specs.Code.Growing.{pushed_sequent, grown_sequents};
ghost use Rattle.wp_conditions.specs.Code.Whole.{IsWithin, so_far, IsOneRun, IsRun, IsStart};

use crate::function::{CONDITION_LIMIT, add_function};
use crate::made::Made;
use annotated_bodies::{Context, annotated_body};
use c_lang::{Func, Name, Pos};
use condition_sorts::Sorts;
use control_flow::{Graph, control_flow};
use initial_conditions::initial_condition;
use loop_invariants::Facts;
use std::alloc::{AllocError, Global};
use terms::Fact;

// Adds the conditions of a function, and answers whether there aren't too many, and they aren't too large.
fn add_one<'p>(
    alloc: Global,
    context: &'p Context<'p>,
    func: &'p Func,
    made: &mut Made,
) -> Result<bool, AllocError>
    requires { IsWithin made.now }
    ensures { IfOk result (λ fits. IsOneRun context.entry.now (so_far made.old) func.entry.now made.new fits) }
{
    if !add_function(alloc, context, func, made)? {
        return Ok(false);
    }
    Ok(!made.is_full())
}

// Adds the conditions of the functions, or answers with the position of the first one with which there are too many or
// they are too large.
fn add_all<'p>(
    alloc: Global,
    context: &'p Context<'p>,
    funcs: &'p [Func],
    made: &mut Made,
) -> Result<Option<Pos>, AllocError>
    requires { IsWithin made.now }
    ensures { IfOk result (λ stopped. IsRun context.entry.now (so_far made.old) funcs.entry.now made.new stopped) }
{
    for func in funcs {
        if !add_one(alloc, context, func, made)? {
            return Ok(Some(func.pos));
        }
    }
    Ok(None)
}

// How many conditions the function of the graph has; 2^64 - 1 where there are more.
fn count_in<'b, 'p>(context: &'p Context<'p>, func: &'p Func, graph: &Graph<'b, 'p>) -> u64
    requires { conditions_in graph.now graph.now.entry ≡ wp_all (context_in context.now) func.now.name
        (annotated_body (context_in context.now) func.now) (at_end (context_in context.now) func.now) (at_end (context_in context.now) func.now) }
    ensures { result ≡ min (length (function_conditions (context_in context.entry.now) func.entry.now)) 18446744073709551615 }
{
    graph.count(graph.entry())
}

// How many conditions the function has; 2^64 - 1 where there are more.
fn count_of<'p>(alloc: Global, context: &'p Context<'p>, func: &'p Func) -> Result<u64, AllocError>
    ensures { IfOk result (λ count. count ≡ min (length (function_conditions (context_in context.entry.now) func.entry.now)) 18446744073709551615) }
{
    let body = annotated_body(alloc, context, func)?;
    let graph = control_flow(alloc, context, func, body.as_slice())?;
    Ok(count_in(context, func, &graph))
}

// That the fact holds at the start of the program, as a condition of the function that starts it.
fn add_fact(
    alloc: Global,
    sorts: &Sorts<'_>,
    fact: &Fact,
    made: &mut Made,
) -> Result<(), AllocError>
    requires { BindsBound fact.now }
    ensures { OnOk result (made.new ≡ pushed_sequent sorts.now.0 sorts.now.1 made.old
        (without_sorts (initial_condition sorts.now.0 sorts.now.1.pos fact.now))) }
{
    let pos = sorts.func().pos;
    let sequent = initial_condition(alloc, sorts.names(), pos, fact)?;
    made.add_sequent(alloc, sorts, sequent)
}

// That the facts hold at the start of the program.
fn add_facts(
    alloc: Global,
    sorts: &Sorts<'_>,
    facts: &Facts<'_>,
    made: &mut Made,
) -> Result<(), AllocError>
    ensures { OnOk result (made.new ≡ grown_sequents sorts.now.0 sorts.now.1 made.old
        (map without_sorts (map (initial_condition sorts.now.0 sorts.now.1.pos) facts.now))) }
{
    for fact in facts.as_slice() {
        add_fact(alloc, sorts, fact, made)?;
    }
    Ok(())
}

// Adds what has to hold at the start of the program, and answers whether there isn't too much with it.
fn add_start<'p>(
    alloc: Global,
    context: &'p Context<'p>,
    main: &'p Func,
    made: &mut Made,
) -> Result<bool, AllocError>
    requires { IsWithin made.now }
    ensures { IfOk result (λ fits. IsStart context.entry.now (so_far made.old) main.entry.now made.new fits) }
{
    let name = Name::new(alloc, b"main")?;
    let needs = context.hints().needs(&name);
    let count = count_of(alloc, context, main)?;
    if count.saturating_add(needs.as_slice().len() as u64) > CONDITION_LIMIT {
        return Ok(false);
    }
    let sorts = Sorts::new(alloc, context.names(), main)?;
    add_facts(alloc, &sorts, &needs, made)?;
    Ok(!made.is_full())
}

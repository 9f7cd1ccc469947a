ghost use Rattle.std.specs.Prelude.{◌≡◌, ◌++◌, map, IfOk};
ghost use Rattle.c_lang.specs.declared.program.GlobalVar.{GlobalVar};
ghost use Rattle.terms.specs.Trees.{name, array};
ghost use Rattle.expression_conditions.specs.Meanings.{current};
ghost use Rattle.loop_invariants.specs.EntryNames.{result_base, bound, global_at_entry};
ghost use Rattle.weakest_preconditions.specs.Changing.{returning};
ghost use Rattle.name_changes.specs.Kept.{keeping_bound};

use crate::changes::{
    entered_arrays, entered_numbers, passed_values, renewed_arrays, renewed_numbers,
};
use crate::names::{bound, current_result};
use c_lang::{GlobalVar, Program};
use sqlite_items::Items;
use std::alloc::{AllocError, Global};
use terms::{ArrayTerm, Changes, Sym, Term};

// The bound number is itself.
fn own_bound(alloc: Global) -> Result<(Sym, Term), AllocError>
    ensures { IfOk result (λ made. made ≡ (bound, name bound)) }
{
    let value = Term::name(alloc, bound(alloc)?)?;
    Ok((bound(alloc)?, value))
}

// The result is the fresh name.
fn result_now(alloc: Global, fresh: &Sym) -> Result<(Sym, Term), AllocError>
    ensures { IfOk result (λ made. made ≡ (current result_base, name fresh.now)) }
{
    let by = Term::name(alloc, fresh.copy(alloc)?)?;
    Ok((current_result(alloc)?, by))
}

fn results_now(alloc: Global, outcome: &[Sym]) -> Result<Vec<(Sym, Term)>, AllocError>
    ensures { IfOk result (λ made. made.items ≡ map (λ x. (current result_base, name x)) outcome.now) }
{
    let mut pairs = Vec::new(alloc);
    for symbol in outcome {
        pairs.push(result_now(alloc, symbol)?)?;
    }
    Ok(pairs)
}

fn returned_numbers(
    alloc: Global,
    globals: &[GlobalVar],
    args: &[Term],
    outcome: &[Sym],
    cells: &[Sym],
) -> Result<Vec<(Sym, Term)>, AllocError>
    ensures { IfOk result (λ made. made.items
        ≡ (keeping_bound (returning (map (λ (d : GlobalVar). d.name) globals.now) args.now outcome.now cells.now)).numbers) }
{
    let mut pairs = Vec::new(alloc);
    pairs.push(own_bound(alloc)?)?;
    pairs.append(&mut results_now(alloc, outcome)?)?;
    pairs.append(&mut renewed_numbers(alloc, cells)?)?;
    pairs.append(&mut entered_numbers(alloc, globals)?)?;
    pairs.append(&mut passed_values(alloc, args)?)?;
    Ok(pairs)
}

fn returned_arrays(
    alloc: Global,
    globals: &[GlobalVar],
    cells: &[Sym],
) -> Result<Vec<(Sym, ArrayTerm)>, AllocError>
    ensures { IfOk result (λ made. made.items
        ≡ map (λ x. (current x.base, array x)) cells.now
        ++ map (λ g. (global_at_entry g, array (current g))) (map (λ (d : GlobalVar). d.name) globals.now)) }
{
    let mut pairs = renewed_arrays(alloc, cells)?;
    pairs.append(&mut entered_arrays(alloc, globals)?)?;
    Ok(pairs)
}

/// A call comes to its end: its result and the cells that it may change have fresh names, a global at entry is what
/// it is now, and a parameter at entry is its argument. The number that facts bind stays. The only error is want of
/// memory.
pub fn returning(
    alloc: Global,
    program: &Program,
    args: &[Term],
    outcome: &[Sym],
    cells: &[Sym],
) -> Result<Changes, AllocError>
    ensures { IfOk result (λ made. made
        ≡ keeping_bound (returning (map (λ g. g.name) program.now.globals) args.now outcome.now cells.now)) }
{
    let globals = program.globals.as_slice();
    let numbers = Items::from_vec(returned_numbers(alloc, globals, args, outcome, cells)?);
    Ok(Changes {
        numbers,
        arrays: Items::from_vec(returned_arrays(alloc, globals, cells)?),
    })
}

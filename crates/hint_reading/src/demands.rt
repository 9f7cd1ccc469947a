//! What is asked of the clauses of items.

ghost use Rattle.std.specs.Prelude.{◌≡◌, IfOk};
ghost use Rattle.std.specs.List.{list_all};
ghost use Rattle.loop_invariants.specs.Clauses as places;
ghost use Rattle.hint_reading.specs.Demands as spec;
ghost use Rattle.hint_reading.specs.Code.Parts.{Checks, funcs_in, contract_demands, loop_demands};

use c_lang::{Func, Name};
use hint_texts::{Clause, ClauseKind, Fault, Quantified};
use loop_invariants::Allowed;
use name_tables::ProgramNames;
use std::alloc::{AllocError, Global};

fn may_be_bound(allowed: &Allowed<'_>, name: &Option<Name>) -> bool
    ensures { result ≡ spec.may_be_bound allowed.now.program allowed.now.place name.now }
{
    match name {
        None => true,
        Some(name) => allowed.may_bind(name),
    }
}

fn may_be_said(allowed: &Allowed<'_>, said: &Quantified) -> bool
    ensures { result ≡ spec.may_be_said allowed.now.program allowed.now.place said.now }
{
    may_be_bound(allowed, &said.name) && allowed.fact(&said.fact)
}

fn may_require(
    alloc: Global,
    names: &ProgramNames<'_>,
    func: &Func,
    said: &Quantified,
) -> Result<bool, AllocError>
    ensures { IfOk result (λ may. may ≡ spec.may_be_said names.now (places.at_needs func.now) said.now) }
{
    let allowed = Allowed::in_needs(alloc, names, func)?;
    Ok(may_be_said(&allowed, said))
}

fn may_ensure(
    alloc: Global,
    names: &ProgramNames<'_>,
    func: &Func,
    said: &Quantified,
) -> Result<bool, AllocError>
    ensures { IfOk result (λ may. may ≡ spec.may_be_said names.now (places.at_promises func.now) said.now) }
{
    let allowed = Allowed::in_promises(alloc, names, func)?;
    Ok(may_be_said(&allowed, said))
}

fn are_globals(names: &ProgramNames<'_>, cells: &[Name]) -> bool
    ensures { result ≡ spec.are_globals names.now cells.now }
{
    cells.iter().all(|name| names.global(name).is_some())
}

// In the function's contract.
fn may_say(
    alloc: Global,
    names: &ProgramNames<'_>,
    func: &Func,
    kind: &ClauseKind,
) -> Result<bool, AllocError>
    ensures { IfOk result (λ may. may ≡ spec.may_say names.now func.now kind.now) }
{
    match kind {
        ClauseKind::Requires(said) => may_require(alloc, names, func, said),
        ClauseKind::Ensures(said) => may_ensure(alloc, names, func, said),
        ClauseKind::Assigns(cells) => Ok(are_globals(names, cells.as_slice())),
        ClauseKind::Invariant(_) => Ok(false),
    }
}

// In the contract of each of these functions.
fn all_may_say(
    alloc: Global,
    names: &ProgramNames<'_>,
    funcs: &[&Func],
    kind: &ClauseKind,
) -> Result<bool, AllocError>
    ensures { IfOk result (λ may. may ≡ list_all (λ f. spec.may_say names.now f kind.now) (funcs_in funcs.now)) }
{
    for func in funcs {
        if !may_say(alloc, names, func, kind)? {
            return Ok(false);
        }
    }
    Ok(true)
}

/// Whether the clauses may stand in contracts of all these functions. Errors: want of memory, and the line of the
/// first that may not.
pub(crate) fn check_contract(
    alloc: Global,
    names: &ProgramNames<'_>,
    funcs: &[&Func],
    clauses: &[Clause],
) -> Result<(), Fault>
    ensures { Checks result (spec.first_unmet (contract_demands names.now (funcs_in funcs.now) clauses.now)) }
{
    for clause in clauses {
        if !all_may_say(alloc, names, funcs, &clause.kind)? {
            return Err(Fault::NoText(clause.line));
        }
    }
    Ok(())
}

// At a loop.
fn may_say_at(allowed: &Allowed<'_>, kind: &ClauseKind) -> bool
    ensures { result ≡ spec.may_say_at allowed.now.program allowed.now.place kind.now }
{
    match kind {
        ClauseKind::Requires(_) => false,
        ClauseKind::Ensures(_) => false,
        ClauseKind::Assigns(_) => false,
        ClauseKind::Invariant(said) => may_be_said(allowed, said),
    }
}

/// Whether the clauses may stand at this loop. The only error is the line of the first that may not.
pub(crate) fn check_invariants(allowed: &Allowed<'_>, clauses: &[Clause]) -> Result<(), Fault>
    ensures { Checks result (spec.first_unmet (loop_demands allowed.now.program allowed.now.place clauses.now)) }
{
    for clause in clauses {
        if !may_say_at(allowed, &clause.kind) {
            return Err(Fault::NoText(clause.line));
        }
    }
    Ok(())
}

//! What the clauses of an item say.

ghost use Rattle.std.specs.Prelude.{◌≡◌, ◌++◌, flat_map, option_to_list, IfOk, OnOk};
ghost use Rattle.std.specs.Option.{option_copied};
ghost use Rattle.hint_reading.specs.Meaning as spec;
ghost use Rattle.hint_reading.specs.Code.Parts.{facts_by};

use c_lang::Name;
use hint_texts::{Clause, ClauseKind};
use loop_invariants::Contract;
use sqlite_items::Items;
use std::alloc::{AllocError, Global};
use terms::Fact;

/// What facts of clauses are for: what a function asks of its callers, what it promises them, or what holds at a loop.
#[derive(Clone, Copy)]
pub(crate) enum Role {
    Needs,
    Promises,
    Invariants,
}

fn need(kind: &ClauseKind) -> Option<&Fact>
    ensures { option_to_list (option_copied result) ≡ spec.needs_by kind.now }
{
    match kind {
        ClauseKind::Requires(said) => Some(&said.fact),
        ClauseKind::Ensures(_) => None,
        ClauseKind::Assigns(_) => None,
        ClauseKind::Invariant(_) => None,
    }
}

fn promise(kind: &ClauseKind) -> Option<&Fact>
    ensures { option_to_list (option_copied result) ≡ spec.promises_by kind.now }
{
    match kind {
        ClauseKind::Requires(_) => None,
        ClauseKind::Ensures(said) => Some(&said.fact),
        ClauseKind::Assigns(_) => None,
        ClauseKind::Invariant(_) => None,
    }
}

fn invariant(kind: &ClauseKind) -> Option<&Fact>
    ensures { option_to_list (option_copied result) ≡ spec.invariants_by kind.now }
{
    match kind {
        ClauseKind::Requires(_) => None,
        ClauseKind::Ensures(_) => None,
        ClauseKind::Assigns(_) => None,
        ClauseKind::Invariant(said) => Some(&said.fact),
    }
}

// The fact of a clause, if it is for this.
fn fact_in(role: Role, kind: &ClauseKind) -> Option<&Fact>
    ensures { option_to_list (option_copied result) ≡ facts_by role kind.now }
{
    match role {
        Role::Needs => need(kind),
        Role::Promises => promise(kind),
        Role::Invariants => invariant(kind),
    }
}

fn put_copy(alloc: Global, out: &mut Vec<Fact>, fact: Option<&Fact>) -> Result<(), AllocError>
    ensures { OnOk result (out.new.items ≡ out.old.items ++ option_to_list (option_copied fact.entry)) }
{
    match fact {
        None => Ok(()),
        Some(fact) => {
            out.push(fact.copy(alloc)?)?;
            Ok(())
        }
    }
}

/// Copies of the facts of clauses that are for this. The only error is want of memory.
pub(crate) fn facts_in(
    alloc: Global,
    role: Role,
    clauses: &[Clause],
) -> Result<Items<Fact>, AllocError>
    ensures { IfOk result (λ facts. facts ≡ flat_map (λ c. facts_by role c.kind) clauses.now) }
{
    let mut facts = Vec::new(alloc);
    for clause in clauses {
        put_copy(alloc, &mut facts, fact_in(role, &clause.kind))?;
    }
    Ok(Items::from_vec(facts))
}

fn copied_names(alloc: Global, names: &[Name]) -> Result<Items<Name>, AllocError>
    ensures { IfOk result (λ copied. copied ≡ names.now) }
{
    let mut copied = Vec::new(alloc);
    for name in names {
        copied.push(name.copy(alloc)?)?;
    }
    Ok(Items::from_vec(copied))
}

// The cells that the clauses list, if one does.
fn cells_in(alloc: Global, clauses: &[Clause]) -> Result<Option<Items<Name>>, AllocError>
    ensures { IfOk result (λ cells. cells ≡ spec.cells_in clauses.now) }
{
    for clause in clauses {
        if let ClauseKind::Assigns(names) = &clause.kind {
            return Ok(Some(copied_names(alloc, names.as_slice())?));
        }
    }
    Ok(None)
}

/// The contract that the clauses are. The only error is want of memory.
pub(crate) fn contract_in(alloc: Global, clauses: &[Clause]) -> Result<Contract, AllocError>
    ensures { IfOk result (λ contract. contract ≡ spec.contract_in clauses.now) }
{
    let needs = facts_in(alloc, Role::Needs, clauses)?;
    let promises = facts_in(alloc, Role::Promises, clauses)?;
    Ok(Contract {
        needs,
        promises,
        assigns: cells_in(alloc, clauses)?,
    })
}

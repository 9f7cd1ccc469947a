//! Contracts and invariants, gathered item by item.

ghost use Rattle.std.specs.Prelude.{◌≡◌, ◌++◌, ◌∷◌, [], not, map, OnOk};
ghost use Rattle.std.specs.Borrow.{Bor};
ghost use Rattle.std.specs.List.{list_all};
ghost use Rattle.c_lang.specs.declared.program.Func.{Func as FuncData};
ghost use Rattle.loop_invariants.specs.Hints.{HintsBind};
ghost use Rattle.hint_reading.specs.Demands as spec;
ghost use Rattle.hint_reading.specs.Meaning as meaning;
ghost use Rattle.hint_texts.specs.declared.hints.Head.TheVariants as head;
ghost use Rattle.hint_reading.specs.Code.Parts.{ReadsContract, ReadsLoop, ReadsItem, ReadsAll, funcs_in, seen_parts};

use crate::clauses::{Role, contract_in, facts_in};
use crate::demands::{check_contract, check_invariants};
use crate::subjects::{forms_of, named};
use c_lang::{Func, Name};
use hint_texts::{Clause, Fault, Head, Item};
use loop_invariants::{Allowed, Contract, Hints, LoopInvariants};
use name_tables::ProgramNames;
use sqlite_items::Items;
use std::alloc::{AllocError, Global};

/// The contracts and invariants of the items that were read.
pub(crate) struct Parts {
    pub(crate) contracts: Items<(Name, Contract)>,
    pub(crate) loops: Items<LoopInvariants>,
}

// By hand, so that a proof has one step for both.
impl Drop for Parts {
    fn drop(self) {
        let Parts {
            contracts: _contracts,
            loops: _loops,
        } = self;
    }
}

impl Parts {
    /// The hints that they are, where each fact binds no number but the one of the base `$`.
    pub(crate) fn into_hints(self) -> Hints
        requires { HintsBind (seen_parts self) }
        ensures { result ≡ seen_parts self }
    {
        let Parts { contracts, loops } = self;
        Hints::new(contracts, loops)
    }
}

fn has_contract(parts: &Parts, name: &Name) -> bool
    ensures { result ≡ spec.has_contract (seen_parts parts.now) name.now }
{
    parts
        .contracts
        .as_slice()
        .iter()
        .any(|entry| entry.0 == *name)
}

fn has_loop(parts: &Parts, func: &Name, number: u32) -> bool
    ensures { result ≡ spec.has_loop (seen_parts parts.now) func.now number }
{
    parts
        .loops
        .as_slice()
        .iter()
        .any(|entry| entry.number == number && entry.func == *func)
}

fn none_has_contract(parts: &Parts, funcs: &[&Func]) -> bool
    ensures { result ≡ list_all (λ (f : Bor FuncData). not (spec.has_contract (seen_parts parts.now) f.now.name)) funcs.now }
{
    funcs.iter().all(|func| !has_contract(parts, &func.name))
}

// Whether there is such a function, and none of them has a contract yet.
fn are_new(parts: &Parts, funcs: &[&Func]) -> bool
    ensures { result ≡ spec.are_new (seen_parts parts.now) (funcs_in funcs.now) }
{
    !funcs.is_empty() && none_has_contract(parts, funcs)
}

fn put_contract(
    alloc: Global,
    contracts: &mut Items<(Name, Contract)>,
    func: &Func,
    clauses: &[Clause],
) -> Result<(), AllocError>
    ensures { OnOk result (contracts.new ≡ contracts.old ++ ((func.now.name, meaning.contract_in clauses.now) ∷ [])) }
{
    let name = func.name.copy(alloc)?;
    contracts.push((name, contract_in(alloc, clauses)?))
}

// Puts the contract of each of these functions behind the others.
fn put_contracts(
    alloc: Global,
    contracts: &mut Items<(Name, Contract)>,
    funcs: &[&Func],
    clauses: &[Clause],
) -> Result<(), AllocError>
    ensures { OnOk result (contracts.new
        ≡ contracts.old ++ map (λ (f : FuncData). (f.name, meaning.contract_in clauses.now)) (funcs_in funcs.now)) }
{
    for func in funcs {
        put_contract(alloc, contracts, func, clauses)?;
    }
    Ok(())
}

fn put_loop(
    alloc: Global,
    loops: &mut Items<LoopInvariants>,
    func: &Name,
    number: u32,
    clauses: &[Clause],
) -> Result<(), AllocError>
    ensures { OnOk result (loops.new ≡ loops.old ++ meaning.loops_under (head.Loop func.now number) clauses.now) }
{
    let func = func.copy(alloc)?;
    loops.push(LoopInvariants {
        func,
        number,
        facts: facts_in(alloc, Role::Invariants, clauses)?,
    })
}

// An item that gives contracts of these functions.
fn read_contract(
    alloc: Global,
    names: &ProgramNames<'_>,
    parts: &mut Parts,
    funcs: &[&Func],
    line: u32,
    clauses: &[Clause],
) -> Result<(), Fault>
    ensures { ReadsContract names.now (seen_parts parts.old) (funcs_in funcs.now) line clauses.now (seen_parts parts.new) result }
{
    if !are_new(parts, funcs) {
        return Err(Fault::NoText(line));
    }
    check_contract(alloc, names, funcs, clauses)?;
    put_contracts(alloc, &mut parts.contracts, funcs, clauses)?;
    Ok(())
}

// An item that gives the invariants of a loop.
fn read_loop(
    alloc: Global,
    names: &ProgramNames<'_>,
    parts: &mut Parts,
    func: &Name,
    number: u32,
    line: u32,
    clauses: &[Clause],
) -> Result<(), Fault>
    ensures { ReadsLoop names.now (seen_parts parts.old) func.now number line clauses.now (seen_parts parts.new) result }
{
    let Some(allowed) = Allowed::in_loop(alloc, names, func, number)? else {
        return Err(Fault::NoText(line));
    };
    if has_loop(parts, func, number) {
        return Err(Fault::NoText(line));
    }
    check_invariants(&allowed, clauses)?;
    put_loop(alloc, &mut parts.loops, func, number, clauses)?;
    Ok(())
}

fn read_item(
    alloc: Global,
    names: &ProgramNames<'_>,
    parts: &mut Parts,
    item: &Item,
) -> Result<(), Fault>
    ensures { ReadsItem names.now (seen_parts parts.old) item.now (seen_parts parts.new) result }
{
    let clauses = item.clauses.as_slice();
    match &item.head {
        Head::Both(name) => {
            let funcs = forms_of(alloc, names, name)?;
            read_contract(alloc, names, parts, &funcs, item.line, clauses)
        }
        Head::At(name) => {
            let funcs = named(alloc, names, name)?;
            read_contract(alloc, names, parts, &funcs, item.line, clauses)
        }
        Head::Loop(func, number) => {
            read_loop(alloc, names, parts, func, *number, item.line, clauses)
        }
    }
}

/// The contracts and invariants that the items are. Errors: want of memory, and the line of the first thing that is asked of them
/// and isn't so.
pub(crate) fn parts_of(
    alloc: Global,
    names: &ProgramNames<'_>,
    items: &[Item],
) -> Result<Parts, Fault>
    ensures { ReadsAll names.now items.now result }
{
    let mut parts = Parts {
        contracts: Items::new(alloc),
        loops: Items::new(alloc),
    };
    for item in items {
        match read_item(alloc, names, &mut parts, item) {
            Ok(()) => {}
            Err(fault) => return Err(fault),
        }
    }
    Ok(parts)
}

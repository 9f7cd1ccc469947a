//! Copies of hints. The only error of each function is want of memory.

ghost use Rattle.std.specs.Prelude.{◌≡◌, ◌++◌, IfOk, OnOk};

use crate::hints::{Contract, Hints, LoopInvariants};
use c_lang::Name;
use sqlite_items::Items;
use std::alloc::{AllocError, Global};
use terms::Fact;

// A copy of each fact, behind what stands there.
fn put_facts(alloc: Global, out: &mut Vec<Fact>, facts: &[Fact]) -> Result<(), AllocError>
    ensures { OnOk result (out.new.items ≡ out.old.items ++ facts.now) }
{
    for fact in facts {
        out.push(fact.copy(alloc)?)?;
    }
    Ok(())
}

fn copied_facts(alloc: Global, facts: &[Fact]) -> Result<Items<Fact>, AllocError>
    ensures { IfOk result (λ made. made ≡ facts.now) }
{
    let mut made = Vec::new(alloc);
    put_facts(alloc, &mut made, facts)?;
    Ok(Items::from_vec(made))
}

// A copy of each name, behind what stands there.
fn put_names(alloc: Global, out: &mut Vec<Name>, names: &[Name]) -> Result<(), AllocError>
    ensures { OnOk result (out.new.items ≡ out.old.items ++ names.now) }
{
    for name in names {
        out.push(name.copy(alloc)?)?;
    }
    Ok(())
}

fn copied_names(alloc: Global, names: &[Name]) -> Result<Items<Name>, AllocError>
    ensures { IfOk result (λ made. made ≡ names.now) }
{
    let mut made = Vec::new(alloc);
    put_names(alloc, &mut made, names)?;
    Ok(Items::from_vec(made))
}

fn copied_list(
    alloc: Global,
    listed: &Option<Items<Name>>,
) -> Result<Option<Items<Name>>, AllocError>
    ensures { IfOk result (λ made. made ≡ listed.now) }
{
    match listed {
        None => Ok(None),
        Some(names) => Ok(Some(copied_names(alloc, names.as_slice())?)),
    }
}

impl Contract {
    fn copy(&self, alloc: Global) -> Result<Contract, AllocError>
        ensures { IfOk result (λ made. made ≡ self.now) }
    {
        let needs = copied_facts(alloc, self.needs.as_slice())?;
        let promises = copied_facts(alloc, self.promises.as_slice())?;
        Ok(Contract {
            needs,
            promises,
            assigns: copied_list(alloc, &self.assigns)?,
        })
    }
}

impl LoopInvariants {
    pub(crate) fn copy(&self, alloc: Global) -> Result<LoopInvariants, AllocError>
        ensures { IfOk result (λ made. made ≡ self.now) }
    {
        let func = self.func.copy(alloc)?;
        Ok(LoopInvariants {
            func,
            number: self.number,
            facts: copied_facts(alloc, self.facts.as_slice())?,
        })
    }
}

fn copied_entry(
    alloc: Global,
    name: &Name,
    contract: &Contract,
) -> Result<(Name, Contract), AllocError>
    ensures { IfOk result (λ made. (made.0 ≡ name.now) × (made.1 ≡ contract.now)) }
{
    let name = name.copy(alloc)?;
    Ok((name, contract.copy(alloc)?))
}

fn copied_contracts(
    alloc: Global,
    contracts: &[(Name, Contract)],
) -> Result<Items<(Name, Contract)>, AllocError>
    ensures { IfOk result (λ made. made ≡ contracts.now) }
{
    let mut made = Vec::new(alloc);
    for entry in contracts {
        made.push(copied_entry(alloc, &entry.0, &entry.1)?)?;
    }
    Ok(Items::from_vec(made))
}

fn copied_loops(
    alloc: Global,
    loops: &[LoopInvariants],
) -> Result<Items<LoopInvariants>, AllocError>
    ensures { IfOk result (λ made. made ≡ loops.now) }
{
    let mut made = Vec::new(alloc);
    for entry in loops {
        made.push(entry.copy(alloc)?)?;
    }
    Ok(Items::from_vec(made))
}

impl Hints {
    /// Equal hints, since `clone` could not say that they are. The only error is want of memory.
    pub fn copy(&self, alloc: Global) -> Result<Hints, AllocError>
        ensures { IfOk result (λ made. made ≡ self.now) }
    {
        let contracts = copied_contracts(alloc, self.contracts.as_slice())?;
        Ok(Hints {
            contracts,
            loops: copied_loops(alloc, self.loops.as_slice())?,
        })
    }
}

//! Invariants that are added to hints.

ghost use Rattle.std.specs.Prelude.{◌≡◌, ◌++◌, ◌∷◌, [], ◌≤◌, length, IfOk, OnOk, OnErr};
ghost use Rattle.std.specs.List.{position_or_len};
ghost use Rattle.loop_invariants.specs.Adding as spec;
ghost use Rattle.loop_invariants.specs.Fitting.{Fit};

use crate::clauses::Allowed;
use crate::hints::{Hints, LoopInvariants};
use c_lang::Name;
use c_types::Typed;
use name_tables::ProgramNames;
use sqlite_items::Items;
use std::alloc::{AllocError, Global};
use terms::Fact;

/// Whether the function has a loop of this number at which the fact may stand. The only error is want of memory.
fn may_be_added(
    alloc: Global,
    names: &ProgramNames<'_>,
    func: &Name,
    number: u32,
    fact: &Fact,
) -> Result<bool, AllocError>
    ensures { IfOk result (λ may. may ≡ spec.may_be_added names.now func.now number fact.now) }
{
    match Allowed::in_loop(alloc, names, func, number)? {
        None => Ok(false),
        Some(allowed) => Ok(allowed.fact(fact)),
    }
}

fn is_of(entry: &LoopInvariants, func: &Name, number: u32) -> bool
    ensures { result ≡ spec.is_of func.now number entry.now }
{
    entry.number == number && entry.func == *func
}

// How many entries stand before the first one of that loop.
fn place_of(loops: &[LoopInvariants], func: &Name, number: u32) -> usize
    ensures value { result ≡ position_or_len (spec.is_of func.now number) loops.now }
    ensures within { result ≤ length loops.now }
{
    let mut at = 0;
    while at < loops.len() && !is_of(&loops[at], func, number) {
        at += 1;
    }
    at
}

// The loop's entry with a fact behind those that it has.
fn with_fact(
    alloc: Global,
    entry: &LoopInvariants,
    fact: Fact,
) -> Result<LoopInvariants, AllocError>
    ensures { IfOk result (λ made. made ≡ record entry.now { facts = entry.now.facts ++ (fact ∷ []) }) }
{
    let mut made = entry.copy(alloc)?;
    made.facts.push(fact)?;
    Ok(made)
}

// An entry with this fact alone.
fn with_one(
    alloc: Global,
    func: &Name,
    number: u32,
    fact: Fact,
) -> Result<LoopInvariants, AllocError>
    ensures { IfOk result (λ made. made ≡ record { func = func.now; number = number; facts = fact ∷ [] }) }
{
    let mut facts = Items::new(alloc);
    facts.push(fact)?;
    Ok(LoopInvariants {
        func: func.copy(alloc)?,
        number,
        facts,
    })
}

// The entry of the loop is made beside the one that is there, so that nothing has changed where memory runs out.
fn put_invariant(
    alloc: Global,
    loops: &mut Items<LoopInvariants>,
    func: &Name,
    number: u32,
    fact: Fact,
) -> Result<(), AllocError>
    ensures put { OnOk result (loops.new ≡ spec.with_invariant loops.old func.now number fact) }
    ensures kept { OnErr result (loops.new ≡ loops.old) }
{
    let at = place_of(loops.as_slice(), func, number);
    if at < loops.len() {
        let made = with_fact(alloc, &loops.as_slice()[at], fact)?;
        loops.set(at, made);
        Ok(())
    } else {
        loops.push(with_one(alloc, func, number, fact)?)
    }
}

impl Hints {
    /// Adds an invariant to the loop of this number of the function with this name, behind those that it has. The
    /// answer is false exactly where the program has no such loop, or the fact may not stand there; then the hints
    /// are as before. The only error is want of memory, and then they are as before, too.
    pub fn add(
        &mut self,
        alloc: Global,
        program: &Typed,
        func: &Name,
        number: u32,
        fact: Fact,
    ) -> Result<bool, AllocError>
        ensures test { IfOk result (λ done. done ≡ spec.may_be_added program.now.program func.now number fact) }
        ensures change { IfOk result (λ done. self.new ≡ spec.added_if done self.old func.now number fact) }
        ensures kept { OnErr result (self.new ≡ self.old) }
        // Hints that fit the program still do.
        ensures fit { IfOk result (λ _. Fit program.now.program self.old → Fit program.now.program self.new) }
    {
        let names = ProgramNames::new(alloc, program.program())?;
        if !may_be_added(alloc, &names, func, number, &fact)? {
            return Ok(false);
        }
        put_invariant(alloc, &mut self.loops, func, number, fact)?;
        Ok(true)
    }
}

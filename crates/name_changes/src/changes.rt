ghost use Rattle.std.specs.Prelude.{◌≡◌, [], ◌∷◌, map, IfOk};
ghost use Rattle.c_lang.specs.declared.program.GlobalVar.{GlobalVar};
ghost use Rattle.terms.specs.Trees.{name, array, stored};
ghost use Rattle.expression_conditions.specs.Meanings.{current};
ghost use Rattle.weakest_preconditions.specs.Changing.{entry_values, setting, storing, passing, renewing, entering};
ghost use Rattle.loop_invariants.specs.EntryNames.{parameter_at_entry, global_at_entry};

use crate::names::{current, global_at_entry, parameter_at_entry};
use c_lang::{Func, GlobalVar, Kind, Name, Program};
use sqlite_items::Items;
use std::alloc::{AllocError, Global};
use terms::{ArrayTerm, Changes, Sym, Term};

// One name as a number is replaced.
fn one_number(alloc: Global, replaced: Sym, value: &Term) -> Result<Changes, AllocError>
    ensures { IfOk result (λ made. made ≡ record { numbers = (replaced, value.now) ∷ []; arrays = [] }) }
{
    let mut pairs = Vec::new(alloc);
    pairs.push((replaced, value.copy(alloc)?))?;
    Ok(Changes {
        numbers: Items::from_vec(pairs),
        arrays: Items::new(alloc),
    })
}

/// The name's current value is the given one. The only error is want of memory.
pub fn setting(alloc: Global, name: &Name, value: &Term) -> Result<Changes, AllocError>
    ensures { IfOk result (λ made. made ≡ setting name.now value.now) }
{
    let name = current(alloc, name)?;
    one_number(alloc, name, value)
}

// The current array with a value stored at an index.
fn stored(alloc: Global, base: &Name, index: &Term, value: &Term) -> Result<ArrayTerm, AllocError>
    ensures { IfOk result (λ made. made ≡ stored (array (current base.now)) index.now value.now) }
{
    let old = ArrayTerm::base(alloc, current(alloc, base)?)?;
    ArrayTerm::store(old, index.copy(alloc)?, value.copy(alloc)?)
}

/// The current array has the value at the index. The only error is want of memory.
pub fn storing(
    alloc: Global,
    base: &Name,
    index: &Term,
    value: &Term,
) -> Result<Changes, AllocError>
    ensures { IfOk result (λ made. made ≡ storing base.now index.now value.now) }
{
    let by = stored(alloc, base, index, value)?;
    let mut pairs = Vec::new(alloc);
    pairs.push((current(alloc, base)?, by))?;
    Ok(Changes {
        numbers: Items::new(alloc),
        arrays: Items::from_vec(pairs),
    })
}

// The base's current value is the fresh name, as a number.
fn renewed_number(alloc: Global, fresh: &Sym) -> Result<(Sym, Term), AllocError>
    ensures { IfOk result (λ made. made ≡ (current fresh.now.base, name fresh.now)) }
{
    let by = Term::name(alloc, fresh.copy(alloc)?)?;
    Ok((current(alloc, &fresh.base)?, by))
}

// The base's current value is the fresh name, as an array.
fn renewed_array(alloc: Global, fresh: &Sym) -> Result<(Sym, ArrayTerm), AllocError>
    ensures { IfOk result (λ made. made ≡ (current fresh.now.base, array fresh.now)) }
{
    let by = ArrayTerm::base(alloc, fresh.copy(alloc)?)?;
    Ok((current(alloc, &fresh.base)?, by))
}

pub(crate) fn renewed_numbers(alloc: Global, fresh: &[Sym]) -> Result<Vec<(Sym, Term)>, AllocError>
    ensures { IfOk result (λ made. made.items ≡ map (λ x. (current x.base, name x)) fresh.now) }
{
    let mut pairs = Vec::new(alloc);
    for symbol in fresh {
        pairs.push(renewed_number(alloc, symbol)?)?;
    }
    Ok(pairs)
}

pub(crate) fn renewed_arrays(
    alloc: Global,
    fresh: &[Sym],
) -> Result<Vec<(Sym, ArrayTerm)>, AllocError>
    ensures { IfOk result (λ made. made.items ≡ map (λ x. (current x.base, array x)) fresh.now) }
{
    let mut pairs = Vec::new(alloc);
    for symbol in fresh {
        pairs.push(renewed_array(alloc, symbol)?)?;
    }
    Ok(pairs)
}

/// Each of these names for the current value of its base. The only error is want of memory.
pub fn renewing(alloc: Global, fresh: &[Sym]) -> Result<Changes, AllocError>
    ensures { IfOk result (λ made. made ≡ renewing fresh.now) }
{
    let numbers = Items::from_vec(renewed_numbers(alloc, fresh)?);
    Ok(Changes {
        numbers,
        arrays: Items::from_vec(renewed_arrays(alloc, fresh)?),
    })
}

// A parameter at entry has this value.
fn passed(alloc: Global, number: usize, value: &Term) -> Result<(Sym, Term), AllocError>
    ensures { IfOk result (λ made. made ≡ (parameter_at_entry number, value.now)) }
{
    let value = value.copy(alloc)?;
    Ok((parameter_at_entry(alloc, number)?, value))
}

pub(crate) fn passed_values(alloc: Global, args: &[Term]) -> Result<Vec<(Sym, Term)>, AllocError>
    ensures { IfOk result (λ made. made.items ≡ entry_values 1 args.now) }
{
    let mut pairs = Vec::new(alloc);
    let mut done = 0;
    while done < args.len() {
        pairs.push(passed(alloc, done + 1, &args[done])?)?;
        done += 1;
    }
    Ok(pairs)
}

/// The parameters at entry have these values. The only error is want of memory.
pub fn passing(alloc: Global, args: &[Term]) -> Result<Changes, AllocError>
    ensures { IfOk result (λ made. made ≡ passing args.now) }
{
    Ok(Changes {
        numbers: Items::from_vec(passed_values(alloc, args)?),
        arrays: Items::new(alloc),
    })
}

// A global at entry is what it is now, as a number.
fn entered_number(alloc: Global, global: &Name) -> Result<(Sym, Term), AllocError>
    ensures { IfOk result (λ made. made ≡ (global_at_entry global.now, name (current global.now))) }
{
    let value = Term::name(alloc, current(alloc, global)?)?;
    Ok((global_at_entry(alloc, global)?, value))
}

// A global at entry is what it is now, as an array.
fn entered_array(alloc: Global, global: &Name) -> Result<(Sym, ArrayTerm), AllocError>
    ensures { IfOk result (λ made. made ≡ (global_at_entry global.now, array (current global.now))) }
{
    let value = ArrayTerm::base(alloc, current(alloc, global)?)?;
    Ok((global_at_entry(alloc, global)?, value))
}

pub(crate) fn entered_numbers(
    alloc: Global,
    globals: &[GlobalVar],
) -> Result<Vec<(Sym, Term)>, AllocError>
    ensures { IfOk result (λ made. made.items
        ≡ map (λ g. (global_at_entry g, name (current g))) (map (λ (d : GlobalVar). d.name) globals.now)) }
{
    let mut pairs = Vec::new(alloc);
    for global in globals {
        pairs.push(entered_number(alloc, &global.name)?)?;
    }
    Ok(pairs)
}

pub(crate) fn entered_arrays(
    alloc: Global,
    globals: &[GlobalVar],
) -> Result<Vec<(Sym, ArrayTerm)>, AllocError>
    ensures { IfOk result (λ made. made.items
        ≡ map (λ g. (global_at_entry g, array (current g))) (map (λ (d : GlobalVar). d.name) globals.now)) }
{
    let mut pairs = Vec::new(alloc);
    for global in globals {
        pairs.push(entered_array(alloc, &global.name)?)?;
    }
    Ok(pairs)
}

// The current value of a parameter, as its value at entry.
fn own_value(alloc: Global, number: usize, param: &Name) -> Result<(Sym, Term), AllocError>
    ensures { IfOk result (λ made. made ≡ (parameter_at_entry number, name (current param.now))) }
{
    let value = Term::name(alloc, current(alloc, param)?)?;
    Ok((parameter_at_entry(alloc, number)?, value))
}

fn own_values(alloc: Global, params: &[(Kind, Name)]) -> Result<Vec<(Sym, Term)>, AllocError>
    ensures { IfOk result (λ made. made.items
        ≡ entry_values 1 (map (λ x. name (current x)) (map (λ p. p.1) params.now))) }
{
    let mut pairs = Vec::new(alloc);
    let mut done = 0;
    while done < params.len() {
        pairs.push(own_value(alloc, done + 1, &params[done].1)?)?;
        done += 1;
    }
    Ok(pairs)
}

/// A body begins: a global and a parameter at entry are what they are now. The only error is want of memory.
pub fn entering(alloc: Global, program: &Program, func: &Func) -> Result<Changes, AllocError>
    ensures { IfOk result (λ made. made
        ≡ entering (map (λ g. g.name) program.now.globals) (map (λ p. p.1) func.now.params)) }
{
    let globals = program.globals.as_slice();
    let mut numbers = entered_numbers(alloc, globals)?;
    numbers.append(&mut own_values(alloc, func.params.as_slice())?)?;
    let numbers = Items::from_vec(numbers);
    Ok(Changes {
        numbers,
        arrays: Items::from_vec(entered_arrays(alloc, globals)?),
    })
}

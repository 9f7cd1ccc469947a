ghost use Rattle.std.specs.Prelude.{◌≡◌, false, bytes_eq, if◌then◌else◌, [], ◌∷◌, ◌++◌, length, slice_get, IfSome, OnOk};
ghost use Rattle.c_lang.specs.Names.{Bytes};
ghost use Rattle.symbolic_state.specs.Code.Bindings.{values_of, bound};
ghost use Rattle.symbolic_state.specs.Code.Values.{bound_by, unbound_by, numbers_of, arrays_of, pair_of, as_numbers, as_arrays};
ghost use Rattle.std.specs.Option.{option_copied};
ghost use Rattle.terms.specs.Symbols.{same_sym};
ghost use Rattle.terms.specs.Trees.{name};
ghost use Rattle.loop_invariants.specs.EntryNames as entry;
ghost use Rattle.symbolic_state.specs.declared.step.Step.TheVariants as step;

use crate::Step;
use crate::bindings::{Binding, Bindings};
use c_lang::Name;
use std::alloc::{AllocError, Global};
use terms::{ArrayTerm, Changes, Sym, Term, TermView};

// Each number of a step's pairs gets its value.
pub(crate) fn bind_numbers(
    values: &mut Bindings,
    alloc: Global,
    step: usize,
    pairs: &[(Sym, Term)],
) -> Result<(), AllocError>
    ensures { OnOk result ((x : Bytes) →
        values_of values.new x ≡ bound_by step 0 pairs.now x (values_of values.old x)) }
{
    let mut pair = 0;
    while pair < pairs.len() {
        let binding = Binding {
            step,
            source: step,
            pair,
        };
        values.bind(alloc, &pairs[pair].0.base, binding)?;
        pair += 1;
    }
    Ok(())
}

// Each array of a step's pairs gets its value.
pub(crate) fn bind_arrays(
    values: &mut Bindings,
    alloc: Global,
    step: usize,
    pairs: &[(Sym, ArrayTerm)],
) -> Result<(), AllocError>
    ensures { OnOk result ((x : Bytes) →
        values_of values.new x ≡ bound_by step 0 pairs.now x (values_of values.old x)) }
{
    let mut pair = 0;
    while pair < pairs.len() {
        let binding = Binding {
            step,
            source: step,
            pair,
        };
        values.bind(alloc, &pairs[pair].0.base, binding)?;
        pair += 1;
    }
    Ok(())
}

// Takes the step's values of numbers away.
pub(crate) fn unbind_numbers(values: &mut Bindings, step: usize, pairs: &[(Sym, Term)])
    ensures { (x : Bytes) → values_of values.new x ≡ unbound_by step pairs.now x (values_of values.old x) }
{
    for pair in pairs {
        values.unbind(&pair.0.base, step);
    }
}

// Takes the step's values of arrays away.
pub(crate) fn unbind_arrays(values: &mut Bindings, step: usize, pairs: &[(Sym, ArrayTerm)])
    ensures { (x : Bytes) → values_of values.new x ≡ unbound_by step pairs.now x (values_of values.old x) }
{
    for pair in pairs {
        values.unbind(&pair.0.base, step);
    }
}

// A step more, in which names are replaced, with its values.
pub(crate) fn add_changes(
    alloc: Global,
    steps: &mut Vec<Step>,
    numbers: &mut Bindings,
    arrays: &mut Bindings,
    changes: Changes,
) -> Result<(), AllocError>
    ensures steps { OnOk result (steps.new.items ≡ steps.old.items ++ (step.Replaces changes ∷ [])) }
    ensures numbers { OnOk result ((x : Bytes) →
        values_of numbers.new x ≡ bound_by (length steps.old.items) 0 changes.numbers x (values_of numbers.old x)) }
    ensures arrays { OnOk result ((x : Bytes) →
        values_of arrays.new x ≡ bound_by (length steps.old.items) 0 changes.arrays x (values_of arrays.old x)) }
{
    let step = steps.len();
    bind_numbers(numbers, alloc, step, changes.numbers.as_slice())?;
    bind_arrays(arrays, alloc, step, changes.arrays.as_slice())?;
    steps.push(Step::Replaces(changes))?;
    Ok(())
}

// Takes the values of the step with this number away.
pub(crate) fn forget(step: &Step, number: usize, numbers: &mut Bindings, arrays: &mut Bindings)
    ensures numbers { (x : Bytes) →
        values_of numbers.new x ≡ unbound_by number (numbers_of step.now) x (values_of numbers.old x) }
    ensures arrays { (x : Bytes) →
        values_of arrays.new x ≡ unbound_by number (arrays_of step.now) x (values_of arrays.old x) }
{
    match step {
        Step::Replaces(changes) => {
            unbind_numbers(numbers, number, changes.numbers.as_slice());
            unbind_arrays(arrays, number, changes.arrays.as_slice());
        }
        Step::Assumes(_) => {}
    }
}

// Whether the name is the one that a fact binds.
pub(crate) fn is_bound(symbol: &Sym) -> bool
    ensures { result ≡ same_sym symbol.now entry.bound }
{
    symbol.count == 0 && symbol.base.as_bytes() == b"$".as_slice()
}

// The current value that the term is, if it is one, and isn't the name that a fact binds.
pub(crate) fn current_value(term: &Term) -> Option<&Sym>
    ensures { IfSome result (λ x. (term.now ≡ name x.now) × ((x.now.count ≡ 0) × (same_sym x.now entry.bound ≡ false))) }
{
    let TermView::Of(symbol) = term.view() else {
        return None;
    };
    if symbol.count != 0 {
        return None;
    }
    if is_bound(symbol) {
        return None;
    }
    Some(symbol)
}

// A step more, in which one name's current value is replaced, and this binding is that of its value.
pub(crate) fn add_value(
    alloc: Global,
    steps: &mut Vec<Step>,
    numbers: &mut Bindings,
    name: &Name,
    binding: Binding,
    changes: Changes,
) -> Result<(), AllocError>
    ensures steps { OnOk result (steps.new.items ≡ steps.old.items ++ (step.Replaces changes ∷ [])) }
    ensures numbers { OnOk result ((x : Bytes) → values_of numbers.new x
        ≡ (if bytes_eq name.now x then bound (values_of numbers.old x) binding else values_of numbers.old x)) }
{
    numbers.bind(alloc, name, binding)?;
    steps.push(Step::Replaces(changes))?;
    Ok(())
}

// The number that a pair of a step gives.
fn number_of(step: &Step, pair: usize) -> Option<&Term>
    ensures { option_copied result ≡ as_numbers.pair step.now pair }
{
    match step {
        Step::Replaces(changes) => match changes.numbers.as_slice().get(pair) {
            Some(found) => Some(&found.1),
            None => None,
        },
        Step::Assumes(_) => None,
    }
}

// The array that a pair of a step gives.
fn array_of(step: &Step, pair: usize) -> Option<&ArrayTerm>
    ensures { option_copied result ≡ as_arrays.pair step.now pair }
{
    match step {
        Step::Replaces(changes) => match changes.arrays.as_slice().get(pair) {
            Some(found) => Some(&found.1),
            None => None,
        },
        Step::Assumes(_) => None,
    }
}

// The number that a pair of the step with this number gives.
pub(crate) fn number_at(steps: &[Step], step: usize, pair: usize) -> Option<&Term>
    ensures { option_copied result ≡ pair_of as_numbers (slice_get steps.now step) pair }
{
    match steps.get(step) {
        Some(step) => number_of(step, pair),
        None => None,
    }
}

// The array that a pair of the step with this number gives.
pub(crate) fn array_at(steps: &[Step], step: usize, pair: usize) -> Option<&ArrayTerm>
    ensures { option_copied result ≡ pair_of as_arrays (slice_get steps.now step) pair }
{
    match steps.get(step) {
        Some(step) => array_of(step, pair),
        None => None,
    }
}

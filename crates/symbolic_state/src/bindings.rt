ghost use Rattle.std.specs.Prelude.{◌≡◌, [], if◌then◌else◌, OnOk, IfOk};
ghost use Rattle.std.specs.List.Sorted.{IsNonDecreasingBy};
ghost use Rattle.std.specs.Str.{bytes_eq};
ghost use Rattle.c_lang.specs.Names.{Bytes};
ghost use Rattle.symbolic_state.specs.Code.Bindings.{values_of, bound, ends_at, unbound, latest};

use c_lang::Name;
use indexmap::IndexMap;
use std::alloc::{AllocError, Global};

/// A value of a name: the step that gave it, and the step and the pair of it in which the value stands.
#[derive(Clone, Copy, Debug)]
pub struct Binding {
    pub step: usize,
    pub source: usize,
    pub pair: usize,
}

/// The values that each name got, the first one first.
pub struct Bindings {
    names: IndexMap<Name, Vec<Binding>>,
}

// By hand, so that a proof has one step for each that is dropped.
impl Drop for Bindings {
    fn drop(self) {
        let Bindings { names: _names } = self;
    }
}

// Whether the last value is of this step.
fn ends_at(step: usize, values: &[Binding]) -> bool
    ensures { result ≡ ends_at step values.now }
{
    match values.split_last() {
        Some((last, _)) => last.step == step,
        None => false,
    }
}

// Adds a value, where its step has none yet.
fn add(values: &mut Vec<Binding>, binding: Binding) -> Result<(), AllocError>
    ensures { OnOk result (values.new.items ≡ bound values.old.items binding) }
{
    if ends_at(binding.step, values.as_slice()) {
        return Ok(());
    }
    values.push(binding)?;
    Ok(())
}

// Takes the value of this step away, if the last one is of it.
fn take_away(step: usize, values: &mut Vec<Binding>)
    ensures { values.new.items ≡ unbound step values.old.items }
{
    if ends_at(step, values.as_slice()) {
        values.pop();
    }
}

// One value.
fn one(alloc: Global, binding: Binding) -> Result<Vec<Binding>, AllocError>
    ensures { IfOk result (λ values. values.items ≡ bound [] binding) }
{
    let mut values = Vec::new(alloc);
    values.push(binding)?;
    Ok(values)
}

impl Bindings {
    /// No name has a value. It takes no memory.
    pub fn new(alloc: Global) -> Bindings
        ensures { (x : Bytes) → values_of result x ≡ [] }
    {
        Bindings {
            names: IndexMap::new(alloc),
        }
    }

    /// Gives the name a value, where the value's step has given it none yet.
    pub fn bind(&mut self, alloc: Global, name: &Name, binding: Binding) -> Result<(), AllocError>
        ensures { OnOk result ((x : Bytes) →
            values_of self.new x ≡ (if bytes_eq name.now x then bound (values_of self.old x) binding else values_of self.old x)) }
    {
        match self.names.get_mut(name) {
            Some(values) => add(values, binding),
            None => {
                let values = one(alloc, binding)?;
                self.names.insert(name.copy(alloc)?, values)?;
                Ok(())
            }
        }
    }

    /// Takes the name's value of this step away, if its last value is of it.
    pub fn unbind(&mut self, name: &Name, step: usize)
        ensures { (x : Bytes) →
            values_of self.new x ≡ (if bytes_eq name.now x then unbound step (values_of self.old x) else values_of self.old x) }
    {
        if let Some(values) = self.names.get_mut(name) {
            take_away(step, values);
        }
    }

    /// The last value that the name got before a step.
    pub fn latest(&self, name: &Name, time: usize) -> Option<Binding>
        requires { IsNonDecreasingBy (λ b. b.step) (values_of self.now name.now) }
        ensures { result ≡ latest time (values_of self.now name.now) }
    {
        match self.names.get(name) {
            Some(values) => last_before(values.as_slice(), time),
            None => None,
        }
    }
}

// The last value of a step before this one.
fn last_before(values: &[Binding], time: usize) -> Option<Binding>
    requires { IsNonDecreasingBy (λ b. b.step) values.now }
    ensures { result ≡ latest time values.now }
{
    let count = values.partition_point(|b| b.step < time);
    if count == 0 {
        return None;
    }
    Some(values[count - 1])
}

//! The cells of one home.

ghost use Rattle.std.specs.Prelude.{◌≡◌, ℕ, pos, List, [], IfOk, OnOk, OnErr};
ghost use Rattle.c_lang.specs.Programs.{shape_value};
ghost use Rattle.c_lang.specs.Values.{Num};
ghost use Rattle.plain_run.specs.Steps.{updated};
ghost use Rattle.version_names.specs.Parts.{version_of};
ghost use Rattle.update_semantics.specs.Code.Cells.{values_of, arrays_of, origin_of, HasValues, HasArrays, SetsIn};
ghost use Rattle.update_semantics.specs.Linked.{function_at, provenance_of};
ghost use Rattle.plain_run.specs.Values.{seen_value};
ghost use Rattle.update_semantics.specs.UpdatingRun.{function_meaning};
ghost use Rattle.update_semantics.specs.Worlds.{world_of};

use crate::linked::{Function, Provenance};
use crate::meanings::Meanings;
use c_lang::Shape;
use indexmap::IndexMap;
use plain_run::{Arrays, Value, initial_arrays, set_element};
use std::alloc::{AllocError, Global};
use version_names::Version;

type Values<'p> = IndexMap<&'p [u8], Value<Function<'p>>>;

/// The cells that stand at one home: scalars and pointers, and arrays, by their names.
pub struct Cells<'p> {
    values: Values<'p>,
    arrays: Arrays<'p>,
}

impl Drop for Cells<'_> {
    fn drop(self) {
        let Cells { values, arrays } = self;
        drop(values);
        drop(arrays);
    }
}

fn origin(version: Version) -> Provenance
    ensures { provenance_of result ≡ origin_of version }
{
    match version {
        Version::Old => Provenance::Old,
        Version::New => Provenance::New,
    }
}

// A global's initial value; 0 for an array.
fn shape_value<'p>(
    meanings: &Meanings<'p>,
    version: Version,
    shape: &'p Shape,
) -> Value<Function<'p>>
    ensures { seen_value function_at result ≡ shape_value (function_meaning (world_of meanings.now) (origin_of version)) shape.entry.now }
{
    match shape {
        Shape::Int(number) => Value::Num(*number),
        Shape::Arr(_) => Value::Num(0),
        Shape::Fp(_, None) => Value::Null,
        Shape::Fp(_, Some(name)) => Value::Code(meanings.function(origin(version), name)),
    }
}

// Of several globals with one name the first counts.
fn initial_values<'p>(
    alloc: Global,
    meanings: &Meanings<'p>,
    version: Version,
) -> Result<Values<'p>, AllocError>
    ensures { IfOk result (λ values. HasValues meanings.now version values.entries) }
{
    let globals = meanings.program(version).globals.as_slice();
    let mut values = IndexMap::new(alloc);
    let mut left = globals.len();
    while left > 0 {
        left -= 1;
        let global = &globals[left];
        let value = shape_value(meanings, version, &global.shape);
        values.insert(global.name.as_bytes(), value)?;
    }
    Ok(values)
}

impl<'p> Cells<'p> {
    /// No cells. It takes no memory.
    pub fn empty(alloc: Global) -> Cells<'p>
        ensures values { (x : List ℕ) → values_of result x ≡ Num (pos 0) }
        ensures arrays { (x : List ℕ) → arrays_of result x ≡ [] }
    {
        Cells {
            values: IndexMap::new(alloc),
            arrays: IndexMap::new(alloc),
        }
    }

    /// A version's globals with their initial values. The only error is want of memory.
    pub fn initial(
        alloc: Global,
        meanings: &Meanings<'p>,
        version: Version,
    ) -> Result<Cells<'p>, AllocError>
        ensures values { IfOk result (λ cells. HasValues meanings.now version cells.values.entries) }
        ensures arrays { IfOk result (λ cells. HasArrays meanings.now version cells.arrays.entries) }
    {
        let values = initial_values(alloc, meanings, version)?;
        let arrays = initial_arrays(alloc, meanings.program(version).globals.as_slice())?;
        Ok(Cells { values, arrays })
    }

    /// The value of the cell with this name, and 0 where there is none. It takes no memory.
    pub fn value(&self, name: &[u8]) -> Value<Function<'p>>
        ensures { seen_value function_at result ≡ values_of self.now name.now }
    {
        match self.values.get(name) {
            Some(value) => *value,
            None => Value::Num(0),
        }
    }

    /// The elements of the array with this name, and none where there is none. It takes no memory.
    pub fn elements(&self, name: &[u8]) -> &[i32]
        ensures { result.now ≡ arrays_of self.now name.now }
    {
        match self.arrays.get(name) {
            Some(elements) => elements.as_slice(),
            None => &[],
        }
    }

    /// Writes the cell with this name. The only error is want of memory, and nothing has changed then.
    pub fn put(&mut self, name: &'p [u8], value: Value<Function<'p>>) -> Result<(), AllocError>
        ensures put { OnOk result (values_of self.new ≡ updated (values_of self.old) name.entry.now (seen_value function_at value.entry)) }
        ensures kept { OnErr result (values_of self.new ≡ values_of self.old) }
        ensures arrays { arrays_of self.new ≡ arrays_of self.old }
    {
        self.values.insert(name, value)?;
        Ok(())
    }

    /// Writes an element of the array with this name, where the index is within the bounds, and says
    /// whether it is. It takes no memory.
    pub fn set_element(&mut self, name: &'p [u8], at: i32, element: i32) -> bool
        ensures stores { SetsIn (arrays_of self.old) name.entry.now at element result (arrays_of self.new) }
        ensures values { values_of self.new ≡ values_of self.old }
    {
        match self.arrays.get_mut(name) {
            Some(elements) => set_element(elements, at, element),
            None => false,
        }
    }
}

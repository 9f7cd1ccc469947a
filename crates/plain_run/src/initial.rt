//! The scalars and pointers at the start of a run. Of several with one name the first counts.

ghost use Rattle.std.specs.Prelude.{◌≡◌, IfOk, List, ℕ};
ghost use Rattle.c_lang.specs.Programs.{global_named, initial_value, shape_value};
ghost use Rattle.plain_run.specs.Code.Names.{plain_function, seen_values};
ghost use Rattle.plain_run.specs.Values.{seen_value};

use crate::names::{Values, put};
use crate::value::Value;
use c_lang::{GlobalVar, Name, Shape};
use indexmap::IndexMap;
use std::alloc::{AllocError, Global};

// 0 for an array.
fn shape_value(shape: &Shape) -> Value<&Name>
    ensures { seen_value plain_function result ≡ shape_value (λ f. f) shape.now }
{
    match shape {
        Shape::Int(number) => Value::Num(*number),
        Shape::Arr(_) => Value::Num(0),
        Shape::Fp(_, None) => Value::Null,
        Shape::Fp(_, Some(name)) => Value::Code(name),
    }
}

/// The values of scalars and pointers.
pub(crate) fn initial_values(
    alloc: Global,
    globals: &[GlobalVar],
) -> Result<Values<'_, &Name>, AllocError>
    ensures { IfOk result (λ values. (x : List ℕ) →
        seen_values plain_function values.entries x ≡ initial_value (λ f. f) (global_named globals.now x)) }
{
    let mut values = IndexMap::new(alloc);
    let mut left = globals.len();
    while left > 0 {
        left -= 1;
        let global = &globals[left];
        put(&mut values, &global.name, shape_value(&global.shape))?;
    }
    Ok(values)
}

//! Arrays by their names.

ghost use Rattle.std.specs.Prelude.{◌≡◌, false, if◌then◌else◌, Some, None, IfOk, List, ℕ};
ghost use Rattle.c_lang.specs.Programs.{global_named, initial_elements, shape_elements};
ghost use Rattle.plain_run.specs.Code.Names.{seen_arrays};
ghost use Rattle.plain_run.specs.Steps.{elements_with};

use c_lang::{GlobalVar, Shape};
use indexmap::IndexMap;
use std::alloc::{AllocError, Global};

/// The elements of arrays, by the bytes of their names.
pub type Arrays<'p> = IndexMap<&'p [u8], Vec<i32>>;

fn shape_elements(alloc: Global, shape: &Shape) -> Result<Vec<i32>, AllocError>
    ensures { IfOk result (λ elements. elements.items ≡ shape_elements shape.now) }
{
    match shape {
        Shape::Arr(elements) => Vec::from_slice(alloc, elements.as_slice()),
        Shape::Int(_) | Shape::Fp(_, _) => Ok(Vec::new(alloc)),
    }
}

/// The elements of the globals that are arrays, and none of the others. Of several globals with one name the
/// first counts. The only error is want of memory.
pub fn initial_arrays(alloc: Global, globals: &[GlobalVar]) -> Result<Arrays<'_>, AllocError>
    ensures { IfOk result (λ arrays. (x : List ℕ) →
        seen_arrays arrays.entries x ≡ initial_elements (global_named globals.now x)) }
{
    let mut arrays = IndexMap::new(alloc);
    let mut left = globals.len();
    while left > 0 {
        left -= 1;
        let global = &globals[left];
        let elements = shape_elements(alloc, &global.shape)?;
        arrays.insert(global.name.as_bytes(), elements)?;
    }
    Ok(arrays)
}

/// Writes an element where the index is within the bounds, and says whether it is. It takes no memory.
pub fn set_element(elements: &mut Vec<i32>, at: i32, element: i32) -> bool
    ensures within { elements_with elements.old.items at element ≡
        (if result then Some elements.new.items else None) }
    ensures outside { result ≡ false → elements.new.items ≡ elements.old.items }
{
    if at < 0 {
        return false;
    }
    let at = at as usize;
    if at >= elements.len() {
        return false;
    }
    elements[at] = element;
    true
}

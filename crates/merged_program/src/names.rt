//! The names of a merged program. The only error of each function is want of memory.

ghost use Rattle.std.specs.Prelude.{◌≡◌, IfOk, ℕ};
ghost use Rattle.update_semantics.specs.Linked.{linked_at, function_at, provenance_of};
ghost use Rattle.merged_program.specs.Code.Built as built;
ghost use Rattle.merged_program.specs.Names as spec;

use c_lang::Name;
use itoa::Buffer;
use std::alloc::{AllocError, Global};
use update_semantics::{Function, Linked, Meanings, Provenance};
use version_names::{Origin, Part, merged_bytes};

fn is_foreign(name: &[u8]) -> bool
    ensures { result ≡ spec.is_foreign name.now }
{
    name.starts_with(b"dsu_") && !name.starts_with(b"dsu_t")
}

// Parameters and locals keep their names.
fn kept_name(alloc: Global, name: &[u8]) -> Result<Name, AllocError>
    ensures { IfOk result (λ kept. kept ≡ spec.kept_name name.now) }
{
    if !is_foreign(name) {
        return Name::new(alloc, name);
    }
    let mut bytes = Vec::from_slice(alloc, b"dsu_")?;
    bytes.extend_from_slice(name)?;
    Ok(Name::from_vec(bytes))
}

fn cell_name(alloc: Global, cell: Linked<'_>) -> Result<Name, AllocError>
    ensures { IfOk result (λ name. name ≡ spec.cell_name (linked_at cell.entry)) }
{
    match cell.part {
        Some(Part::Both) => merged_bytes(alloc, Origin::Both, cell.name),
        Some(Part::Old) => merged_bytes(alloc, Origin::Old, cell.name),
        Some(Part::New) => merged_bytes(alloc, Origin::New, cell.name),
        None => kept_name(alloc, cell.name),
    }
}

// A shared function is called by its wrapper.
fn code_name(alloc: Global, function: Function<'_>) -> Result<Name, AllocError>
    ensures { IfOk result (λ name. name ≡ spec.code_name (function_at function.entry)) }
{
    match function {
        Function::Xform(name) => merged_bytes(alloc, Origin::Xform, name),
        Function::Client(name) => merged_bytes(alloc, Origin::Client, name),
        Function::Version(Linked { part, name }) => match part {
            Some(Part::Both) => merged_bytes(alloc, Origin::Any, name),
            Some(Part::Old) => merged_bytes(alloc, Origin::Old, name),
            Some(Part::New) => merged_bytes(alloc, Origin::New, name),
            None => kept_name(alloc, name),
        },
    }
}

/// What the name of a variable becomes that stands in code of this origin.
pub fn variable(
    alloc: Global,
    meanings: &Meanings<'_>,
    origin: Provenance,
    name: &Name,
) -> Result<Name, AllocError>
    ensures { IfOk result (λ merged. merged ≡ built.variable meanings.now (provenance_of origin) name.now) }
{
    cell_name(alloc, meanings.cell(origin, name))
}

/// What the name of a function becomes that stands in code of this origin.
pub fn function(
    alloc: Global,
    meanings: &Meanings<'_>,
    origin: Provenance,
    name: &Name,
) -> Result<Name, AllocError>
    ensures { IfOk result (λ merged. merged ≡ built.function meanings.now (provenance_of origin) name.now) }
{
    code_name(alloc, meanings.function(origin, name))
}

/// A wrapper's parameter with this number.
pub fn parameter(alloc: Global, number: usize) -> Result<Name, AllocError>
    ensures { IfOk result (λ name. name ≡ spec.parameter_name number) }
{
    let mut bytes = Vec::from_slice(alloc, b"dsu_a")?;
    let mut buffer = Buffer::new();
    bytes.extend_from_slice(buffer.format(number).as_bytes())?;
    Ok(Name::from_vec(bytes))
}

//! The functions of which an item speaks.

ghost use Rattle.std.specs.Prelude.{◌≡◌, ◌++◌, IfOk, OnOk};
ghost use Rattle.version_names.specs.Merged as merged;
ghost use Rattle.hint_reading.specs.Subjects as spec;
ghost use Rattle.hint_reading.specs.Code.Parts.{funcs_in};

use c_lang::{Func, Name};
use name_tables::ProgramNames;
use std::alloc::{AllocError, Global};
use version_names::{Origin, merged_name};

// Adds the function of this name, if there is one.
fn add_named<'p>(
    out: &mut Vec<&'p Func>,
    names: &ProgramNames<'p>,
    name: &Name,
) -> Result<(), AllocError>
    ensures { OnOk result (funcs_in out.new.items ≡ funcs_in out.old.items ++ spec.named names.now name.now) }
{
    match names.func(name) {
        None => Ok(()),
        Some(func) => {
            out.push(func)?;
            Ok(())
        }
    }
}

// Adds the function that the merged program has of this origin under the name, if there is one.
fn add_merged<'p>(
    alloc: Global,
    out: &mut Vec<&'p Func>,
    names: &ProgramNames<'p>,
    origin: Origin,
    name: &Name,
) -> Result<(), AllocError>
    ensures { OnOk result (funcs_in out.new.items ≡ funcs_in out.old.items ++ spec.named names.now (merged.merged_name origin name.now)) }
{
    let merged = merged_name(alloc, origin, name)?;
    add_named(out, names, &merged)
}

/// The wrapper of a version's function of this name, its old and its new form, as far as they are there. The only
/// error is want of memory.
pub(crate) fn forms_of<'p>(
    alloc: Global,
    names: &ProgramNames<'p>,
    name: &Name,
) -> Result<Vec<&'p Func>, AllocError>
    ensures { IfOk result (λ funcs. funcs_in funcs.items ≡ spec.forms_of names.now name.now) }
{
    let mut funcs = Vec::new(alloc);
    add_merged(alloc, &mut funcs, names, Origin::Any, name)?;
    add_merged(alloc, &mut funcs, names, Origin::Old, name)?;
    add_merged(alloc, &mut funcs, names, Origin::New, name)?;
    Ok(funcs)
}

/// The function of this name, if there is one. The only error is want of memory.
pub(crate) fn named<'p>(
    alloc: Global,
    names: &ProgramNames<'p>,
    name: &Name,
) -> Result<Vec<&'p Func>, AllocError>
    ensures { IfOk result (λ funcs. funcs_in funcs.items ≡ spec.named names.now name.now) }
{
    let mut funcs = Vec::new(alloc);
    add_named(&mut funcs, names, name)?;
    Ok(funcs)
}

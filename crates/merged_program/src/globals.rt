//! The globals of a merged program. The only error of each function is want of memory.

ghost use Rattle.std.specs.Prelude.{◌≡◌, ◌++◌, IfOk, OnOk, map};
ghost use Rattle.std.specs.List.{filter};
ghost use Rattle.version_names.specs.Home.{Both, same_home};
ghost use Rattle.version_names.specs.Links as links;
ghost use Rattle.version_names.specs.Provenance as origin;
ghost use Rattle.update_semantics.specs.Linked.{home_at, provenance_of};
ghost use Rattle.update_semantics.specs.Worlds.{world_of};
ghost use Rattle.merged_program.specs.Programs as spec;

use crate::names::{function, variable};
use c_lang::{GlobalVar, Name, Pos, Shape, Unit};
use sqlite_items::Items;
use std::alloc::{AllocError, Global};
use update_semantics::{Meanings, Provenance};
use version_names::{Part, Sort2, Version};

// Whether both versions have the name alike.
fn is_shared(part: Option<Part>) -> bool
    ensures { result ≡ same_home (home_at part) Both }
{
    match part {
        Some(Part::Both) => true,
        Some(Part::Old) | Some(Part::New) | None => false,
    }
}

fn is_shared_cell(meanings: &Meanings<'_>, name: &Name) -> bool
    ensures { result ≡ links.is_shared_cell (world_of meanings.now).first (world_of meanings.now).second name.now }
{
    is_shared(meanings.part(Version::New, Sort2::Cell, name))
}

/// Whether the versions share the function.
pub fn is_shared_code(meanings: &Meanings<'_>, name: &Name) -> bool
    ensures { result ≡ links.is_shared_code (world_of meanings.now).first (world_of meanings.now).second name.now }
{
    is_shared(meanings.part(Version::Old, Sort2::Code, name))
}

fn shape(
    alloc: Global,
    meanings: &Meanings<'_>,
    origin: Provenance,
    shape: &Shape,
) -> Result<Shape, AllocError>
    ensures { IfOk result (λ merged. merged ≡ spec.merged_shape (world_of meanings.now) (provenance_of origin) shape.now) }
{
    match shape {
        Shape::Int(z) => Ok(Shape::Int(*z)),
        Shape::Arr(zs) => Ok(Shape::Arr(Items::from_slice(alloc, zs.as_slice())?)),
        Shape::Fp(arity, None) => Ok(Shape::Fp(*arity, None)),
        Shape::Fp(arity, Some(f)) => {
            let f = function(alloc, meanings, origin, f)?;
            Ok(Shape::Fp(*arity, Some(f)))
        }
    }
}

fn global(
    alloc: Global,
    meanings: &Meanings<'_>,
    origin: Provenance,
    global: &GlobalVar,
) -> Result<GlobalVar, AllocError>
    ensures { IfOk result (λ merged. merged ≡ spec.merged_global (world_of meanings.now) (provenance_of origin) global.now) }
{
    let name = variable(alloc, meanings, origin, &global.name)?;
    let shape = shape(alloc, meanings, origin, &global.shape)?;
    Ok(GlobalVar {
        name,
        shape,
        pos: global.pos,
    })
}

// The old version's.
fn add_old(
    alloc: Global,
    meanings: &Meanings<'_>,
    all: &mut Items<GlobalVar>,
    globals: &[GlobalVar],
) -> Result<(), AllocError>
    ensures { OnOk result (all.new ≡ all.old ++ map (spec.merged_global (world_of meanings.now) origin.Old) globals.now) }
{
    for g in globals {
        all.push(global(alloc, meanings, Provenance::Old, g)?)?;
    }
    Ok(())
}

// The new version's that it doesn't share.
fn add_new(
    alloc: Global,
    meanings: &Meanings<'_>,
    all: &mut Items<GlobalVar>,
    globals: &[GlobalVar],
) -> Result<(), AllocError>
    ensures { OnOk result (all.new ≡ all.old ++ map (spec.merged_global (world_of meanings.now) origin.New) (filter (spec.is_own_cell (world_of meanings.now)) globals.now)) }
{
    for g in globals {
        if !is_shared_cell(meanings, &g.name) {
            all.push(global(alloc, meanings, Provenance::New, g)?)?;
        }
    }
    Ok(())
}

fn flag(alloc: Global) -> Result<GlobalVar, AllocError>
    ensures { IfOk result (λ flag. flag ≡ spec.flag) }
{
    let name = Name::new(alloc, b"dsu_now")?;
    Ok(GlobalVar {
        name,
        shape: Shape::Int(0),
        pos: Pos {
            unit: Unit::Merge,
            line: 1,
        },
    })
}

/// The flag, the old version's globals, and those of the new version that aren't shared.
pub fn globals(alloc: Global, meanings: &Meanings<'_>) -> Result<Items<GlobalVar>, AllocError>
    ensures { IfOk result (λ all. all ≡ spec.merged_globals (world_of meanings.now)) }
{
    let mut all = Items::new(alloc);
    all.push(flag(alloc)?)?;
    let old = meanings.program(Version::Old).globals.as_slice();
    add_old(alloc, meanings, &mut all, old)?;
    let new = meanings.program(Version::New).globals.as_slice();
    add_new(alloc, meanings, &mut all, new)?;
    Ok(all)
}

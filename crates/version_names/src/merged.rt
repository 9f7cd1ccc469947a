//! The names of a merged program.

ghost use Rattle.std.specs.Prelude.{◌≡◌, IfOk};
ghost use Rattle.c_lang.specs.Names.{Bytes};
ghost use Rattle.version_names.specs.Merged as spec;
ghost use Rattle.version_names.specs.declared.part.Origin.{Origin};

use crate::part::Origin;
use c_lang::Name;
use std::alloc::{AllocError, Global};

fn prefix(origin: Origin) -> &'static [u8]
    ensures { result.now ≡ spec.prefix origin }
{
    match origin {
        Origin::Both => b"dsu_both_",
        Origin::Any => b"dsu_any_",
        Origin::Old => b"dsu_old_",
        Origin::New => b"dsu_new_",
        Origin::Xform => b"dsu_xform_",
        Origin::Client => b"dsu_client_",
    }
}

/// The merged program's name for a name of this origin. The only error is want of memory.
pub fn merged_name(alloc: Global, origin: Origin, name: &Name) -> Result<Name, AllocError>
    ensures { IfOk result (λ merged. merged ≡ spec.merged_name origin name.now) }
{
    merged_bytes(alloc, origin, name.as_bytes())
}

/// The same for a name that is given by its bytes.
pub fn merged_bytes(alloc: Global, origin: Origin, name: &[u8]) -> Result<Name, AllocError>
    ensures { IfOk result (λ merged. merged ≡ spec.merged_name origin name.now) }
{
    let mut bytes = Vec::from_slice(alloc, prefix(origin))?;
    bytes.extend_from_slice(name)?;
    Ok(Name::from_vec(bytes))
}

/// Two different pairs of origin and name never get one merged name.
pub fn names_are_apart()
    ensures { (o p : Origin) (x y : Bytes) → spec.merged_name o x ≡ spec.merged_name p y → (o ≡ p) × (x ≡ y) }
{}

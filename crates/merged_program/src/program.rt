//! The merged program.

ghost use Rattle.std.specs.Prelude.{◌≡◌, IfOk, map};
ghost use Rattle.update_semantics.specs.Worlds.{IsWorld, world_of};
ghost use Rattle.merged_program.specs.Code.Built as built;
ghost use Rattle.merged_program.specs.Programs as spec;

use crate::functions::funcs;
use crate::globals::globals;
use c_lang::{Func, Program, Proto};
use c_types::functions::kinds_of;
use sqlite_items::Items;
use std::alloc::{AllocError, Global};
use update_semantics::{Meanings, World};

fn declared(alloc: Global, f: &Func) -> Result<Proto, AllocError>
    ensures { IfOk result (λ proto. proto ≡ spec.declared f.now) }
{
    let name = f.name.copy(alloc)?;
    let params = kinds_of(alloc, f.params.as_slice())?;
    Ok(Proto {
        name,
        params,
        gives: f.gives,
        pos: f.pos,
    })
}

// A prototype for each function, in their order.
fn prototypes(alloc: Global, funcs: &[Func]) -> Result<Items<Proto>, AllocError>
    ensures { IfOk result (λ all. all ≡ map spec.declared funcs.now) }
{
    let mut all = Items::new(alloc);
    for f in funcs {
        all.push(declared(alloc, f)?)?;
    }
    Ok(all)
}

// The program with these functions, their prototypes, and the globals of a world.
fn with_funcs(
    alloc: Global,
    meanings: &Meanings<'_>,
    funcs: Items<Func>,
) -> Result<Program, AllocError>
    ensures { IfOk result (λ program. program ≡ built.with_funcs meanings.now funcs) }
{
    let protos = prototypes(alloc, funcs.as_slice())?;
    let globals = globals(alloc, meanings)?;
    Ok(Program {
        globals,
        protos,
        funcs,
        early: Items::new(alloc),
    })
}

fn program_of(alloc: Global, meanings: &Meanings<'_>) -> Result<Program, AllocError>
    ensures { IfOk result (λ program. program ≡ spec.merged_program (world_of meanings.now)) }
{
    let funcs = funcs(alloc, meanings)?;
    with_funcs(alloc, meanings, funcs)
}

/// The program that the versions, the transformer and the client of a world are merged into. The only error is want
/// of memory.
pub fn merged_program(alloc: Global, world: &World) -> Result<Program, AllocError>
    ensures program { IfOk result (λ program. program ≡ spec.merged_program (world_of world.now)) }
    ensures made { IsWorld world.now }
{
    let meanings = Meanings::new(alloc, world)?;
    program_of(alloc, &meanings)
}

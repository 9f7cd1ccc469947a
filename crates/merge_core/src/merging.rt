//! The merge of a world.

ghost use Rattle.std.specs.Prelude.{◌≡◌, ◌↔◌, ℤ, List, IfOk};
ghost use Rattle.c_lang.specs.declared.event.Event.{Event};
ghost use Rattle.merge_printer.specs.Checked.{IsCheckedMerge};
ghost use Rattle.merged_program.specs.Programs.{merged_program};
ghost use Rattle.plain_run.specs.PlainRun.{Obs};
ghost use Rattle.update_semantics.specs.UpdatingRun.{ObsU};
ghost use Rattle.update_semantics.specs.Worlds.{world_of};

use c_lang::Unit;
use c_types::Typed;
use merged_program::merged_program;
use std::alloc::{AllocError, Global};
use update_semantics::World;

/// The program that a world is merged into. It is typed as unit Merge and can be printed, and its
/// observable prefixes, for every list of answers, are exactly those of the old version, or of the client,
/// updated once at most, at a permitted point or at the client's force. The only error is want of memory.
pub fn merge(alloc: Global, world: &World) -> Result<Typed, AllocError>
    ensures program { IfOk result (λ merged. merged.program ≡ merged_program (world_of world.now)) }
    ensures checked { IfOk result (λ merged. IsCheckedMerge merged) }
    ensures shows { IfOk result (λ merged. (answers : List ℤ) (h : List Event) → Obs merged.program answers h ↔ ObsU (world_of world.now) answers h) }
{
    let program = merged_program(alloc, world)?;
    Ok(Typed::new(Unit::Merge, program))
}

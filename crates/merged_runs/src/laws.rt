ghost use Rattle.std.specs.Prelude.{ℤ, List, ◌↔◌};
ghost use Rattle.c_lang.specs.declared.event.Event.{Event};
ghost use Rattle.plain_run.specs.PlainRun.{Obs};
ghost use Rattle.update_semantics.specs.UpdatingRun.{ObsU};
ghost use Rattle.update_semantics.specs.Worlds.{World, IsWorld, world_of};
ghost use Rattle.merged_program.specs.Programs.{merged_program};

/// For every list of answers the merged program of a world shows exactly what the world's updating run
/// shows, of the old version or of the client, which is updated once at most: the same outputs, choices,
/// inputs and faults, up to each step.
pub fn merged_program_shows_the_same()
    ensures { (w : World) → IsWorld w → (answers : List ℤ) (h : List Event) → Obs (merged_program (world_of w)) answers h ↔ ObsU (world_of w) answers h }
{}

ghost use Rattle.std.specs.Prelude.{◌≡◌};
ghost use Rattle.c_lang.specs.declared.unit.Unit.TheVariants.{Merge};
ghost use Rattle.c_types.specs.Plain.{plain};
ghost use Rattle.c_types.specs.Programs.{resolved_program};
ghost use Rattle.c_types.specs.Types.{Types};
ghost use Rattle.merged_program.specs.Programs.{merged_program};
ghost use Rattle.update_semantics.specs.Worlds.{World, IsWorld, world_of};

/// The merged program of a world is typed in unit Merge, in its plain form, and it is the resolved
/// form of this plain form.
pub fn merged_is_typed()
    ensures { (w : World) → IsWorld w → let P = merged_program (world_of w) in Types Merge (plain P) × (resolved_program (plain P) ≡ P) }
{}

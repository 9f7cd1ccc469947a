//! Laws of typed programs.

ghost use Rattle.std.specs.Prelude.{◌≡◌};
ghost use Rattle.c_lang.specs.declared.unit.Unit.{Unit};
ghost use Rattle.c_lang.specs.declared.program.Program.{Program};
ghost use Rattle.c_types.specs.Plain.{plain_program};
ghost use Rattle.c_types.specs.Programs.{resolved_program};
ghost use Rattle.c_types.specs.Types.{Types};

/// A typed program and its resolved form are the same but for what resolution adds. So they have one
/// text and one height.
pub fn resolution_only_adds()
    ensures { (unit : Unit) (program : Program) → Types unit program → plain_program (resolved_program program) ≡ plain_program program }
{}

ghost use Rattle.std.specs.Prelude.{◌≡◌, true, false};
ghost use Rattle.c_lang.specs.Names.{Bytes, is_reserved};
ghost use Rattle.c_lang.specs.declared.unit.Unit.{Unit};
ghost use Rattle.c_lang.specs.declared.program.Program.{Program};
ghost use Rattle.c_lang.specs.Positions.{ProgramHasPositions};
ghost use Rattle.c_grammar.specs.Written.{IsWritten};
ghost use Rattle.c_types.specs.Kept.{TypedProgram, IsKept};
ghost use Rattle.c_types.specs.Types.{Types};
ghost use Rattle.written_laws.specs.Breaks.{BreaksStandInLoops};
ghost use Rattle.written_laws.specs.Destinations.{ResultsGoToLocals, ResultsGoToNoGlobals};
ghost use Rattle.written_laws.specs.Literals.{LiteralsAreInts};
ghost use Rattle.written_laws.specs.SourceNames.{IsName, IsReservedHere, NamesAreWords, begins_with, dollar};
ghost use Rattle.written_laws.specs.Sources.{IsSource};

/// In a program that is written in a unit each `break` stands inside a loop.
pub fn breaks_stand_in_loops()
    ensures { (unit : Unit) (program : Program) → IsWritten unit program → BreaksStandInLoops program }
{}

/// In a program that is written in a unit the result of a call, an input or a choice that goes to
/// a name which stands already goes to a parameter or a local that is declared before. A client's
/// picks are left out: their calls may go to any name.
pub fn results_go_to_locals()
    ensures { (unit : Unit) (program : Program) → IsWritten unit program → ResultsGoToLocals program }
{}

/// So in one that is typed too, no global has the name that the result of a call, an input or a
/// choice goes to.
pub fn results_go_to_no_globals()
    ensures { (unit : Unit) (program : Program) → IsWritten unit program → Types unit program → ResultsGoToNoGlobals program }
{}

/// In a program that is written in a unit each literal is from 0 to 2147483647, and each initial
/// value from -2147483647 to 2147483647.
pub fn literals_are_ints()
    ensures { (unit : Unit) (program : Program) → IsWritten unit program → LiteralsAreInts program }
{}

/// In a program that is written in a unit each name is an identifier that a text of the unit can
/// have, or a temporary of the parser, which is no token. Temporaries are locals, and stand in
/// expressions.
pub fn names_are_words()
    ensures { (unit : Unit) (program : Program) → IsWritten unit program → NamesAreWords unit program }
{}

/// No name that a program of the unit can have begins with `$`.
pub fn no_name_begins_with_a_dollar()
    ensures { (unit : Unit) (name : Bytes) → IsName unit name → begins_with dollar name ≡ false }
{}

/// A name that begins with `dsu_` is one that the unit allows, or a temporary of the parser.
pub fn reserved_names_are_allowed()
    ensures { (unit : Unit) (name : Bytes) → IsName unit name → is_reserved name ≡ true → IsReservedHere unit name }
{}

/// In a typed program, in its resolved form, each `break` stands inside a loop.
pub fn typed_breaks_stand_in_loops()
    ensures { (kept : TypedProgram) → IsKept kept → BreaksStandInLoops kept.program }
{}

/// In a typed program, in its resolved form, no global has the name that the result of a call, a
/// call through a pointer, an input or a choice goes to.
pub fn typed_results_go_to_no_globals()
    ensures { (kept : TypedProgram) → IsKept kept → ResultsGoToNoGlobals kept.program }
{}

/// In a typed program, in its resolved form, each literal is from 0 to 2147483647, and each initial
/// value from -2147483647 to 2147483647.
pub fn typed_literals_are_ints()
    ensures { (kept : TypedProgram) → IsKept kept → LiteralsAreInts kept.program }
{}

/// In a program that is written in a unit of sources each position can be printed: `#line` can give
/// it.
pub fn positions_can_be_printed()
    ensures { (unit : Unit) (program : Program) → IsSource unit → IsWritten unit program → ProgramHasPositions program }
{}

/// So can each position of a typed program of a unit of sources, in its resolved form.
pub fn typed_positions_can_be_printed()
    ensures { (kept : TypedProgram) → IsSource kept.unit → IsKept kept → ProgramHasPositions kept.program }
{}

ghost use Rattle.std.specs.Prelude.{◌≤◌, ℕ, List};
ghost use Rattle.c_lang.specs.Positions.{ProgramHasPositions};
ghost use Rattle.c_lang.specs.declared.unit.Unit.{Unit};
ghost use Rattle.c_lang.specs.declared.program.Program.{Program};
ghost use Rattle.c_grammar.specs.declared.token.Token.{Token};
ghost use Rattle.c_grammar.specs.Grammar.{Gram};
ghost use Rattle.c_types.specs.Plain.{plain};
ghost use Rattle.state_xform.specs.Kept.{IsTransformerOf};
ghost use Rattle.update_semantics.specs.Worlds.{World, IsWorld, world_of};
ghost use Rattle.merged_program.specs.Programs.{merged_program};
ghost use Rattle.merge_printer.specs.Heights.{funcs_height};
ghost use Rattle.merge_printer.specs.Printable.{IsPrintable};

/// A program that was read from tokens of some height is printed no higher: brackets that grouping
/// needs stood in the tokens.
pub fn printed_is_no_higher()
    ensures { (unit : Unit) (deep : ℕ) (tokens : List Token) (program : Program) → Gram unit deep tokens program → funcs_height program.funcs ≤ deep }
{}

/// Each position of a transformer, in its resolved form, can be printed: `#line` can give it.
pub fn transformer_positions_can_be_printed()
    ensures { (first second transformer : Program) → IsTransformerOf first second transformer → ProgramHasPositions transformer }
{}

/// The merged program of a world can be printed: its text is read back as its plain form.
pub fn merged_programs_can_be_printed()
    ensures { (world : World) → IsWorld world → IsPrintable (plain (merged_program (world_of world))) }
{}

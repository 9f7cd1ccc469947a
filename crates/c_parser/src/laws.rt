//! Laws of texts and their programs.

ghost use Rattle.std.specs.Prelude.{◌≡◌, ◌+◌, ◌≤◌, ℕ, List, length};
ghost use Rattle.c_lang.specs.Limits.{height_limit};
ghost use Rattle.c_lang.specs.Names.{Bytes};
ghost use Rattle.c_lang.specs.declared.unit.Unit.{Unit};
ghost use Rattle.c_lang.specs.declared.program.Program.{Program};
ghost use Rattle.c_grammar.specs.declared.token.Token.{Token};
ghost use Rattle.c_grammar.specs.Grammar.{Gram};
ghost use Rattle.c_grammar.specs.Nesting.{IsNested};
ghost use Rattle.c_grammar.specs.Written.{Parses, MayBeWritten, IsWritten};

/// No tokens are two programs, whatever their heights.
pub fn one_program()
    ensures { (unit : Unit) (d e : ℕ) (tokens : List Token) (some other : Program) → Gram unit d tokens some → Gram unit e tokens other → some ≡ other }
{}

/// No text is two programs, whatever their heights.
pub fn one_program_of_text()
    ensures { (unit : Unit) (d e : ℕ) (bytes : Bytes) (some other : Program) → Parses unit d bytes some → Parses unit e bytes other → some ≡ other }
{}

/// The program of a text that is no longer and no higher than its unit allows is written in the unit.
pub fn parsed_is_written()
    ensures { (unit : Unit) (deep : ℕ) (bytes : Bytes) (program : Program) → deep ≤ height_limit unit → MayBeWritten unit (length bytes) → Parses unit deep bytes program → IsWritten unit program }
{}

/// In tokens that are a program no more brackets are open than two past the height of its
/// statements.
pub fn open_brackets_are_few()
    ensures { (unit : Unit) (deep : ℕ) (tokens : List Token) (program : Program) → Gram unit deep tokens program → IsNested (deep + 2) tokens }
{}

//! From a text to its program.

ghost use Rattle.std.specs.Prelude.{◌≡◌, IfOk, MatchResult};
ghost use Rattle.c_lang.specs.declared.program.Program.{Program};
ghost use Rattle.c_lang.specs.declared.refusal.Fail.TheVariants as Fail;
ghost use Rattle.c_grammar.specs.Written.{IsWritten};
ghost use Rattle.c_parser.specs.Texts.{IsProgramText, IsRefusedTextAs};

use crate::parser::parse;
use c_lang::{Fail, Program, Unit, height_limit};
use c_lexer::lex;
use std::alloc::Global;

/// The program of a unit's text, which is no longer and no higher than the unit allows. It is
/// refused as `lex` refuses the text, and else as `parse` refuses the tokens.
pub fn parse_text(alloc: Global, unit: Unit, text: &[u8]) -> Result<Program, Fail>
    ensures answer { MatchResult result (λ program. IsProgramText unit text.now program) (λ fail. IsRefusedTextAs fail unit text.now) }
    // The program is written in the unit.
    ensures written { IfOk result (IsWritten unit) }
    // Unless memory runs out, a text that is a program is accepted, and as this program.
    ensures only { (program : Program) → IsProgramText unit text.now program
        → MatchResult result (λ answer. answer ≡ program) (λ fail. fail ≡ Fail.NoMemory) }
{
    let tokens = lex(alloc, unit, text)?;
    parse(alloc, unit, height_limit(unit), &tokens)
}

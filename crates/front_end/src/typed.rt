//! From a text to its typed program.

ghost use Rattle.std.specs.Prelude.{◌≡◌, IfOk, MatchResult};
ghost use Rattle.c_lang.specs.declared.program.Program.{Program};
ghost use Rattle.front_end.specs.TypedText.{IsTypedText, IsRefusedTextAs};

use c_lang::{Fail, Unit};
use c_parser::parse_text;
use c_types::{Typed, check};
use std::alloc::Global;

/// The typed program of a unit's text. Errors: the first refusal of the text's size and tokens, then of
/// the grammar, then of the types; and want of memory.
pub fn typed_text(alloc: Global, unit: Unit, text: &[u8]) -> Result<Typed, Fail>
    ensures answer { MatchResult result (λ typed. IsTypedText unit text.now typed.program)
        (λ fail. IsRefusedTextAs fail unit text.now) }
    // Unless memory runs out, a text that is a typed program is accepted, and as this program.
    ensures only { (program : Program) → IsTypedText unit text.now program
        → MatchResult result (λ typed. typed.program ≡ program) (λ fail. fail ≡ Fail.NoMemory) }
    ensures checked { IfOk result (λ typed. typed.unit ≡ unit) }
{
    let program = parse_text(alloc, unit, text)?;
    check(alloc, unit, program)
}

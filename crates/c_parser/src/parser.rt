//! The parser's public call.

ghost use Rattle.std.specs.Prelude.{◌≡◌, ◌≤◌, ◌<◌, ℕ, List, All, length, IfOk, MatchResult};
ghost use Rattle.c_lang.specs.Limits.{height_limit};
ghost use Rattle.c_lang.specs.declared.unit.Unit.{Unit};
ghost use Rattle.c_lang.specs.declared.program.Program.{Program};
ghost use Rattle.c_lang.specs.declared.refusal.Fail.TheVariants as Fail;
ghost use Rattle.c_grammar.specs.declared.token.Token.{Token};
ghost use Rattle.c_grammar.specs.Grammar.{Gram};
ghost use Rattle.c_grammar.specs.Parsed.{IsParsed, IsPlace, IsRefusedAs};
ghost use Rattle.c_grammar.specs.Written.{IsGiven, IsWritten};

use crate::brackets::too_deep;
use crate::units::unit_at;
use c_expressions::parse_error::ParseError;
use c_lang::{Fail, Pos, Program, Refusal, Unit, refusal};
use c_lexer::Token;
use std::alloc::Global;

// The position of the token that has `left` tokens behind it, itself counted, or of the last token
// where there is none such.
fn place(unit: Unit, left: usize, tokens: &[Token]) -> Pos
    ensures { IsPlace unit tokens.now result }
{
    let Some(last) = tokens.len().checked_sub(1) else {
        return Pos { unit, line: 1 };
    };
    tokens[tokens.len().saturating_sub(left).min(last)].pos
}

/// The program of a unit's tokens, in which brackets are at most `deep` deep and statements at most
/// `deep` high: 64 for a source, 72 for a merged text.
///
/// It is refused with 5 at the first token at which more than `deep` brackets are open, and else
/// with 3 where no program of this height has the tokens, at the position of the token at which the
/// parser stops: the last one at the end of the text, line 1 of the unit where there is none.
pub fn parse(alloc: Global, unit: Unit, deep: u32, tokens: &[Token]) -> Result<Program, Fail>
    ensures answer { MatchResult result (λ program. IsParsed unit deep tokens.now program) (λ fail. IsRefusedAs fail unit deep tokens.now) }
    // A program of tokens that texts of the unit have is written in the unit, unless it may be too high for it.
    ensures written { deep ≤ height_limit unit → All (IsGiven unit) tokens.now → IfOk result (IsWritten unit) }
    // Unless memory runs out, tokens that are a program are accepted, and as this program.
    ensures only { (program : Program) → IsParsed unit deep tokens.now program
        → MatchResult result (λ answer. answer ≡ program) (λ fail. fail ≡ Fail.NoMemory) }
{
    if let Some(pos) = too_deep(deep, tokens) {
        return Err(Fail::Refused(Refusal::at(refusal::TOO_NESTED, pos)));
    }
    match unit_at(alloc, unit, deep, tokens) {
        Ok(program) => Ok(program),
        Err(ParseError::NoMemory) => Err(Fail::NoMemory),
        Err(ParseError::Syntax(left)) => Err(Fail::Refused(Refusal::at(
            refusal::SYNTAX_ERROR,
            place(unit, left, tokens),
        ))),
    }
}

//! The pieces of a text.

ghost use Rattle.std.specs.Prelude.{◌≡◌};
ghost use Rattle.c_grammar.specs.Pieces as spec;

use crate::token::Word;
use c_lang::{Pos, refusal};

/// What is wrong with a text, in the lexer's sight.
#[derive(Clone, Copy, Debug, PartialEq, Eq)]
pub enum Fault {
    /// No piece begins with this byte.
    BadByte,
    /// Digits, letters, `_` and `.` that begin with a digit and are no number.
    BadNumber,
    /// A `#` that begins its line, and neither an `#include` line nor, in a merged text, a `#line` directive.
    Directive,
    /// A word that begins with `dsu_` and isn't allowed in this unit.
    Reserved,
    /// A comment that isn't closed.
    OpenComment,
}

impl Fault {
    /// The number of the refusal.
    pub fn number(self) -> u8
        ensures { result ≡ spec.fault_number self }
    {
        match self {
            Fault::BadByte => refusal::BAD_BYTE,
            Fault::BadNumber => refusal::BAD_NUMBER,
            Fault::Directive => refusal::BAD_DIRECTIVE,
            Fault::Reserved => refusal::RESERVED_WORD,
            Fault::OpenComment => refusal::OPEN_COMMENT,
        }
    }
}

/// What stands at the front of a text.
#[derive(Debug, Drop)]
pub enum Piece {
    /// White space, a comment or an `#include` line.
    Space,
    Token(Word),
    /// A `#line` directive, with the position that it gives to the next line.
    Position(Pos),
    Fault(Fault),
}

/// Where a piece of a text stands.
#[derive(Clone, Copy, Debug)]
pub struct Place {
    /// How many bytes stand before it.
    pub offset: u32,
    pub pos: Pos,
    /// Whether only spaces and tabs stand before it on its line.
    pub fresh: bool,
}

ghost use Rattle.std.specs.Prelude.{◌≡◌, Some};
ghost use Rattle.c_lang.specs.declared.refusal.Fail.TheVariants.{NoMemory};

use crate::{Name, Pos};
use std::alloc::{AllocError, AllocFailed};
use std::fmt;

/// A byte that begins nothing.
pub const BAD_BYTE: u8 = 1;

/// A run from a digit on that is no number.
pub const BAD_NUMBER: u8 = 2;

/// Tokens that are no program within the height.
pub const SYNTAX_ERROR: u8 = 3;

/// A `#` at the beginning of a line that is no directive of the unit.
pub const BAD_DIRECTIVE: u8 = 4;

/// Too many open brackets.
pub const TOO_NESTED: u8 = 5;

/// A word that begins with `dsu_` and isn't allowed in the unit.
pub const RESERVED_WORD: u8 = 6;

/// A name that is declared already.
pub const DUPLICATE: u8 = 7;

/// A parameter or local with a name that is in scope, or will be.
pub const SHADOWED: u8 = 8;

/// A name that isn't declared or not visible; a prototype without its function.
pub const UNKNOWN: u8 = 9;

/// A kind that doesn't fit its place.
pub const WRONG_KIND: u8 = 10;

/// Another number of arguments than of parameters.
pub const ARGUMENT_COUNT: u8 = 11;

/// A body that can end without the value that it should give.
pub const MISSING_RETURN: u8 = 12;

/// No `int main(void)`, or in a transformer no `void dsu_transform(void)`.
pub const NO_START: u8 = 13;

/// The use of a result that isn't given, or a value returned from a `void` function.
pub const VOID_USE: u8 = 14;

/// A function whose name is no value.
pub const NOT_POINTABLE: u8 = 15;

/// Two points with one number.
pub const POINT_TWICE: u8 = 16;

/// A listed number that is no point's.
pub const NO_SUCH_POINT: u8 = 17;

/// A changed global that the transformer doesn't set on every path.
pub const NOT_COVERED: u8 = 18;

/// An effect or a global of a transformer, or its call of a version's function.
pub const TRANSFORMER_EFFECT: u8 = 19;

/// A client declares a global, or names one of a version.
pub const CLIENT_GLOBAL: u8 = 20;

/// A function that a client may not call or name there, or `dsu_force` or a pick where none may stand.
pub const CLIENT_CALL: u8 = 21;

/// No function of a client can begin a run.
pub const NO_SPEC: u8 = 22;

/// A text that holds no hints for the program.
pub const BAD_HINTS: u8 = 23;

/// A contract that doesn't list a cell which is set under it.
pub const UNLISTED_CELL: u8 = 24;

/// A text that holds no certificates.
pub const BAD_CERTIFICATES: u8 = 25;

/// More conditions than can be kept.
pub const TOO_MANY_CONDITIONS: u8 = 26;

/// A size, a number of cells, elements or parameters past its limit.
pub const PAST_LIMIT: u8 = 27;

/// A comment that isn't closed.
pub const OPEN_COMMENT: u8 = 28;

/// Why an input is refused: the number of the rule, where, and for `NOT_COVERED` the name that is
/// not covered. No other refusal has a name.
#[derive(Debug, Drop)]
pub struct Refusal {
    pub number: u8,
    pub pos: Pos,
    pub name: Option<Name>,
}

impl Refusal {
    ghost use Rattle.c_lang.specs.Refusals.{refused_at};

    /// A refusal that names nothing. It takes no memory.
    pub fn at(number: u8, pos: Pos) -> Refusal
        ensures { result ≡ refused_at number pos }
    {
        Refusal {
            number,
            pos,
            name: None,
        }
    }
}

/// The refusal's printed line, without the line's end: `refused NUMBER UNIT:LINE`, and behind it the
/// name where there is one. A name that is no text can't be shown.
impl fmt::Display for Refusal {
    ghost use Rattle.c_lang.specs.Refusals.{refusal_text};

    ghost output = { λ refusal. Some (refusal_text refusal) };

    fn fmt<W: fmt::Write>(&self, f: &mut fmt::Formatter<W>) -> fmt::Result {
        let pos = self.pos;
        match &self.name {
            None => write!(f, "refused {} {}:{}", self.number, pos.unit, pos.line),
            Some(name) => match str::from_utf8(name.as_bytes()) {
                Ok(name) => write!(
                    f,
                    "refused {} {}:{} {name}",
                    self.number, pos.unit, pos.line
                ),
                Err(_) => Err(fmt::Error),
            },
        }
    }
}

/// Why a call on an input gave nothing.
#[derive(Debug, Drop)]
pub enum Fail {
    NoMemory,
    Refused(Refusal),
}

impl From<AllocError> for Fail {
    ghost from_gives = { λ _ fail. fail ≡ NoMemory };

    fn from(_error: AllocError) -> Fail {
        Fail::NoMemory
    }
}

impl<T: Drop> From<AllocFailed<T>> for Fail {
    ghost from_gives = { λ _ fail. fail ≡ NoMemory };

    fn from(_error: AllocFailed<T>) -> Fail {
        Fail::NoMemory
    }
}

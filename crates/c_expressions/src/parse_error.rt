ghost use Rattle.std.specs.Prelude.{◌≡◌};
ghost use Rattle.c_expressions.specs.declared.parse_error.ParseError.TheVariants.{NoMemory};

use std::alloc::{AllocError, AllocFailed};

/// Why tokens were not read: memory ran out, or no program goes on after the token that has this
/// many behind it, itself counted.
#[derive(Debug, Drop)]
pub enum ParseError {
    NoMemory,
    Syntax(usize),
}

impl From<AllocError> for ParseError {
    ghost from_gives = { λ _ error. error ≡ NoMemory };

    fn from(_error: AllocError) -> ParseError {
        ParseError::NoMemory
    }
}

impl<T: Drop> From<AllocFailed<T>> for ParseError {
    ghost from_gives = { λ _ error. error ≡ NoMemory };

    fn from(_error: AllocFailed<T>) -> ParseError {
        ParseError::NoMemory
    }
}

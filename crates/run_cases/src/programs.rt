//! Typed programs by their texts, and answers as they are printed.

use c_lang::{Fail, Unit};
use c_parser::parse_text;
use c_types::{Typed, check};
use std::alloc::{AllocError, Global};

pub fn typed(alloc: Global, unit: Unit, text: &[u8]) -> Result<Typed, Fail> {
    check(alloc, unit, parse_text(alloc, unit, text)?)
}

/// What was found, or the refusal. The only error is want of memory.
pub fn shown(alloc: Global, answer: Result<String, Fail>) -> Result<String, AllocError> {
    match answer {
        Ok(found) => Ok(found),
        Err(Fail::Refused(why)) => format!(in alloc; "{why}"),
        Err(Fail::NoMemory) => Err(AllocError),
    }
}

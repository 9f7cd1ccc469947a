use std::alloc::{AllocError, AllocFailed};
use std::num::ParseIntError;
use thiserror::Error;

/// Why a case has no answer.
#[derive(Clone, Copy, Debug, Error)]
pub enum CaseError {
    #[error("out of memory")]
    NoMemory,
    #[error("the line is no case")]
    Malformed,
}

impl From<AllocError> for CaseError {
    fn from(_error: AllocError) -> CaseError {
        CaseError::NoMemory
    }
}

impl<T: Drop> From<AllocFailed<T>> for CaseError {
    fn from(_error: AllocFailed<T>) -> CaseError {
        CaseError::NoMemory
    }
}

impl From<ParseIntError> for CaseError {
    fn from(_error: ParseIntError) -> CaseError {
        CaseError::Malformed
    }
}

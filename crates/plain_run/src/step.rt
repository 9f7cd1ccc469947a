ghost use Rattle.std.specs.Prelude.{◌≡◌};
ghost use Rattle.plain_run.specs.declared.step.RunError.TheVariants.{NoMemory};

use c_lang::Event;
use std::alloc::{AllocError, AllocFailed};
use thiserror::Error;

/// What a step shows.
#[derive(Clone, Copy, Debug, PartialEq, Eq)]
pub enum Step {
    /// It shows nothing.
    Quiet,
    Shown(Event),
    /// It takes an answer, and none is left.
    Waiting,
    /// The run is over.
    Stopped,
}

/// Why a step wasn't made.
#[derive(Clone, Copy, Debug, PartialEq, Eq, Error)]
pub enum RunError {
    #[error("out of memory")]
    NoMemory,
    /// It would make one frame more than 10,000.
    #[error("too many calls")]
    Deep,
}

impl From<AllocError> for RunError {
    ghost from_gives = { λ _ error. error ≡ NoMemory };

    fn from(_error: AllocError) -> RunError {
        RunError::NoMemory
    }
}

impl<T: Drop> From<AllocFailed<T>> for RunError {
    ghost from_gives = { λ _ error. error ≡ NoMemory };

    fn from(_error: AllocFailed<T>) -> RunError {
        RunError::NoMemory
    }
}

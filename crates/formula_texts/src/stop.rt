ghost use Rattle.std.specs.Prelude.{◌≡◌};
ghost use Rattle.formula_texts.specs.declared.stop.Stop.TheVariants.{NoMemory};

use std::alloc::{AllocError, AllocFailed};

/// Why nothing was read: memory ran out, or it is no text of what was to be read.
#[derive(Debug, Drop)]
pub enum Stop {
    NoMemory,
    NoText,
}

impl From<AllocError> for Stop {
    ghost from_gives = { λ _ error. error ≡ NoMemory };

    fn from(_error: AllocError) -> Stop {
        Stop::NoMemory
    }
}

impl<T: Drop> From<AllocFailed<T>> for Stop {
    ghost from_gives = { λ _ error. error ≡ NoMemory };

    fn from(_error: AllocFailed<T>) -> Stop {
        Stop::NoMemory
    }
}

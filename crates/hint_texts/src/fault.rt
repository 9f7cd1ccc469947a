ghost use Rattle.std.specs.Prelude.{◌≡◌};
ghost use Rattle.hint_texts.specs.declared.fault.Fault.TheVariants.{NoMemory};

use std::alloc::{AllocError, AllocFailed};

/// Why nothing was read: memory ran out, or the text is no hints text, as far as was seen at this line.
#[derive(Debug, Drop)]
pub enum Fault {
    NoMemory,
    NoText(u32),
}

impl From<AllocError> for Fault {
    ghost from_gives = { λ _ error. error ≡ NoMemory };

    fn from(_error: AllocError) -> Fault {
        Fault::NoMemory
    }
}

impl<T: Drop> From<AllocFailed<T>> for Fault {
    ghost from_gives = { λ _ error. error ≡ NoMemory };

    fn from(_error: AllocFailed<T>) -> Fault {
        Fault::NoMemory
    }
}

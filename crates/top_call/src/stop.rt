ghost use Rattle.std.specs.Prelude.{◌≡◌};
ghost use Rattle.top_call.specs.declared.stop.Stop.TheVariants.{NoMemory};
ghost use Rattle.top_call.specs.Stops.{stop_of};

use plain_run::RunError;
use std::alloc::AllocError;

/// Why there is no reply.
#[derive(Clone, Copy, Debug, PartialEq, Eq)]
pub(crate) enum Stop {
    ReadFailed,
    NoMemory,
    /// A run makes one frame too many.
    Deep,
}

impl From<AllocError> for Stop {
    ghost from_gives = { λ _ stop. stop ≡ NoMemory };

    fn from(_error: AllocError) -> Stop {
        Stop::NoMemory
    }
}

impl From<RunError> for Stop {
    ghost from_gives = { λ error stop. stop ≡ stop_of error };

    fn from(error: RunError) -> Stop {
        match error {
            RunError::NoMemory => Stop::NoMemory,
            RunError::Deep => Stop::Deep,
        }
    }
}

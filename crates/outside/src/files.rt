ghost use Rattle.std.specs.Prelude.{◌≡◌, ℕ, ◌≤◌, List, Option, length, take, IfOk, IfSome, IsErrOf};
ghost use Rattle.outside.specs.Counts.{Rose};

use std::alloc::{AllocError, Global};
use thiserror::Error;

/// Want of memory.
pub type NoMemory = AllocError;

/// Why a read gave nothing.
#[derive(Clone, Copy, Debug, PartialEq, Eq, Error)]
pub enum FileError {
    /// The files failed, or none has the name.
    #[error("the file can't be read")]
    Failed,
    /// Memory was wanted, also for the copy of the name.
    #[error("out of memory")]
    NoMemory,
}

/// Files that are read by name. Contracts speak of three things: `held`, the bytes under a name
/// where they are known; `faults`, which counts the failures in 64 bits and stands still at the
/// last value; and `failed`, the bytes of the name that the last failed read asked for, at first
/// none.
pub trait Files {
    ghost held: { Self → List ℕ → Option (List ℕ) };

    ghost faults: { Self → ℕ };

    ghost failed: { Self → List ℕ };

    /// The first `most` bytes of what is held under the name. No read changes what is held.
    ///
    /// `FileError::Failed` comes only where the files failed in this call; a missing name is such a
    /// failure. `FileError::NoMemory` leaves the files as they were.
    fn read(&mut self, alloc: Global, name: &str, most: usize) -> Result<Vec<u8>, FileError>
        ensures content { IfOk result (λ bytes. IfSome (held self.old name.now) (λ all. bytes.items ≡ take most all)) }
        ensures bound { IfOk result (λ bytes. length bytes.items ≤ most) }
        ensures held { (other : List ℕ) → held self.new other ≡ held self.old other }

        ensures later { faults self.old ≤ faults self.new }
        ensures fault { IsErrOf result FileError.Failed → Rose (faults self.old) (faults self.new) }

        ensures asked { IsErrOf result FileError.Failed → failed self.new ≡ name.now }
        ensures same { (IsErrOf result FileError.Failed → ⊥) → failed self.new ≡ failed self.old }
        ensures as_before { IsErrOf result FileError.NoMemory → self.new ≡ self.old };
}

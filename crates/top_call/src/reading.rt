ghost use Rattle.std.specs.Prelude.{◌≡◌, ℕ, ◌≤◌, List, IfOk, IsErrOf};
ghost use Rattle.outside.specs.Counts.{Rose};
ghost use Rattle.top_call.specs.Held.{IsHeld};

use crate::stop::Stop;
use c_lang::{Unit, limit_of};
use outside::{FileError, Files};
use std::alloc::Global;

/// The bytes of the unit's file, up to one past the unit's limit.
pub(crate) fn read_text<F: Files>(
    alloc: Global,
    unit: Unit,
    name: &str,
    files: &mut F,
) -> Result<Vec<u8>, Stop>
    ensures text { IfOk result (λ text. IsHeld (F.held files.old) unit name.now text.items) }
    ensures held { (other : List ℕ) → F.held files.new other ≡ F.held files.old other }
    ensures later { F.faults files.old ≤ F.faults files.new }
    ensures rose { IsErrOf result Stop.ReadFailed → Rose (F.faults files.old) (F.faults files.new) }
    ensures shallow { IsErrOf result Stop.Deep → ⊥ }
    ensures asked { IsErrOf result Stop.ReadFailed → F.failed files.new ≡ name.now }
{
    match files.read(alloc, name, limit_of(unit) + 1) {
        Ok(text) => Ok(text),
        Err(FileError::Failed) => Err(Stop::ReadFailed),
        Err(FileError::NoMemory) => Err(Stop::NoMemory),
    }
}

ghost use Rattle.std.specs.Prelude.{◌≡◌, IfOk};

use crate::Fact;
use std::alloc::{AllocError, Global};

impl Fact {
    /// A copy, since `clone` could not say that it is one.
    pub fn copy(&self, alloc: Global) -> Result<Fact, AllocError>
        ensures { IfOk result (λ copy. copy ≡ self.now) }
    {
        match self {
            Fact::Plain(form) => Ok(Fact::Plain(form.copy(alloc)?)),
            Fact::All { var, lo, hi, body } => {
                let lo = lo.copy(alloc)?;
                let hi = hi.copy(alloc)?;
                let body = body.copy(alloc)?;
                Ok(Fact::All {
                    var: var.copy(alloc)?,
                    lo,
                    hi,
                    body,
                })
            }
        }
    }
}

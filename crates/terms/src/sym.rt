ghost use Rattle.std.proofs.Common.{rules};
ghost use Rattle.std.specs.Cmp.Rules.{comparing};
ghost use Rattle.std.specs.Prelude.{◌≡◌, IfOk};

use c_lang::Name;
use std::alloc::{AllocError, Global};

/// A name in a formula: a base, and a count that tells apart the values that the base has in turn.
#[derive(Debug, Drop)]
pub struct Sym {
    pub base: Name,
    pub count: u32,
}

impl PartialEq for Sym {
    ghost use Rattle.terms.specs.Symbols.{same_sym};

    ghost eq = { same_sym };

    ghost laws = { Prim.search (comparing, rules) };

    fn eq(&self, other: &Sym) -> bool {
        self.base == other.base && self.count == other.count
    }
}

impl Eq for Sym {
    ghost laws = { Prim.search (comparing, rules) };
}

impl Sym {
    /// A copy, since `clone` could not say that it is one.
    pub fn copy(&self, alloc: Global) -> Result<Sym, AllocError>
        ensures { IfOk result (λ name. name ≡ self.now) }
    {
        Ok(Sym {
            base: self.base.copy(alloc)?,
            count: self.count,
        })
    }
}

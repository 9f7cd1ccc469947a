ghost use Rattle.std.specs.Prelude.{◌≡◌, find};
ghost use Rattle.std.specs.Option.{option_copied, option_map};
ghost use Rattle.terms.specs.Symbols.{same_sym};

use crate::{ArrayTerm, Sym, Term};
use sqlite_items::Items;

/// What stands in for names, all at once: terms for names of numbers, arrays for names of arrays. Of
/// several pairs of one name the first counts, and a name that isn't listed stays.
#[derive(Debug, Drop)]
pub struct Changes {
    pub numbers: Items<(Sym, Term)>,
    pub arrays: Items<(Sym, ArrayTerm)>,
}

impl Changes {
    /// What stands in for a name as a number, if something does. It takes no memory.
    pub fn number(&self, name: &Sym) -> Option<&Term>
        ensures { option_copied result
            ≡ option_map (λ p. p.1) (find (λ p. same_sym p.0 name.now) self.now.numbers) }
    {
        self.numbers
            .as_slice()
            .iter()
            .find(|pair| pair.0 == *name)
            .map(|pair| &pair.1)
    }

    /// What stands in for a name as an array, if something does. It takes no memory.
    pub fn array(&self, name: &Sym) -> Option<&ArrayTerm>
        ensures { option_copied result
            ≡ option_map (λ p. p.1) (find (λ p. same_sym p.0 name.now) self.now.arrays) }
    {
        self.arrays
            .as_slice()
            .iter()
            .find(|pair| pair.0 == *name)
            .map(|pair| &pair.1)
    }
}

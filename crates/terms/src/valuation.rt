ghost use Rattle.std.specs.Prelude.{◌≡◌};
ghost use Rattle.std.specs.Option.{option_copied};
ghost use Rattle.terms.specs.Valuations.{listed_number, listed_row, element_in};

use crate::Sym;
use sqlite_items::Items;

/// What names stand for: numbers, and arrays by pairs of an index and the value there. Of several
/// pairs of one name or one index the first counts. A name that isn't listed stands for 0, and an
/// array is 0 where no pair stands.
#[derive(Debug, Drop)]
pub struct Valuation {
    pub wholes: Items<(Sym, i128)>,
    pub rows: Items<(Sym, Items<(i128, i128)>)>,
}

impl Valuation {
    /// The number that the name stands for, if it is listed as one. It takes no memory.
    pub fn number(&self, name: &Sym) -> Option<i128>
        ensures { result ≡ listed_number self.now name.now }
    {
        self.wholes
            .as_slice()
            .iter()
            .find(|pair| pair.0 == *name)
            .map(|pair| pair.1)
    }

    /// The pairs of the array that the name stands for, if it is listed as one. It takes no
    /// memory.
    pub fn row(&self, name: &Sym) -> Option<&[(i128, i128)]>
        ensures { option_copied result ≡ listed_row self.now name.now }
    {
        self.rows
            .as_slice()
            .iter()
            .find(|pair| pair.0 == *name)
            .map(|pair| pair.1.as_slice())
    }
}

/// What an array of these pairs holds at the index. It takes no memory.
pub(crate) fn element_of(row: &[(i128, i128)], index: i128) -> i128
    ensures { result ≡ element_in row.now index }
{
    row.iter()
        .find(|pair| pair.0 == index)
        .map_or(0, |pair| pair.1)
}

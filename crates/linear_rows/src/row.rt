ghost use Rattle.std.specs.Prelude.{◌≡◌, true, false};
ghost use Rattle.linear_rows.specs.Sums.{all_fit, row_fits, From, IsInForm};

use crate::number::is_small;
use sqlite_items::Items;

/// The sum of the parts is at most `bound`, or is equal to it. A part is an atom's number and its
/// coefficient. A row is in form where the atoms ascend and no coefficient is 0.
#[derive(Debug, Drop)]
pub struct Row {
    pub parts: Items<(u32, i128)>,
    pub bound: i128,
    pub equal: bool,
}

/// Why two rows have no sum.
#[derive(Clone, Copy, Debug, PartialEq, Eq)]
pub enum RowFail {
    NoMemory,
    /// A coefficient or the bound of the sum is past 2^100 in size.
    Wide,
}

impl Row {
    /// Whether every coefficient and the bound are at most 2^100 in size.
    pub fn fits(&self) -> bool
        ensures { result ≡ row_fits self.now }
    {
        all_small(self.parts.as_slice()) && is_small(self.bound)
    }

    /// Whether the row is in form: its atoms ascend and no coefficient is 0.
    pub fn is_in_form(&self) -> bool
        ensures yes { result ≡ true → IsInForm self.now }
        ensures no { result ≡ false → IsInForm self.now → ⊥ }
    {
        ascend(self.parts.as_slice())
    }
}

fn ascend(parts: &[(u32, i128)]) -> bool
    ensures yes { result ≡ true → From 0 parts.now }
    ensures no { result ≡ false → From 0 parts.now → ⊥ }
{
    let mut low: u64 = 0;
    let mut at = 0;
    while at < parts.len() {
        let (atom, coefficient) = parts[at];
        if (atom as u64) < low || coefficient == 0 {
            return false;
        }
        low = atom as u64 + 1;
        at += 1;
    }
    true
}

fn all_small(parts: &[(u32, i128)]) -> bool
    ensures { result ≡ all_fit parts.now }
{
    parts.iter().all(|part| is_small(part.1))
}

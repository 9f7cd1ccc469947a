//! What names stand for, and the numbers that refuse their use.

ghost use Rattle.std.specs.Prelude.{◌≡◌};
ghost use Rattle.c_types.specs.Names as spec;

use c_lang::{Kind, refusal};
use sqlite_items::Items;

/// What a name stands for where it is used.
#[derive(Debug, Drop)]
pub enum Means {
    /// A global, parameter or local that holds one value.
    Cell(Kind),
    /// A global array.
    Array,
    /// A function.
    Code {
        params: Items<Kind>,
        /// Whether it gives a value.
        gives: bool,
        /// The number of parameters with which its name is a value, where it is one.
        value: Option<u8>,
        /// The number that refuses a call of it.
        denied: Option<u8>,
    },
    /// A name that may not be used, for the reason with this number.
    Refused(u8),
}

/// The smaller of two numbers of refusals, where there are any.
pub fn smaller(a: Option<u8>, b: Option<u8>) -> Option<u8>
    ensures { result ≡ spec.smaller a b }
{
    match (a, b) {
        (Some(m), Some(n)) => { if n < m { Some(n) } else { Some(m) } }
        (Some(m), None) => Some(m),
        (None, b) => b,
    }
}

/// 10 where a kind doesn't fit its place.
pub fn fits(place: Kind, kind: Kind) -> Option<u8>
    ensures { result ≡ spec.fits place kind }
{
    if place.same_as(kind) {
        None
    } else {
        Some(refusal::WRONG_KIND)
    }
}

ghost use Rattle.std.specs.Prelude.{◌≡◌, ◌≤◌, ◌<◌, ◌^◌, pos, ◌/◌, length, true, unsigned_abs};
ghost use Rattle.std.specs.List.{list_all};
ghost use Rattle.linear_rows.specs.Numbers.{fits};
ghost use Rattle.linear_rows.specs.Sums.{From, coefficient, row_fits};
ghost use Rattle.linear_certs.specs.Divisors.{gcd};
ghost use Rattle.linear_certs.specs.Stages.{is_upper, is_lower, lacks, first_atom, smaller, least_atom};
ghost use Rattle.linear_certs.specs.Code.Building.{IsCombined};

use crate::divisor::divisor;
use crate::entry::Entry;
use crate::mix::{mixed, mixed_list};
use linear_rows::{Row, RowFail};
use sqlite_items::Items;
use std::alloc::Global;

/// The coefficient of an atom in a row without smaller atoms.
#[tactic(auto, using(crate::proofs::PairLaws::coefficients))]
pub(crate) fn coefficient_of(row: &Row, atom: u32) -> i128
    requires { From atom row.now.parts }
    ensures { result ≡ coefficient atom row.now.parts }
{
    let parts = row.parts.as_slice();
    if parts.is_empty() {
        return 0;
    }
    let (first, factor) = parts[0];
    if first == atom { factor } else { 0 }
}

/// The least atom of a row in form.
fn first_atom(row: &Row) -> Option<u32>
    ensures { result ≡ first_atom row.now.parts }
{
    let parts = row.parts.as_slice();
    if parts.is_empty() {
        return None;
    }
    Some(parts[0].0)
}

fn smaller(atom: Option<u32>, other: Option<u32>) -> Option<u32>
    ensures { result ≡ smaller atom other }
{
    match atom {
        None => other,
        Some(first) => match other {
            None => atom,
            Some(second) => Some(first.min(second)),
        },
    }
}

/// The least atom that a row has.
pub(crate) fn least_atom(entries: &[Entry]) -> Option<u32>
    ensures { result ≡ least_atom entries.now }
{
    let mut least = None;
    for entry in entries {
        least = smaller(least, first_atom(&entry.row));
    }
    least
}

pub(crate) fn is_upper(entry: &Entry, atom: u32) -> bool
    requires { From atom entry.now.row.parts }
    ensures { result ≡ is_upper atom entry.now }
{
    coefficient_of(&entry.row, atom) > 0
}

pub(crate) fn is_lower(entry: &Entry, atom: u32) -> bool
    requires { From atom entry.now.row.parts }
    ensures { result ≡ is_lower atom entry.now }
{
    coefficient_of(&entry.row, atom) < 0
}

pub(crate) fn lacks(entry: &Entry, atom: u32) -> bool
    requires { From atom entry.now.row.parts }
    ensures { result ≡ lacks atom entry.now }
{
    coefficient_of(&entry.row, atom) == 0
}

fn size_in(entry: &Entry, atom: u32) -> u128
    requires from { From atom entry.now.row.parts }
    requires small { row_fits entry.now.row ≡ true }
    ensures value { result ≡ unsigned_abs (coefficient atom entry.now.row.parts) }
    ensures small { result ≤ 2 ^ 100 }
{
    coefficient_of(&entry.row, atom).unsigned_abs()
}

/// The sum of a pair without its atom.
pub(crate) fn combined(
    alloc: Global,
    atom: u32,
    upper: &Entry,
    lower: &Entry,
) -> Result<Entry, RowFail>
    requires from_upper { From atom upper.now.row.parts }
    requires from_lower { From atom lower.now.row.parts }
    requires upper_fits { row_fits upper.now.row ≡ true }
    requires lower_fits { row_fits lower.now.row ≡ true }
    requires above { is_upper atom upper.now ≡ true }
    requires below { is_lower atom lower.now ≡ true }
    requires count { length upper.now.multipliers ≡ length lower.now.multipliers }
    requires upper_small { list_all fits upper.now.multipliers ≡ true }
    requires lower_small { list_all fits lower.now.multipliers ≡ true }
    ensures { IsCombined atom upper.now lower.now result }
{
    let p = size_in(upper, atom);
    let n = size_in(lower, atom);
    let g = divisor(p, n);
    let a = (n / g) as i128;
    let b = (p / g) as i128;
    let row = match mixed(alloc, a, &upper.row, b, &lower.row) {
        Ok(row) => row,
        Err(fail) => return Err(fail),
    };
    let (left, right) = (upper.multipliers.as_slice(), lower.multipliers.as_slice());
    match mixed_list(alloc, a, left, b, right) {
        Ok(multipliers) => Ok(Entry {
            row,
            multipliers: Items::from_vec(multipliers),
        }),
        Err(fail) => Err(fail),
    }
}

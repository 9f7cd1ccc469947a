ghost use Rattle.std.specs.Prelude.{◌≡◌, length, true, false, IfOk, IfErr};
ghost use Rattle.std.specs.List.{All, list_all};
ghost use Rattle.linear_rows.specs.Numbers.{fits};
ghost use Rattle.linear_rows.specs.Sums.{IsInForm, row_fits};
ghost use Rattle.linear_rows.specs.Combinations.{nothing, all_sums_fit};
ghost use Rattle.linear_certs.specs.Stages.{is_false, is_upper, is_lower, combined};
ghost use Rattle.linear_certs.specs.Wide.{is_narrow};
ghost use Rattle.linear_certs.specs.Answers.{IsLeaf};
ghost use Rattle.linear_certs.specs.Code.Building.{IsDerived, IsGood, IsPair};

use crate::entry::{Entry, copy_row};
use crate::leaf::Leaf;
use crate::pair::combined;
use linear_rows::{Row, RowFail, add_times};
use sqlite_items::Items;
use std::alloc::{AllocError, Global};

/// Whether every partial sum of the rows with these multipliers is at most 2^100 in size.
pub(crate) fn sums_fit(
    alloc: Global,
    rows: &[Row],
    multipliers: &[i128],
) -> Result<bool, AllocError>
    requires count { length multipliers.now ≡ length rows.now }
    requires small { list_all fits multipliers.now ≡ true }
    ensures { IfOk result (λ fit. fit ≡ all_sums_fit nothing rows.now multipliers.now) }
{
    let mut sum = Row {
        parts: Items::new(alloc),
        bound: 0,
        equal: true,
    };
    let mut at = 0;
    while at < rows.len() {
        let next = match add_times(alloc, &sum, &rows[at], multipliers[at]) {
            Ok(next) => next,
            Err(RowFail::Wide) => return Ok(false),
            Err(RowFail::NoMemory) => return Err(AllocError),
        };
        sum = next;
        at += 1;
    }
    Ok(true)
}

/// Whether the entry's row has no parts and a bound below 0.
pub(crate) fn is_false(entry: &Entry) -> bool
    ensures { result ≡ is_false entry.now }
{
    entry.row.parts.as_slice().is_empty() && entry.row.bound < 0
}

pub(crate) fn found(alloc: Global, rows: &[Row], entry: &Entry) -> Leaf
    requires in_form { All IsInForm rows.now }
    requires derived { IsDerived rows.now entry.now }
    requires fails { is_false entry.now ≡ true }
    requires narrow { all_sums_fit nothing rows.now entry.now.multipliers ≡ true }
    ensures { IsLeaf rows.now result }
{
    match Vec::from_slice(alloc, entry.multipliers.as_slice()) {
        Ok(multipliers) => Leaf::Found(multipliers),
        Err(_) => Leaf::NoMemory,
    }
}

fn wide(alloc: Global, rows: &[Row], atom: u32, upper: &Entry, lower: &Entry) -> Leaf
    requires pair { IsPair rows.now atom upper.now lower.now }
    requires above { is_upper atom upper.now ≡ true }
    requires below { is_lower atom lower.now ≡ true }
    requires wide { is_narrow rows.now atom upper.now lower.now ≡ false }
    ensures { IsLeaf rows.now result }
{
    let Ok(left) = copy_row(alloc, &upper.row) else {
        return Leaf::NoMemory;
    };
    match copy_row(alloc, &lower.row) {
        Ok(right) => Leaf::Wide { left, right, atom },
        Err(_) => Leaf::NoMemory,
    }
}

/// The sum of a pair, or the answer where it is a constant false row: multipliers, or a wide pair.
fn close(
    alloc: Global,
    rows: &[Row],
    atom: u32,
    upper: &Entry,
    lower: &Entry,
    entry: Entry,
) -> Result<Entry, Leaf>
    requires in_form { All IsInForm rows.now }
    requires pair { IsPair rows.now atom upper.now lower.now }
    requires above { is_upper atom upper.now ≡ true }
    requires below { is_lower atom lower.now ≡ true }
    requires is { entry ≡ combined atom upper.now lower.now }
    requires narrow { row_fits entry.row ≡ true }
    requires small { list_all fits entry.multipliers ≡ true }
    ensures ok { IfOk result (λ sum. (sum ≡ combined atom upper.now lower.now) × IsGood rows.now sum) }
    ensures err { IfErr result (IsLeaf rows.now) }
{
    if !is_false(&entry) {
        return Ok(entry);
    }
    match sums_fit(alloc, rows, entry.multipliers.as_slice()) {
        Ok(true) => Err(found(alloc, rows, &entry)),
        Ok(false) => Err(wide(alloc, rows, atom, upper, lower)),
        Err(_) => Err(Leaf::NoMemory),
    }
}

/// The sum of a pair of a stage, or the answer that the pair gives.
pub(crate) fn pair(
    alloc: Global,
    rows: &[Row],
    atom: u32,
    upper: &Entry,
    lower: &Entry,
) -> Result<Entry, Leaf>
    requires in_form { All IsInForm rows.now }
    requires pair { IsPair rows.now atom upper.now lower.now }
    requires above { is_upper atom upper.now ≡ true }
    requires below { is_lower atom lower.now ≡ true }
    ensures ok { IfOk result (λ sum. (sum ≡ combined atom upper.now lower.now) × IsGood rows.now sum) }
    ensures err { IfErr result (IsLeaf rows.now) }
{
    match combined(alloc, atom, upper, lower) {
        Ok(entry) => close(alloc, rows, atom, upper, lower, entry),
        Err(RowFail::Wide) => Err(wide(alloc, rows, atom, upper, lower)),
        Err(RowFail::NoMemory) => Err(Leaf::NoMemory),
    }
}

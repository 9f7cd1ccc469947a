ghost use Rattle.std.specs.Prelude.{◌≡◌, ◌≤◌, ◌<◌, [], ◌∷◌, OnOk, IfOk, IfErr, true, length};
ghost use Rattle.std.specs.List.{All};
ghost use Rattle.linear_rows.specs.Sums.{IsInForm, row_fits};
ghost use Rattle.linear_certs.specs.Stages.{is_false, kept_once, first_entry, second_entry, second_entries, halves, single, first_stage, second_half};
ghost use Rattle.linear_certs.specs.Answers.{IsLeaf};
ghost use Rattle.linear_certs.specs.Code.Building.{IsGood, IsOpening, IsGiven, AreGiven};

use crate::closing::{found, is_false, sums_fit};
use crate::entry::Entry;
use crate::leaf::Leaf;
use crate::mix::multiple;
use crate::stage::keep;
use linear_rows::Row;
use sqlite_items::Items;
use std::alloc::{AllocError, Global};

/// The most rows of a stage.
const MOST: u32 = 20000;

/// One of `count` rows alone.
fn single(
    alloc: Global,
    count: usize,
    number: usize,
    times: i128,
) -> Result<Items<i128>, AllocError>
    requires { number < count }
    ensures { IfOk result (λ multipliers. multipliers ≡ single count number times) }
{
    let mut multipliers = vec![in alloc; 0i128; count]?;
    multipliers[number] = times;
    Ok(Items::from_vec(multipliers))
}

fn first_entry(alloc: Global, count: usize, number: usize, row: &Row) -> Result<Entry, AllocError>
    requires { number < count }
    ensures { IfOk result (λ entry. entry ≡ first_entry count number row.now) }
{
    let parts = Items::from_slice(alloc, row.parts.as_slice())?;
    let multipliers = single(alloc, count, number, 1)?;
    let row = Row {
        parts,
        bound: row.bound,
        equal: false,
    };
    Ok(Entry { row, multipliers })
}

/// The row times -1, as an inequality.
fn second_half(alloc: Global, row: &Row) -> Result<Row, AllocError>
    ensures { IfOk result (λ half. (half ≡ second_half row.now) × (row_fits half ≡ true)) }
{
    match multiple(alloc, -1, row) {
        Ok(negated) => Ok(Row {
            parts: negated.parts,
            bound: negated.bound,
            equal: false,
        }),
        // A negated row is as small as the row, so only memory can be wanting.
        Err(_) => Err(AllocError),
    }
}

fn second_entry(alloc: Global, count: usize, number: usize, row: &Row) -> Result<Entry, AllocError>
    requires { number < count }
    ensures { IfOk result (λ entry. (entry ≡ second_entry count number row.now) × (row_fits entry.row ≡ true)) }
{
    let half = second_half(alloc, row)?;
    let multipliers = single(alloc, count, number, -1)?;
    Ok(Entry {
        row: half,
        multipliers,
    })
}

/// The multipliers of a given row that is constant and false.
fn close_given(alloc: Global, rows: &[Row], entry: &Entry) -> Leaf
    requires in_form { All IsInForm rows.now }
    requires opening { IsOpening rows.now entry.now }
    requires fails { is_false entry.now ≡ true }
    ensures { IsLeaf rows.now result }
{
    match sums_fit(alloc, rows, entry.multipliers.as_slice()) {
        Ok(true) => found(alloc, rows, entry),
        // The partial sums are 0 or the row itself, so only memory can be wanting.
        _ => Leaf::NoMemory,
    }
}

/// Keeps an inequality of a given row, or answers where it is constant and false.
fn open(alloc: Global, rows: &[Row], entry: Entry, kept: &mut Vec<Entry>) -> Result<(), Leaf>
    requires in_form { All IsInForm rows.now }
    requires opening { IsOpening rows.now entry }
    requires good { All (IsGood rows.now) kept.old.items }
    ensures ok { OnOk result (kept.new.items ≡ kept_once kept.old.items (entry ∷ [])) }
    ensures good { OnOk result (All (IsGood rows.now) kept.new.items) }
    ensures err { IfErr result (IsLeaf rows.now) }
{
    if is_false(&entry) {
        return Err(close_given(alloc, rows, &entry));
    }
    keep(kept, entry)
}

fn open_first(
    alloc: Global,
    rows: &[Row],
    number: usize,
    row: &Row,
    kept: &mut Vec<Entry>,
) -> Result<(), Leaf>
    requires in_form { All IsInForm rows.now }
    requires given { IsGiven rows.now number row.now }
    requires good { All (IsGood rows.now) kept.old.items }
    ensures ok { OnOk result (kept.new.items ≡ kept_once kept.old.items (first_entry (length rows.now) number row.now ∷ [])) }
    ensures good { OnOk result (All (IsGood rows.now) kept.new.items) }
    ensures err { IfErr result (IsLeaf rows.now) }
{
    match first_entry(alloc, rows.len(), number, row) {
        Ok(entry) => open(alloc, rows, entry, kept),
        Err(_) => Err(Leaf::NoMemory),
    }
}

fn open_second(
    alloc: Global,
    rows: &[Row],
    number: usize,
    row: &Row,
    kept: &mut Vec<Entry>,
) -> Result<(), Leaf>
    requires in_form { All IsInForm rows.now }
    requires given { IsGiven rows.now number row.now }
    requires good { All (IsGood rows.now) kept.old.items }
    ensures ok { OnOk result (kept.new.items ≡ kept_once kept.old.items (second_entries (length rows.now) number row.now)) }
    ensures good { OnOk result (All (IsGood rows.now) kept.new.items) }
    ensures err { IfErr result (IsLeaf rows.now) }
{
    if !row.equal {
        return Ok(());
    }
    match second_entry(alloc, rows.len(), number, row) {
        Ok(entry) => open(alloc, rows, entry, kept),
        Err(_) => Err(Leaf::NoMemory),
    }
}

fn open_row(
    alloc: Global,
    rows: &[Row],
    number: usize,
    row: &Row,
    kept: &mut Vec<Entry>,
) -> Result<(), Leaf>
    requires in_form { All IsInForm rows.now }
    requires given { IsGiven rows.now number row.now }
    requires good { All (IsGood rows.now) kept.old.items }
    ensures ok { OnOk result (kept.new.items ≡ kept_once kept.old.items (halves (length rows.now) number row.now)) }
    ensures good { OnOk result (All (IsGood rows.now) kept.new.items) }
    ensures err { IfErr result (IsLeaf rows.now) }
{
    match open_first(alloc, rows, number, row, kept) {
        Ok(()) => open_second(alloc, rows, number, row, kept),
        Err(leaf) => Err(leaf),
    }
}

/// The first stage, or the answer that comes on the way.
pub(crate) fn open_rows(alloc: Global, rows: &[Row]) -> Result<Vec<Entry>, Leaf>
    requires given { AreGiven rows.now }
    ensures ok { IfOk result (λ entries. (entries.items ≡ first_stage rows.now) × All (IsGood rows.now) entries.items) }
    ensures err { IfErr result (IsLeaf rows.now) }
{
    let mut kept = Vec::new(alloc);
    for (number, row) in rows.iter().enumerate() {
        match open_row(alloc, rows, number, row, &mut kept) {
            Ok(()) => {}
            Err(leaf) => return Err(leaf),
        }
    }
    if kept.len() > MOST as usize {
        return Err(Leaf::Rows(MOST));
    }
    Ok(kept)
}

ghost use Rattle.std.specs.Prelude.{◌≡◌, ◌≤◌, true, length, reverse, ◌∷◌, ◌++◌, [], OnOk, IfErr};
ghost use Rattle.std.specs.List.{list_all};
ghost use Rattle.linear_rows.specs.Sums.{row_fits, plus_times};
ghost use Rattle.cert_checker.specs.Code.Steps.{number_row, atom_row, literal_of, operands, rows_behind, sum_behind, turn_behind, scale_behind, less_one, IsPushed, IsApplied};

use crate::step::{Operation, Step};
use linear_rows::{Row, RowFail, add_times};
use sqlite_items::Items;
use std::alloc::Global;
use terms::{TermRef, TermView};

/// The number that the term is as written.
pub(crate) fn literal(term: &TermRef<'_>) -> Option<i128>
    ensures { result ≡ literal_of term.now }
{
    match term.view() {
        TermView::Num(number) => Some(number),
        TermView::Of(_) => None,
        TermView::Add(_, _) => None,
        TermView::Sub(_, _) => None,
        TermView::Mul(_, _) => None,
        TermView::Div(_, _) => None,
        TermView::Rem(_, _) => None,
        TermView::Read(_, _) => None,
        TermView::Truth(_) => None,
    }
}

pub(crate) fn number_row(alloc: Global, number: i128) -> Row
    ensures { result ≡ number_row number }
{
    Row {
        parts: Items::from_vec(Vec::new(alloc)),
        bound: number,
        equal: true,
    }
}

/// Adds a row to the rows that are done, if it is within sizes.
pub(crate) fn push_row(rows: &mut Vec<Row>, row: Row) -> Result<(), RowFail>
    ensures { IsPushed row rows.old.items result rows.new.items }
{
    if !row.fits() {
        return Err(RowFail::Wide);
    }
    if rows.push(row).is_err() {
        return Err(RowFail::NoMemory);
    }
    Ok(())
}

fn push_sum(
    alloc: Global,
    rows: &mut Vec<Row>,
    left: &Row,
    right: &Row,
    times: i128,
) -> Result<(), RowFail>
    requires { row_fits left.now ≡ true }
    ensures { IsPushed (plus_times left.now times right.now) rows.old.items result rows.new.items }
{
    match add_times(alloc, left, right, times) {
        Ok(sum) => push_row(rows, sum),
        Err(RowFail::Wide) => Err(RowFail::Wide),
        Err(RowFail::NoMemory) => Err(RowFail::NoMemory),
    }
}

/// The last two rows, the last one second.
fn pop_two(rows: &mut Vec<Row>) -> (Row, Row)
    requires { 2 ≤ length rows.old.items }
    ensures { reverse rows.old.items ≡ result.1 ∷ (result.0 ∷ reverse rows.new.items) }
{
    let Some(last) = rows.pop() else {
        unreachable!()
    };
    let Some(first) = rows.pop() else {
        unreachable!()
    };
    (first, last)
}

fn pop_one(rows: &mut Vec<Row>) -> Row
    requires { 1 ≤ length rows.old.items }
    ensures { reverse rows.old.items ≡ result ∷ reverse rows.new.items }
{
    let Some(last) = rows.pop() else {
        unreachable!()
    };
    last
}

/// The last two rows added, the last one so many times.
fn add(alloc: Global, rows: &mut Vec<Row>, times: i128) -> Result<(), RowFail>
    requires two { 2 ≤ length rows.old.items }
    requires fit { list_all row_fits rows.old.items ≡ true }
    ensures { IsApplied (sum_behind times (reverse rows.old.items)) result rows.new.items }
{
    let (first, last) = pop_two(rows);
    push_sum(alloc, rows, &first, &last, times)
}

fn less_one(row: Row) -> Row
    requires { row_fits row ≡ true }
    ensures { result ≡ less_one row }
{
    Row {
        parts: row.parts,
        bound: row.bound - 1,
        equal: row.equal,
    }
}

/// The last row less the one before it, and 1.
fn turn(alloc: Global, rows: &mut Vec<Row>) -> Result<(), RowFail>
    requires two { 2 ≤ length rows.old.items }
    requires fit { list_all row_fits rows.old.items ≡ true }
    ensures { IsApplied (turn_behind (reverse rows.old.items)) result rows.new.items }
{
    let (first, last) = pop_two(rows);
    let first = less_one(first);
    push_sum(alloc, rows, &last, &first, -1)
}

/// The last row so many times.
fn scale(alloc: Global, rows: &mut Vec<Row>, times: i128) -> Result<(), RowFail>
    requires one { 1 ≤ length rows.old.items }
    ensures { IsApplied (scale_behind times (reverse rows.old.items)) result rows.new.items }
{
    let row = pop_one(rows);
    push_sum(alloc, rows, &number_row(alloc, 0), &row, times)
}

pub(crate) fn apply(alloc: Global, rows: &mut Vec<Row>, operation: Operation) -> Result<(), RowFail>
    requires operands { operands operation ≤ length rows.old.items }
    requires fit { list_all row_fits rows.old.items ≡ true }
    ensures { IsApplied (rows_behind operation (reverse rows.old.items)) result rows.new.items }
{
    match operation {
        Operation::Add => add(alloc, rows, 1),
        Operation::Subtract => add(alloc, rows, -1),
        Operation::Turn => turn(alloc, rows),
        Operation::Scale(times) => scale(alloc, rows, times),
    }
}

ghost use Rattle.std.specs.Prelude.{◌≡◌, true, []};
ghost use Rattle.linear_rows.specs.Sums.{row_fits};
ghost use Rattle.cert_checker.specs.Code.Combined.{IsRowAt, IsCheckedSum, IsCombined, AddsTo, Combines};
ghost use Rattle.cert_checker.specs.Rows.{Line};

use crate::row::form_row;
use crate::sum::number_row;
use linear_rows::{Row, RowFail, add_times};
use std::alloc::{AllocError, Global};
use terms::{Fact, Term};

/// The row of the fact with the number, if it is plain and has one.
fn row_at(
    alloc: Global,
    facts: &[Fact],
    number: u32,
    atoms: &mut Vec<Term>,
) -> Result<Option<Row>, AllocError>
    ensures { IsRowAt facts.now number atoms.old.items result atoms.new.items }
{
    let Some(fact) = facts.get(number as usize) else {
        return Ok(None);
    };
    match fact {
        Fact::Plain(form) => match form_row(alloc, form.as_ref(), atoms) {
            Ok(row) => Ok(row),
            Err(RowFail::Wide) => Ok(None),
            Err(RowFail::NoMemory) => Err(AllocError),
        },
        Fact::All { .. } => Ok(None),
    }
}

/// A row more, if its multiplier is allowed, and that and the sum are within sizes.
fn checked_plus(alloc: Global, sum: &Row, times: i128, row: &Row) -> Result<Option<Row>, AllocError>
    requires { row_fits sum.now ≡ true }
    ensures { IsCheckedSum sum.now times row.now result }
{
    if !row.equal && times < 0 {
        return Ok(None);
    }
    if !number_row(alloc, times).fits() {
        return Ok(None);
    }
    match add_times(alloc, sum, row, times) {
        Ok(made) => Ok(Some(made)),
        Err(RowFail::Wide) => Ok(None),
        Err(RowFail::NoMemory) => Err(AllocError),
    }
}

/// The sum with the multiple of a fact's row more, if that may be added.
fn add_fact(
    alloc: Global,
    facts: &[Fact],
    number: u32,
    times: i128,
    sum: &Row,
    atoms: &mut Vec<Term>,
) -> Result<Option<Row>, AllocError>
    requires { row_fits sum.now ≡ true }
    ensures { (line : Line) → IsCombined line sum.now atoms.old.items → AddsTo facts.now number times line result atoms.new.items }
{
    let Some(row) = row_at(alloc, facts, number, atoms)? else {
        return Ok(None);
    };
    checked_plus(alloc, sum, times, &row)
}

/// The sum of the rows of facts with multipliers, in their order, if each may be added.
pub(crate) fn combined(
    alloc: Global,
    facts: &[Fact],
    pairs: &[(u32, i128)],
    atoms: &mut Vec<Term>,
) -> Result<Option<Row>, AllocError>
    requires { atoms.old.items ≡ [] }
    ensures { Combines facts.now pairs.now result atoms.new.items }
{
    let mut sum = number_row(alloc, 0);
    for pair in pairs {
        let Some(next) = add_fact(alloc, facts, pair.0, pair.1, &sum, atoms)? else {
            return Ok(None);
        };
        sum = next;
    }
    Ok(Some(sum))
}

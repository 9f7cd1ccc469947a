ghost use Rattle.std.specs.Prelude.{◌≡◌, ◌≤◌, ◌+◌, true, length, drop, OnOk, IfErr, ◌++◌, [], ◌∷◌};
ghost use Rattle.linear_rows.specs.Numbers.{fits};
ghost use Rattle.linear_rows.specs.Sums.{all_fit, row_fits, sums, before, plus_times};
ghost use Rattle.linear_rows.specs.Added.{IsFront, IsMerged, IsAdded};

use crate::number::{keep, plus};
use crate::row::{Row, RowFail};
use sqlite_items::Items;
use std::alloc::Global;

/// The first part of a sum, and how many parts of each side it takes.
#[derive(Clone, Copy, Debug)]
struct Front {
    atom: u32,
    coefficient: Option<i128>,
    left_by: usize,
    right_by: usize,
}

fn scaled_front(times: i128, right: &[(u32, i128)]) -> Front
    requires { 1 ≤ length right.now }
    ensures { IsFront times [] right.now result }
{
    let (atom, factor) = right[0];
    Front {
        atom,
        coefficient: plus(0, times, factor),
        left_by: 0,
        right_by: 1,
    }
}

fn next_part(left: &[(u32, i128)], times: i128, right: &[(u32, i128)]) -> Front
    requires some { 1 ≤ length left.now + length right.now }
    requires small { all_fit left.now ≡ true }
    ensures { IsFront times left.now right.now result }
{
    if left.is_empty() {
        return scaled_front(times, right);
    }
    let (x, first) = left[0];
    if right.is_empty() {
        return Front {
            atom: x,
            coefficient: keep(first),
            left_by: 1,
            right_by: 0,
        };
    }
    let (y, factor) = right[0];
    if x < y {
        return Front {
            atom: x,
            coefficient: keep(first),
            left_by: 1,
            right_by: 0,
        };
    }
    if y < x {
        return Front {
            atom: y,
            coefficient: plus(0, times, factor),
            left_by: 0,
            right_by: 1,
        };
    }
    Front {
        atom: x,
        coefficient: plus(first, times, factor),
        left_by: 1,
        right_by: 1,
    }
}

/// Appends the part, unless its coefficient is 0.
fn push_part(parts: &mut Vec<(u32, i128)>, atom: u32, coefficient: i128) -> Result<(), RowFail>
    ensures pushed { OnOk result (parts.new.items ≡ parts.old.items ++ before (atom, coefficient) []) }
    ensures memory { IfErr result (λ fail. fail ≡ RowFail.NoMemory) }
{
    if coefficient != 0 {
        if parts.push((atom, coefficient)).is_err() {
            return Err(RowFail::NoMemory);
        }
    }
    Ok(())
}

fn rest(parts: &[(u32, i128)], from: usize) -> &[(u32, i128)]
    requires { from ≤ length parts.now }
    ensures { result.now ≡ drop from parts.now }
{
    &parts[from..]
}

fn merge(
    alloc: Global,
    left: &[(u32, i128)],
    times: i128,
    right: &[(u32, i128)],
) -> Result<Vec<(u32, i128)>, RowFail>
    requires small { all_fit left.now ≡ true }
    ensures { IsMerged (sums times left.now right.now) result }
{
    let mut parts = Vec::new(alloc);
    let mut i = 0;
    let mut j = 0;
    while i < left.len() || j < right.len() {
        let next = next_part(rest(left, i), times, rest(right, j));
        let Some(coefficient) = next.coefficient else {
            return Err(RowFail::Wide);
        };
        push_part(&mut parts, next.atom, coefficient)?;
        i += next.left_by;
        j += next.right_by;
    }
    Ok(parts)
}

/// The row `left + times * right`, an equality exactly where both rows are. `Wide` comes exactly
/// where a coefficient or the bound of it is past 2^100 in size. The numbers of `left` are within
/// that size. Where `times` is negative and `right` isn't an equality, the sum is that of the
/// numbers alone, and need not follow from the rows.
pub fn add_times(alloc: Global, left: &Row, right: &Row, times: i128) -> Result<Row, RowFail>
    requires { row_fits left.now ≡ true }
    ensures { IsAdded (plus_times left.now times right.now) result }
{
    let Some(bound) = plus(left.bound, times, right.bound) else {
        return Err(RowFail::Wide);
    };
    match merge(alloc, left.parts.as_slice(), times, right.parts.as_slice()) {
        Ok(parts) => Ok(Row {
            parts: Items::from_vec(parts),
            bound,
            equal: left.equal && right.equal,
        }),
        Err(fail) => Err(fail),
    }
}

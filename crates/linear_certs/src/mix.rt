ghost use Rattle.std.specs.Prelude.{◌≡◌, ◌≤◌, ◌^◌, ◌+ℤ◌, ◌*ℤ◌, pos, length, true, unsigned_abs, IfSome, IsNone};
ghost use Rattle.std.specs.List.{list_all};
ghost use Rattle.linear_rows.specs.Numbers.{fits, kept};
ghost use Rattle.linear_rows.specs.Sums.{row_fits, plus_times};
ghost use Rattle.linear_rows.specs.Added.{IsAdded};
ghost use Rattle.linear_rows.specs.Combinations.{nothing};
ghost use Rattle.linear_certs.specs.Stages.{multiple, mixed, mixed_multipliers};
ghost use Rattle.linear_certs.specs.Code.Building.{IsMixedRow, IsMixedList, IsNumber, IsHalved};

use linear_rows::{Row, RowFail, add_times};
use sqlite_items::Items;
use std::alloc::Global;

/// `times * row`.
pub(crate) fn multiple(alloc: Global, times: i128, row: &Row) -> Result<Row, RowFail>
    ensures { IsAdded (multiple times row.now) result }
{
    let nothing = Row {
        parts: Items::new(alloc),
        bound: 0,
        equal: true,
    };
    add_times(alloc, &nothing, row, times)
}

/// `a * left + b * right`. `Wide` comes exactly where `a * left` or the sum has a number past 2^100.
pub(crate) fn mixed(
    alloc: Global,
    a: i128,
    left: &Row,
    b: i128,
    right: &Row,
) -> Result<Row, RowFail>
    ensures { IsMixedRow a left.now b right.now result }
{
    let first = multiple(alloc, a, left)?;
    add_times(alloc, &first, right, b)
}

/// 2^100.
const LIMIT: i128 = 1267650600228229401496703205376;

pub(crate) fn is_small(number: i128) -> bool
    ensures { result ≡ fits number }
{
    -LIMIT <= number && number <= LIMIT
}

/// The number, if it is at most 2^100 in size.
fn narrow(number: i128) -> Result<i128, RowFail>
    ensures { IsNumber number result }
{
    if is_small(number) {
        Ok(number)
    } else {
        Err(RowFail::Wide)
    }
}

/// 2^50.
const HALF: i128 = 1125899906842624;

/// A number as `high * 2^50 + low`.
#[derive(Clone, Copy, Debug)]
pub(crate) struct Halves {
    pub high: i128,
    pub low: i128,
}

fn halved(number: i128) -> Halves
    requires { fits number ≡ true }
    ensures { IsHalved number result }
{
    Halves {
        high: number / HALF,
        low: number % HALF,
    }
}

/// `a * b + c * d` of halves.
fn sum_of_products(a: i128, b: i128, c: i128, d: i128) -> i128
    requires a { unsigned_abs a ≤ 2 ^ 50 }
    requires b { unsigned_abs b ≤ 2 ^ 50 }
    requires c { unsigned_abs c ≤ 2 ^ 50 }
    requires d { unsigned_abs d ≤ 2 ^ 50 }
    ensures value { result ≡ a *ℤ b +ℤ c *ℤ d }
    ensures small { unsigned_abs result ≤ 2 ^ 101 }
{
    a * b + c * d
}

/// `high * 2^50 + low`, where it fits 128 bits.
fn joined(high: i128, low: i128) -> Option<i128>
    requires { unsigned_abs low ≤ 2 ^ 102 }
    ensures value { IfSome result (λ whole. whole ≡ high *ℤ pos (2 ^ 50) +ℤ low) }
    ensures past { IsNone result → 2 ^ 126 ≤ unsigned_abs (high *ℤ pos (2 ^ 50) +ℤ low) }
{
    let shifted = high.checked_mul(HALF)?;
    shifted.checked_add(low)
}

/// `a * m + b * n`. `Wide` comes exactly where it is past 2^100 in size. The products may be past
/// 128 bits and still cancel.
fn mixed_number(a: i128, m: i128, b: i128, n: i128) -> Result<i128, RowFail>
    requires a { fits a ≡ true }
    requires m { fits m ≡ true }
    requires b { fits b ≡ true }
    requires n { fits n ≡ true }
    ensures { IsNumber (a *ℤ m +ℤ b *ℤ n) result }
{
    let x = halved(a);
    let y = halved(m);
    let v = halved(b);
    let w = halved(n);
    let high = sum_of_products(x.high, y.high, v.high, w.high);
    let one = sum_of_products(x.high, y.low, v.high, w.low);
    let two = sum_of_products(x.low, y.high, v.low, w.high);
    let low = sum_of_products(x.low, y.low, v.low, w.low);
    let Some(upper) = joined(high, one + two) else {
        return Err(RowFail::Wide);
    };
    let Some(sum) = joined(upper, low) else {
        return Err(RowFail::Wide);
    };
    narrow(sum)
}

/// `a * left + b * right`, place by place.
pub(crate) fn mixed_list(
    alloc: Global,
    a: i128,
    left: &[i128],
    b: i128,
    right: &[i128],
) -> Result<Vec<i128>, RowFail>
    requires count { length left.now ≡ length right.now }
    requires a { fits a ≡ true }
    requires b { fits b ≡ true }
    requires left { list_all fits left.now ≡ true }
    requires right { list_all fits right.now ≡ true }
    ensures { IsMixedList a left.now b right.now result }
{
    let mut sums = Vec::new(alloc);
    let mut at = 0;
    while at < left.len() {
        let sum = match mixed_number(a, left[at], b, right[at]) {
            Ok(sum) => sum,
            Err(fail) => return Err(fail),
        };
        if sums.push(sum).is_err() {
            return Err(RowFail::NoMemory);
        }
        at += 1;
    }
    Ok(sums)
}

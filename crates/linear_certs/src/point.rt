ghost use Rattle.std.specs.Prelude.{◌≡◌, ◌≤◌, ◌<◌, ◌*◌, ◌^◌, ℕ, pos, ◌<ℤ◌, ◌*ℤ◌, length, unsigned_abs, replicate, IfSome, OnSome, IfOk, IsNone, ◌⊎◌};
ghost use Rattle.std.specs.List.{All};
ghost use Rattle.linear_rows.specs.Sums.{From};
ghost use Rattle.linear_certs.specs.Answers.{coordinate, IsLeaf};
ghost use Rattle.linear_certs.specs.Code.Building.{IsEliminated};
ghost use Rattle.linear_certs.specs.Points.{IsLowest};
ghost use Rattle.linear_certs.specs.Code.Limits.{IsPast, IsMoved, IsNextPoint};

use crate::elimination::{Elimination, Stage};
use crate::leaf::Leaf;
use crate::limit::{Limit, chosen, reduced};
use linear_rows::Row;
use std::alloc::{AllocError, Global};

/// Numbers over one denominator, by the numbers of their atoms.
#[derive(Debug, Drop)]
pub(crate) struct Numbers {
    pub den: i128,
    pub nums: Vec<i128>,
}

fn zeros(alloc: Global, count: usize) -> Result<Vec<i128>, AllocError>
    ensures { IfOk result (λ nums. nums.items ≡ replicate count (pos 0)) }
{
    vec![in alloc; 0i128; count]
}

/// Multiplies all numbers, as long as they fit 128 bits.
fn multiply(nums: &mut [i128], by: i128) -> Option<()>
    ensures count { length nums.new ≡ length nums.old }
    ensures value { OnSome result
        ((atom : ℕ) → coordinate nums.new atom ≡ coordinate nums.old atom *ℤ by) }
    ensures past { IsNone result → (m n : ℕ)
        → ((atom : ℕ) → unsigned_abs (coordinate nums.old atom) ≤ m)
        → unsigned_abs by ≤ n → 2 ^ 127 ≤ m * n }
{
    let mut at = 0;
    while at < nums.len() {
        let Some(product) = nums[at].checked_mul(by) else {
            return None;
        };
        nums[at] = product;
        at += 1;
    }
    Some(())
}

/// The numbers with the limit as the value of the atom.
fn moved(numbers: Numbers, atom: u32, limit: Limit) -> Option<Numbers>
    requires within { atom < length numbers.nums.items }
    ensures count { IfSome result (λ new. length new.nums.items ≡ length numbers.nums.items) }
    ensures value { IfSome result (λ new. IsMoved atom limit
        (coordinate numbers.nums.items) numbers.den (coordinate new.nums.items) new.den) }
    ensures past { IsNone result → (c d n : ℕ)
        → ((a : ℕ) → unsigned_abs (coordinate numbers.nums.items a) ≤ n)
        → unsigned_abs numbers.den ≤ d → unsigned_abs limit.den ≤ c
        → (2 ^ 127 ≤ n * c) ⊎ (2 ^ 127 ≤ d * c) }
{
    let Numbers { den, mut nums } = numbers;
    let den = den.checked_mul(limit.den)?;
    multiply(&mut nums, limit.den)?;
    nums[atom as usize] = limit.num;
    Some(Numbers { den, nums })
}

/// Gives the atom of a stage its value: the greatest lower limit, or else the least upper one, or
/// else 0. `None` says that a number is past 128 bits.
fn give_value(stage: &Stage, numbers: Numbers) -> Option<Numbers>
    requires from { All (λ e. From stage.now.atom e.row.parts) stage.now.entries }
    requires within { stage.now.atom < length numbers.nums.items }
    requires up { pos 0 <ℤ numbers.den }
    requires still_zero { coordinate numbers.nums.items stage.now.atom ≡ pos 0 }
    requires lowest { IsLowest (coordinate numbers.nums.items) numbers.den }
    ensures count { IfSome result (λ new. length new.nums.items ≡ length numbers.nums.items) }
    ensures value { IfSome result (λ new. IsNextPoint stage.now.atom stage.now.entries
        (coordinate numbers.nums.items) numbers.den (coordinate new.nums.items) new.den) }
    ensures past { IsNone result
        → IsPast (coordinate numbers.nums.items) numbers.den stage.now.entries }
{
    match chosen(
        stage.entries.as_slice(),
        stage.atom,
        numbers.den,
        &numbers.nums,
    ) {
        None => None,
        Some(None) => Some(numbers),
        Some(Some(limit)) => moved(numbers, stage.atom, reduced(limit)),
    }
}

/// The count, or one more than the greatest atom of the parts.
fn count_with(parts: &[(u32, i128)], count: usize) -> usize
    ensures up { count ≤ result }
    ensures past { All (λ part. part.0 < result) parts.now }
{
    let mut most = count;
    for part in parts {
        most = usize::max(most, part.0 as usize + 1);
    }
    most
}

/// One more than the greatest atom of the rows.
fn atom_count(rows: &[Row]) -> usize
    ensures { All (λ row. All (λ part. part.0 < result) row.parts) rows.now }
{
    let mut count = 0;
    for row in rows {
        count = count_with(row.parts.as_slice(), count);
    }
    count
}

/// The point of the stages, from the last atom to the first, or `Far` where a number of it is past
/// 128 bits.
pub(crate) fn point(alloc: Global, rows: &[Row], whole: &Elimination) -> Leaf
    requires { IsEliminated rows.now whole.now }
    ensures { IsLeaf rows.now result }
{
    let Ok(nums) = zeros(alloc, atom_count(rows)) else {
        return Leaf::NoMemory;
    };
    let stages = whole.stages.as_slice();
    let mut numbers = Numbers { den: 1, nums };
    let mut left = stages.len();
    while left > 0 {
        let stage = &stages[left - 1];
        numbers = match give_value(stage, numbers) {
            Some(next) => next,
            None => return Leaf::Far(stage.atom),
        };
        left -= 1;
    }
    let Numbers { den, nums } = numbers;
    Leaf::Point { den, nums }
}

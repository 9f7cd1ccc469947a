ghost use Rattle.std.specs.Prelude.{◌≡◌, ◌≤◌, ◌<◌, ◌+◌, ◌*◌, ◌^◌, ℕ, ℤ, pos, ◌<ℤ◌, ◌≤ℤ◌, ◌+ℤ◌, ◌*ℤ◌, List, [], ◌∷◌, ◌++◌, length, true, false, unsigned_abs, IfSome, IsNone};
ghost use Rattle.std.specs.List.{All};
ghost use Rattle.std.specs.Int.{◌∣◌};
ghost use Rattle.linear_rows.specs.Numbers.{is_zero};
ghost use Rattle.linear_rows.specs.Sums.{From, dot, coefficient};
ghost use Rattle.linear_certs.specs.declared.entry.Entry.{Entry};
ghost use Rattle.linear_certs.specs.Answers.{coordinate};
ghost use Rattle.linear_certs.specs.Code.Limits.{side_of, room, AreSizes, IsPast, IsLimitOf, IsTighter, IsBest, IsChosen, IsReduced};

use crate::divisor::divisor;
use crate::entry::Entry;
use crate::pair::{coefficient_of, is_lower, is_upper};

/// A number over a denominator above 0.
#[derive(Clone, Copy, Debug)]
pub(crate) struct Limit {
    pub num: i128,
    pub den: i128,
}

fn number_of(nums: &[i128], atom: u32) -> i128
    ensures { result ≡ coordinate nums.now atom }
{
    if (atom as usize) < nums.len() {
        nums[atom as usize]
    } else {
        0
    }
}

/// `sum + factor * number`, where it fits 128 bits.
fn plus_part(sum: i128, factor: i128, number: i128) -> Option<i128>
    ensures value { IfSome result (λ new. new ≡ sum +ℤ factor *ℤ number) }
    ensures past { IsNone result → (s p : ℕ) → unsigned_abs sum ≤ s
        → unsigned_abs (factor *ℤ number) ≤ p → 2 ^ 127 ≤ s + p }
{
    let product = factor.checked_mul(number)?;
    sum.checked_add(product)
}

/// What the parts come to at the numbers, where it fits 128 bits.
fn dot(parts: &[(u32, i128)], nums: &[i128]) -> Option<i128>
    ensures value { IfSome result (λ sum. sum ≡ dot (coordinate nums.now) parts.now) }
    ensures past { IsNone result → (coefficient num : ℕ)
        → All (λ part. unsigned_abs part.1 ≤ coefficient) parts.now
        → ((atom : ℕ) → unsigned_abs (coordinate nums.now atom) ≤ num)
        → 2 ^ 127 ≤ length parts.now * (coefficient * num) }
{
    let mut sum = 0;
    let mut at = 0;
    while at < parts.len() {
        let (atom, factor) = parts[at];
        let Some(next) = plus_part(sum, factor, number_of(nums, atom)) else {
            return None;
        };
        sum = next;
        at += 1;
    }
    Some(sum)
}

/// What the row leaves to its atom, times the denominator, where it fits 128 bits.
fn room(entry: &Entry, den: i128, nums: &[i128]) -> Option<i128>
    ensures value { IfSome result (λ left. left ≡ room (coordinate nums.now) den entry.now) }
    ensures past { IsNone result → (atoms coefficient bound most num : ℕ)
        → AreSizes atoms coefficient bound most num (coordinate nums.now) den (entry.now ∷ [])
        → 2 ^ 127 ≤ bound * most + atoms * coefficient * num }
{
    let rest = dot(entry.row.parts.as_slice(), nums)?;
    let whole = entry.row.bound.checked_mul(den)?;
    whole.checked_sub(rest)
}

/// `num / den`, or `-num / -den` where `den` is below 0.
fn with_sign(num: i128, den: i128) -> Option<Limit>
    requires { is_zero den ≡ false }
    ensures value { IfSome result (λ limit. (pos 0 <ℤ limit.den)
        × (den *ℤ limit.num ≡ num *ℤ limit.den)
        × (unsigned_abs limit.num ≡ unsigned_abs num)
        × (unsigned_abs limit.den ≡ unsigned_abs den)) }
    ensures past { IsNone result → (m n : ℕ) → unsigned_abs num ≤ m → unsigned_abs den ≤ n
        → 2 ^ 127 ≤ m + n }
{
    if den > 0 {
        return Some(Limit { num, den });
    }
    let num = num.checked_neg()?;
    let den = den.checked_neg()?;
    Some(Limit { num, den })
}

/// The limit that a row sets to its atom, where it fits 128 bits.
fn limit_of(entry: &Entry, atom: u32, den: i128, nums: &[i128]) -> Option<Limit>
    requires from { From atom entry.now.row.parts }
    requires has { is_zero (coefficient atom entry.now.row.parts) ≡ false }
    ensures limit { IfSome result
        (IsLimitOf atom (coordinate nums.now) den (entry.now ∷ []) entry.now) }
    ensures past { IsNone result → pos 0 <ℤ den → IsPast (coordinate nums.now) den (entry.now ∷ []) }
{
    let left = room(entry, den, nums)?;
    with_sign(left, coefficient_of(&entry.row, atom))
}

/// Whether the one limit is above the other.
fn is_above(limit: Limit, other: Limit) -> Option<bool>
    ensures yes { result ≡ Some true → (other.num *ℤ limit.den) ≤ℤ (limit.num *ℤ other.den) }
    ensures no { result ≡ Some false → (limit.num *ℤ other.den) ≤ℤ (other.num *ℤ limit.den) }
    ensures past { IsNone result → (m n : ℕ)
        → unsigned_abs limit.num ≤ m → unsigned_abs other.num ≤ m
        → unsigned_abs limit.den ≤ n → unsigned_abs other.den ≤ n → 2 ^ 127 ≤ m * n }
{
    let first = limit.num.checked_mul(other.den)?;
    let second = other.num.checked_mul(limit.den)?;
    Some(first > second)
}

/// The tighter one of two lower limits, or of two upper ones.
fn tighter(limit: Limit, other: Limit, lower: bool) -> Option<Limit>
    ensures chosen { IfSome result (IsTighter lower limit other) }
    ensures past { IsNone result → (m n : ℕ)
        → unsigned_abs limit.num ≤ m → unsigned_abs other.num ≤ m
        → unsigned_abs limit.den ≤ n → unsigned_abs other.den ≤ n → 2 ^ 127 ≤ m * n }
{
    let above = is_above(limit, other)?;
    Some(if above == lower { limit } else { other })
}

fn is_on_side(entry: &Entry, atom: u32, lower: bool) -> bool
    requires { From atom entry.now.row.parts }
    ensures { result ≡ side_of lower atom entry.now }
{
    if lower {
        is_lower(entry, atom)
    } else {
        is_upper(entry, atom)
    }
}

/// The tightest limit with one row more.
fn tightened(
    best: Option<Limit>,
    entry: &Entry,
    atom: u32,
    den: i128,
    nums: &[i128],
    lower: bool,
) -> Option<Option<Limit>>
    requires { From atom entry.now.row.parts }
    ensures best { (seen : List Entry) → IsBest lower atom (coordinate nums.now) den seen best
        → IfSome result (IsBest lower atom (coordinate nums.now) den (seen ++ entry.now ∷ [])) }
    ensures past { IsNone result → pos 0 <ℤ den → (seen : List Entry)
        → IsBest lower atom (coordinate nums.now) den seen best
        → IsPast (coordinate nums.now) den (seen ++ entry.now ∷ []) }
{
    if !is_on_side(entry, atom, lower) {
        return Some(best);
    }
    let limit = limit_of(entry, atom, den, nums)?;
    match best {
        None => Some(Some(limit)),
        Some(other) => Some(Some(tighter(limit, other, lower)?)),
    }
}

/// The tightest limit that the lower rows set, or the upper ones. The outer `None` says that a
/// number is past 128 bits, and the inner one that there is no such row.
fn tightest(
    entries: &[Entry],
    atom: u32,
    den: i128,
    nums: &[i128],
    lower: bool,
) -> Option<Option<Limit>>
    requires from { All (λ e. From atom e.row.parts) entries.now }
    requires up { pos 0 <ℤ den }
    ensures best { IfSome result (IsBest lower atom (coordinate nums.now) den entries.now) }
    ensures past { IsNone result → IsPast (coordinate nums.now) den entries.now }
{
    let mut best = None;
    for entry in entries {
        best = match tightened(best, entry, atom, den, nums, lower) {
            Some(next) => next,
            None => return None,
        };
    }
    Some(best)
}

/// The limit that gives the atom of a stage its value: the greatest lower one, or else the least
/// upper one.
pub(crate) fn chosen(
    entries: &[Entry],
    atom: u32,
    den: i128,
    nums: &[i128],
) -> Option<Option<Limit>>
    requires from { All (λ e. From atom e.row.parts) entries.now }
    requires up { pos 0 <ℤ den }
    ensures chosen { IfSome result (IsChosen atom (coordinate nums.now) den entries.now) }
    ensures past { IsNone result → IsPast (coordinate nums.now) den entries.now }
{
    match tightest(entries, atom, den, nums, true) {
        None => None,
        Some(Some(limit)) => Some(Some(limit)),
        Some(None) => tightest(entries, atom, den, nums, false),
    }
}

/// The limit in lowest terms.
pub(crate) fn reduced(limit: Limit) -> Limit
    requires { pos 0 <ℤ limit.den }
    ensures { IsReduced limit result }
{
    if limit.num == 0 {
        return Limit { num: 0, den: 1 };
    }
    let common = divisor(limit.num.unsigned_abs(), limit.den.unsigned_abs()) as i128;
    Limit {
        num: limit.num / common,
        den: limit.den / common,
    }
}

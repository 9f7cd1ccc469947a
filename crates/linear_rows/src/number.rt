ghost use Rattle.std.specs.Prelude.{◌≡◌, ◌+ℤ◌, ◌*ℤ◌, true};
ghost use Rattle.linear_rows.specs.Numbers.{fits, kept};

/// 2^100.
const LIMIT: i128 = 1267650600228229401496703205376;

pub(crate) fn is_small(number: i128) -> bool
    ensures { result ≡ fits number }
{
    -LIMIT <= number && number <= LIMIT
}

pub(crate) fn keep(number: i128) -> Option<i128>
    requires { fits number ≡ true }
    ensures { result ≡ kept number }
{
    Some(number)
}

/// `number + times * factor`, where it is at most 2^100 in size.
pub(crate) fn plus(number: i128, times: i128, factor: i128) -> Option<i128>
    requires { fits number ≡ true }
    ensures { result ≡ kept (number +ℤ (times *ℤ factor)) }
{
    let product = times.checked_mul(factor)?;
    let sum = number.checked_add(product)?;
    if is_small(sum) { Some(sum) } else { None }
}

ghost use Rattle.std.specs.Prelude.{◌≡◌, ◌^◌, ◌≤◌, IfSome, Some};
ghost use Rattle.cert_form.specs.Code.Numbers.{multiplier_in, positive_in, digits_from, with_digit};

/// The number that the text of a multiplier stands for.
pub(crate) fn read_multiplier(text: &[u8]) -> Option<i128>
    ensures { result ≡ multiplier_in text.now }
{
    let (first, rest) = text.split_first()?;
    match *first {
        b'-' => {
            let size = read_positive(rest)?;
            Some(-(size as i128))
        }
        b'0' => { if rest.is_empty() { Some(0) } else { None } }
        _ => {
            let size = read_positive(text)?;
            Some(size as i128)
        }
    }
}

fn read_positive(text: &[u8]) -> Option<u128>
    ensures value { result ≡ positive_in text.now }
    ensures bound { IfSome result (λ n. n ≤ 2 ^ 100) }
{
    let (first, _) = text.split_first()?;
    if *first == b'0' {
        return None;
    }
    read_digits(text)
}

#[tactic(auto, using(crate::proofs::Digits::digits))]
fn read_digits(text: &[u8]) -> Option<u128>
    ensures value { result ≡ digits_from (Some 0) text.now }
    ensures bound { IfSome result (λ n. n ≤ 2 ^ 100) }
{
    let mut size: u128 = 0;
    for digit in text {
        match add_digit(size, *digit) {
            Some(more) => size = more,
            None => return None,
        }
    }
    Some(size)
}

// One digit more, unless the number passes the bound.
fn add_digit(size: u128, digit: u8) -> Option<u128>
    requires { size ≤ 2 ^ 100 }
    ensures value { result ≡ with_digit digit size }
    ensures bound { IfSome result (λ n. n ≤ 2 ^ 100) }
{
    if digit < b'0' || digit > b'9' {
        return None;
    }
    let more = 10 * size + u128::from(digit - b'0');
    if more <= 1 << 100 { Some(more) } else { None }
}

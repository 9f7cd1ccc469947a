ghost use Rattle.std.specs.Prelude.{◌≡◌, ◌<◌, ◌*◌, ℕ};
ghost use Rattle.std.specs.Int.{◌∣◌};
ghost use Rattle.linear_certs.specs.Divisors.{gcd};

/// The greatest common divisor, by Euclid.
pub(crate) fn divisor(left: u128, right: u128) -> u128
    requires left_up { 0 < left }
    requires right_up { 0 < right }
    ensures value { result ≡ gcd left right }
    ensures up { 0 < result }
    ensures divides { (result ∣ left) × (result ∣ right) }
    ensures scales { (m s : ℕ) → m ∣ (left * s) → m ∣ (right * s) → m ∣ (result * s) }
{
    let mut a = left;
    let mut b = right;
    while b != 0 {
        let rest = a % b;
        a = b;
        b = rest;
    }
    a
}

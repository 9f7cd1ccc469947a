ghost use Rattle.std.specs.Prelude.{◌≡◌, ℕ, ℤ, List, ◌+ℤ◌, ◌*ℤ◌};
ghost use Rattle.linear_rows.specs.declared.row.Row.{Row};
ghost use Rattle.linear_rows.specs.Sums.{plus_times, coefficient, dot, IsInForm};
ghost use Rattle.linear_rows.specs.Combinations.{combination, AreAllowed, IsConstantFalse, AreUnsatisfiable};

/// At each point the sum of rows is the sum of what the rows are there.
pub fn sum_is_true()
    ensures { (point : ℕ → ℤ) (left : Row) (times : ℤ) (right : Row) → dot point (plus_times left times right).parts ≡ dot point left.parts +ℤ times *ℤ dot point right.parts }
{}

/// The sum of two rows in form is in form.
pub fn sum_is_in_form()
    ensures { (left : Row) (times : ℤ) (right : Row) → IsInForm left → IsInForm right → IsInForm (plus_times left times right) }
{}

/// Of rows in form each coefficient of the sum is the sum of the coefficients.
pub fn sum_has_coefficients()
    ensures { (left : Row) (times : ℤ) (right : Row) (atom : ℕ) → IsInForm left → IsInForm right → coefficient atom (plus_times left times right).parts ≡ coefficient atom left.parts +ℤ times *ℤ coefficient atom right.parts }
{}

/// Where rows with allowed multipliers add up to a constant that is false, no point makes all of
/// them true.
pub fn combination_refutes()
    ensures { (rows : List Row) (multipliers : List ℤ) → AreAllowed rows multipliers → IsConstantFalse (combination rows multipliers) → AreUnsatisfiable rows }
{}

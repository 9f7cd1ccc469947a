//! Values, and the arithmetic of `int`.

ghost use Rattle.std.specs.Prelude.{◌≡◌};
ghost use Rattle.c_lang.specs.Values.{is_zero};
ghost use Rattle.plain_run.specs.Code.Arithmetic as spec;
ghost use Rattle.plain_run.specs.Values.{number_of};

use c_lang::{Op, Trap};

/// A number, a function or null.
#[derive(Clone, Copy, Debug)]
pub enum Value<F> {
    Num(i32),
    Code(F),
    Null,
}

/// A value, or the trap that its evaluation ended in.
pub type Answer<F> = Result<Value<F>, Trap>;

impl<F: Copy> Value<F> {
    /// The number, and 0 for what is none.
    pub fn number(&self) -> i32
        ensures { result ≡ number_of self.now }
    {
        match self {
            Value::Num(number) => *number,
            Value::Code(_) | Value::Null => 0,
        }
    }

    /// Whether the number is 0.
    pub fn is_zero(&self) -> bool
        ensures { result ≡ is_zero (number_of self.now) }
    {
        self.number() == 0
    }
}

// 1 or 0.
pub(crate) fn truth(truth: bool) -> i32
    ensures { result ≡ spec.truth truth }
{
    if truth { 1 } else { 0 }
}

// What `&&` and `||` give without their right operand, where the left one decides.
pub(crate) fn settled(op: Op, left: i32) -> Option<i32>
    ensures { result ≡ spec.settled op left }
{
    match op {
        Op::And => { if left == 0 { Some(0) } else { None } }
        Op::Or => { if left == 0 { None } else { Some(1) } }
        Op::Mul
        | Op::Div
        | Op::Rem
        | Op::Add
        | Op::Sub
        | Op::Lt
        | Op::Le
        | Op::Gt
        | Op::Ge
        | Op::Eq
        | Op::Ne => None,
    }
}

pub(crate) fn negated(number: i32) -> Result<i32, Trap>
    ensures { result ≡ spec.negated number }
{
    match 0i32.checked_sub(number) {
        Some(number) => Ok(number),
        None => Err(Trap::Overflow),
    }
}

fn sum(a: i32, b: i32) -> Result<i32, Trap>
    ensures { result ≡ spec.sum a b }
{
    match a.checked_add(b) {
        Some(number) => Ok(number),
        None => Err(Trap::Overflow),
    }
}

fn difference(a: i32, b: i32) -> Result<i32, Trap>
    ensures { result ≡ spec.difference a b }
{
    match a.checked_sub(b) {
        Some(number) => Ok(number),
        None => Err(Trap::Overflow),
    }
}

fn product(a: i32, b: i32) -> Result<i32, Trap>
    ensures { result ≡ spec.product a b }
{
    match a.checked_mul(b) {
        Some(number) => Ok(number),
        None => Err(Trap::Overflow),
    }
}

fn quotient(a: i32, b: i32) -> Result<i32, Trap>
    ensures { result ≡ spec.quotient a b }
{
    if b == 0 {
        return Err(Trap::Divide);
    }
    match a.checked_div(b) {
        Some(number) => Ok(number),
        None => Err(Trap::Overflow),
    }
}

fn remainder(a: i32, b: i32) -> Result<i32, Trap>
    ensures { result ≡ spec.remainder a b }
{
    if b == 0 {
        return Err(Trap::Divide);
    }
    match a.checked_rem(b) {
        Some(number) => Ok(number),
        None => Err(Trap::Overflow),
    }
}

// An operator on the numbers of both operands, which may be the same value.
pub(crate) fn applied(op: Op, a: i32, b: i32, same: bool) -> Result<i32, Trap>
    ensures { result ≡ spec.applied op a b same }
{
    match op {
        Op::Mul => product(a, b),
        Op::Div => quotient(a, b),
        Op::Rem => remainder(a, b),
        Op::Add => sum(a, b),
        Op::Sub => difference(a, b),
        Op::Lt => Ok(truth(a < b)),
        Op::Le => Ok(truth(a <= b)),
        Op::Gt => Ok(truth(b < a)),
        Op::Ge => Ok(truth(b <= a)),
        Op::Eq => Ok(truth(same)),
        Op::Ne => Ok(truth(!same)),
        Op::And => Ok(truth(a != 0 && b != 0)),
        Op::Or => Ok(truth(a != 0 || b != 0)),
    }
}

ghost use Rattle.std.specs.Prelude.{◌≡◌, ◌≤◌};
ghost use Rattle.c_lang.specs.Operators.{level, operator_text};

use crate::Name;
use sqlite_items::Boxed;

/// A binary operator.
#[derive(Clone, Copy, Debug, PartialEq, Eq)]
pub enum Op {
    Mul,
    Div,
    Rem,
    Add,
    Sub,
    Lt,
    Le,
    Gt,
    Ge,
    Eq,
    Ne,
    And,
    Or,
}

impl Op {
    /// How tightly the operator binds: 1 for `||` up to 6 for `*`, `/` and `%`.
    pub fn level(self) -> u8
        ensures value { result ≡ level self }
        ensures bound { result ≤ 6 }
    {
        match self {
            Op::Or => 1,
            Op::And => 2,
            Op::Eq | Op::Ne => 3,
            Op::Lt | Op::Le | Op::Gt | Op::Ge => 4,
            Op::Add | Op::Sub => 5,
            Op::Mul | Op::Div | Op::Rem => 6,
        }
    }

    /// The operator as a source writes it.
    pub fn as_bytes(self) -> &'static [u8]
        ensures { result.now ≡ operator_text self }
    {
        match self {
            Op::Or => b"||",
            Op::And => b"&&",
            Op::Eq => b"==",
            Op::Ne => b"!=",
            Op::Lt => b"<",
            Op::Le => b"<=",
            Op::Gt => b">",
            Op::Ge => b">=",
            Op::Add => b"+",
            Op::Sub => b"-",
            Op::Mul => b"*",
            Op::Div => b"/",
            Op::Rem => b"%",
        }
    }
}

/// An expression. `FunRef` and `Null` come from typing: a function's name as a value, and the
/// literal 0 in a pointer's place.
#[derive(Debug, Drop)]
pub enum Expr {
    Lit(i32),
    Var(Name),
    Elem(Name, Boxed<Expr>),
    FunRef(Name),
    Null,
    Neg(Boxed<Expr>),
    Not(Boxed<Expr>),
    Bin(Op, Boxed<Expr>, Boxed<Expr>),
}

use crate::Sym;
use crate::part::{ArrayRef, FormRef, TermRef};

/// A term by its outermost operator.
#[derive(Debug, Drop)]
pub enum TermView<'a> {
    Num(i128),
    Of(&'a Sym),
    Add(TermRef<'a>, TermRef<'a>),
    Sub(TermRef<'a>, TermRef<'a>),
    Mul(TermRef<'a>, TermRef<'a>),
    Div(TermRef<'a>, TermRef<'a>),
    Rem(TermRef<'a>, TermRef<'a>),
    Read(ArrayRef<'a>, TermRef<'a>),
    Truth(FormRef<'a>),
}

/// An array by its outermost operator.
#[derive(Debug, Drop)]
pub enum ArrayView<'a> {
    Base(&'a Sym),
    Store(ArrayRef<'a>, TermRef<'a>, TermRef<'a>),
}

/// A form by its outermost operator.
#[derive(Debug, Drop)]
pub enum FormView<'a> {
    True,
    False,
    Le(TermRef<'a>, TermRef<'a>),
    Eq(TermRef<'a>, TermRef<'a>),
    Not(FormRef<'a>),
    And(FormRef<'a>, FormRef<'a>),
    Or(FormRef<'a>, FormRef<'a>),
}

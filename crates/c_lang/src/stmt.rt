ghost use Rattle.std.specs.Prelude.{◌≡◌};
ghost use Rattle.c_lang.specs.Kinds as spec;

use crate::{Expr, Name, Pos};
use sqlite_items::{Boxed, Items};

/// The kind of a value: a number, or a pointer to a function with this many `int` parameters.
#[derive(Clone, Copy, Debug, PartialEq, Eq)]
pub enum Kind {
    Int,
    Fp(u8),
}

impl Kind {
    /// Whether both are the same kind.
    pub fn same_as(self, other: Kind) -> bool
        ensures { result ≡ spec.same_kind self other }
    {
        match (self, other) {
            (Kind::Int, Kind::Int) => true,
            (Kind::Fp(m), Kind::Fp(n)) => m == n,
            _ => false,
        }
    }
}

/// Whether both lists have the same kinds in the same order.
pub fn same_kinds(left: &[Kind], right: &[Kind]) -> bool
    ensures { result ≡ spec.same_kinds left.now right.now }
{
    let mut others = right;
    for kind in left {
        let [other, rest @ ..] = others else {
            return false;
        };
        if !kind.same_as(*other) {
            return false;
        }
        others = rest;
    }
    others.is_empty()
}

/// Whether both functions give a value, or neither does.
pub fn same_result(left: bool, right: bool) -> bool
    ensures { result ≡ spec.same_result left right }
{
    if left { right } else { !right }
}

/// Where a result goes: nowhere, into a name that stands already, or into a local declared here.
#[derive(Debug, Drop)]
pub enum Dest {
    Nowhere,
    Into(Name),
    Fresh(Kind, Name),
}

/// A statement, with the line of its first token.
#[derive(Debug, Drop)]
pub enum Stmt {
    Skip {
        pos: Pos,
    },
    Set {
        pos: Pos,
        dest: Dest,
        value: Expr,
    },
    SetElem {
        pos: Pos,
        array: Name,
        index: Expr,
        value: Expr,
    },
    Call {
        pos: Pos,
        dest: Dest,
        callee: Name,
        args: Items<Expr>,
    },
    /// A call through a pointer.
    CallBy {
        pos: Pos,
        dest: Dest,
        pointer: Name,
        args: Items<Expr>,
    },
    If {
        pos: Pos,
        cond: Expr,
        yes: Items<Stmt>,
        no: Items<Stmt>,
    },
    While {
        pos: Pos,
        cond: Expr,
        body: Items<Stmt>,
    },
    Break {
        pos: Pos,
    },
    Return {
        pos: Pos,
        value: Option<Expr>,
    },
    Assert {
        pos: Pos,
        cond: Expr,
    },
    /// `client_in()`.
    Input {
        pos: Pos,
        dest: Dest,
    },
    /// `client_out(value)`.
    Output {
        pos: Pos,
        value: Expr,
    },
    /// `dsu_update(k)`, a point at which an update may happen.
    Point {
        pos: Pos,
        k: u32,
    },
    /// `dsu_choice(k)`, which stands in merged programs alone.
    Choice {
        pos: Pos,
        dest: Dest,
        k: u32,
    },
    /// `dsu_force()`, which stands in clients alone.
    Force {
        pos: Pos,
    },
    /// A client's choice between a call for the time after the update and one for the time before.
    Pick {
        pos: Pos,
        after: Boxed<Stmt>,
        before: Boxed<Stmt>,
    },
}

//! Whether the end of a list of statements can be reached. It takes no memory.

ghost use Rattle.std.specs.Prelude.{◌≡◌, map};
ghost use Rattle.c_lang.specs.Trees.{expression_of, statement_of};
ghost use Rattle.c_types.specs.Bodies.{body_of};
ghost use Rattle.c_types.specs.Endings as spec;

use c_lang::{Expr, Stmt};

fn is_forever(cond: &Expr) -> bool
    ensures { result ≡ spec.is_forever (expression_of cond.now) }
{
    match cond {
        Expr::Lit(z) => *z != 0,
        _ => false,
    }
}

#[cycle(breaks)]
fn breaks(s: &Stmt) -> bool
    ensures { result ≡ spec.breaks (statement_of s.now) }
{
    match s {
        Stmt::If { yes, no, .. } => any_breaks(yes.as_slice()) || any_breaks(no.as_slice()),
        Stmt::Break { .. } => true,
        _ => false,
    }
}

#[cycle(breaks)]
fn any_breaks(stmts: &[Stmt]) -> bool
    ensures { result ≡ spec.any_breaks (body_of stmts.now) }
{
    for s in stmts {
        if breaks(s) {
            return true;
        }
    }
    false
}

#[cycle(ends)]
fn ends(s: &Stmt) -> bool
    ensures { result ≡ spec.ends (statement_of s.now) }
{
    match s {
        Stmt::Return { .. } | Stmt::Break { .. } => false,
        Stmt::If { yes, no, .. } => can_end(yes.as_slice()) || can_end(no.as_slice()),
        Stmt::While { cond, body, .. } => !(is_forever(cond) && !any_breaks(body.as_slice())),
        _ => true,
    }
}

/// Whether the end of these statements can be reached.
#[cycle(ends)]
pub fn can_end(stmts: &[Stmt]) -> bool
    ensures { result ≡ spec.can_end (body_of stmts.now) }
{
    for s in stmts {
        if !ends(s) {
            return false;
        }
    }
    true
}

//! Expressions and destinations under the names of the merged program. The only error of each function is
//! want of memory.

ghost use Rattle.std.specs.Prelude.{◌≡◌, IfOk};
ghost use Rattle.c_lang.specs.Trees as tree;
ghost use Rattle.c_lang.specs.Trees.{expression_of};
ghost use Rattle.update_semantics.specs.Linked.{provenance_of};
ghost use Rattle.merged_program.specs.Code.Built as built;

use crate::names::{function, variable};
use c_lang::{Dest, Expr, Name, Op};
use sqlite_items::{Boxed, Items};
use std::alloc::{AllocError, Global};
use update_semantics::{Meanings, Provenance};

/// An expression of code of this origin.
#[cycle(renamed)]
pub fn renamed(
    alloc: Global,
    meanings: &Meanings<'_>,
    origin: Provenance,
    e: &Expr,
) -> Result<Expr, AllocError>
    ensures { IfOk result (λ r. r ≡ built.expression meanings.now (provenance_of origin) e.now) }
{
    match e {
        Expr::Lit(z) => Ok(Expr::Lit(*z)),
        Expr::Var(x) => Ok(Expr::Var(variable(alloc, meanings, origin, x)?)),
        Expr::Elem(a, i) => element(alloc, meanings, origin, a, i.get()),
        Expr::FunRef(f) => Ok(Expr::FunRef(function(alloc, meanings, origin, f)?)),
        Expr::Null => Ok(Expr::Null),
        Expr::Neg(a) => Ok(Expr::Neg(boxed(alloc, meanings, origin, a.get())?)),
        Expr::Not(a) => Ok(Expr::Not(boxed(alloc, meanings, origin, a.get())?)),
        Expr::Bin(op, a, b) => binary(alloc, meanings, origin, *op, a.get(), b.get()),
    }
}

#[cycle(renamed)]
fn element(
    alloc: Global,
    meanings: &Meanings<'_>,
    origin: Provenance,
    array: &Name,
    index: &Expr,
) -> Result<Expr, AllocError>
    ensures { IfOk result (λ r. r ≡ built.mirrored_expression meanings.now (provenance_of origin) (tree.element array.now (expression_of index.now))) }
{
    let index = boxed(alloc, meanings, origin, index)?;
    let array = variable(alloc, meanings, origin, array)?;
    Ok(Expr::Elem(array, index))
}

#[cycle(renamed)]
fn binary(
    alloc: Global,
    meanings: &Meanings<'_>,
    origin: Provenance,
    op: Op,
    left: &Expr,
    right: &Expr,
) -> Result<Expr, AllocError>
    ensures { IfOk result (λ r. r ≡ built.mirrored_expression meanings.now (provenance_of origin) (tree.binary op (expression_of left.now) (expression_of right.now))) }
{
    let left = boxed(alloc, meanings, origin, left)?;
    let right = boxed(alloc, meanings, origin, right)?;
    Ok(Expr::Bin(op, left, right))
}

/// The same in a box, where other work comes before its use.
#[cycle(renamed)]
pub fn boxed(
    alloc: Global,
    meanings: &Meanings<'_>,
    origin: Provenance,
    e: &Expr,
) -> Result<Boxed<Expr>, AllocError>
    ensures { IfOk result (λ r. r ≡ built.expression meanings.now (provenance_of origin) e.now) }
{
    Boxed::new(alloc, renamed(alloc, meanings, origin, e)?)
}

/// The arguments of a call.
pub fn arguments(
    alloc: Global,
    meanings: &Meanings<'_>,
    origin: Provenance,
    args: &[Expr],
) -> Result<Items<Expr>, AllocError>
    ensures { IfOk result (λ r. r ≡ built.expressions meanings.now (provenance_of origin) args.now) }
{
    let mut all = Items::new(alloc);
    for e in args {
        all.push(renamed(alloc, meanings, origin, e)?)?;
    }
    Ok(all)
}

/// The value of a `return`.
pub fn optional(
    alloc: Global,
    meanings: &Meanings<'_>,
    origin: Provenance,
    value: &Option<Expr>,
) -> Result<Option<Expr>, AllocError>
    ensures { IfOk result (λ r. r ≡ built.optional meanings.now (provenance_of origin) value.now) }
{
    match value {
        None => Ok(None),
        Some(e) => Ok(Some(renamed(alloc, meanings, origin, e)?)),
    }
}

/// Where a result goes.
pub fn dest(
    alloc: Global,
    meanings: &Meanings<'_>,
    origin: Provenance,
    d: &Dest,
) -> Result<Dest, AllocError>
    ensures { IfOk result (λ r. r ≡ built.dest meanings.now (provenance_of origin) d.now) }
{
    match d {
        Dest::Nowhere => Ok(Dest::Nowhere),
        Dest::Into(x) => Ok(Dest::Into(variable(alloc, meanings, origin, x)?)),
        Dest::Fresh(kind, x) => Ok(Dest::Fresh(*kind, variable(alloc, meanings, origin, x)?)),
    }
}

//! Names and expressions of a client as its resolved form spells them. The only error of each function is
//! want of memory.

ghost use Rattle.std.specs.Prelude.{◌≡◌, IfOk};
ghost use Rattle.c_lang.specs.Trees as tree;
ghost use Rattle.c_lang.specs.Trees.{expression_of};
ghost use Rattle.client_specs.specs.Code.Built as built;
ghost use Rattle.client_specs.specs.Spelled as spec;
ghost use Rattle.version_names.specs.Parts.{parts_in};

use crate::region::Region;
use c_lang::{Expr, Name, Op};
use sqlite_items::{Boxed, Items};
use std::alloc::{AllocError, Global};
use version_names::{Links, Origin, Part, Sort2, Version, merged_name};

fn version_at(region: Region) -> Version
    ensures { result ≡ spec.version_at region }
{
    match region {
        Region::Here | Region::Before => Version::Old,
        Region::Behind | Region::After => Version::New,
    }
}

/// The name of a function.
pub fn function(
    alloc: Global,
    links: &Links,
    region: Region,
    name: &Name,
) -> Result<Name, AllocError>
    ensures { IfOk result (λ spelled. spelled ≡ spec.spelled (parts_in links.now) region name.now) }
{
    match links.of(version_at(region), Sort2::Code, name) {
        None | Some(Part::Both) => name.copy(alloc),
        Some(Part::Old) => merged_name(alloc, Origin::Old, name),
        Some(Part::New) => merged_name(alloc, Origin::New, name),
    }
}

/// An expression at a place of this region.
#[cycle(spelled)]
pub fn spelled(alloc: Global, links: &Links, region: Region, e: &Expr) -> Result<Expr, AllocError>
    ensures { IfOk result (λ r. r ≡ built.expression (parts_in links.now) region e.now) }
{
    match e {
        Expr::Lit(z) => Ok(Expr::Lit(*z)),
        Expr::Var(x) => Ok(Expr::Var(x.copy(alloc)?)),
        Expr::Elem(a, i) => element(alloc, links, region, a, i.get()),
        Expr::FunRef(f) => Ok(Expr::FunRef(function(alloc, links, region, f)?)),
        Expr::Null => Ok(Expr::Null),
        Expr::Neg(a) => Ok(Expr::Neg(boxed(alloc, links, region, a.get())?)),
        Expr::Not(a) => Ok(Expr::Not(boxed(alloc, links, region, a.get())?)),
        Expr::Bin(op, a, b) => binary(alloc, links, region, *op, a.get(), b.get()),
    }
}

#[cycle(spelled)]
fn element(
    alloc: Global,
    links: &Links,
    region: Region,
    array: &Name,
    index: &Expr,
) -> Result<Expr, AllocError>
    ensures { IfOk result (λ r. r ≡ built.mirrored_expression (parts_in links.now) region (tree.element array.now (expression_of index.now))) }
{
    let index = boxed(alloc, links, region, index)?;
    let array = array.copy(alloc)?;
    Ok(Expr::Elem(array, index))
}

#[cycle(spelled)]
fn binary(
    alloc: Global,
    links: &Links,
    region: Region,
    op: Op,
    left: &Expr,
    right: &Expr,
) -> Result<Expr, AllocError>
    ensures { IfOk result (λ r. r ≡ built.mirrored_expression (parts_in links.now) region (tree.binary op (expression_of left.now) (expression_of right.now))) }
{
    let left = boxed(alloc, links, region, left)?;
    let right = boxed(alloc, links, region, right)?;
    Ok(Expr::Bin(op, left, right))
}

/// The same in a box, where other work comes before its use.
#[cycle(spelled)]
pub fn boxed(
    alloc: Global,
    links: &Links,
    region: Region,
    e: &Expr,
) -> Result<Boxed<Expr>, AllocError>
    ensures { IfOk result (λ r. r ≡ built.expression (parts_in links.now) region e.now) }
{
    Boxed::new(alloc, spelled(alloc, links, region, e)?)
}

/// The arguments of a call.
pub fn arguments(
    alloc: Global,
    links: &Links,
    region: Region,
    args: &[Expr],
) -> Result<Items<Expr>, AllocError>
    ensures { IfOk result (λ r. r ≡ built.expressions (parts_in links.now) region args.now) }
{
    let mut all = Items::new(alloc);
    for e in args {
        all.push(spelled(alloc, links, region, e)?)?;
    }
    Ok(all)
}

/// The value of a `return`.
pub fn optional(
    alloc: Global,
    links: &Links,
    region: Region,
    value: &Option<Expr>,
) -> Result<Option<Expr>, AllocError>
    ensures { IfOk result (λ r. r ≡ built.optional (parts_in links.now) region value.now) }
{
    match value {
        None => Ok(None),
        Some(e) => Ok(Some(spelled(alloc, links, region, e)?)),
    }
}

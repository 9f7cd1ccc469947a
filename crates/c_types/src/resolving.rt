//! Expressions with function names and null pointers told apart. Each function's only error is want
//! of memory.

ghost use Rattle.std.specs.Prelude.{◌≡◌, IfOk};
ghost use Rattle.std.specs.Option.{option_copied};
ghost use Rattle.c_lang.specs.Trees as tree;
ghost use Rattle.c_lang.specs.Trees.{expression_of};
ghost use Rattle.c_lang.specs.declared.stmt.Kind.TheVariants.{Int};
ghost use Rattle.c_types.specs.Code.SeenScopes.{seen_scope};
ghost use Rattle.c_types.specs.Code.SeenMeans.{seen_name};
ghost use Rattle.c_types.specs.Names.{meant};
ghost use Rattle.c_types.specs.Scopes.{names_of};
ghost use Rattle.c_types.specs.Expressions as spec;

use crate::expressions::place_of;
use crate::means::Means;
use crate::scope::Scope;
use c_lang::{Expr, Kind, Name};
use sqlite_items::Boxed;
use std::alloc::{AllocError, Global};

fn resolve_name(alloc: Global, name: &Name, means: Option<&Means>) -> Result<Expr, AllocError>
    ensures { IfOk result (λ expr. expr ≡ spec.resolved_name name.now (meant (seen_name (option_copied means.entry)))) }
{
    let name = name.copy(alloc)?;
    match means {
        Some(Means::Code { .. }) => Ok(Expr::FunRef(name)),
        _ => Ok(Expr::Var(name)),
    }
}

fn resolve_literal(place: Kind, number: i32) -> Expr
    ensures { result ≡ spec.resolved_literal place number }
{
    match place {
        Kind::Int => Expr::Lit(number),
        Kind::Fp(_) => Expr::Null,
    }
}

/// The resolved form of an expression at its place.
#[cycle(resolve)]
pub fn resolve(alloc: Global, scope: &Scope, place: Kind, e: &Expr) -> Result<Expr, AllocError>
    ensures { IfOk result (λ expr. expr ≡ spec.resolved (names_of (seen_scope scope.now)) place (expression_of e.now)) }
{
    match e {
        Expr::Lit(z) => Ok(resolve_literal(place, *z)),
        Expr::Var(x) => resolve_name(alloc, x, scope.look(x)),
        Expr::Elem(a, i) => resolve_element(alloc, scope, a, i.get()),
        Expr::FunRef(f) => Ok(Expr::FunRef(f.copy(alloc)?)),
        Expr::Null => Ok(Expr::Null),
        Expr::Neg(a) => Ok(Expr::Neg(boxed(alloc, scope, Kind::Int, a.get())?)),
        Expr::Not(a) => Ok(Expr::Not(boxed(alloc, scope, Kind::Int, a.get())?)),
        Expr::Bin(op, a, b) => {
            let both = place_of(scope, *op, a.get(), b.get());
            let a = boxed(alloc, scope, both, a.get())?;
            let b = boxed(alloc, scope, both, b.get())?;
            Ok(Expr::Bin(*op, a, b))
        }
    }
}

#[cycle(resolve)]
fn resolve_element(alloc: Global, scope: &Scope, a: &Name, i: &Expr) -> Result<Expr, AllocError>
    ensures { IfOk result (λ expr. expr ≡ spec.resolved (names_of (seen_scope scope.now)) Int (tree.element a.now (expression_of i.now))) }
{
    let a = a.copy(alloc)?;
    let i = boxed(alloc, scope, Kind::Int, i)?;
    Ok(Expr::Elem(a, i))
}

/// The same in a box, where other work comes before its use.
#[cycle(resolve)]
pub fn boxed(alloc: Global, scope: &Scope, place: Kind, e: &Expr) -> Result<Boxed<Expr>, AllocError>
    ensures { IfOk result (λ expr. expr ≡ spec.resolved (names_of (seen_scope scope.now)) place (expression_of e.now)) }
{
    Boxed::new(alloc, resolve(alloc, scope, place, e)?)
}

//! Which number refuses an expression at its place. It takes no memory.

ghost use Rattle.std.specs.Prelude.{◌≡◌};
ghost use Rattle.std.specs.Option.{option_copied};
ghost use Rattle.c_lang.specs.Trees.{expression_of};
ghost use Rattle.c_types.specs.Code.SeenScopes.{seen_scope};
ghost use Rattle.c_types.specs.Code.SeenMeans.{seen_name};
ghost use Rattle.c_types.specs.Names.{meant};
ghost use Rattle.c_types.specs.Scopes.{names_of, in_scope};
ghost use Rattle.c_types.specs.Expressions as spec;

use crate::means::{Means, fits, smaller};
use crate::scope::Scope;
use c_lang::{Expr, Kind, Op, refusal};

fn kind_of_name(means: Option<&Means>) -> Option<Kind>
    ensures { result ≡ spec.kind_of_name (meant (seen_name (option_copied means.entry))) }
{
    match means {
        Some(Means::Cell(kind)) => Some(*kind),
        Some(Means::Code { value: Some(n), .. }) => Some(Kind::Fp(*n)),
        _ => None,
    }
}

/// The number that refuses a name as a value at this place.
pub fn wrong_name(place: Kind, means: Option<&Means>) -> Option<u8>
    ensures { result ≡ spec.wrong_name place (meant (seen_name (option_copied means.entry))) }
{
    match means {
        Some(Means::Cell(kind)) => fits(place, *kind),
        Some(Means::Array) => Some(refusal::WRONG_KIND),
        Some(Means::Code { value: Some(n), .. }) => fits(place, Kind::Fp(*n)),
        Some(Means::Code { value: None, .. }) => Some(refusal::NOT_POINTABLE),
        Some(Means::Refused(n)) => Some(*n),
        None => Some(refusal::UNKNOWN),
    }
}

/// The number that refuses a function's name as a value at this place.
pub fn wrong_function(place: Kind, means: Option<&Means>) -> Option<u8>
    ensures { result ≡ spec.wrong_function place (meant (seen_name (option_copied means.entry))) }
{
    match means {
        Some(Means::Code { value: Some(n), .. }) => fits(place, Kind::Fp(*n)),
        Some(Means::Code { value: None, .. }) => Some(refusal::NOT_POINTABLE),
        Some(Means::Refused(n)) => Some(*n),
        Some(Means::Cell(_)) | Some(Means::Array) => Some(refusal::WRONG_KIND),
        None => Some(refusal::UNKNOWN),
    }
}

/// The number that refuses a name in front of an index.
pub fn wrong_array(means: Option<&Means>) -> Option<u8>
    ensures { result ≡ spec.wrong_array (meant (seen_name (option_copied means.entry))) }
{
    match means {
        Some(Means::Array) => None,
        Some(Means::Refused(n)) => Some(*n),
        None => Some(refusal::UNKNOWN),
        _ => Some(refusal::WRONG_KIND),
    }
}

fn wrong_element_of(place: Kind, array: Option<&Means>) -> Option<u8>
    ensures { result ≡ spec.wrong_element_of place (meant (seen_name (option_copied array.entry))) }
{
    match array {
        Some(Means::Array) => fits(place, Kind::Int),
        Some(Means::Refused(n)) => Some(*n),
        None => Some(refusal::UNKNOWN),
        _ => Some(refusal::WRONG_KIND),
    }
}

// A name that may not be used has no kind, nor have its elements.
fn kind_of_element(array: Option<&Means>) -> Option<Kind>
    ensures { result ≡ spec.kind_of_element (meant (seen_name (option_copied array.entry))) }
{
    match array {
        Some(Means::Refused(_)) | None => None,
        Some(Means::Array) | Some(Means::Cell(_)) | Some(Means::Code { .. }) => Some(Kind::Int),
    }
}

fn wrong_literal(place: Kind, number: i32) -> Option<u8>
    ensures { result ≡ spec.wrong_literal place number }
{
    match place {
        Kind::Int => None,
        Kind::Fp(_) => {
            if number == 0 {
                None
            } else {
                Some(refusal::WRONG_KIND)
            }
        }
    }
}

fn wrong_null(place: Kind) -> Option<u8>
    ensures { result ≡ spec.wrong_null place }
{
    match place {
        Kind::Int => Some(refusal::WRONG_KIND),
        Kind::Fp(_) => None,
    }
}

fn kind_of(scope: &Scope, e: &Expr) -> Option<Kind>
    ensures { result ≡ spec.kind_of (names_of (seen_scope scope.now)) (expression_of e.now) }
{
    match e {
        Expr::Lit(0) | Expr::Null => None,
        Expr::Var(x) | Expr::FunRef(x) => kind_of_name(scope.look(x)),
        Expr::Elem(a, _) => kind_of_element(scope.look(a)),
        _ => Some(Kind::Int),
    }
}

/// The kind of a value that goes to no place: `Int` where it fits every place.
pub fn own_kind(scope: &Scope, e: &Expr) -> Kind
    ensures { result ≡ spec.own_kind (names_of (seen_scope scope.now)) (expression_of e.now) }
{
    match kind_of(scope, e) {
        Some(kind) => kind,
        None => Kind::Int,
    }
}

fn compares_kinds(op: Op) -> bool
    ensures { result ≡ spec.compares_kinds op }
{
    matches!(op, Op::Eq | Op::Ne)
}

/// The kind that both operands have to have.
pub fn place_of(scope: &Scope, op: Op, a: &Expr, b: &Expr) -> Kind
    ensures { result ≡ spec.place_of (names_of (seen_scope scope.now)) op (expression_of a.now) (expression_of b.now) }
{
    if !compares_kinds(op) {
        return Kind::Int;
    }
    match kind_of(scope, a) {
        Some(kind) => kind,
        None => own_kind(scope, b),
    }
}

/// The smallest number that refuses the expression at its place.
pub fn wrong(scope: &Scope, place: Kind, e: &Expr) -> Option<u8>
    ensures { result ≡ spec.wrong (names_of (seen_scope scope.now)) place (expression_of e.now) }
{
    match e {
        Expr::Lit(z) => wrong_literal(place, *z),
        Expr::Var(x) => wrong_name(place, scope.look(x)),
        Expr::Elem(a, i) => {
            let inside = wrong(scope, Kind::Int, i.get());
            smaller(wrong_element_of(place, scope.look(a)), inside)
        }
        Expr::FunRef(f) => wrong_function(place, scope.look(f)),
        Expr::Null => wrong_null(place),
        Expr::Neg(a) => smaller(fits(place, Kind::Int), wrong(scope, Kind::Int, a.get())),
        Expr::Not(a) => smaller(fits(place, Kind::Int), wrong(scope, Kind::Int, a.get())),
        Expr::Bin(op, a, b) => {
            let both = place_of(scope, *op, a.get(), b.get());
            let inside = smaller(wrong(scope, both, a.get()), wrong(scope, both, b.get()));
            smaller(fits(place, Kind::Int), inside)
        }
    }
}

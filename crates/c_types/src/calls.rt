//! Which number refuses a call, an element that is set, or a `return`; and calls in their resolved form.

ghost use Rattle.std.specs.Prelude.{◌≡◌, IfOk, map, []};
ghost use Rattle.std.specs.Option.{option_copied, option_map};
ghost use Rattle.c_lang.specs.Trees.{expression_of};
ghost use Rattle.c_lang.specs.declared.stmt.Kind.TheVariants.{Int};
ghost use Rattle.c_lang.specs.declared.stmt.Stmt.TheVariants.{Call};
ghost use Rattle.c_types.specs.Code.SeenScopes.{seen_scope};
ghost use Rattle.c_types.specs.Code.SeenMeans.{seen_name};
ghost use Rattle.c_types.specs.Names.{meant};
ghost use Rattle.c_types.specs.Scopes.{names_of};
ghost use Rattle.c_types.specs.Expressions.{resolved};
ghost use Rattle.c_types.specs.Calls as spec;

use crate::expressions::{own_kind, wrong, wrong_array};
use crate::means::{Means, fits, smaller};
use crate::resolving::resolve;
use crate::scope::{Scope, copy_dest, kind_of_dest, wrong_effect};
use c_lang::{Dest, Expr, Kind, Name, Pos, Stmt, refusal};
use sqlite_items::Items;
use std::alloc::{AllocError, Global};

/// The place of a value that goes to the destination.
pub fn place_in(scope: &Scope, dest: &Dest, e: &Expr) -> Kind
    ensures { result ≡ spec.place_in (seen_scope scope.now) dest.now (expression_of e.now) }
{
    match kind_of_dest(scope, dest) {
        Some(kind) => kind,
        None => own_kind(scope, e),
    }
}

/// The place of a value that goes to an element.
pub fn element_kind(scope: &Scope, array: Option<&Means>, e: &Expr) -> Kind
    ensures { result ≡ spec.element_kind (names_of (seen_scope scope.now)) (meant (seen_name (option_copied array.entry))) (expression_of e.now) }
{
    match array {
        Some(Means::Array) => Kind::Int,
        _ => own_kind(scope, e),
    }
}

/// The number that refuses `array[index] = value`.
pub fn wrong_element(scope: &Scope, array: &Name, index: &Expr, value: &Expr) -> Option<u8>
    ensures { result ≡ spec.wrong_element (names_of (seen_scope scope.now)) array.now (expression_of index.now) (expression_of value.now) }
{
    let means = scope.look(array);
    let kind = element_kind(scope, means, value);
    let inside = smaller(wrong(scope, Kind::Int, index), wrong(scope, kind, value));
    smaller(wrong_array(means), inside)
}

fn first_place(scope: &Scope, places: &[Kind], e: &Expr) -> Kind
    ensures { result ≡ spec.first_place (names_of (seen_scope scope.now)) places.now (expression_of e.now) }
{
    match places {
        [place, _others @ ..] => *place,
        [] => own_kind(scope, e),
    }
}

fn other_places(places: &[Kind]) -> &[Kind]
    ensures { result.now ≡ spec.other_places places.now }
{
    match places {
        [_place, others @ ..] => others,
        [] => places,
    }
}

#[tactic(auto, using(crate::proofs::ArgumentLaws::places_step))]
fn wrong_places(scope: &Scope, params: &[Kind], args: &[Expr]) -> Option<u8>
    ensures { result ≡ spec.wrong_places (names_of (seen_scope scope.now)) params.now (map expression_of args.now) }
{
    let mut number = None;
    let mut left = params;
    for e in args {
        number = smaller(number, wrong(scope, first_place(scope, left, e), e));
        left = other_places(left);
    }
    number
}

fn wrong_each(scope: &Scope, args: &[Expr]) -> Option<u8>
    ensures { result ≡ spec.wrong_each (names_of (seen_scope scope.now)) (map expression_of args.now) }
{
    wrong_places(scope, &[], args)
}

fn wrong_count(wanted: usize, given: usize) -> Option<u8>
    ensures { result ≡ spec.wrong_count wanted given }
{
    if wanted == given {
        None
    } else {
        Some(refusal::ARGUMENT_COUNT)
    }
}

fn wrong_args(scope: &Scope, params: &[Kind], args: &[Expr]) -> Option<u8>
    ensures { result ≡ spec.wrong_args (names_of (seen_scope scope.now)) params.now (map expression_of args.now) }
{
    let inside = wrong_places(scope, params, args);
    smaller(wrong_count(params.len(), args.len()), inside)
}

fn first_int(scope: &Scope, count: u8, e: &Expr) -> Kind
    ensures { result ≡ spec.first_place (names_of (seen_scope scope.now)) (spec.ints count) (expression_of e.now) }
{
    if count > 0 {
        Kind::Int
    } else {
        own_kind(scope, e)
    }
}

#[tactic(auto, using(crate::proofs::ArgumentLaws::ints_after))]
fn other_ints(count: u8) -> u8
    ensures { spec.ints result ≡ spec.other_places (spec.ints count) }
{
    count.saturating_sub(1)
}

#[tactic(auto, using(crate::proofs::ArgumentLaws::places_step))]
fn wrong_int_places(scope: &Scope, count: u8, args: &[Expr]) -> Option<u8>
    ensures { result ≡ spec.wrong_places (names_of (seen_scope scope.now)) (spec.ints count) (map expression_of args.now) }
{
    let mut number = None;
    let mut left = count;
    for e in args {
        number = smaller(number, wrong(scope, first_int(scope, left, e), e));
        left = other_ints(left);
    }
    number
}

// The arguments of a call through a pointer.
#[tactic(auto, using(crate::proofs::ArgumentLaws::ints_counted))]
fn wrong_ints(scope: &Scope, count: u8, args: &[Expr]) -> Option<u8>
    ensures { result ≡ spec.wrong_args (names_of (seen_scope scope.now)) (spec.ints count) (map expression_of args.now) }
{
    let inside = wrong_int_places(scope, count, args);
    smaller(wrong_count(count as usize, args.len()), inside)
}

fn wrong_result(gives: bool, kind: Option<Kind>) -> Option<u8>
    ensures { result ≡ spec.wrong_result gives kind }
{
    match (gives, kind) {
        (true, None) => None,
        (true, Some(kind)) => fits(kind, Kind::Int),
        (false, _) => Some(refusal::VOID_USE),
    }
}

/// The number that refuses the use of a call's result.
pub fn wrong_use(scope: &Scope, gives: bool, dest: &Dest) -> Option<u8>
    ensures { result ≡ spec.wrong_use (seen_scope scope.now) gives dest.now }
{
    match dest {
        Dest::Nowhere => None,
        Dest::Into(_) | Dest::Fresh(_, _) => wrong_result(gives, kind_of_dest(scope, dest)),
    }
}

fn wrong_pointer(scope: &Scope, kind: Kind, dest: &Dest, args: &[Expr]) -> Option<u8>
    ensures { result ≡ spec.wrong_pointer (seen_scope scope.now) kind dest.now (map expression_of args.now) }
{
    match kind {
        Kind::Int => smaller(Some(refusal::WRONG_KIND), wrong_each(scope, args)),
        Kind::Fp(count) => {
            let inside = smaller(wrong_use(scope, true, dest), wrong_ints(scope, count, args));
            smaller(wrong_effect(scope), inside)
        }
    }
}

/// The number that refuses a call of this name.
pub fn wrong_call(scope: &Scope, callee: Option<&Means>, dest: &Dest, args: &[Expr]) -> Option<u8>
    ensures { result ≡ spec.wrong_call (seen_scope scope.now) (meant (seen_name (option_copied callee.entry))) dest.now (map expression_of args.now) }
{
    match callee {
        Some(
            Means::Code {
                params,
                gives,
                denied,
                ..
            },
        ) => {
            let inside = wrong_args(scope, params.as_slice(), args);
            smaller(*denied, smaller(wrong_use(scope, *gives, dest), inside))
        }
        Some(Means::Cell(kind)) => wrong_pointer(scope, *kind, dest, args),
        Some(Means::Array) => smaller(Some(refusal::WRONG_KIND), wrong_each(scope, args)),
        Some(Means::Refused(n)) => smaller(Some(*n), wrong_each(scope, args)),
        None => smaller(Some(refusal::UNKNOWN), wrong_each(scope, args)),
    }
}

/// The number that refuses a call that is written as one through a pointer.
pub fn wrong_call_by(
    scope: &Scope,
    pointer: Option<&Means>,
    dest: &Dest,
    args: &[Expr],
) -> Option<u8>
    ensures { result ≡ spec.wrong_call_by (seen_scope scope.now) (meant (seen_name (option_copied pointer.entry))) dest.now (map expression_of args.now) }
{
    match pointer {
        Some(Means::Cell(kind)) => wrong_pointer(scope, *kind, dest, args),
        Some(Means::Code { .. }) => smaller(Some(refusal::WRONG_KIND), wrong_each(scope, args)),
        Some(Means::Array) => smaller(Some(refusal::WRONG_KIND), wrong_each(scope, args)),
        Some(Means::Refused(n)) => smaller(Some(*n), wrong_each(scope, args)),
        None => smaller(Some(refusal::UNKNOWN), wrong_each(scope, args)),
    }
}

/// The number that refuses a call of this name in a pick.
pub fn wrong_picked(scope: &Scope, callee: Option<&Means>, dest: &Dest, args: &[Expr]) -> Option<u8>
    ensures { result ≡ spec.wrong_call (seen_scope scope.now) (spec.picked (meant (seen_name (option_copied callee.entry)))) dest.now (map expression_of args.now) }
{
    match callee {
        Some(
            Means::Code {
                params,
                gives,
                denied: None,
                ..
            },
        ) => {
            let inside = wrong_args(scope, params.as_slice(), args);
            smaller(wrong_use(scope, *gives, dest), inside)
        }
        Some(
            Means::Code {
                denied: Some(n),
                ..
            },
        ) => smaller(Some(*n), wrong_each(scope, args)),
        Some(Means::Cell(Kind::Int)) => {
            smaller(Some(refusal::WRONG_KIND), wrong_each(scope, args))
        }
        Some(Means::Cell(Kind::Fp(_))) => {
            smaller(Some(refusal::CLIENT_CALL), wrong_each(scope, args))
        }
        Some(Means::Array) => smaller(Some(refusal::WRONG_KIND), wrong_each(scope, args)),
        Some(Means::Refused(n)) => smaller(Some(*n), wrong_each(scope, args)),
        None => smaller(Some(refusal::UNKNOWN), wrong_each(scope, args)),
    }
}

/// Arguments in their resolved form. The only error is want of memory.
pub fn resolve_args(
    alloc: Global,
    scope: &Scope,
    params: &[Kind],
    args: &[Expr],
) -> Result<Items<Expr>, AllocError>
    ensures { IfOk result (λ exprs. exprs ≡ spec.resolved_args (names_of (seen_scope scope.now)) params.now (map expression_of args.now)) }
{
    let mut all = Items::new(alloc);
    let mut left = params;
    for e in args {
        let place = first_place(scope, left, e);
        left = other_places(left);
        all.push(resolve(alloc, scope, place, e)?)?;
    }
    Ok(all)
}

// The arguments of a call of this name.
fn resolve_given(
    alloc: Global,
    scope: &Scope,
    callee: Option<&Means>,
    args: &[Expr],
) -> Result<Items<Expr>, AllocError>
    ensures { IfOk result (λ exprs. exprs ≡ spec.resolved_args (names_of (seen_scope scope.now)) (spec.places_of (meant (seen_name (option_copied callee.entry)))) (map expression_of args.now)) }
{
    match callee {
        Some(Means::Code { params, .. }) => resolve_args(alloc, scope, params.as_slice(), args),
        Some(Means::Cell(_)) => resolve_args(alloc, scope, &[], args),
        Some(Means::Array) => resolve_args(alloc, scope, &[], args),
        Some(Means::Refused(_)) => resolve_args(alloc, scope, &[], args),
        None => resolve_args(alloc, scope, &[], args),
    }
}

/// A call in its resolved form. The only error is want of memory.
pub fn resolve_call(
    alloc: Global,
    scope: &Scope,
    pos: Pos,
    dest: &Dest,
    callee: &Name,
    args: &[Expr],
) -> Result<Stmt, AllocError>
    ensures { IfOk result (λ stmt. stmt ≡ spec.resolved_call (seen_scope scope.now) (names_of (seen_scope scope.now) callee.now) pos dest.now callee.now (map expression_of args.now)) }
{
    let dest = copy_dest(alloc, dest)?;
    let name = callee.copy(alloc)?;
    let means = scope.look(callee);
    let args = resolve_given(alloc, scope, means, args)?;
    match means {
        Some(Means::Cell(_)) => Ok(Stmt::CallBy {
            pos,
            dest,
            pointer: name,
            args,
        }),
        Some(Means::Code { .. }) | Some(Means::Array) | Some(Means::Refused(_)) | None => {
            Ok(Stmt::Call {
                pos,
                dest,
                callee: name,
                args,
            })
        }
    }
}

/// A call of a pick in its resolved form. The only error is want of memory.
pub fn resolve_picked(
    alloc: Global,
    scope: &Scope,
    pos: Pos,
    dest: &Dest,
    callee: &Name,
    args: &[Expr],
) -> Result<Stmt, AllocError>
    ensures { IfOk result (λ stmt. stmt ≡ Call pos dest.now callee.now (spec.resolved_args (names_of (seen_scope scope.now)) (spec.places_of (names_of (seen_scope scope.now) callee.now)) (map expression_of args.now))) }
{
    let dest = copy_dest(alloc, dest)?;
    let name = callee.copy(alloc)?;
    let args = resolve_given(alloc, scope, scope.look(callee), args)?;
    Ok(Stmt::Call {
        pos,
        dest,
        callee: name,
        args,
    })
}

/// The number that refuses a `return`.
pub fn wrong_return(scope: &Scope, gives: bool, value: &Option<Expr>) -> Option<u8>
    ensures { result ≡ spec.wrong_return (names_of (seen_scope scope.now)) gives (option_map expression_of value.now) }
{
    match (gives, value) {
        (true, None) => Some(refusal::MISSING_RETURN),
        (false, None) => None,
        (true, Some(e)) => wrong(scope, Kind::Int, e),
        (false, Some(e)) => smaller(Some(refusal::VOID_USE), wrong(scope, own_kind(scope, e), e)),
    }
}

/// The value of a `return` in its resolved form. The only error is want of memory.
pub fn resolve_value(
    alloc: Global,
    scope: &Scope,
    value: &Option<Expr>,
) -> Result<Option<Expr>, AllocError>
    ensures { IfOk result (λ expr. expr ≡ option_map (resolved (names_of (seen_scope scope.now)) Int) (option_map expression_of value.now)) }
{
    match value {
        None => Ok(None),
        Some(e) => Ok(Some(resolve(alloc, scope, Kind::Int, e)?)),
    }
}

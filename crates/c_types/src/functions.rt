//! Functions: the head, then the body. Of the scope after an error nothing is said.

ghost use Rattle.std.specs.Prelude.{◌≡◌, Bool, IfOk, OnOk, None, map};
ghost use Rattle.c_lang.specs.Trees.{statement_of, statements};
ghost use Rattle.c_types.specs.Code.SeenScopes.{seen_scope};
ghost use Rattle.c_types.specs.Code.SeenMeans.{seen_means};
ghost use Rattle.c_types.specs.Checks.{Checked};
ghost use Rattle.c_types.specs.Functions as spec;

use crate::endings::can_end;
use crate::means::{Means, smaller};
use crate::scope::{Block, Scope, wrong_fresh};
use crate::simple::stop;
use crate::statements::body;
use c_lang::{Fail, Func, Kind, Name, PARAMETER_LIMIT, refusal};
use sqlite_items::Items;
use std::alloc::{AllocError, Global};

/// The kinds of parameters. The only error is want of memory.
pub fn kinds_of(alloc: Global, params: &[(Kind, Name)]) -> Result<Items<Kind>, AllocError>
    ensures { IfOk result (λ kinds. kinds ≡ spec.kinds_of params.now) }
{
    let mut all = Items::new(alloc);
    for p in params {
        all.push(p.0)?;
    }
    Ok(all)
}

fn are_ints(kinds: &[Kind]) -> bool
    ensures { result ≡ spec.are_ints kinds.now }
{
    for kind in kinds {
        match kind {
            Kind::Int => {}
            Kind::Fp(_) => return false,
        }
    }
    true
}

fn counted(count: usize) -> u8
    ensures { result ≡ spec.counted count }
{
    if count > PARAMETER_LIMIT as usize {
        PARAMETER_LIMIT + 1
    } else {
        count as u8
    }
}

/// The number of parameters with which a function's name is a value, where it is one.
pub fn arity_as_value(kinds: &[Kind], gives: bool) -> Option<u8>
    ensures { result ≡ spec.arity_as_value kinds.now gives }
{
    if gives && are_ints(kinds) {
        Some(counted(kinds.len()))
    } else {
        None
    }
}

/// What the function's name stands for in its unit. The only error is want of memory.
pub fn means_of_func(alloc: Global, f: &Func) -> Result<Means, AllocError>
    ensures { IfOk result (λ means. seen_means means ≡ spec.means_of_func f.now) }
{
    let params = kinds_of(alloc, f.params.as_slice())?;
    let value = arity_as_value(params.as_slice(), f.gives);
    Ok(Means::Code {
        params,
        gives: f.gives,
        value,
        denied: None,
    })
}

fn is_wide(kind: Kind) -> bool
    ensures { result ≡ spec.is_wide kind }
{
    match kind {
        Kind::Int => false,
        Kind::Fp(n) => n > PARAMETER_LIMIT,
    }
}

fn any_wide(kinds: &[Kind]) -> bool
    ensures { result ≡ spec.any_wide kinds.now }
{
    for kind in kinds {
        if is_wide(*kind) {
            return true;
        }
    }
    false
}

/// 27 for more than 32 parameters, of a function or of a pointer among them.
pub fn wrong_params_count(kinds: &[Kind]) -> Option<u8>
    ensures { result ≡ spec.wrong_params_count kinds.now }
{
    if kinds.len() > PARAMETER_LIMIT as usize || any_wide(kinds) {
        Some(refusal::PAST_LIMIT)
    } else {
        None
    }
}

// The smallest number that refuses the parameters, which are then in scope.
fn add_params(
    alloc: Global,
    scope: &mut Scope,
    params: &[(Kind, Name)],
) -> Result<Option<u8>, AllocError>
    ensures number { IfOk result (λ number. number ≡ spec.wrong_params (seen_scope scope.old) None params.now) }
    ensures scope { OnOk result (seen_scope scope.new ≡ spec.with_params (seen_scope scope.old) params.now) }
{
    let mut number = None;
    for p in params {
        let block = Block { base: 0, mark: 0 };
        number = smaller(number, wrong_fresh(scope, block, p.0, &p.1));
        scope.locals.add(p.1.copy(alloc)?, Means::Cell(p.0))?;
    }
    Ok(number)
}

/// Whether the name is `main`.
pub fn is_main(name: &Name) -> bool
    ensures { result ≡ spec.is_main name.now }
{
    name.as_bytes() == b"main".as_slice()
}

fn wrong_end(f: &Func) -> Option<u8>
    ensures { result ≡ spec.wrong_end f.now }
{
    if f.gives && !is_main(&f.name) && can_end(f.body.as_slice()) {
        Some(refusal::MISSING_RETURN)
    } else {
        None
    }
}

// The number that refuses the head, whose parameters are then in scope.
fn add_head(
    alloc: Global,
    scope: &mut Scope,
    again: Option<u8>,
    f: &Func,
) -> Result<Option<u8>, AllocError>
    ensures number { IfOk result (λ number. number ≡ spec.wrong_head again (seen_scope scope.old) f.now) }
    ensures scope { OnOk result (seen_scope scope.new ≡ spec.with_params (seen_scope scope.old) f.now.params) }
{
    let params = add_params(alloc, scope, f.params.as_slice())?;
    let kinds = kinds_of(alloc, f.params.as_slice())?;
    let rest = smaller(wrong_end(f), wrong_params_count(kinds.as_slice()));
    Ok(smaller(again, smaller(params, rest)))
}

fn enter(scope: &mut Scope, gives: bool)
    ensures { seen_scope scope.new ≡ spec.start_of (seen_scope scope.old) gives }
{
    scope.locals.truncate(0);
    scope.told.truncate(0);
    scope.ahead.truncate(0);
    scope.gives = gives;
}

fn copy_params(alloc: Global, params: &[(Kind, Name)]) -> Result<Items<(Kind, Name)>, AllocError>
    ensures { IfOk result (λ copy. copy ≡ params.now) }
{
    let mut all = Items::new(alloc);
    for p in params {
        all.push((p.0, p.1.copy(alloc)?))?;
    }
    Ok(all)
}

/// The function with its body in the resolved form, or its first refusal. `again` is the number that
/// refuses its name. Where no force may stand, functions that come after it see what it sees.
pub fn check_func(
    alloc: Global,
    scope: &mut Scope,
    again: Option<u8>,
    f: &Func,
) -> Result<Func, Fail>
    ensures checked { spec.IsFunc again (spec.start_of (seen_scope scope.old) f.now.gives) f.now result }
    ensures stays { OnOk result ((seen_scope scope.old).forced ≡ None → (gives : Bool) →
        spec.start_of (seen_scope scope.new) gives ≡ spec.start_of (seen_scope scope.old) gives) }
{
    enter(scope, f.gives);
    let number = add_head(alloc, scope, again, f)?;
    stop(number, f.pos)?;
    let name = f.name.copy(alloc)?;
    let params = copy_params(alloc, f.params.as_slice())?;
    let body = body(alloc, scope, f.body.as_slice())?;
    Ok(Func {
        name,
        params,
        gives: f.gives,
        body,
        pos: f.pos,
    })
}

/// The same of a version's or a transformer's function.
pub fn check_plain_func(
    alloc: Global,
    scope: &mut Scope,
    again: Option<u8>,
    f: &Func,
) -> Result<Func, Fail>
    requires { spec.IsPlain (seen_scope scope.old) }
    ensures checked { Checked result (spec.refusal_of_func again scope.old.outside scope.old.xform f.now) (spec.resolved_func scope.old.outside scope.old.xform f.now) }
    ensures plain { OnOk result (spec.IsPlain (seen_scope scope.new)) }
    ensures outside { OnOk result (scope.new.outside ≡ scope.old.outside) }
    ensures xform { OnOk result (scope.new.xform ≡ scope.old.xform) }
{
    check_func(alloc, scope, again, f)
}

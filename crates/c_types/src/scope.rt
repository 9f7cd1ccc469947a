//! What is in scope, and which declarations of locals are refused.

ghost use Rattle.std.specs.Prelude.{◌≡◌, OnOk, IfOk};
ghost use Rattle.std.specs.Option.{option_copied};
ghost use Rattle.c_types.specs.Code.SeenScopes.{seen_scope, seen_block};
ghost use Rattle.c_types.specs.Code.SeenMeans.{seen_name};
ghost use Rattle.c_types.specs.Names.{meant};
ghost use Rattle.c_types.specs.Scopes as spec;

use crate::means::{Means, smaller};
use crate::symbols::Symbols;
use c_lang::{Dest, Kind, Name, PARAMETER_LIMIT, refusal};
use std::alloc::{AllocError, Global};

/// What the two calls of a pick see of the unit and of the versions.
pub struct Picks {
    pub after: Symbols,
    pub before: Symbols,
}

// By hand, so that a proof has one step for each pair of tables that is dropped.
impl Drop for Picks {
    fn drop(self) {
        let Picks {
            after: _after,
            before: _before,
        } = self;
    }
}

/// The names that a statement of a function sees, and the rules that it is under.
pub struct Scope {
    /// What is visible in the whole unit, as it is here.
    pub outside: Symbols,
    /// What is visible in its place behind `dsu_force();`, where one may stand here.
    pub forced: Option<Symbols>,
    /// What is visible in its place in picks, where they may stand.
    pub picks: Option<Picks>,
    /// The parameters, then the locals that are visible.
    pub locals: Symbols,
    /// The locals of the function's blocks that have ended.
    pub told: Symbols,
    /// The locals of all open blocks, also those that are declared further on.
    pub ahead: Symbols,
    /// Whether the function gives a value.
    pub gives: bool,
    /// Whether the function is a transformer's. It then has no input, output or point and calls
    /// nothing through a pointer, and no local's name begins with `dsu_old_` or `dsu_new_`.
    pub xform: bool,
}

// By hand, so that a proof has one step for each scope that is dropped.
impl Drop for Scope {
    fn drop(self) {
        let Scope {
            outside: _outside,
            forced: _forced,
            picks: _picks,
            locals: _locals,
            told: _told,
            ahead: _ahead,
            gives: _gives,
            xform: _xform,
        } = self;
    }
}

/// Where the names of a block begin in `locals`, and in `ahead`.
#[derive(Clone, Copy, Debug, PartialEq, Eq)]
pub struct Block {
    pub base: usize,
    pub mark: usize,
}

impl Scope {
    /// What the name stands for.
    pub fn look(&self, name: &Name) -> Option<&Means>
        ensures { seen_name (option_copied result) ≡ spec.in_scope (seen_scope self.now) name.now }
    {
        match self.outside.find(name) {
            Some(means) => Some(means),
            None => self.locals.find(name),
        }
    }
}

/// 27 for a pointer of too many parameters.
pub fn wrong_kind(kind: Kind) -> Option<u8>
    ensures { result ≡ spec.wrong_kind kind }
{
    match kind {
        Kind::Int => None,
        Kind::Fp(n) => {
            if n > PARAMETER_LIMIT {
                Some(refusal::PAST_LIMIT)
            } else {
                None
            }
        }
    }
}

/// 19 in a transformer, which only computes.
pub fn wrong_effect(scope: &Scope) -> Option<u8>
    ensures { result ≡ spec.wrong_effect (seen_scope scope.now) }
{
    if scope.xform {
        Some(refusal::TRANSFORMER_EFFECT)
    } else {
        None
    }
}

/// Whether the name begins as those of one version alone do in a transformer: with `dsu_old_` or
/// `dsu_new_`.
#[tactic(auto, unfolding(crate::specs::Scopes::names_version))]
pub fn names_version(name: &Name) -> bool
    ensures { result ≡ spec.names_version name.now }
{
    let name = name.as_bytes();
    name.starts_with(b"dsu_old_") || name.starts_with(b"dsu_new_")
}

fn is_another(told: Option<&Means>, kind: Kind) -> bool
    ensures { result ≡ spec.is_another (seen_name (option_copied told.entry)) kind }
{
    match told {
        Some(Means::Cell(before)) => !before.same_as(kind),
        Some(Means::Array) | Some(Means::Code { .. }) | Some(Means::Refused(_)) | None => false,
    }
}

/// The number that refuses a name that is declared in the block.
#[tactic(auto, using(crate::proofs::SymbolLaws::is_some_seen))]
pub fn wrong_fresh(scope: &Scope, block: Block, kind: Kind, name: &Name) -> Option<u8>
    ensures { result ≡ spec.wrong_fresh (seen_block block) (seen_scope scope.now) kind name.now }
{
    if scope.locals.stands_from(block.base, name) {
        Some(refusal::DUPLICATE)
    } else if is_another(scope.told.find(name), kind) {
        Some(refusal::DUPLICATE)
    } else if scope.look(name).is_some() {
        Some(refusal::SHADOWED)
    } else if scope.ahead.stands_before(block.mark, name) {
        Some(refusal::SHADOWED)
    } else if scope.xform && names_version(name) {
        Some(refusal::SHADOWED)
    } else {
        None
    }
}

fn wrong_target(means: Option<&Means>) -> Option<u8>
    ensures { result ≡ spec.wrong_target (meant (seen_name (option_copied means.entry))) }
{
    match means {
        Some(Means::Cell(_)) => None,
        Some(Means::Refused(n)) => Some(*n),
        None => Some(refusal::UNKNOWN),
        _ => Some(refusal::WRONG_KIND),
    }
}

/// The number that refuses a destination.
pub fn wrong_dest(scope: &Scope, block: Block, dest: &Dest) -> Option<u8>
    ensures { result ≡ spec.wrong_dest (seen_block block) (seen_scope scope.now) dest.now }
{
    match dest {
        Dest::Nowhere => None,
        Dest::Into(x) => wrong_target(scope.look(x)),
        Dest::Fresh(kind, x) => smaller(wrong_fresh(scope, block, *kind, x), wrong_kind(*kind)),
    }
}

fn kind_of_target(means: Option<&Means>) -> Option<Kind>
    ensures { result ≡ spec.kind_of_target (meant (seen_name (option_copied means.entry))) }
{
    match means {
        Some(Means::Cell(kind)) => Some(*kind),
        _ => None,
    }
}

/// The kind of what goes to this destination, where it has one.
pub fn kind_of_dest(scope: &Scope, dest: &Dest) -> Option<Kind>
    ensures { result ≡ spec.kind_of_dest (seen_scope scope.now) dest.now }
{
    match dest {
        Dest::Nowhere => None,
        Dest::Into(x) => kind_of_target(scope.look(x)),
        Dest::Fresh(kind, _) => Some(*kind),
    }
}

/// Adds the local that the destination declares. The only error is want of memory.
pub fn add_dest(alloc: Global, symbols: &mut Symbols, dest: &Dest) -> Result<(), AllocError>
    ensures { OnOk result (symbols.new ≡ spec.with_dest symbols.old dest.now) }
{
    match dest {
        Dest::Fresh(kind, x) => symbols.add(x.copy(alloc)?, Means::Cell(*kind)),
        Dest::Nowhere | Dest::Into(_) => Ok(()),
    }
}

/// Declares the local that the destination declares. The only error is want of memory.
pub fn declare(alloc: Global, scope: &mut Scope, dest: &Dest) -> Result<(), AllocError>
    ensures { OnOk result (seen_scope scope.new ≡ spec.declared (seen_scope scope.old) dest.now) }
{
    add_dest(alloc, &mut scope.locals, dest)
}

/// A copy of a destination. The only error is want of memory.
pub fn copy_dest(alloc: Global, dest: &Dest) -> Result<Dest, AllocError>
    ensures { IfOk result (λ copy. copy ≡ dest.now) }
{
    match dest {
        Dest::Nowhere => Ok(Dest::Nowhere),
        Dest::Into(x) => Ok(Dest::Into(x.copy(alloc)?)),
        Dest::Fresh(kind, x) => Ok(Dest::Fresh(*kind, x.copy(alloc)?)),
    }
}

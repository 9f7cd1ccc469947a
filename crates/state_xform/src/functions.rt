//! The functions of a transformer.

ghost use Rattle.std.specs.Prelude.{◌≡◌, true, []};
ghost use Rattle.c_types.specs.Checks.{Checked};
ghost use Rattle.c_types.specs.Code.SeenScopes.{seen_scope};
ghost use Rattle.c_types.specs.Functions.{IsPlain};
ghost use Rattle.c_types.specs.Programs.{resolved_funcs};
ghost use Rattle.state_xform.specs.Refusals as spec;
ghost use Rattle.version_names.specs.Parts.{parts_in};

use c_lang::{Fail, Func, Name, refusal};
use c_types::declarations::add_func;
use c_types::functions::check_plain_func;
use c_types::scope::names_version;
use c_types::{Scope, Symbols};
use sqlite_items::Items;
use std::alloc::Global;
use version_names::Links;

#[tactic(auto, using(c_types::proofs::SymbolLaws::is_some_seen))]
fn wrong_own_name(links: &Links, seen: &Symbols, name: &Name) -> Option<u8>
    ensures { result ≡ spec.wrong_own_name (parts_in links.now) seen.now name.now }
{
    if seen.find(name).is_some() || links.has(name) || names_version(name) {
        Some(refusal::DUPLICATE)
    } else {
        None
    }
}

fn check_each(
    alloc: Global,
    scope: &mut Scope,
    links: &Links,
    seen: &mut Symbols,
    funcs: &[Func],
) -> Result<Items<Func>, Fail>
    requires plain { IsPlain (seen_scope scope.old) }
    requires xform { scope.old.xform ≡ true }
    ensures { Checked result (spec.refusal_of_own (parts_in links.now) scope.old.outside seen.old funcs.now) (resolved_funcs scope.old.outside true funcs.now) }
{
    let mut all = Items::new(alloc);
    for f in funcs {
        let again = wrong_own_name(links, seen, &f.name);
        all.push(check_plain_func(alloc, scope, again, f)?)?;
        add_func(alloc, seen, f)?;
    }
    Ok(all)
}

/// The functions in their resolved form, or the first refusal. `outside` is what they see.
pub fn check_funcs(
    alloc: Global,
    outside: Symbols,
    links: &Links,
    funcs: &[Func],
) -> Result<Items<Func>, Fail>
    ensures { Checked result (spec.refusal_of_own (parts_in links.now) outside [] funcs.now) (resolved_funcs outside true funcs.now) }
{
    let mut scope = Scope {
        outside,
        forced: None,
        picks: None,
        locals: Symbols::new(alloc),
        told: Symbols::new(alloc),
        ahead: Symbols::new(alloc),
        gives: false,
        xform: true,
    };
    let mut seen = Symbols::new(alloc);
    check_each(alloc, &mut scope, links, &mut seen, funcs)
}

//! The functions of a client.

ghost use Rattle.std.specs.Prelude.{◌≡◌, Bool, true, IfOk, OnOk, Option, Some, None, []};
ghost use Rattle.c_types.specs.Checks.{Checked};
ghost use Rattle.c_types.specs.Code.SeenScopes.{seen_scope, seen_picks};
ghost use Rattle.c_types.specs.Functions.{refusal_from, resolved_from, start_of};
ghost use Rattle.client_specs.specs.Refusals as spec;
ghost use Rattle.client_specs.specs.Spelled.{spelled_func};
ghost use Rattle.client_specs.specs.Starts as starts;
ghost use Rattle.client_specs.specs.Kinds.{checked_kind};
ghost use Rattle.client_specs.specs.Visible as seen;
ghost use Rattle.client_specs.specs.declared.region.Region.TheVariants.{After, Before};
ghost use Rattle.std.specs.Option.{option_map};
ghost use Rattle.version_names.specs.Parts.{parts_in};

use crate::kind::{ClientKind, checked_kind};
use crate::region::Region;
use crate::spelled_statements::body;
use crate::visible::visible;
use c_lang::{Fail, Func, Name, Program, refusal};
use c_types::declarations::add_func;
use c_types::functions::check_func;
use c_types::scope::Picks;
use c_types::{Scope, Symbols};
use sqlite_items::Items;
use std::alloc::{AllocError, Global};
use version_names::Links;

// Spells the names of a function's body.
fn spell(alloc: Global, links: &Links, f: &mut Func) -> Result<(), AllocError>
    ensures { OnOk result (f.new ≡ spelled_func (parts_in links.now) f.old) }
{
    f.body = body(alloc, links, Region::Here, f.body.as_slice())?;
    Ok(())
}

/// A program that is checked as a client of two others, whose links are given, and the name of the
/// function with which a run begins.
#[derive(Drop)]
pub struct Checking<'a> {
    pub first: &'a Program,
    pub second: &'a Program,
    pub links: &'a Links,
    pub program: &'a Program,
    pub spec: &'a Name,
}

impl Checking<'_> {
    /// What a function sees in this region. The only error is want of memory.
    pub fn visible(&self, alloc: Global, region: Region) -> Result<Symbols, AllocError>
        ensures { IfOk result (λ symbols. symbols ≡ seen.visible (parts_in self.now.links.now) region self.now.first.now self.now.second.now self.now.program.now) }
    {
        visible(
            alloc,
            self.first,
            self.second,
            self.links,
            region,
            self.program,
        )
    }

    fn is_forcing(&self, name: &Name) -> bool
        ensures { result ≡ starts.is_forcing (checked_kind self.now.spec.now) self.now.spec.now name.now }
    {
        match checked_kind(self.spec) {
            ClientKind::Post => name == self.spec,
            ClientKind::Backward | ClientKind::Conform => false,
        }
    }

    fn picks(&self, alloc: Global) -> Result<Option<Picks>, AllocError>
        ensures { IfOk result (λ picks. option_map seen_picks picks ≡ starts.picks_in (checked_kind self.now.spec.now)
            (seen.visible (parts_in self.now.links.now) After self.now.first.now self.now.second.now self.now.program.now)
            (seen.visible (parts_in self.now.links.now) Before self.now.first.now self.now.second.now self.now.program.now)) }
    {
        match checked_kind(self.spec) {
            ClientKind::Backward | ClientKind::Post => Ok(None),
            ClientKind::Conform => {
                let after = self.visible(alloc, Region::After)?;
                let before = self.visible(alloc, Region::Before)?;
                Ok(Some(Picks { after, before }))
            }
        }
    }

    // A scope in which a function begins; what it sees behind a force is given.
    fn scope(&self, alloc: Global, forced: Option<Symbols>) -> Result<Scope, AllocError>
        ensures { IfOk result (λ scope. (gives : Bool) → start_of (seen_scope scope) gives ≡
            starts.begins (parts_in self.now.links.now) self.now.first.now self.now.second.now self.now.program.now self.now.spec.now forced gives) }
    {
        let outside = self.visible(alloc, Region::Here)?;
        let picks = self.picks(alloc)?;
        Ok(Scope {
            outside,
            forced,
            picks,
            locals: Symbols::new(alloc),
            told: Symbols::new(alloc),
            ahead: Symbols::new(alloc),
            gives: false,
            xform: false,
        })
    }

    #[tactic(auto, using(c_types::proofs::SymbolLaws::is_some_seen))]
    fn wrong_own_name(&self, seen: &Symbols, name: &Name) -> Option<u8>
        ensures { result ≡ spec.wrong_own_name (parts_in self.now.links.now) seen.now name.now }
    {
        if seen.find(name).is_some() || self.links.has(name) {
            Some(refusal::DUPLICATE)
        } else {
            None
        }
    }

    // A function in which a force may stand.
    fn check_forcing(&self, alloc: Global, again: Option<u8>, f: &Func) -> Result<Func, Fail>
        requires { starts.is_forcing (checked_kind self.now.spec.now) self.now.spec.now f.now.name ≡ true }
        ensures { Checked result
            (refusal_from again (starts.start (parts_in self.now.links.now) self.now.first.now self.now.second.now self.now.program.now self.now.spec.now f.now) f.now)
            (resolved_from (starts.start (parts_in self.now.links.now) self.now.first.now self.now.second.now self.now.program.now self.now.spec.now f.now) f.now) }
    {
        let forced = self.visible(alloc, Region::Behind)?;
        let mut scope = self.scope(alloc, Some(forced))?;
        check_func(alloc, &mut scope, again, f)
    }

    // A function of the client. The scope is that of functions without a force.
    fn check_one(
        &self,
        alloc: Global,
        scope: &mut Scope,
        again: Option<u8>,
        f: &Func,
    ) -> Result<Func, Fail>
        requires { (gives : Bool) → start_of (seen_scope scope.old) gives ≡
            starts.begins (parts_in self.now.links.now) self.now.first.now self.now.second.now self.now.program.now self.now.spec.now None gives }
        ensures checked { Checked result
            (refusal_from again (starts.start (parts_in self.now.links.now) self.now.first.now self.now.second.now self.now.program.now self.now.spec.now f.now) f.now)
            (resolved_from (starts.start (parts_in self.now.links.now) self.now.first.now self.now.second.now self.now.program.now self.now.spec.now f.now) f.now) }
        ensures scope { OnOk result ((gives : Bool) → start_of (seen_scope scope.new) gives ≡
            starts.begins (parts_in self.now.links.now) self.now.first.now self.now.second.now self.now.program.now self.now.spec.now None gives) }
    {
        if self.is_forcing(&f.name) {
            self.check_forcing(alloc, again, f)
        } else {
            check_func(alloc, scope, again, f)
        }
    }

    fn check_each(
        &self,
        alloc: Global,
        scope: &mut Scope,
        seen: &mut Symbols,
        funcs: &[Func],
    ) -> Result<Items<Func>, Fail>
        requires { (gives : Bool) → start_of (seen_scope scope.old) gives ≡
            starts.begins (parts_in self.now.links.now) self.now.first.now self.now.second.now self.now.program.now self.now.spec.now None gives }
        ensures { Checked result
            (spec.refusal_of_own (parts_in self.now.links.now) self.now.first.now self.now.second.now self.now.program.now self.now.spec.now seen.old funcs.now)
            (spec.resolved_own (parts_in self.now.links.now) self.now.first.now self.now.second.now self.now.program.now self.now.spec.now funcs.now) }
    {
        let mut all = Items::new(alloc);
        for f in funcs {
            let again = self.wrong_own_name(seen, &f.name);
            let mut func = self.check_one(alloc, scope, again, f)?;
            spell(alloc, self.links, &mut func)?;
            all.push(func)?;
            add_func(alloc, seen, f)?;
        }
        Ok(all)
    }

    /// The functions in their resolved form, or the first refusal.
    pub fn check_funcs(&self, alloc: Global) -> Result<Items<Func>, Fail>
        ensures { Checked result
            (spec.refusal_of_own (parts_in self.now.links.now) self.now.first.now self.now.second.now self.now.program.now self.now.spec.now [] self.now.program.now.funcs)
            (spec.resolved_own (parts_in self.now.links.now) self.now.first.now self.now.second.now self.now.program.now self.now.spec.now self.now.program.now.funcs) }
    {
        let mut scope = self.scope(alloc, None)?;
        let mut seen = Symbols::new(alloc);
        self.check_each(alloc, &mut scope, &mut seen, self.program.funcs.as_slice())
    }
}

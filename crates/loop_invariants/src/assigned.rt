//! Functions whose contracts list too few cells.

ghost use Rattle.std.specs.Prelude.{◌≡◌, ◌==◌, ◌&&◌, ◌||◌, not, IfOk, OnOk, map, length};
ghost use Rattle.std.specs.Borrow.{Bor};
ghost use Rattle.std.specs.List.{list_any};
ghost use Rattle.std.specs.Str.{bytes_eq};
ghost use Rattle.c_lang.specs.Names.{Bytes};
ghost use Rattle.c_lang.specs.declared.program.Func.{Func as FuncData};
ghost use Rattle.c_lang.specs.Trees.{statement_of, statements};
ghost use Rattle.expression_conditions.specs.Candidates.{value_functions as values_of};
ghost use Rattle.loop_invariants.specs.Assigned as spec;
ghost use Rattle.loop_invariants.specs.Context.{context_of, listed_or, names_of};
ghost use Rattle.loop_invariants.specs.SetNames.{is_among, set_by, sets, sets_in, reached_assigns};
ghost use Rattle.loop_invariants.specs.Code.Listing.{has, is_missing, some_missing, context_by};

use crate::hints::Hints;
use c_lang::{Dest, Func, GlobalVar, Name, Pos, Stmt};
use expression_conditions::value_functions;
use name_tables::{NameTable, ProgramNames};
use sqlite_items::Items;
use std::alloc::{AllocError, Global};

/// The cells that a contract lists, and what is read to find what a body sets: the program, its hints, and the
/// functions whose names are values.
pub(crate) struct Listing<'a> {
    names: &'a ProgramNames<'a>,
    hints: &'a Hints,
    values: &'a [&'a Func],
    listed: NameTable<'a, bool>,
}

// By hand, so that a proof has one step for each listing that is dropped.
impl Drop for Listing<'_> {
    fn drop(self) {
        let Listing {
            names: _names,
            hints: _hints,
            values: _values,
            listed: _listed,
        } = self;
    }
}

#[tactic(auto, using(crate::proofs::ListingLaws::symmetric))]
fn add<'a>(set: &mut NameTable<'a, bool>, name: &'a Name) -> Result<(), AllocError>
    ensures { OnOk result ((x : Bytes) → has set.new x ≡ (bytes_eq x name.entry.now || has set.old x)) }
{
    set.put(name, true)?;
    Ok(())
}

fn set_of(alloc: Global, names: &[Name]) -> Result<NameTable<'_, bool>, AllocError>
    ensures { IfOk result (λ set. (x : Bytes) → has set x ≡ is_among x names.now) }
{
    let mut set = NameTable::new(alloc);
    for name in names {
        add(&mut set, name)?;
    }
    Ok(set)
}

impl Listing<'_> {
    fn misses(&self, name: &Name) -> bool
        ensures { result ≡ is_missing self.now name.now }
    {
        self.names.global(name).is_some() && self.listed.get(name).is_none()
    }

    fn misses_some(&self, names: &[Name]) -> bool
        ensures { result ≡ some_missing self.now names.now }
    {
        names.iter().any(|name| self.misses(name))
    }

    fn misses_some_global(&self, globals: &[GlobalVar]) -> bool
        ensures { result ≡ list_any (λ g. is_missing self.now g.name) globals.now }
    {
        globals.iter().any(|global| self.misses(&global.name))
    }

    // Whether a global is missing.
    fn misses_global(&self) -> bool
        ensures { result ≡ some_missing self.now (names_of self.now.names.now.globals) }
    {
        self.misses_some_global(self.names.program().globals.as_slice())
    }

    fn misses_listed(&self, listed: &Option<Items<Name>>) -> bool
        ensures { result ≡ some_missing self.now (listed_or (names_of self.now.names.now.globals) listed.now) }
    {
        match listed {
            None => self.misses_global(),
            Some(names) => self.misses_some(names.as_slice()),
        }
    }

    // Whether a cell is missing that a call of this function may change.
    fn misses_assigned(&self, func: &Name) -> bool
        ensures { result ≡ some_missing self.now ((context_by self.now).assigns func.now) }
    {
        match self.hints.contract(func) {
            None => self.misses_global(),
            Some(contract) => self.misses_listed(&contract.assigns),
        }
    }

    fn misses_assigned_by(&self, funcs: &[&Func], arity: usize) -> bool
        ensures { result ≡ list_any
            (λ (f : Bor FuncData). (length f.now.params == arity) && some_missing self.now ((context_by self.now).assigns f.now.name)) funcs.now }
    {
        funcs.iter().any(|func| func.params.len() == arity && self.misses_assigned(&func.name))
    }

    // Whether one is missing that a call through a pointer with so many arguments may change.
    fn misses_reached(&self, arity: usize) -> bool
        ensures { result ≡ some_missing self.now (reached_assigns (context_by self.now) arity) }
    {
        self.misses_assigned_by(self.values, arity)
    }

    fn misses_dest(&self, dest: &Dest) -> bool
        ensures { result ≡ some_missing self.now (set_by dest.now) }
    {
        match dest {
            Dest::Nowhere => false,
            Dest::Into(name) => self.misses(name),
            Dest::Fresh(_, name) => self.misses(name),
        }
    }

    // Whether one is missing that the statement sets.
    #[cycle(misses_set)]
    #[tactic(auto, using(crate::proofs::ListingLaws::some_of_two))]
    fn misses_set(&self, stmt: &Stmt) -> bool
        ensures { result ≡ some_missing self.now (sets (context_by self.now) (statement_of stmt.now)) }
    {
        match stmt {
            Stmt::Skip { .. } => false,
            Stmt::Set { dest, .. } => self.misses_dest(dest),
            Stmt::SetElem { array, .. } => self.misses(array),
            Stmt::Call { dest, callee, .. } => {
                self.misses_dest(dest) || self.misses_assigned(callee)
            }
            Stmt::CallBy { dest, args, .. } => {
                self.misses_dest(dest) || self.misses_reached(args.len())
            }
            Stmt::If { yes, no, .. } => {
                self.misses_set_in(yes.as_slice()) || self.misses_set_in(no.as_slice())
            }
            Stmt::While { body, .. } => self.misses_set_in(body.as_slice()),
            Stmt::Break { .. } => false,
            Stmt::Return { .. } => false,
            Stmt::Assert { .. } => false,
            Stmt::Input { dest, .. } => self.misses_dest(dest),
            Stmt::Output { .. } => false,
            Stmt::Point { .. } => false,
            Stmt::Choice { dest, .. } => self.misses_dest(dest),
            Stmt::Force { .. } => false,
            Stmt::Pick { .. } => false,
        }
    }

    // Whether one is missing that these statements set.
    #[cycle(misses_set)]
    #[tactic(auto, using(crate::proofs::ListingLaws::some_of_two))]
    fn misses_set_in(&self, stmts: &[Stmt]) -> bool
        ensures { result ≡ some_missing self.now (sets_in (context_by self.now) (statements (map statement_of stmts.now))) }
    {
        for stmt in stmts {
            if self.misses_set(stmt) {
                return true;
            }
        }
        false
    }
}

// Whether the body sets a cell that isn't among these.
fn sets_others(
    alloc: Global,
    names: &ProgramNames<'_>,
    hints: &Hints,
    values: &[&Func],
    listed: &[Name],
    func: &Func,
) -> Result<bool, AllocError>
    ensures { IfOk result (λ some. map (λ f. f.now) values.now ≡ values_of names.now → some ≡ list_any
        (λ x. is_among x (names_of names.now.globals) && not (is_among x listed.now))
        (sets_in (context_of names.now hints.now) (statements (map statement_of func.now.body)))) }
{
    let listing = Listing {
        names,
        hints,
        values,
        listed: set_of(alloc, listed)?,
    };
    Ok(listing.misses_set_in(func.body.as_slice()))
}

// A contract without a list misses nothing.
fn lists_too_few(
    alloc: Global,
    names: &ProgramNames<'_>,
    hints: &Hints,
    values: &[&Func],
    func: &Func,
) -> Result<bool, AllocError>
    ensures { IfOk result (λ few. map (λ f. f.now) values.now ≡ values_of names.now
        → few ≡ spec.lists_too_few (context_of names.now hints.now) func.now) }
{
    match hints.contract(&func.name) {
        None => Ok(false),
        Some(contract) => match &contract.assigns {
            None => Ok(false),
            Some(listed) => { sets_others(alloc, names, hints, values, listed.as_slice(), func) }
        },
    }
}

fn first_too_few(
    alloc: Global,
    names: &ProgramNames<'_>,
    hints: &Hints,
    values: &[&Func],
) -> Result<Option<Pos>, AllocError>
    ensures { IfOk result (λ first. map (λ f. f.now) values.now ≡ values_of names.now
        → first ≡ spec.lacking names.now hints.now) }
{
    for func in names.program().funcs.as_slice() {
        if lists_too_few(alloc, names, hints, values, func)? {
            return Ok(Some(func.pos));
        }
    }
    Ok(None)
}

impl Hints {
    /// The position of the first function whose contract doesn't list a cell that its body, or a function that it
    /// calls, may change. For a call through a pointer each function counts that it may reach. The only error is
    /// want of memory.
    pub fn lacking(
        &self,
        alloc: Global,
        names: &ProgramNames<'_>,
    ) -> Result<Option<Pos>, AllocError>
        ensures { IfOk result (λ first. first ≡ spec.lacking names.now self.now) }
    {
        let values = value_functions(alloc, names.program())?;
        first_too_few(alloc, names, self, &values)
    }
}

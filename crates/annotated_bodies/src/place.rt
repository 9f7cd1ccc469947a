//! Places in a function's text, at which names are given fresh numbers.

ghost use Rattle.std.specs.Prelude.{◌≡◌, suc, IfOk, OnOk, map};
ghost use Rattle.c_lang.specs.Names.{Bytes};
ghost use Rattle.name_tables.specs.Tables.{found};
ghost use Rattle.weakest_preconditions.specs.Annotating as spec;
ghost use Rattle.annotated_bodies.specs.Sources.{names_in};
ghost use Rattle.annotated_bodies.specs.Places.{count_in, seen_place};
ghost use Rattle.annotated_bodies.specs.Code.Given.{seen_fresh, numbered, last_given};

use c_lang::Name;
use name_tables::NameTable;
use sqlite_items::Items;
use std::alloc::{AllocError, Global};
use terms::Sym;

/// How many loops begin before a statement, and how many fresh names each base has got before it.
pub(crate) struct Place<'p> {
    loops: u32,
    counts: NameTable<'p, u32>,
}

// By hand, so that a proof has one step for each place that is dropped.
impl Drop for Place<'_> {
    fn drop(self) {
        let Place {
            loops: _loops,
            counts: _counts,
        } = self;
    }
}

// A base with the number of its fresh name.
#[derive(Clone, Copy)]
struct FreshName<'p> {
    base: &'p Name,
    count: u32,
}

// The next fresh name of each base.
fn next_names<'p>(
    alloc: Global,
    counts: &NameTable<'_, u32>,
    bases: &[&'p Name],
) -> Result<Vec<FreshName<'p>>, AllocError>
    ensures { IfOk result (λ all. map seen_fresh all.items ≡ map (numbered (count_in counts.now)) (names_in bases.now)) }
{
    let mut all = Vec::new(alloc);
    for base in bases {
        let before = counts.get(base).unwrap_or(0);
        let Some(count) = before.checked_add(1) else {
            return Err(AllocError);
        };
        all.push(FreshName { base, count })?;
    }
    Ok(all)
}

fn put_all<'p>(counts: &mut NameTable<'p, u32>, names: &[FreshName<'p>]) -> Result<(), AllocError>
    ensures { OnOk result ((x : Bytes) → found counts.new x ≡ last_given (map seen_fresh names.now) x (found counts.old x)) }
{
    for name in names {
        counts.put(name.base, name.count)?;
    }
    Ok(())
}

fn symbols(alloc: Global, names: &[FreshName<'_>]) -> Result<Vec<Sym>, AllocError>
    ensures { IfOk result (λ all. all.items ≡ map seen_fresh names.now) }
{
    let mut all = Vec::new(alloc);
    for name in names {
        all.push(Sym {
            base: name.base.copy(alloc)?,
            count: name.count,
        })?;
    }
    Ok(all)
}

impl<'p> Place<'p> {
    /// The beginning of a body. It takes no memory.
    pub(crate) fn new(alloc: Global) -> Place<'p>
        ensures { seen_place result ≡ spec.start }
    {
        Place {
            loops: 0,
            counts: NameTable::new(alloc),
        }
    }

    /// How many loops begin before it. It takes no memory.
    pub(crate) fn loops(&self) -> u32
        ensures { result ≡ (seen_place self.now).loops }
    {
        self.loops
    }

    /// The fresh names that a statement here gives. The only error is want of memory, which it is, too, where a
    /// number doesn't fit 32 bits.
    pub(crate) fn fresh(&self, alloc: Global, bases: &[&Name]) -> Result<Items<Sym>, AllocError>
        ensures { IfOk result (λ names. names ≡ spec.fresh (seen_place self.now) (names_in bases.now)) }
    {
        let names = next_names(alloc, &self.counts, bases)?;
        Ok(Items::from_vec(symbols(alloc, &names)?))
    }

    /// Goes behind a statement that gives these bases fresh names. The only error is want of memory, which it is,
    /// too, where a number doesn't fit 32 bits.
    pub(crate) fn renew(&mut self, alloc: Global, bases: &[&'p Name]) -> Result<(), AllocError>
        ensures { OnOk result (seen_place self.new ≡ spec.renewed (names_in bases.now) (seen_place self.old)) }
    {
        let names = next_names(alloc, &self.counts, bases)?;
        put_all(&mut self.counts, &names)?;
        Ok(())
    }

    /// Goes to where a loop's body begins. The only error is want of memory, which it is where the loop's number
    /// doesn't fit 32 bits.
    pub(crate) fn begin_loop(&mut self) -> Result<(), AllocError>
        ensures { OnOk result (seen_place self.new ≡ record (seen_place self.old) { loops = suc (seen_place self.old).loops }) }
    {
        let Some(loops) = self.loops.checked_add(1) else {
            return Err(AllocError);
        };
        self.loops = loops;
        Ok(())
    }
}

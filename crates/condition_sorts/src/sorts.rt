ghost use Rattle.std.specs.Prelude.{◌≡◌, IfOk, map, length};
ghost use Rattle.std.specs.Option.{option_copied};
ghost use Rattle.weakest_preconditions.specs.Sorts as spec;
ghost use Rattle.condition_sorts.specs.Sorted.{with_sorts};
ghost use Rattle.condition_sorts.specs.Tables.{HasKinds};

use crate::kinds::kinds;
use c_lang::{Func, Kind, Name, Shape};
use name_tables::{NameTable, ProgramNames};
use sqlite_items::Items;
use std::alloc::{AllocError, Global};
use std::marker::Model;
use terms::{Sequent, Sort, Sym, free_in_sequent};

/// What the names in a function's conditions stand for, which contracts see as the program and the function.
pub struct Sorts<'p> {
    names: &'p ProgramNames<'p>,
    func: &'p Func,
    kinds: NameTable<'p, Kind>,
}

// By hand, so that a proof has one step for each that is dropped.
impl Drop for Sorts<'_> {
    fn drop(self) {
        let Sorts {
            names: _names,
            func: _func,
            kinds: _kinds,
        } = self;
    }
}

impl<'p> Model for Sorts<'p> {
    ghost use Rattle.std.specs.Coded.{codes, coded×};
    ghost use Rattle.c_lang.specs.declared.program.Func.{Func};
    ghost use Rattle.c_lang.specs.declared.program.Program.{Program};
    ghost use Rattle.c_lang.specs.contracts.program.Program as the_program;
    ghost use Rattle.c_lang.specs.contracts.program.Func as the_func;
    ghost use Rattle.condition_sorts.specs.Tables.{HasKinds};

    ghost Value = { Program × Func };

    ghost coded = { Prim.hlevel (codes, the_program.the_row.coded, the_func.the_row.coded) };

    ghost view = { λ s. (s.names.now, s.func.now) };

    ghost invariant = { λ s. HasKinds s.kinds s.func.now };
}

// The sort of names of a kind, where the program has so many functions.
fn kind_sort(funcs: u32, kind: Kind) -> Sort
    ensures { result ≡ spec.kind_sort funcs kind }
{
    match kind {
        Kind::Int => Sort::Whole,
        Kind::Fp(_) => Sort::Code(funcs),
    }
}

// The sort of a global. The only error is want of memory, which it is where the length of an array doesn't fit 32 bits.
fn shape_sort(funcs: u32, shape: &Shape) -> Result<Sort, AllocError>
    ensures { IfOk result (λ sort. sort ≡ spec.shape_sort funcs shape.now) }
{
    match shape {
        Shape::Int(_) => Ok(Sort::Whole),
        Shape::Arr(items) => Ok(Sort::Row(count(items.as_slice().len())?)),
        Shape::Fp(_, _) => Ok(Sort::Code(funcs)),
    }
}

fn count(length: usize) -> Result<u32, AllocError>
    ensures { IfOk result (λ n. n ≡ length) }
{
    match u32::try_from(length) {
        Ok(count) => Ok(count),
        Err(_) => Err(AllocError),
    }
}

impl<'p> Sorts<'p> {
    /// What the names in the conditions of this function stand for. The only error is want of memory.
    pub fn new(
        alloc: Global,
        names: &'p ProgramNames<'p>,
        func: &'p Func,
    ) -> Result<Sorts<'p>, AllocError>
        ensures { IfOk result (λ sorts. sorts ≡ (names.entry.now, func.entry.now)) }
    {
        Ok(Sorts {
            names,
            func,
            kinds: kinds(alloc, func)?,
        })
    }

    /// The program with its names. It takes no memory.
    pub fn names(&self) -> &'p ProgramNames<'p>
        ensures { result.now ≡ self.now.0 }
    {
        self.names
    }

    /// The function. It takes no memory.
    pub fn func(&self) -> &'p Func
        ensures { result.now ≡ self.now.1 }
    {
        self.func
    }

    // The sort of names with this base. The only error is want of memory, which it is where a length or the number
    // of functions doesn't fit 32 bits.
    fn sort(&self, base: &Name) -> Result<Sort, AllocError>
        ensures { IfOk result (λ sort. sort ≡ spec.sort_of self.now.0 self.now.1 base.now) }
    {
        let funcs = count(self.names.program().funcs.as_slice().len())?;
        if let Some(kind) = self.kinds.get(base) {
            return Ok(kind_sort(funcs, kind));
        }
        match self.names.global(base) {
            Some(global) => shape_sort(funcs, &global.shape),
            None => Ok(Sort::Whole),
        }
    }

    fn of_names(&self, alloc: Global, names: &[Sym]) -> Result<Vec<(Sym, Sort)>, AllocError>
        ensures { IfOk result (λ pairs. pairs.items ≡ map (λ x. (x, spec.sort_of self.now.0 self.now.1 x.base)) names.now) }
    {
        let mut pairs = Vec::new(alloc);
        for name in names {
            let sort = self.sort(&name.base)?;
            pairs.push((name.copy(alloc)?, sort))?;
        }
        Ok(pairs)
    }

    /// The sequent with the sorts of its free names, in the order of their first places. The only error is want of
    /// memory, which it is, too, where the length of an array or the number of functions doesn't fit 32 bits.
    pub fn sorted(&self, alloc: Global, sequent: Sequent) -> Result<Sequent, AllocError>
        ensures { IfOk result (λ made. made ≡ with_sorts self.now.0 self.now.1 sequent) }
    {
        let names = free_in_sequent(alloc, sequent.hyps.as_slice(), &sequent.goal)?;
        let pairs = self.of_names(alloc, &names)?;
        Ok(Sequent {
            sorts: Items::from_vec(pairs),
            hyps: sequent.hyps,
            goal: sequent.goal,
            label: sequent.label,
        })
    }
}

ghost use Rattle.std.specs.Prelude.{◌≡◌, ◌==◌, ◌++◌, IfOk, OnOk, map, flat_map, filter, length};
ghost use Rattle.expression_conditions.specs.Candidates.{candidates};
ghost use Rattle.loop_invariants.specs.SetNames.{reached_assigns};
ghost use Rattle.loop_invariants.specs.EntryNames as spec;
ghost use Rattle.annotated_bodies.specs.Sources.{context_in, names_in};

use c_lang::{Func, GlobalVar, Name};
use expression_conditions::value_functions;
use loop_invariants::Hints;
use name_tables::ProgramNames;
use std::alloc::{AllocError, Global};
use std::marker::Model;

/// What the conditions of functions read of a program and of its hints, which contracts see as these two.
pub struct Context<'p> {
    names: &'p ProgramNames<'p>,
    hints: &'p Hints,
    values: Vec<&'p Func>,
    outcome: Name,
}

// By hand, so that a proof has one step for each that is dropped.
impl Drop for Context<'_> {
    fn drop(self) {
        let Context {
            names: _names,
            hints: _hints,
            values: _values,
            outcome: _outcome,
        } = self;
    }
}

impl<'p> Model for Context<'p> {
    ghost use Rattle.std.specs.Prelude.{◌≡◌, map};
    ghost use Rattle.std.specs.Coded.{codes, coded×};
    ghost use Rattle.c_lang.specs.contracts.program.Program as the_program;
    ghost use Rattle.loop_invariants.specs.contracts.hints.Hints as the_hints;
    ghost use Rattle.expression_conditions.specs.Candidates.{value_functions};
    ghost use Rattle.loop_invariants.specs.EntryNames.{result_base};
    ghost use Rattle.annotated_bodies.specs.Sources.{Sources};

    ghost Value = { Sources };

    ghost coded = { Prim.hlevel (codes, the_program.the_row.coded, the_hints.the_row.coded) };

    ghost view = { λ c. (c.names.now, c.hints.now) };

    ghost invariant = { λ c. (map (λ f. f.now) c.values.items ≡ value_functions c.names.now) × (c.outcome ≡ result_base) };
}

impl<'p> Context<'p> {
    /// What is read of this program and of these hints. The only error is want of memory.
    pub fn new(
        alloc: Global,
        names: &'p ProgramNames<'p>,
        hints: &'p Hints,
    ) -> Result<Context<'p>, AllocError>
        ensures { IfOk result (λ context. context ≡ (names.entry.now, hints.entry.now)) }
    {
        let values = value_functions(alloc, names.program())?;
        Ok(Context {
            names,
            hints,
            values,
            outcome: Name::new(alloc, b"$r")?,
        })
    }

    /// The program with its names. It takes no memory.
    pub fn names(&self) -> &'p ProgramNames<'p>
        ensures { result.now ≡ self.now.0 }
    {
        self.names
    }

    /// The hints. It takes no memory.
    pub fn hints(&self) -> &'p Hints
        ensures { result.now ≡ self.now.1 }
    {
        self.hints
    }

    /// The base of a result that no program names. It takes no memory.
    pub fn result_base(&self) -> &Name
        ensures { result.now ≡ spec.result_base }
    {
        &self.outcome
    }

    /// Whether the function has a result. It takes no memory.
    pub fn gives(&self, func: &Name) -> bool
        ensures { result ≡ (context_in self.now).gives func.now }
    {
        match self.names.func(func) {
            Some(func) => func.gives,
            None => false,
        }
    }

    /// The functions that a call through a pointer with so many arguments may reach, in the order of their
    /// declarations. The only error is want of memory.
    pub fn reached(&self, alloc: Global, arity: usize) -> Result<Vec<&'p Func>, AllocError>
        ensures { IfOk result (λ all. map (λ f. f.now) all.items ≡ candidates self.now.0 arity) }
    {
        with_arity(alloc, &self.values, arity)
    }

    /// Adds the cells that a function may change. The only error is want of memory.
    pub fn add_assigns<'c>(&'c self, out: &mut Vec<&'c Name>, func: &Name) -> Result<(), AllocError>
        ensures { OnOk result (names_in out.new.items ≡ names_in out.old.items ++ (context_in self.entry.now).assigns func.now) }
    {
        match self.hints.contract(func) {
            None => add_globals(out, self.names.program().globals.as_slice()),
            Some(contract) => match &contract.assigns {
                None => add_globals(out, self.names.program().globals.as_slice()),
                Some(listed) => add_names(out, listed.as_slice()),
            },
        }
    }

    // Adds the cells that each of these functions may change.
    fn add_assigns_of<'c>(
        &'c self,
        out: &mut Vec<&'c Name>,
        funcs: &[&Func],
    ) -> Result<(), AllocError>
        ensures { OnOk result (names_in out.new.items
            ≡ names_in out.old.items ++ flat_map (context_in self.entry.now).assigns (map (λ d. d.name) (map (λ f. f.now) funcs.now))) }
    {
        for func in funcs {
            self.add_assigns(out, &func.name)?;
        }
        Ok(())
    }

    /// Adds the cells that some function reached by a pointer may change. The only error is want of memory.
    pub fn add_reached_assigns<'c>(
        &'c self,
        alloc: Global,
        out: &mut Vec<&'c Name>,
        arity: usize,
    ) -> Result<(), AllocError>
        ensures { OnOk result (names_in out.new.items
            ≡ names_in out.old.items ++ reached_assigns (context_in self.entry.now) arity) }
    {
        let funcs = self.reached(alloc, arity)?;
        self.add_assigns_of(out, &funcs)
    }
}

fn with_arity<'p>(
    alloc: Global,
    funcs: &[&'p Func],
    arity: usize,
) -> Result<Vec<&'p Func>, AllocError>
    ensures { IfOk result (λ all. map (λ f. f.now) all.items
        ≡ filter (λ d. length d.params == arity) (map (λ f. f.now) funcs.now)) }
{
    let mut all = Vec::new(alloc);
    for func in funcs {
        if func.params.len() == arity {
            all.push(*func)?;
        }
    }
    Ok(all)
}

fn add_globals<'c>(out: &mut Vec<&'c Name>, globals: &'c [GlobalVar]) -> Result<(), AllocError>
    ensures { OnOk result (names_in out.new.items ≡ names_in out.old.items ++ map (λ g. g.name) globals.entry.now) }
{
    for global in globals {
        out.push(&global.name)?;
    }
    Ok(())
}

fn add_names<'c>(out: &mut Vec<&'c Name>, names: &'c [Name]) -> Result<(), AllocError>
    ensures { OnOk result (names_in out.new.items ≡ names_in out.old.items ++ names.entry.now) }
{
    for name in names {
        out.push(name)?;
    }
    Ok(())
}

ghost use Rattle.std.specs.Prelude.{◌≡◌, IfOk};
ghost use Rattle.std.specs.Option.{option_copied};
ghost use Rattle.c_lang.specs.Programs.{func_named};

use crate::names::put;
use c_lang::{Func, Name, Program};
use indexmap::IndexMap;
use std::alloc::{AllocError, Global};
use std::marker::Model;

/// A program with its functions by name, which contracts see as the program.
pub struct IndexedProgram<'p> {
    program: &'p Program,
    funcs: IndexMap<&'p Name, &'p Func>,
}

// By hand, so that a proof has one step for each program that is dropped.
impl Drop for IndexedProgram<'_> {
    fn drop(self) {
        let IndexedProgram {
            program: _program,
            funcs: _funcs,
        } = self;
    }
}

impl<'p> Model for IndexedProgram<'p> {
    ghost use Rattle.std.specs.Coded.{codes};
    ghost use Rattle.c_lang.specs.declared.program.Program.{Program};
    ghost use Rattle.c_lang.specs.contracts.program.Program as the_program;

    ghost Value = { Program };

    ghost coded = { Prim.hlevel (codes, the_program.the_row.coded) };

    ghost use Rattle.plain_run.specs.Code.Tables.{HasFuncs};

    ghost view = { λ p. p.program.now };

    ghost invariant = { λ p. HasFuncs p.funcs.entries p.program.now.funcs };
}

impl<'p> IndexedProgram<'p> {
    /// The program with its table. Of several functions with one name the first counts.
    pub fn new(alloc: Global, program: &'p Program) -> Result<IndexedProgram<'p>, AllocError>
        ensures { IfOk result (λ indexed. indexed ≡ program.entry.now) }
    {
        let all = program.funcs.as_slice();
        let mut funcs = IndexMap::new(alloc);
        let mut left = all.len();
        while left > 0 {
            left -= 1;
            let func = &all[left];
            put(&mut funcs, &func.name, func)?;
        }
        Ok(IndexedProgram { program, funcs })
    }

    /// The function with this name.
    pub fn func(&self, name: &Name) -> Option<&'p Func>
        ensures { option_copied result ≡ func_named self.now.funcs name.now }
    {
        match self.funcs.get(&name) {
            Some(func) => Some(*func),
            None => None,
        }
    }
}

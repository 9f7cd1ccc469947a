ghost use Rattle.std.specs.Prelude.{◌≡◌, IfOk};
ghost use Rattle.std.specs.Option.{option_copied, option_map};
ghost use Rattle.c_lang.specs.Programs.{global_named, func_named};
ghost use Rattle.name_tables.specs.Declarations.{function_number, array_length};
ghost use Rattle.name_tables.specs.Code.Filled.{HasGlobals, HasFuncs};

use crate::NameTable;
use c_lang::{Func, GlobalVar, Name, Program, Shape};
use std::alloc::{AllocError, Global};
use std::marker::Model;

/// A function with its number in the order of declarations, counted from 1.
#[derive(Clone, Copy, Debug)]
pub struct Numbered<'p> {
    pub func: &'p Func,
    pub number: usize,
}

/// A program with its globals and functions by name, which contracts see as the program. Of several with
/// one name the first counts.
pub struct ProgramNames<'p> {
    program: &'p Program,
    globals: NameTable<'p, &'p GlobalVar>,
    funcs: NameTable<'p, Numbered<'p>>,
}

// By hand, so that a proof has one step for each that is dropped.
impl Drop for ProgramNames<'_> {
    fn drop(self) {
        let ProgramNames {
            program: _program,
            globals: _globals,
            funcs: _funcs,
        } = self;
    }
}

impl<'p> Model for ProgramNames<'p> {
    ghost use Rattle.std.specs.Coded.{codes};
    ghost use Rattle.c_lang.specs.declared.program.Program.{Program};
    ghost use Rattle.c_lang.specs.contracts.program.Program as the_program;

    ghost Value = { Program };

    ghost coded = { Prim.hlevel (codes, the_program.the_row.coded) };

    ghost use Rattle.name_tables.specs.Code.Filled.{HasGlobals, HasFuncs};

    ghost view = { λ p. p.program.now };

    ghost invariant = { λ p. HasGlobals p.globals p.program.now.globals × HasFuncs p.funcs 1 p.program.now.funcs };
}

// The first of each name.
fn globals_by_name(
    alloc: Global,
    all: &[GlobalVar],
) -> Result<NameTable<'_, &GlobalVar>, AllocError>
    ensures { IfOk result (λ globals. HasGlobals globals all.now) }
{
    let mut globals = NameTable::new(alloc);
    let mut left = all.len();
    while left > 0 {
        left -= 1;
        let global = &all[left];
        globals.put(&global.name, global)?;
    }
    Ok(globals)
}

fn funcs_by_name(alloc: Global, all: &[Func]) -> Result<NameTable<'_, Numbered<'_>>, AllocError>
    ensures { IfOk result (λ funcs. HasFuncs funcs 1 all.now) }
{
    let mut funcs = NameTable::new(alloc);
    let mut left = all.len();
    while left > 0 {
        let number = left;
        left -= 1;
        let func = &all[left];
        funcs.put(&func.name, Numbered { func, number })?;
    }
    Ok(funcs)
}

impl<'p> ProgramNames<'p> {
    /// The program with its tables. The only error is want of memory.
    pub fn new(alloc: Global, program: &'p Program) -> Result<ProgramNames<'p>, AllocError>
        ensures { IfOk result (λ names. names ≡ program.entry.now) }
    {
        Ok(ProgramNames {
            program,
            globals: globals_by_name(alloc, program.globals.as_slice())?,
            funcs: funcs_by_name(alloc, program.funcs.as_slice())?,
        })
    }

    /// The program. It takes no memory.
    pub fn program(&self) -> &'p Program
        ensures { result.now ≡ self.now }
    {
        self.program
    }

    /// The global with this name. It takes no memory.
    pub fn global(&self, name: &Name) -> Option<&'p GlobalVar>
        ensures { option_copied result ≡ global_named self.now.globals name.now }
    {
        self.globals.get(name)
    }

    /// The function with this name. It takes no memory.
    pub fn func(&self, name: &Name) -> Option<&'p Func>
        ensures { option_copied result ≡ func_named self.now.funcs name.now }
    {
        match self.funcs.get(name) {
            Some(found) => Some(found.func),
            None => None,
        }
    }

    /// The function's number in the order of declarations, counted from 1, and 0 where no function has the
    /// name. It takes no memory.
    pub fn number(&self, name: &Name) -> usize
        ensures { result ≡ function_number self.now name.now }
    {
        match self.funcs.get(name) {
            Some(found) => found.number,
            None => 0,
        }
    }

    /// The length of the array with this name, and 0 where no array has it. It takes no memory.
    pub fn length(&self, name: &Name) -> usize
        ensures { result ≡ array_length self.now name.now }
    {
        match self.global(name) {
            None => 0,
            Some(global) => match &global.shape {
                Shape::Int(_) => 0,
                Shape::Arr(elements) => elements.len(),
                Shape::Fp(_, _) => 0,
            },
        }
    }
}

//! A program's declarations by name.

ghost use Rattle.std.specs.Prelude.{◌≡◌, IfOk};
ghost use Rattle.std.specs.Option.{option_copied};
ghost use Rattle.c_lang.specs.Programs.{global_named, func_named};
ghost use Rattle.update_semantics.specs.Linked.{declared_name};
ghost use Rattle.plain_run.specs.Code.Tables.{HasFuncs};
ghost use Rattle.update_semantics.specs.Code.Tables.{HasGlobals};

use c_lang::{Func, GlobalVar, Name, Program};
use indexmap::IndexMap;
use std::alloc::{AllocError, Global};
use std::marker::Model;
use version_names::Sort2;

type Globals<'p> = IndexMap<&'p [u8], &'p GlobalVar>;

type Funcs<'p> = IndexMap<&'p [u8], &'p Func>;

/// A program with its globals and functions by the bytes of their names, which contracts see as the
/// program.
pub struct Declared<'p> {
    program: &'p Program,
    globals: Globals<'p>,
    funcs: Funcs<'p>,
}

impl Drop for Declared<'_> {
    fn drop(self) {
        let Declared {
            program: _,
            globals,
            funcs,
        } = self;
        drop(globals);
        drop(funcs);
    }
}

impl<'p> Model for Declared<'p> {
    ghost use Rattle.std.specs.Coded.{codes};
    ghost use Rattle.c_lang.specs.declared.program.Program.{Program};
    ghost use Rattle.c_lang.specs.contracts.program.Program as the_program;
    ghost use Rattle.plain_run.specs.Code.Tables.{HasFuncs};
    ghost use Rattle.update_semantics.specs.Code.Tables.{HasGlobals};

    ghost Value = { Program };

    ghost coded = { Prim.hlevel (codes, the_program.the_row.coded) };

    ghost view = { λ p. p.program.now };

    ghost invariant = { λ p. HasGlobals p.globals.entries p.program.now.globals × HasFuncs p.funcs.entries p.program.now.funcs };
}

// The first of each name, as a program has it.
fn globals_by_name(alloc: Global, all: &[GlobalVar]) -> Result<Globals<'_>, AllocError>
    ensures { IfOk result (λ globals. HasGlobals globals.entries all.now) }
{
    let mut globals = IndexMap::new(alloc);
    let mut left = all.len();
    while left > 0 {
        left -= 1;
        let global = &all[left];
        globals.insert(global.name.as_bytes(), global)?;
    }
    Ok(globals)
}

fn funcs_by_name(alloc: Global, all: &[Func]) -> Result<Funcs<'_>, AllocError>
    ensures { IfOk result (λ funcs. HasFuncs funcs.entries all.now) }
{
    let mut funcs = IndexMap::new(alloc);
    let mut left = all.len();
    while left > 0 {
        left -= 1;
        let func = &all[left];
        funcs.insert(func.name.as_bytes(), func)?;
    }
    Ok(funcs)
}

impl<'p> Declared<'p> {
    /// The program with its tables. Of several declarations of one name the first counts. The only
    /// error is want of memory.
    pub fn new(alloc: Global, program: &'p Program) -> Result<Declared<'p>, AllocError>
        ensures { IfOk result (λ declared. declared ≡ program.entry.now) }
    {
        let globals = globals_by_name(alloc, program.globals.as_slice())?;
        let funcs = funcs_by_name(alloc, program.funcs.as_slice())?;
        Ok(Declared {
            program,
            globals,
            funcs,
        })
    }

    /// The program. It takes no memory.
    pub fn program(&self) -> &'p Program
        ensures { result.now ≡ self.now }
    {
        self.program
    }

    /// The function with this name. It takes no memory.
    pub fn func(&self, name: &[u8]) -> Option<&'p Func>
        ensures { option_copied result ≡ func_named self.now.funcs name.now }
    {
        match self.funcs.get(name) {
            Some(func) => Some(*func),
            None => None,
        }
    }

    fn global(&self, name: &[u8]) -> Option<&'p GlobalVar>
        ensures { option_copied result ≡ global_named self.now.globals name.now }
    {
        match self.globals.get(name) {
            Some(global) => Some(*global),
            None => None,
        }
    }

    /// The name of the global or the function that has these bytes as its name, where the program
    /// declares it. It takes no memory.
    pub fn name(&self, sort: Sort2, name: &[u8]) -> Option<&'p Name>
        ensures { option_copied result ≡ declared_name self.now sort name.now }
    {
        match sort {
            Sort2::Cell => match self.global(name) {
                Some(global) => Some(&global.name),
                None => None,
            },
            Sort2::Code => match self.func(name) {
                Some(func) => Some(&func.name),
                None => None,
            },
        }
    }
}

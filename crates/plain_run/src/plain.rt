//! The environment of a program that knows no update.

ghost use Rattle.std.specs.Prelude.{◌≡◌, codes, IfOk, OnOk, OnErr};
ghost use Rattle.plain_run.specs.Environments.{func_or_none, seen_callee};
ghost use Rattle.plain_run.specs.Values.{seen_value};
ghost use Rattle.c_lang.specs.Programs.{func_in};

use crate::arrays::{Arrays, initial_arrays, set_element};
use crate::environment::{Callee, Decision, Definition, Environment, Look};
use crate::indexed::IndexedProgram;
use crate::initial::initial_values;
use crate::names::{Values, put};
use crate::run::Run;
use crate::value::Value;
use c_lang::{Name, Program, Stmt};
use c_types::Typed;
use std::alloc::{AllocError, Global};

/// The globals of a program, and its functions.
pub struct Plain<'p> {
    program: IndexedProgram<'p>,
    values: Values<'p, &'p Name>,
    arrays: Arrays<'p>,
}

// By hand, so that a proof has one step for each environment that is dropped.
impl Drop for Plain<'_> {
    fn drop(self) {
        let Plain {
            program: _program,
            values: _values,
            arrays: _arrays,
        } = self;
    }
}

impl<'p> Look for Plain<'p> {
    ghost use Rattle.std.specs.Prelude.{⊤, List, ℕ};
    ghost use Rattle.plain_run.specs.PlainRun.{Store};
    ghost use Rattle.plain_run.specs.PlainEnvironments.{plain_sees, rules_of, store_of};

    type Function = &'p Name;

    type Origin = ();

    ghost F = { List ℕ };

    ghost O = { ⊤ };

    ghost State = { Store };

    ghost seen = { plain_sees };

    ghost rules = { rules_of };

    ghost state = { store_of };

    fn value(&self, _origin: (), name: &Name) -> Value<&'p Name> {
        match self.values.get(&name) {
            Some(value) => *value,
            None => Value::Num(0),
        }
    }

    fn elements<'a>(&'a self, _origin: (), array: &'a Name) -> &'a [i32] {
        match self.arrays.get(array.as_bytes()) {
            Some(elements) => elements.as_slice(),
            None => &[],
        }
    }

    fn same(&self, origin: (), left: Callee<'_, &'p Name>, right: Callee<'_, &'p Name>) -> bool
        ensures { result ≡ (rules_of self.now).access.same
            (seen_callee plain_sees.function ((rules_of self.now).access.code (plain_sees.origin origin) (store_of self.now)) left.entry)
            (seen_callee plain_sees.function ((rules_of self.now).access.code (plain_sees.origin origin) (store_of self.now)) right.entry) }
    {
        match (left, right) {
            (Callee::Known(f), Callee::Known(g)) => f == g,
            (Callee::Known(f), Callee::Named(g)) => f == g,
            (Callee::Named(f), Callee::Known(g)) => f == g,
            (Callee::Named(f), Callee::Named(g)) => f == g,
        }
    }
}

impl<'p> Environment<'p> for Plain<'p> {
    ghost use Rattle.plain_run.specs.Environments.{SetsElement};
    ghost use Rattle.plain_run.specs.PlainEnvironments.{plain_sees, rules_of, store_of};

    fn code(&self, _origin: (), name: &'p Name) -> &'p Name {
        name
    }

    fn enter(&self, function: &'p Name) -> Definition<'p, ()> {
        Definition {
            origin: (),
            func: self.program.func(function),
        }
    }

    fn decide(&self, _origin: (), _statement: &'p Stmt) -> Decision<'p> {
        Decision::Skip
    }

    fn transformer(&self) -> Definition<'p, ()> {
        Definition {
            origin: (),
            func: None,
        }
    }

    fn put(&mut self, origin: (), name: &'p Name, value: Value<&'p Name>) -> Result<(), AllocError>
        ensures rules { rules_of self.new ≡ rules_of self.old }
        ensures put { OnOk result (store_of self.new ≡ (rules_of self.old).access.put
            (plain_sees.origin origin) name.entry.now (seen_value plain_sees.function value.entry) (store_of self.old)) }
        ensures kept { OnErr result (store_of self.new ≡ store_of self.old) }
    {
        put(&mut self.values, name, value)
    }

    fn set_element(&mut self, origin: (), array: &'p Name, at: i32, element: i32) -> bool {
        match self.arrays.get_mut(array.as_bytes()) {
            Some(elements) => set_element(elements, at, element),
            None => false,
        }
    }

    fn update(&mut self, _alloc: Global) -> Result<(), AllocError> {
        Ok(())
    }
}

impl<'p> Plain<'p> {
    ghost use Rattle.plain_run.specs.PlainEnvironments.{initial_store, plain_rules, plain_sees, rules_of, store_of};
    ghost use Rattle.plain_run.specs.PlainRun.{start};
    ghost use Rattle.plain_run.specs.Stacks.{config_with};

    // The program's globals with their initial values. The only error is want of memory.
    fn new(alloc: Global, program: &'p Program) -> Result<Plain<'p>, AllocError>
        ensures program { IfOk result (λ plain. plain.program ≡ program.entry.now) }
        ensures state { IfOk result (λ plain. store_of plain ≡ initial_store program.entry.now) }
    {
        let indexed = IndexedProgram::new(alloc, program)?;
        let globals = program.globals.as_slice();
        let values = initial_values(alloc, globals)?;
        let arrays = initial_arrays(alloc, globals)?;
        Ok(Plain {
            program: indexed,
            values,
            arrays,
        })
    }

    // The function `main`. The only error is want of memory.
    fn main(&self, alloc: Global) -> Result<Definition<'p, ()>, AllocError>
        ensures { IfOk result (λ main. func_or_none main.func ≡ func_in self.now.program.funcs (codes "main")) }
    {
        let name = Name::new(alloc, b"main")?;
        Ok(Definition {
            origin: (),
            func: self.program.func(&name),
        })
    }

    /// The start of a program's run: the globals have their initial values, and `main` is called. The
    /// only error is want of memory.
    pub fn start(alloc: Global, program: &'p Typed) -> Result<Run<'p, Plain<'p>>, AllocError>
        ensures config { IfOk result (λ run. config_with plain_sees (store_of run.environment) run.stack
            ≡ start program.entry.now.program) }
        ensures rules { IfOk result (λ run. rules_of run.environment ≡ plain_rules program.entry.now.program) }
    {
        Plain::at_start(alloc, program.program())
    }

    fn at_start(alloc: Global, program: &'p Program) -> Result<Run<'p, Plain<'p>>, AllocError>
        ensures config { IfOk result (λ run. config_with plain_sees (store_of run.environment) run.stack ≡ start program.entry.now) }
        ensures rules { IfOk result (λ run. rules_of run.environment ≡ plain_rules program.entry.now) }
    {
        let plain = Plain::new(alloc, program)?;
        let main = plain.main(alloc)?;
        Run::new(alloc, plain, main)
    }
}

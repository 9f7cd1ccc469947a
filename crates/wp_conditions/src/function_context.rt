//! What the conditions of a function are made from.

ghost use Rattle.std.specs.Prelude.{◌≡◌, IfOk};

use annotated_bodies::Context;
use c_lang::Func;
use condition_sorts::Sorts;
use std::alloc::{AllocError, Global};
use std::marker::Model;

/// A function with the program and the hints, which contracts see as these three in the order program, hints,
/// function.
pub(crate) struct FunctionContext<'c> {
    context: &'c Context<'c>,
    sorts: Sorts<'c>,
}

// By hand, so that a proof has one step for each that is dropped.
impl Drop for FunctionContext<'_> {
    fn drop(self) {
        let FunctionContext {
            context: _context,
            sorts: _sorts,
        } = self;
    }
}

impl<'c> Model for FunctionContext<'c> {
    ghost use Rattle.std.specs.Prelude.{◌≡◌};
    ghost use Rattle.std.specs.Coded.{codes, coded×};
    ghost use Rattle.c_lang.specs.declared.program.Func.{Func};
    ghost use Rattle.c_lang.specs.declared.program.Program.{Program};
    ghost use Rattle.c_lang.specs.contracts.program.Program as the_program;
    ghost use Rattle.c_lang.specs.contracts.program.Func as the_func;
    ghost use Rattle.loop_invariants.specs.Hints.{Hints};
    ghost use Rattle.loop_invariants.specs.contracts.hints.Hints as the_hints;

    ghost Value = { Program × Hints × Func };

    ghost coded = { Prim.hlevel (codes, the_program.the_row.coded, the_hints.the_row.coded, the_func.the_row.coded) };

    ghost view = { λ f. (f.context.now.0, f.context.now.1, f.sorts.1) };

    ghost invariant = { λ f. f.sorts.0 ≡ f.context.now.0 };
}

impl<'c> FunctionContext<'c> {
    /// What the conditions of this function are made from. The only error is want of memory.
    pub(crate) fn new(
        alloc: Global,
        context: &'c Context<'c>,
        func: &'c Func,
    ) -> Result<FunctionContext<'c>, AllocError>
        ensures { IfOk result (λ made. made ≡ (context.entry.now.0, context.entry.now.1, func.entry.now)) }
    {
        let sorts = Sorts::new(alloc, context.names(), func)?;
        Ok(FunctionContext { context, sorts })
    }

    /// What is read of the program and of the hints. It takes no memory.
    pub(crate) fn context(&self) -> &'c Context<'c>
        ensures { result.now ≡ (self.now.0, self.now.1) }
    {
        self.context
    }

    /// The sorts of the names. It takes no memory.
    pub(crate) fn sorts(&self) -> &Sorts<'c>
        ensures { result.now ≡ (self.now.0, self.now.2) }
    {
        &self.sorts
    }

    /// The function. It takes no memory.
    pub(crate) fn func(&self) -> &'c Func
        ensures { result.now ≡ self.now.2 }
    {
        self.sorts.func()
    }
}

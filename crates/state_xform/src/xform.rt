//! Typed transformers.

ghost use Rattle.std.specs.Prelude.{◌≡◌};
ghost use Rattle.c_grammar.specs.Written.{IsWritten};
ghost use Rattle.c_lang.specs.declared.unit.Unit.TheVariants as unit;
ghost use Rattle.state_xform.specs.Kept.{IsChecked, IsKept};
ghost use Rattle.version_names.specs.Parts.{IsLinked};

use crate::transformers::check_program;
use c_lang::{Fail, Program};
use c_types::Typed;
use std::alloc::Global;
use std::marker::Model;
use version_names::Links;

/// A program that is the resolved form of a transformer, which was written in unit xform. Contracts
/// see it as the program.
#[derive(Debug)]
pub struct Xform {
    program: Program,
}

// By hand, so that a proof has one step for each transformer that is dropped.
impl Drop for Xform {
    fn drop(self) {
        let Xform { program: _program } = self;
    }
}

impl Model for Xform {
    ghost use Rattle.c_lang.specs.declared.program.Program.{Program};

    ghost Value = { Program };

    ghost use Rattle.std.specs.Coded.{codes};
    ghost use Rattle.c_lang.specs.contracts.stmt.Stmt as stmt;

    ghost coded = { Prim.hlevel (codes, stmt.the_row.coded) };

    ghost use Rattle.state_xform.specs.Kept.{IsKept};

    ghost view = { λ t. t.program };

    ghost invariant = { λ t. IsKept t.program };
}

impl Xform {
    /// The transformer that was checked, in its resolved form, with its names as they are written. It
    /// takes no memory.
    pub fn program(&self) -> &Program
        ensures program { result.now ≡ self.now }
        ensures kept { IsKept self.now }
    {
        &self.program
    }
}

/// Checks a program of unit xform, which is written in it, as the transformer of the first program to
/// the second one, whose links are given. It names what both have by its name, and what one alone has behind `dsu_old_` or `dsu_new_`. The
/// answer is the program in its resolved form. Errors: the first refusal (7 to 12, 14, 15, 19 and 27;
/// then 13 at line 1 where there is no `void dsu_transform(void)`; then 18 at `dsu_transform`, with the
/// first changed global that isn't set), and want of memory.
pub fn check_xform(
    alloc: Global,
    first: &Typed,
    second: &Typed,
    links: &Links,
    program: Program,
) -> Result<Xform, Fail>
    requires linked { IsLinked first.now.program second.now.program links.now }
    requires written { IsWritten unit.Xform program }
    ensures { IsChecked first.now.program second.now.program program result }
{
    match check_program(alloc, first.program(), second.program(), links, program) {
        Ok(program) => Ok(Xform { program }),
        Err(fail) => Err(fail),
    }
}

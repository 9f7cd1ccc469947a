//! Typed programs.

ghost use Rattle.std.specs.Prelude.{◌≡◌};
ghost use Rattle.c_grammar.specs.Written.{IsWritten};
ghost use Rattle.c_types.specs.Kept.{IsChecked, IsKept};

use crate::programs::check_program;
use c_lang::{Fail, Program, Unit};
use std::alloc::Global;
use std::marker::Model;

/// A program that is the resolved form of one that was typed in its unit and written in it. Contracts
/// see it as the unit and the program.
#[derive(Debug)]
pub struct Typed {
    unit: Unit,
    program: Program,
}

// By hand, so that a proof has one step for each typed program that is dropped.
impl Drop for Typed {
    fn drop(self) {
        let Typed {
            unit: _unit,
            program: _program,
        } = self;
    }
}

impl Model for Typed {
    ghost use Rattle.c_types.specs.Kept.{TypedProgram};

    ghost Value = { TypedProgram };

    ghost use Rattle.std.specs.Coded.{codes};
    ghost use Rattle.c_lang.specs.contracts.stmt.Stmt as stmt;

    ghost coded = { Prim.hlevel (codes, stmt.the_row.coded) };

    ghost use Rattle.c_types.specs.Kept.{IsKept};

    ghost view = { λ t. record { unit = t.unit; program = t.program } };

    ghost invariant = { λ t. IsKept (record { unit = t.unit; program = t.program }) };
}

impl Typed {
    /// A program that is known to be the resolved form of one that is typed in this unit and written
    /// in it. It takes no memory.
    pub fn new(unit: Unit, program: Program) -> Typed
        requires { IsKept (record { unit = unit; program = program }) }
        ensures { (result.unit ≡ unit) × (result.program ≡ program) }
    {
        Typed { unit, program }
    }

    /// The unit that the program was checked in. It takes no memory.
    pub fn unit(&self) -> Unit
        ensures { result ≡ self.now.unit }
    {
        self.unit
    }

    /// The program that was checked, in its resolved form. It takes no memory.
    pub fn program(&self) -> &Program
        ensures program { result.now ≡ self.now.program }
        ensures kept { IsKept self.now }
    {
        &self.program
    }
}

/// Checks a program of the units old, new or merge, which is written in its unit. The answer is the
/// program with functions' names as values told apart from variables, the literal 0 in a pointer's
/// place as null, and calls of pointers told apart from those of functions. Errors: the first refusal
/// (7 to 15, 21 and 27), and want of memory.
#[tactic(auto, using(crate::proofs::ProgramsTyped::refused))]
pub fn check(alloc: Global, unit: Unit, program: Program) -> Result<Typed, Fail>
    requires { IsWritten unit program }
    ensures { IsChecked unit program result }
{
    let program = check_program(alloc, unit, program)?;
    Ok(Typed { unit, program })
}

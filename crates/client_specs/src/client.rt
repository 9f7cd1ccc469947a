//! Typed clients.

ghost use Rattle.std.specs.Prelude.{◌≡◌, Some};
ghost use Rattle.c_grammar.specs.Written.{IsWritten};
ghost use Rattle.c_lang.specs.declared.unit.Unit.TheVariants as unit;
ghost use Rattle.client_specs.specs.Kinds as kinds;
ghost use Rattle.client_specs.specs.Kept.{IsChecked, IsKept};
ghost use Rattle.version_names.specs.Parts.{IsLinked};

use crate::clients::check_program;
use crate::kind::{ClientKind, checked_kind};
use c_lang::{Fail, Name, Program};
use c_types::Typed;
use std::alloc::Global;
use std::marker::Model;
use version_names::Links;

/// A program that is the resolved form of a client, which was written in unit client, and the name of
/// the function with which a run begins. Contracts see it as the two.
#[derive(Debug)]
pub struct Client {
    spec: Name,
    program: Program,
}

// By hand, so that a proof has one step for each client that is dropped.
impl Drop for Client {
    fn drop(self) {
        let Client {
            spec: _spec,
            program: _program,
        } = self;
    }
}

impl Model for Client {
    ghost use Rattle.client_specs.specs.Kept.{ClientProgram};

    ghost Value = { ClientProgram };

    ghost use Rattle.std.specs.Coded.{codes};
    ghost use Rattle.c_lang.specs.contracts.stmt.Stmt as stmt;

    ghost coded = { Prim.hlevel (codes, stmt.the_row.coded) };

    ghost use Rattle.client_specs.specs.Kept.{IsKept};

    ghost view = { λ c. record { spec = c.spec; program = c.program } };

    ghost invariant = { λ c. IsKept (record { spec = c.spec; program = c.program }) };
}

impl Client {
    /// The kind that the name of its function gives. It takes no memory.
    pub fn kind(&self) -> ClientKind
        ensures { kinds.kind_of self.now.spec ≡ Some result }
    {
        checked_kind(&self.spec)
    }

    /// The name of the function with which a run begins. It takes no memory.
    pub fn spec(&self) -> &Name
        ensures { result.now ≡ self.now.spec }
    {
        &self.spec
    }

    /// The client that was checked, in its resolved form. A function that one version has alone is named
    /// in it by the version that is meant, as `dsu_old_NAME` or `dsu_new_NAME`. It takes no memory.
    pub fn program(&self) -> &Program
        ensures program { result.now ≡ self.now.program }
        ensures kept { IsKept self.now }
    {
        &self.program
    }
}

/// Checks a program of unit client, which is written in it, as a client of the first and the second
/// program, whose links are given. A run begins with its function `spec`. What it may call, where it may
/// force an update and where a pick may stand is told by the prefix of this name: `backward_`, `post_` or
/// `conform_`. The answer is the program in its resolved form. Errors: the first refusal (7 to 12, 14, 15,
/// 20, 21 and 27; then 22 at line 1 where no function `spec` can begin a run), and want of memory.
pub fn check_client(
    alloc: Global,
    first: &Typed,
    second: &Typed,
    links: &Links,
    program: Program,
    spec: &Name,
) -> Result<Client, Fail>
    requires linked { IsLinked first.now.program second.now.program links.now }
    requires written { IsWritten unit.Client program }
    ensures { IsChecked first.now.program second.now.program spec.now program result }
{
    let name = spec.copy(alloc)?;
    match check_program(
        alloc,
        first.program(),
        second.program(),
        links,
        program,
        spec,
    ) {
        Ok(program) => Ok(Client {
            spec: name,
            program,
        }),
        Err(fail) => Err(fail),
    }
}

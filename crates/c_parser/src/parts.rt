//! What the declarations of a unit have given so far.

ghost use Rattle.std.specs.Prelude.{◌≡◌, [], ◌∷◌, length, IfOk, OnOk};
ghost use Rattle.c_grammar.specs.Grammar as grammar;
ghost use Rattle.c_grammar.specs.Units as spec;
ghost use Rattle.c_grammar.specs.Scopes as scopes;

use c_lang::{
    ELEMENT_LIMIT, Func, GlobalVar, PARAMETER_LIMIT, Pos, Program, Proto, Refusal, Unit,
    cell_limit, refusal,
};
use sqlite_items::Items;
use std::alloc::{AllocError, Global};
use std::marker::Model;

/// The declarations so far, how many cells may still follow, and what is refused of globals,
/// prototypes and functions.
#[derive(Drop)]
pub struct Parts {
    globals: Items<GlobalVar>,
    protos: Items<Proto>,
    funcs: Items<Func>,
    room: u32,
    early_globals: Items<Refusal>,
    early_protos: Items<Refusal>,
    early_funcs: Items<Refusal>,
}

impl Model for Parts {
    ghost use Rattle.c_grammar.specs.Units.{Parts as Given};
    ghost use Rattle.c_lang.specs.contracts.stmt.Stmt as stmt;
    ghost use Rattle.std.specs.Coded.{codes};

    ghost Value = { Given };

    ghost coded = { Prim.hlevel (codes, stmt.the_row.coded) };

    ghost view = { λ p. record {
      globals = p.globals;
      protos = p.protos;
      funcs = p.funcs;
      room = p.room;
      early_globals = p.early_globals;
      early_protos = p.early_protos;
      early_funcs = p.early_funcs;
    } };
}

impl Parts {
    pub fn new(alloc: Global, unit: Unit) -> Parts
        ensures { result ≡ spec.no_parts unit }
    {
        Parts {
            globals: Items::new(alloc),
            protos: Items::new(alloc),
            funcs: Items::new(alloc),
            room: cell_limit(unit),
            early_globals: Items::new(alloc),
            early_protos: Items::new(alloc),
            early_funcs: Items::new(alloc),
        }
    }

    /// How many cells may still follow.
    pub fn room(&self) -> u32
        ensures { result ≡ self.now.room }
    {
        self.room
    }

    /// Adds a global of so many cells. The only error is want of memory.
    pub fn add_global(
        &mut self,
        global: GlobalVar,
        cells: u32,
        early: Items<Refusal>,
    ) -> Result<(), AllocError>
        ensures { OnOk result (self.new ≡ spec.with_global self.old global cells early) }
    {
        self.globals.push(global)?;
        self.room = self.room.saturating_sub(cells);
        self.early_globals.append(early)
    }

    /// Adds a prototype. The only error is want of memory.
    pub fn add_proto(&mut self, proto: Proto, early: Items<Refusal>) -> Result<(), AllocError>
        ensures { OnOk result (self.new ≡ spec.with_proto self.old proto early) }
    {
        self.protos.push(proto)?;
        self.early_protos.append(early)
    }

    /// Adds a function. The only error is want of memory.
    pub fn add_func(&mut self, func: Func, early: Items<Refusal>) -> Result<(), AllocError>
        ensures { OnOk result (self.new ≡ spec.with_func self.old func early) }
    {
        self.funcs.push(func)?;
        self.early_funcs.append(early)
    }

    /// The program of all declarations.
    pub fn program(self) -> Result<Program, AllocError>
        ensures { IfOk result (λ x. x ≡ grammar.program_of self) }
    {
        let mut later = self.early_protos;
        later.append(self.early_funcs)?;
        let mut early = self.early_globals;
        early.append(later)?;
        Ok(Program {
            globals: self.globals,
            protos: self.protos,
            funcs: self.funcs,
            early,
        })
    }
}

/// What is refused of a pointer: `arity` is the number of its parameters, or 33.
pub fn arity_refusals(alloc: Global, pos: Pos, arity: u8) -> Result<Items<Refusal>, AllocError>
    ensures { IfOk result (λ x. x ≡ scopes.arity_refusals pos arity) }
{
    let mut early = Items::new(alloc);
    if arity > PARAMETER_LIMIT {
        early.push(Refusal::at(refusal::PAST_LIMIT, pos))?;
    }
    Ok(early)
}

/// What is refused of an array of `size` elements with `count` initializers, where the unit has
/// room for so many cells.
pub fn array_refusals(
    alloc: Global,
    pos: Pos,
    room: u32,
    size: u32,
    count: usize,
) -> Result<Items<Refusal>, AllocError>
    ensures { IfOk result (λ x. x ≡ spec.array_refusals pos room size count) }
{
    let mut early = Items::new(alloc);
    if count > size as usize {
        early.push(Refusal::at(refusal::WRONG_KIND, pos))?;
    }
    if size == 0 || size > ELEMENT_LIMIT || size > room {
        early.push(Refusal::at(refusal::PAST_LIMIT, pos))?;
    }
    Ok(early)
}

//! What a function's text has declared so far, how many temporaries were made for it, and what its
//! declarations are refused for.

ghost use Rattle.std.specs.Prelude.{[], ◌≡◌, ◌+◌, ◌^◌, ◌<◌, IfOk, OnOk};
ghost use Rattle.c_grammar.specs.Scopes as spec;

use c_lang::{Name, PARAMETER_LIMIT, Pos, Refusal, Unit, refusal};
use indexmap::IndexSet;
use sqlite_items::Items;
use std::alloc::{AllocError, Global};
use std::marker::Model;

/// The names that a function has declared so far, how many temporaries were made for it, and what
/// its declarations are refused for.
#[derive(Drop)]
pub struct Scope {
    count: u64,
    declared: IndexSet<Name>,
    early: Items<Refusal>,
}

impl Model for Scope {
    ghost use Rattle.c_grammar.specs.Scopes.{Scope as Declared};

    ghost Value = { Declared };

    ghost view = { λ s. record { count = s.count; declared = s.declared.keys; early = s.early } };
}

/// `dsu_t` and the number.
fn temporary(alloc: Global, number: u64) -> Result<Name, AllocError>
    ensures { IfOk result (λ name. name ≡ spec.temporary number) }
{
    let text = format!(in alloc; "dsu_t{number}")?;
    Name::new(alloc, text.as_bytes())
}

impl Scope {
    /// Nothing is declared yet, and so much is refused.
    pub fn new(alloc: Global, early: Items<Refusal>) -> Scope
        ensures { result ≡ record { count = 0; declared = []; early = early } }
    {
        Scope {
            count: 0,
            declared: IndexSet::new(alloc),
            early,
        }
    }

    /// Whether the name is declared.
    pub fn is_declared(&self, name: &Name) -> bool
        ensures { result ≡ spec.is_declared self.now name.now }
    {
        self.declared.contains(name)
    }

    /// Declares a name. The only error is want of memory.
    pub fn declare(&mut self, alloc: Global, name: &Name) -> Result<(), AllocError>
        ensures { OnOk result (self.new ≡ spec.declare self.old name.now) }
    {
        match self.declared.insert(name.copy(alloc)?) {
            Ok(_) => Ok(()),
            Err(_) => Err(AllocError),
        }
    }

    /// The name of one temporary more. The only error is want of memory.
    pub fn next_temporary(&mut self, alloc: Global) -> Result<Name, AllocError>
        requires { self.old.count + 1 < 2 ^ 64 }
        ensures name { IfOk result (λ name. name ≡ spec.temporary (self.old.count + 1)) }
        ensures scope { OnOk result (self.new ≡ spec.one_more self.old) }
    {
        self.count += 1;
        temporary(alloc, self.count)
    }

    /// Notes a pointer whose parameters are too many: `arity` is their number, or 33. The only error
    /// is want of memory.
    pub fn refuse_arity(&mut self, pos: Pos, arity: u8) -> Result<(), AllocError>
        ensures { OnOk result (self.new ≡ spec.refuse_arity self.old pos arity) }
    {
        if arity > PARAMETER_LIMIT {
            self.early.push(Refusal::at(refusal::PAST_LIMIT, pos))?;
        }
        Ok(())
    }

    /// What the declarations are refused for.
    pub fn early(self) -> Items<Refusal>
        ensures { result ≡ self.early }
    {
        self.early
    }
}

pub fn is_client(unit: Unit) -> bool
    ensures { result ≡ spec.is_client unit }
{
    matches!(unit, Unit::Client)
}

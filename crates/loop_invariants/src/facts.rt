//! Facts of hints.

ghost use Rattle.std.specs.Prelude.{◌≡◌, [], All};
ghost use Rattle.loop_invariants.specs.Binding.{BindsBound};
ghost use Rattle.loop_invariants.specs.Context.{needs_of, promises_of};
ghost use Rattle.loop_invariants.specs.Hints.{HintsBind, invariants_of};

use crate::Hints;
use c_lang::Name;
use std::marker::Model;
use terms::Fact;

/// Facts that bind no number but the one of the base `$`, as all facts of hints do.
#[derive(Debug)]
pub struct Facts<'p> {
    facts: &'p [Fact],
}

// By hand, so that a proof has one step for facts that are dropped.
impl Drop for Facts<'_> {
    fn drop(self) {
        let Facts { facts: _facts } = self;
    }
}

impl<'p> Model for Facts<'p> {
    ghost use Rattle.std.specs.Prelude.{List, All};
    ghost use Rattle.terms.specs.declared.fact.Fact.{Fact};
    ghost use Rattle.loop_invariants.specs.Binding.{BindsBound};

    ghost Value = { List Fact };

    ghost use Rattle.std.specs.Coded.{codes};
    ghost use Rattle.terms.specs.contracts.form.Form as form;
    ghost use Rattle.terms.specs.contracts.form.Term as term;

    ghost coded = { Prim.hlevel (codes, form.the_row.coded, term.the_row.coded) };

    ghost view = { λ f. f.facts.now };

    ghost invariant = { λ f. All BindsBound f.facts.now };
}

impl<'p> Facts<'p> {
    /// No facts. It takes no memory.
    pub fn none() -> Facts<'p>
        ensures { result ≡ [] }
    {
        Facts { facts: &[] }
    }

    /// The same facts. It takes no memory.
    pub fn again(&self) -> Facts<'p>
        ensures { result ≡ self.now }
    {
        Facts { facts: self.facts }
    }

    /// The facts in their order. It takes no memory.
    pub fn as_slice(&self) -> &'p [Fact]
        ensures facts { result.now ≡ self.now }
        ensures binds { All BindsBound result.now }
    {
        self.facts
    }
}

impl Hints {
    // Each fact binds the one bound name.
    fn binds(&self)
        ensures { HintsBind self.now }
    {
        let _contracts = self.contracts.as_slice();
    }

    fn needed(&self, func: &Name) -> &[Fact]
        ensures { result.now ≡ needs_of self.now func.now }
    {
        match self.contract(func) {
            Some(contract) => contract.needs.as_slice(),
            None => &[],
        }
    }

    fn promised(&self, func: &Name) -> &[Fact]
        ensures { result.now ≡ promises_of self.now func.now }
    {
        match self.contract(func) {
            Some(contract) => contract.promises.as_slice(),
            None => &[],
        }
    }

    /// What the function asks of its callers. It takes no memory.
    pub fn needs(&self, func: &Name) -> Facts<'_>
        ensures { result ≡ needs_of self.now func.now }
    {
        self.binds();
        Facts {
            facts: self.needed(func),
        }
    }

    /// What the function promises its callers. It takes no memory.
    pub fn promises(&self, func: &Name) -> Facts<'_>
        ensures { result ≡ promises_of self.now func.now }
    {
        self.binds();
        Facts {
            facts: self.promised(func),
        }
    }

    /// The invariants of the function's loop with this number. It takes no memory.
    pub fn loop_facts(&self, func: &Name, number: u32) -> Facts<'_>
        ensures { result ≡ invariants_of self.now func.now number }
    {
        self.binds();
        Facts {
            facts: self.invariants(func, number),
        }
    }
}

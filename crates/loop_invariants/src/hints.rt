ghost use Rattle.std.specs.Prelude.{◌≡◌, [], unwrap_or};
ghost use Rattle.std.specs.Option.{option_copied};
ghost use Rattle.loop_invariants.specs.Hints.{HintsBind, contract_of, invariants_of};

use c_lang::Name;
use sqlite_items::Items;
use std::marker::Model;
use terms::Fact;

/// What a function asks of its callers, in `needs`, and promises them, in `promises`, and the globals
/// that it may change, if they are listed. The facts stand in the order of the text.
#[derive(Debug)]
pub struct Contract {
    pub needs: Items<Fact>,
    pub promises: Items<Fact>,
    pub assigns: Option<Items<Name>>,
}

// By hand, so that a proof has one step for each contract that is dropped.
impl Drop for Contract {
    fn drop(self) {
        let Contract {
            needs: _needs,
            promises: _promises,
            assigns: _assigns,
        } = self;
    }
}

/// The invariants of a loop, in the order of the text. The loops of a function are numbered from 1 in
/// the order of the program's text.
#[derive(Debug)]
pub struct LoopInvariants {
    pub func: Name,
    pub number: u32,
    pub facts: Items<Fact>,
}

// By hand, so that a proof has one step for each loop that is dropped.
impl Drop for LoopInvariants {
    fn drop(self) {
        let LoopInvariants {
            func: _func,
            number: _number,
            facts: _facts,
        } = self;
    }
}

/// The contracts of functions and the invariants of loops. Of several entries for one function or one
/// loop the first counts. A fact binds no number but the one of the base `$`.
#[derive(Debug)]
pub struct Hints {
    pub(crate) contracts: Items<(Name, Contract)>,
    pub(crate) loops: Items<LoopInvariants>,
}

// By hand, so that a proof has one step for all hints that are dropped.
impl Drop for Hints {
    fn drop(self) {
        let Hints {
            contracts: _contracts,
            loops: _loops,
        } = self;
    }
}

impl Model for Hints {
    ghost use Rattle.loop_invariants.specs.Hints.{Hints as AllHints, HintsBind};

    ghost Value = { AllHints };

    ghost use Rattle.std.specs.Coded.{codes};
    ghost use Rattle.terms.specs.contracts.form.Form as form;
    ghost use Rattle.terms.specs.contracts.form.Term as term;

    ghost coded = { Prim.hlevel (codes, form.the_row.coded, term.the_row.coded) };

    ghost view = { λ h. record { contracts = h.contracts; loops = h.loops } };

    ghost invariant = { λ h. HintsBind (record { contracts = h.contracts; loops = h.loops }) };
}

impl Hints {
    /// Hints with these contracts and invariants, in which each fact binds no number but the one of the base `$`.
    /// It takes no memory.
    pub fn new(contracts: Items<(Name, Contract)>, loops: Items<LoopInvariants>) -> Hints
        requires { HintsBind (record { contracts = contracts; loops = loops }) }
        ensures { (result.contracts ≡ contracts) × (result.loops ≡ loops) }
    {
        Hints { contracts, loops }
    }

    /// The contract of a function, if it has one. It takes no memory.
    pub fn contract(&self, func: &Name) -> Option<&Contract>
        ensures { option_copied result ≡ contract_of self.now func.now }
    {
        self.contracts
            .as_slice()
            .iter()
            .find(|entry| entry.0 == *func)
            .map(|entry| &entry.1)
    }

    /// The invariants of a function's loop with this number, and none where the hints have none. It takes no
    /// memory.
    pub fn invariants(&self, func: &Name, number: u32) -> &[Fact]
        ensures { result.now ≡ invariants_of self.now func.now number }
    {
        or_none(
            self.loops
                .as_slice()
                .iter()
                .find(|entry| entry.number == number && entry.func == *func)
                .map(|entry| &entry.facts),
        )
    }
}

/// These facts, or none.
fn or_none(facts: Option<&Items<Fact>>) -> &[Fact]
    ensures { result.now ≡ unwrap_or (option_copied facts.entry) [] }
{
    match facts {
        Some(facts) => facts.as_slice(),
        None => &[],
    }
}

ghost use Rattle.std.specs.Prelude.{◌≡◌, ◌+◌, ◌*◌, ◌≤◌, ◌^◌, min, ◌-◌};
ghost use Rattle.terms.specs.Sizes.{fact_size, facts_size, sequent_size};

use crate::{Fact, Sequent};

impl Fact {
    /// How many facts, forms, terms and arrays the fact has, itself included. It stands still at
    /// 2^64 - 1. It takes no memory.
    #[tactic(auto, using(crate::proofs::OperandLaws::counts))]
    pub fn size(&self) -> usize
        ensures { result ≡ min (fact_size self.now) (2 ^ 64 - 1) }
    {
        match self {
            Fact::Plain(form) => form.nodes().len().saturating_add(1),
            Fact::All { lo, hi, body, .. } => lo
                .nodes()
                .len()
                .saturating_add(hi.nodes().len().saturating_add(body.nodes().len()))
                .saturating_add(1),
        }
    }
}

// The sum of the sizes of facts. It stands still at 2^64 - 1.
fn facts_size(facts: &[Fact]) -> usize
    ensures { result ≡ min (facts_size facts.now) (2 ^ 64 - 1) }
{
    let mut total: usize = 0;
    for fact in facts {
        total = total.saturating_add(fact.size());
    }
    total
}

impl Sequent {
    /// How many facts, forms, terms and arrays the sequent has. It stands still at 2^64 - 1. It takes no
    /// memory.
    #[tactic(auto, using(crate::proofs::SizeLaws::totals))]
    pub fn size(&self) -> usize
        ensures { result ≡ min (sequent_size self.now) (2 ^ 64 - 1) }
    {
        facts_size(self.hyps.as_slice()).saturating_add(self.goal.size())
    }
}

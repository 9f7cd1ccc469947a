ghost use Rattle.std.specs.Prelude.{◌≡◌, [], ◌∷◌, IfOk};
ghost use Rattle.symbolic_state.specs.Code.Room.{IsPut};

use std::alloc::{AllocError, Global};
use terms::Fact;

/// Facts that are made one after the other, and how large the next ones may be.
pub(crate) struct Gathered {
    pub(crate) facts: Vec<Fact>,
    pub(crate) left: u64,
}

// By hand, so that a proof has one step for each that is dropped.
impl Drop for Gathered {
    fn drop(self) {
        let Gathered {
            facts: _facts,
            left: _left,
        } = self;
    }
}

impl Gathered {
    /// No facts yet, and room for all. It takes no memory.
    pub(crate) fn new(alloc: Global, room: u64) -> Gathered
        ensures facts { result.facts.items ≡ [] }
        ensures left { result.left ≡ room }
    {
        Gathered {
            facts: Vec::new(alloc),
            left: room,
        }
    }

    /// Adds the fact, if there is room for it, and answers whether there is.
    pub(crate) fn put(&mut self, fact: Fact) -> Result<bool, AllocError>
        ensures { IfOk result (λ done. IsPut self.old self.new (fact ∷ []) done) }
    {
        let Some(left) = self.left.checked_sub(fact.size() as u64) else {
            return Ok(false);
        };
        self.facts.push(fact)?;
        self.left = left;
        Ok(true)
    }

    /// The facts. It takes no memory.
    pub(crate) fn into_facts(self) -> Vec<Fact>
        ensures { result.items ≡ self.facts.items }
    {
        let Gathered { facts, left: _left } = self;
        facts
    }
}

//! The list of conditions while it grows.

ghost use Rattle.std.specs.Prelude.{◌≡◌, [], OnOk, is_none, Some};
ghost use Rattle.loop_invariants.specs.Binding.{BindsBound};
ghost use Rattle.terms.specs.Sizes.{sequent_size};
ghost use Rattle.symbolic_state.specs.Steps.{finished, owed};
ghost use Rattle.wp_conditions.specs.Code.Growing.{room_in, HasRoom, with_one, pushed, pushed_sequent};

use condition_sorts::Sorts;
use std::alloc::{AllocError, Global};
use std::marker::Model;
use symbolic_state::SymbolicState;
use terms::{Fact, Form, Label, Sequent};

const NODE_LIMIT: u64 = 16_777_216;

/// The conditions that were made so far, or nothing once they were too large together.
pub(crate) struct Made {
    list: Vec<Sequent>,
    nodes: u64,
    is_full: bool,
}

// By hand, so that a proof has one step for each that is dropped.
impl Drop for Made {
    fn drop(self) {
        let Made {
            list: _list,
            nodes: _nodes,
            is_full: _is_full,
        } = self;
    }
}

impl Model for Made {
    ghost use Rattle.std.specs.Prelude.{◌≡◌, ◌≤◌, List, Option, Some, None, if◌then◌else◌};
    ghost use Rattle.std.specs.Coded.{codes};
    ghost use Rattle.terms.specs.declared.sequent.Sequent.{Sequent};
    ghost use Rattle.terms.specs.contracts.sequent.Sequent as the_sequent;
    ghost use Rattle.weakest_preconditions.specs.Conditions.{node_limit, sequents_size};

    ghost Value = { Option (List Sequent) };

    ghost coded = { Prim.hlevel (codes, the_sequent.the_row.coded) };

    ghost view = { λ m. if m.is_full then None else Some m.list.items };

    ghost invariant = { λ m. (m.nodes ≡ sequents_size m.list.items) × (sequents_size m.list.items ≤ node_limit) };
}

impl Made {
    /// There are none so far. It takes no memory.
    pub(crate) fn new(alloc: Global) -> Made
        ensures { result ≡ Some [] }
    {
        Made {
            list: Vec::new(alloc),
            nodes: 0,
            is_full: false,
        }
    }

    /// Whether they were too large together. It takes no memory.
    pub(crate) fn is_full(&self) -> bool
        ensures { result ≡ is_none self.now }
    {
        self.is_full
    }

    // How many nodes there is room for. It takes no memory.
    fn room(&self) -> u64
        ensures { result ≡ room_in self.now }
    {
        if self.is_full {
            return 0;
        }
        NODE_LIMIT - self.nodes
    }

    // One sequent more, for which there is room.
    fn push(&mut self, sequent: Sequent) -> Result<(), AllocError>
        requires { HasRoom self.now (sequent_size sequent) }
        ensures { OnOk result (self.new ≡ with_one self.old sequent) }
    {
        let size = sequent.size() as u64;
        self.list.push(sequent)?;
        self.nodes += size;
        Ok(())
    }

    /// What is to hold under these hypotheses, with all that stands round it, as a condition of the function of
    /// `sorts`, if there is room for it. The only error is want of memory.
    pub(crate) fn add(
        &mut self,
        alloc: Global,
        sorts: &Sorts<'_>,
        state: &SymbolicState,
        hyps: &[Form],
        goal: &Fact,
        label: Label,
    ) -> Result<(), AllocError>
        requires { BindsBound goal.now }
        ensures { OnOk result (self.new ≡ pushed sorts.now.0 sorts.now.1 self.old (finished state.now (owed hyps.now goal.now label))) }
    {
        if self.is_full() {
            return Ok(());
        }
        match state.finish(alloc, hyps, goal, label, self.room())? {
            Some(sequent) => {
                let sorted = sorts.sorted(alloc, sequent)?;
                self.push(sorted)
            }
            None => {
                self.is_full = true;
                Ok(())
            }
        }
    }

    /// The sequent without sorts, as a condition of the function of `sorts`, if there is room for it. The only error is
    /// want of memory.
    pub(crate) fn add_sequent(
        &mut self,
        alloc: Global,
        sorts: &Sorts<'_>,
        sequent: Sequent,
    ) -> Result<(), AllocError>
        ensures { OnOk result (self.new ≡ pushed_sequent sorts.now.0 sorts.now.1 self.old sequent) }
    {
        if self.is_full() {
            return Ok(());
        }
        if sequent.size() as u64 <= self.room() {
            let sorted = sorts.sorted(alloc, sequent)?;
            return self.push(sorted);
        }
        self.is_full = true;
        Ok(())
    }
}

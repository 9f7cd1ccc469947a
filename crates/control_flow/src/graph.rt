ghost use Rattle.std.specs.Prelude.{◌≡◌, true};
ghost use Rattle.control_flow.specs.Kept.{nodes_of, are_ordered, HasCounts};

use crate::Node;
use crate::counts::count_at;
use annotated_bodies::Context;
use c_lang::Func;

/// The nodes of a function's body, from its end to its front, and the number of conditions at each. They are numbered
/// from 0 on.
pub struct Graph<'b, 'p> {
    pub(crate) context: &'p Context<'p>,
    pub(crate) func: &'p Func,
    pub(crate) nodes: Vec<Node<'b, 'p>>,
    pub(crate) counts: Vec<u64>,
    pub(crate) entry: usize,
    ghost ordered: { are_ordered (nodes_of nodes.items) ≡ true },
    ghost counted: { HasCounts context.now func.now nodes.items counts.items },
}

// By hand, so that a proof has one step for each that is dropped.
impl Drop for Graph<'_, '_> {
    fn drop(self) {
        let Graph {
            context: _context,
            func: _func,
            nodes: _nodes,
            counts: _counts,
            entry: _entry,
        } = self;
    }
}

impl<'b, 'p> Graph<'b, 'p> {
    ghost use Rattle.std.specs.Prelude.{length};
    ghost use Rattle.std.specs.Option.{option_copied};
    ghost use Rattle.control_flow.specs.Kept.{capped};
    ghost use Rattle.control_flow.specs.Seen.{conditions_in, IsNodeAt};

    /// The number of the node with which the body begins. It takes no memory.
    pub fn entry(&self) -> usize
        ensures { result ≡ self.now.entry }
    {
        self.entry
    }

    /// The node with a number, if there is one. What follows it has smaller numbers, and the conditions at it are its
    /// own in front of theirs. It takes no memory.
    pub fn node(&self, number: usize) -> Option<&Node<'b, 'p>>
        ensures { IsNodeAt self.now number (option_copied result) }
    {
        self.nodes.get(number)
    }

    /// How many conditions there are at the node with a number and behind it; 2^64 - 1 where there are more. It takes
    /// no memory.
    pub fn count(&self, number: usize) -> u64
        ensures { result ≡ capped (length (conditions_in self.now number)) }
    {
        count_at(&self.counts, number)
    }
}

//! Sets of numbers.

ghost use Rattle.std.specs.Prelude.{◌≡◌, [], OnOk};
ghost use Rattle.update_points.specs.Points as spec;

use indexmap::IndexSet;
use std::alloc::{AllocError, Global};
use std::marker::Model;

/// Numbers in the order in which they were added. A look-up takes the same time however many there
/// are.
#[derive(Drop)]
pub struct Numbers {
    set: IndexSet<u32>,
}

impl Model for Numbers {
    ghost use Rattle.std.specs.Prelude.{ℕ, List};

    ghost Value = { List ℕ };

    ghost view = { λ n. n.set.keys };
}

impl Numbers {
    /// No numbers. It takes no memory.
    pub fn new(alloc: Global) -> Numbers
        ensures { result ≡ [] }
    {
        Numbers {
            set: IndexSet::new(alloc),
        }
    }

    /// Whether the number is there. It takes no memory.
    pub fn has(&self, k: u32) -> bool
        ensures { result ≡ spec.is_listed k self.now }
    {
        self.set.contains(&k)
    }

    /// Adds a number, unless it is there already. The only error is want of memory.
    pub fn add(&mut self, k: u32) -> Result<(), AllocError>
        ensures { OnOk result (self.new ≡ spec.added self.old k) }
    {
        match self.set.insert(k) {
            Ok(_) => Ok(()),
            Err(_) => Err(AllocError),
        }
    }
}

//! What all frames of an updating run share.

ghost use Rattle.std.specs.Prelude.{◌≡◌, IfOk, OnOk, OnErr};
ghost use Rattle.update_semantics.specs.Code.Cells.{state_of, values_of, arrays_of, SetsCell};
ghost use Rattle.update_semantics.specs.Linked.{home_at, linked_at, function_at};
ghost use Rattle.plain_run.specs.Values.{seen_value};
ghost use Rattle.update_semantics.specs.UpdatingRun.{put_linked, first_state, swapped_state};
ghost use Rattle.update_semantics.specs.Worlds.{world_of};

use crate::cells::Cells;
use crate::linked::{Function, Linked};
use crate::meanings::Meanings;
use plain_run::Value;
use std::alloc::{AllocError, Global};
use version_names::{Part, Version};

/// The current version, and the cells by their homes. A global has its initial value at each home
/// that a cell of its version can have, though names stand for that at one of them alone.
#[derive(Drop)]
pub struct State<'p> {
    pub version: Version,
    pub shared: Cells<'p>,
    pub old_cells: Cells<'p>,
    pub new_cells: Cells<'p>,
    pub unlinked: Cells<'p>,
}

impl<'p> State<'p> {
    /// The state in which runs start. The only error is want of memory.
    pub fn first(alloc: Global, meanings: &Meanings<'p>) -> Result<State<'p>, AllocError>
        ensures { IfOk result (λ state. state_of state ≡ first_state (world_of meanings.now)) }
    {
        let shared = Cells::initial(alloc, meanings, Version::Old)?;
        let old_cells = Cells::initial(alloc, meanings, Version::Old)?;
        Ok(State {
            version: Version::Old,
            shared,
            old_cells,
            new_cells: Cells::empty(alloc),
            unlinked: Cells::empty(alloc),
        })
    }

    /// Gives the new version's cells their initial values, and makes it the current one. The only
    /// error is want of memory, and nothing has changed then.
    pub fn update(&mut self, alloc: Global, meanings: &Meanings<'p>) -> Result<(), AllocError>
        ensures updated { OnOk result (state_of self.new ≡ swapped_state (world_of meanings.now) (state_of self.old)) }
        ensures kept { OnErr result (state_of self.new ≡ state_of self.old) }
    {
        self.new_cells = Cells::initial(alloc, meanings, Version::New)?;
        self.version = Version::New;
        Ok(())
    }

    fn cells(&self, part: Option<Part>) -> &Cells<'p>
        ensures values { values_of result.now ≡ (state_of self.now).values (home_at part) }
        ensures arrays { arrays_of result.now ≡ (state_of self.now).arrays (home_at part) }
    {
        match part {
            Some(Part::Both) => &self.shared,
            Some(Part::Old) => &self.old_cells,
            Some(Part::New) => &self.new_cells,
            None => &self.unlinked,
        }
    }

    /// The value of a cell. It takes no memory.
    pub fn value(&self, cell: Linked<'_>) -> Value<Function<'p>>
        ensures { seen_value function_at result ≡ (state_of self.now).values (home_at cell.entry.part) cell.entry.name.now }
    {
        self.cells(cell.part).value(cell.name)
    }

    /// The elements of a cell. It takes no memory.
    pub fn elements(&self, cell: Linked<'_>) -> &[i32]
        ensures { result.now ≡ (state_of self.now).arrays (home_at cell.entry.part) cell.entry.name.now }
    {
        self.cells(cell.part).elements(cell.name)
    }

    /// Writes a cell. The only error is want of memory, and nothing has changed then.
    pub fn put(&mut self, cell: Linked<'p>, value: Value<Function<'p>>) -> Result<(), AllocError>
        ensures put { OnOk result (state_of self.new ≡ record (state_of self.old) { values = put_linked (state_of self.old).values (linked_at cell.entry) (seen_value function_at value.entry) }) }
        ensures kept { OnErr result (state_of self.new ≡ state_of self.old) }
    {
        match cell.part {
            Some(Part::Both) => self.shared.put(cell.name, value),
            Some(Part::Old) => self.old_cells.put(cell.name, value),
            Some(Part::New) => self.new_cells.put(cell.name, value),
            None => self.unlinked.put(cell.name, value),
        }
    }

    /// Writes an element of a cell, where the index is within the bounds, and says whether it is. It
    /// takes no memory.
    pub fn set_element(&mut self, cell: Linked<'p>, at: i32, element: i32) -> bool
        ensures { SetsCell (state_of self.old) (linked_at cell.entry) at element result (state_of self.new) }
    {
        match cell.part {
            Some(Part::Both) => self.shared.set_element(cell.name, at, element),
            Some(Part::Old) => self.old_cells.set_element(cell.name, at, element),
            Some(Part::New) => self.new_cells.set_element(cell.name, at, element),
            None => self.unlinked.set_element(cell.name, at, element),
        }
    }
}

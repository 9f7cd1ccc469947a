ghost use Rattle.std.specs.Prelude.{◌≡◌, IfOk};

use linear_rows::Row;
use sqlite_items::Items;
use std::alloc::{AllocError, Global};

/// A row of a stage, and one multiplier for each given row: the given rows with these add up to it.
#[derive(Debug, Drop)]
pub struct Entry {
    pub row: Row,
    pub multipliers: Items<i128>,
}

pub(crate) fn copy_row(alloc: Global, row: &Row) -> Result<Row, AllocError>
    ensures { IfOk result (λ copy. copy ≡ row.now) }
{
    Ok(Row {
        parts: Items::from_slice(alloc, row.parts.as_slice())?,
        bound: row.bound,
        equal: row.equal,
    })
}

impl Entry {
    pub(crate) fn copy(&self, alloc: Global) -> Result<Entry, AllocError>
        ensures { IfOk result (λ copy. copy ≡ self.now) }
    {
        Ok(Entry {
            row: copy_row(alloc, &self.row)?,
            multipliers: Items::from_slice(alloc, self.multipliers.as_slice())?,
        })
    }
}

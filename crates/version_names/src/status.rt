//! Which versions have a name, and whether alike.

ghost use Rattle.std.specs.Prelude.{◌≡◌, IfOk, []};
ghost use Rattle.std.specs.Option.{option_copied};
ghost use Rattle.version_names.specs.Code.Statuses as spec;

use crate::declared::{Declared, What, same_what};
use crate::table::Table;
use std::alloc::{AllocError, Global};

/// Both versions have a name alike, or not alike, or one of them alone has it.
#[derive(Clone, Copy, Debug, PartialEq, Eq)]
pub enum Status {
    Shared,
    Changed,
    Removed,
    Added,
}

fn whats_of(alloc: Global, olds: &[Declared]) -> Result<Table<What>, AllocError>
    ensures { IfOk result (λ table. table ≡ spec.with_whats [] olds.now) }
{
    let mut table = Table::new(alloc);
    for old in olds {
        table.add(old.name.copy(alloc)?, old.what.copy(alloc)?)?;
    }
    Ok(table)
}

fn status_of_new(before: Option<&What>, what: &What) -> Status
    ensures { result ≡ spec.status_of_new (option_copied before.entry) what.now }
{
    match before {
        Some(before) => {
            if same_what(before, what) {
                Status::Shared
            } else {
                Status::Changed
            }
        }
        None => Status::Added,
    }
}

fn with_new(
    alloc: Global,
    olds: &Table<What>,
    news: &[Declared],
) -> Result<Table<Status>, AllocError>
    ensures { IfOk result (λ table. table ≡ spec.with_new olds.now [] news.now) }
{
    let mut table = Table::new(alloc);
    for new in news {
        let status = status_of_new(olds.find(&new.name), &new.what);
        table.add(new.name.copy(alloc)?, status)?;
    }
    Ok(table)
}

/// The statuses of all names that one of the versions declares.
pub fn statuses_of(
    alloc: Global,
    olds: &[Declared],
    news: &[Declared],
) -> Result<Table<Status>, AllocError>
    ensures { IfOk result (λ table. table ≡ spec.statuses_of olds.now news.now) }
{
    let whats = whats_of(alloc, olds)?;
    let mut table = with_new(alloc, &whats, news)?;
    for old in olds {
        table.add(old.name.copy(alloc)?, Status::Removed)?;
    }
    Ok(table)
}

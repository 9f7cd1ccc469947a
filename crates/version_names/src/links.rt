//! The links of two versions.

ghost use Rattle.std.specs.Prelude.{◌≡◌, IfOk, List, map, slice_get};
ghost use Rattle.std.specs.Option.{option_copied};
ghost use Rattle.c_lang.specs.Names.{Bytes};
ghost use Rattle.version_names.specs.Parts as spec;
ghost use Rattle.version_names.specs.Code.Declarations.{declared_global, declared_func};
ghost use Rattle.version_names.specs.Code.Statuses.{statuses_of};
ghost use Rattle.version_names.specs.Code.Tables.{found};
ghost use Rattle.c_lang.specs.declared.program.Program.{Program};
ghost use Rattle.version_names.specs.declared.links.Links.{Links};
ghost use Rattle.version_names.specs.declared.part.Version.{Version};
ghost use Rattle.version_names.specs.declared.part.Sort2.{Sort2};

use crate::declared::{declared_funcs, declared_globals};
use crate::part::{Part, Sort2, Version};
use crate::status;
use crate::status::Status;
use crate::table::Table;
use c_lang::{Func, GlobalVar, Name, Program};
use c_types::Typed;
use sqlite_items::Items;
use std::alloc::{AllocError, Global};

/// What two versions share and what changed.
pub struct Links {
    cells: Table<Status>,
    codes: Table<Status>,
    changed: Items<Name>,
}

// By hand, so that a proof has one step for each pair of versions that is dropped.
impl Drop for Links {
    fn drop(self) {
        let Links {
            cells: _cells,
            codes: _codes,
            changed: _changed,
        } = self;
    }
}

impl Links {
    /// Where the name of this sort stands that the version has; nothing where the version lacks it.
    /// It takes no memory.
    pub fn of(&self, version: Version, sort: Sort2, name: &Name) -> Option<Part>
        ensures { result ≡ spec.part_by version (found (spec.entries_of self.now sort) name.now) }
    {
        let table = match sort {
            Sort2::Cell => &self.cells,
            Sort2::Code => &self.codes,
        };
        part_by(version, table.find(name))
    }

    /// Whether a version has the name, as a global or as a function. It takes no memory.
    pub fn has(&self, name: &Name) -> bool
        ensures { result ≡ spec.in_version (spec.parts_in self.now) name.now }
    {
        self.of(Version::Old, Sort2::Cell, name).is_some()
            || self.of(Version::Old, Sort2::Code, name).is_some()
            || self.of(Version::New, Sort2::Cell, name).is_some()
            || self.of(Version::New, Sort2::Code, name).is_some()
    }

    /// The changed global with this number, counted from 0 in the new program's order. It takes no
    /// memory.
    pub fn changed(&self, at: usize) -> Option<&Name>
        ensures { option_copied result ≡ slice_get self.now.changed at }
    {
        self.changed.as_slice().get(at)
    }
}

fn part_by(version: Version, status: Option<&Status>) -> Option<Part>
    ensures { result ≡ spec.part_by version (option_copied status.entry) }
{
    match (status?, version) {
        (Status::Shared, _) => Some(Part::Both),
        (Status::Changed, Version::Old) | (Status::Removed, Version::Old) => Some(Part::Old),
        (Status::Changed, Version::New) | (Status::Added, Version::New) => Some(Part::New),
        (Status::Removed, Version::New) | (Status::Added, Version::Old) => None,
    }
}

fn is_changed(status: Option<&Status>) -> bool
    ensures { result ≡ spec.is_changed (option_copied status.entry) }
{
    match status {
        Some(Status::Changed) => true,
        _ => false,
    }
}

fn changed_names(
    alloc: Global,
    cells: &Table<Status>,
    globals: &[GlobalVar],
) -> Result<Items<Name>, AllocError>
    ensures { IfOk result (λ names. names ≡ spec.changed_by cells.now globals.now) }
{
    let mut names = Vec::new(alloc);
    for global in globals {
        if is_changed(cells.find(&global.name)) {
            names.push(global.name.copy(alloc)?)?;
        }
    }
    Ok(Items::from_vec(names))
}

fn cell_statuses(
    alloc: Global,
    first: &[GlobalVar],
    second: &[GlobalVar],
) -> Result<Table<Status>, AllocError>
    ensures { IfOk result (λ cells. cells ≡ statuses_of (map declared_global first.now) (map declared_global second.now)) }
{
    let olds = declared_globals(alloc, first)?;
    let news = declared_globals(alloc, second)?;
    status::statuses_of(alloc, &olds, &news)
}

fn code_statuses(
    alloc: Global,
    first: &[Func],
    second: &[Func],
) -> Result<Table<Status>, AllocError>
    ensures { IfOk result (λ codes. codes ≡ statuses_of (map declared_func first.now) (map declared_func second.now)) }
{
    let olds = declared_funcs(alloc, first)?;
    let news = declared_funcs(alloc, second)?;
    status::statuses_of(alloc, &olds, &news)
}

fn link_programs(alloc: Global, first: &Program, second: &Program) -> Result<Links, AllocError>
    ensures { IfOk result (λ links. spec.IsLinked first.now second.now links) }
{
    let cells = cell_statuses(alloc, first.globals.as_slice(), second.globals.as_slice())?;
    let codes = code_statuses(alloc, first.funcs.as_slice(), second.funcs.as_slice())?;
    let changed = changed_names(alloc, &cells, second.globals.as_slice())?;
    Ok(Links {
        cells,
        codes,
        changed,
    })
}

/// The links of an old and a new program. The only error is want of memory.
pub fn link(alloc: Global, first: &Typed, second: &Typed) -> Result<Links, AllocError>
    ensures { IfOk result (λ links. spec.IsLinked first.now.program second.now.program links) }
{
    link_programs(alloc, first.program(), second.program())
}

/// Where the links of two programs say that a version's name stands, it stands; they say nothing
/// exactly where the version lacks it.
pub fn parts_are_linked()
    ensures { (first second : Program) (links : Links) → spec.IsLinked first second links → (version : Version) (sort : Sort2) (x : Bytes) → spec.part_by version (found (spec.entries_of links sort) x) ≡ spec.part_of first second version sort x }
{}

ghost use Rattle.std.specs.Prelude.{◌≡◌, ◌≤◌, ◌<◌, [], ◌∷◌, ◌++◌, OnOk, IfOk, IfErr, true, map, filter, length};
ghost use Rattle.std.specs.List.{All, Contains, list_any, flat_map};
ghost use Rattle.linear_rows.specs.Sums.{IsInForm, From};
ghost use Rattle.linear_certs.specs.Stages.{has_row, same_row, kept_once, combined, is_upper, is_lower, lacks, pairs_of, eliminated};
ghost use Rattle.linear_certs.specs.Answers.{IsLeaf};
ghost use Rattle.linear_certs.specs.Code.Building.{IsGood, IsPair, IsBuilt};

use crate::closing::pair;
use crate::entry::Entry;
use crate::leaf::Leaf;
use crate::pair::{is_lower, is_upper, lacks};
use linear_rows::Row;
use std::alloc::{AllocError, Global};

/// The most rows of a stage.
const MOST: u32 = 20000;

fn same_row(left: &Row, right: &Row) -> bool
    ensures { result ≡ same_row left.now right.now }
{
    left.bound == right.bound && left.parts.as_slice() == right.parts.as_slice()
}

fn has_row(entries: &[Entry], row: &Row) -> bool
    ensures { result ≡ has_row entries.now row.now }
{
    entries.iter().any(|entry| same_row(&entry.row, row))
}

/// Keeps the entry, unless an earlier one has its row.
pub(crate) fn keep_once(kept: &mut Vec<Entry>, entry: Entry) -> Result<(), AllocError>
    ensures { OnOk result (kept.new.items ≡ kept_once kept.old.items (entry ∷ [])) }
{
    if !has_row(kept, &entry.row) {
        kept.push(entry)?;
    }
    Ok(())
}

pub(crate) fn keep(kept: &mut Vec<Entry>, entry: Entry) -> Result<(), Leaf>
    ensures ok { OnOk result (kept.new.items ≡ kept_once kept.old.items (entry ∷ [])) }
    ensures err { IfErr result (λ leaf. leaf ≡ Leaf.NoMemory) }
{
    match keep_once(kept, entry) {
        Ok(()) => Ok(()),
        Err(_) => Err(Leaf::NoMemory),
    }
}

/// Adds the sum of a pair, where the second row is a lower one.
fn add_pair(
    alloc: Global,
    rows: &[Row],
    atom: u32,
    upper: &Entry,
    lower: &Entry,
    next: &mut Vec<Entry>,
) -> Result<(), Leaf>
    requires in_form { All IsInForm rows.now }
    requires pair { IsPair rows.now atom upper.now lower.now }
    requires above { is_upper atom upper.now ≡ true }
    requires good { All (IsGood rows.now) next.old.items }
    ensures ok { OnOk result (next.new.items ≡ kept_once next.old.items (map (combined atom upper.now) (filter (is_lower atom) (lower.now ∷ [])))) }
    ensures good { OnOk result (All (IsGood rows.now) next.new.items) }
    ensures err { IfErr result (IsLeaf rows.now) }
{
    if !is_lower(lower, atom) {
        return Ok(());
    }
    match pair(alloc, rows, atom, upper, lower) {
        Ok(entry) => keep(next, entry),
        Err(leaf) => Err(leaf),
    }
}

/// Adds the sums of an upper row and each lower row.
fn add_pairs(
    alloc: Global,
    rows: &[Row],
    atom: u32,
    stage: &[Entry],
    upper: &Entry,
    next: &mut Vec<Entry>,
) -> Result<(), Leaf>
    requires in_form { All IsInForm rows.now }
    requires built { IsBuilt rows.now atom stage.now }
    requires upper_in { Contains stage.now upper.now }
    requires above { is_upper atom upper.now ≡ true }
    requires good { All (IsGood rows.now) next.old.items }
    ensures ok { OnOk result (next.new.items ≡ kept_once next.old.items (pairs_of atom stage.now upper.now)) }
    ensures good { OnOk result (All (IsGood rows.now) next.new.items) }
    ensures err { IfErr result (IsLeaf rows.now) }
{
    for lower in stage {
        match add_pair(alloc, rows, atom, upper, lower, next) {
            Ok(()) => {}
            Err(leaf) => return Err(leaf),
        }
    }
    Ok(())
}

/// Adds the sums of a row and each lower row, where the row is an upper one.
fn add_upper(
    alloc: Global,
    rows: &[Row],
    atom: u32,
    stage: &[Entry],
    upper: &Entry,
    next: &mut Vec<Entry>,
) -> Result<(), Leaf>
    requires in_form { All IsInForm rows.now }
    requires built { IsBuilt rows.now atom stage.now }
    requires upper_in { Contains stage.now upper.now }
    requires good { All (IsGood rows.now) next.old.items }
    ensures ok { OnOk result (next.new.items ≡ kept_once next.old.items (flat_map (pairs_of atom stage.now) (filter (is_upper atom) (upper.now ∷ [])))) }
    ensures good { OnOk result (All (IsGood rows.now) next.new.items) }
    ensures err { IfErr result (IsLeaf rows.now) }
{
    if !is_upper(upper, atom) {
        return Ok(());
    }
    add_pairs(alloc, rows, atom, stage, upper, next)
}

/// Adds the sums of all pairs to the rows without the atom.
fn add_uppers(
    alloc: Global,
    rows: &[Row],
    atom: u32,
    stage: &[Entry],
    next: &mut Vec<Entry>,
) -> Result<(), Leaf>
    requires in_form { All IsInForm rows.now }
    requires built { IsBuilt rows.now atom stage.now }
    requires begun { next.old.items ≡ kept_once [] (filter (lacks atom) stage.now) }
    requires good { All (IsGood rows.now) next.old.items }
    ensures ok { OnOk result (next.new.items ≡ eliminated atom stage.now) }
    ensures good { OnOk result (All (IsGood rows.now) next.new.items) }
    ensures err { IfErr result (IsLeaf rows.now) }
{
    for upper in stage {
        match add_upper(alloc, rows, atom, stage, upper, next) {
            Ok(()) => {}
            Err(leaf) => return Err(leaf),
        }
        if next.len() > MOST as usize {
            return Err(Leaf::Rows(MOST));
        }
    }
    Ok(())
}

fn add_copy(
    alloc: Global,
    atom: u32,
    entry: &Entry,
    next: &mut Vec<Entry>,
) -> Result<(), AllocError>
    requires { From atom entry.now.row.parts }
    ensures { OnOk result (next.new.items ≡ kept_once next.old.items (filter (lacks atom) (entry.now ∷ []))) }
{
    if !lacks(entry, atom) {
        return Ok(());
    }
    let copy = entry.copy(alloc)?;
    keep_once(next, copy)
}

/// The rows without the atom.
fn lacking(alloc: Global, atom: u32, stage: &[Entry]) -> Result<Vec<Entry>, AllocError>
    requires { All (λ e. From atom e.row.parts) stage.now }
    ensures { IfOk result (λ next. next.items ≡ kept_once [] (filter (lacks atom) stage.now)) }
{
    let mut next = Vec::new(alloc);
    for entry in stage {
        add_copy(alloc, atom, entry, &mut next)?;
    }
    Ok(next)
}

/// The stage behind this one, or the answer that comes on the way.
pub(crate) fn next_stage(
    alloc: Global,
    rows: &[Row],
    atom: u32,
    stage: &[Entry],
) -> Result<Vec<Entry>, Leaf>
    requires in_form { All IsInForm rows.now }
    requires built { IsBuilt rows.now atom stage.now }
    ensures ok { IfOk result (λ next. (next.items ≡ eliminated atom stage.now) × All (IsGood rows.now) next.items) }
    ensures err { IfErr result (IsLeaf rows.now) }
{
    let Ok(mut next) = lacking(alloc, atom, stage) else {
        return Err(Leaf::NoMemory);
    };
    match add_uppers(alloc, rows, atom, stage, &mut next) {
        Ok(()) => Ok(next),
        Err(leaf) => Err(leaf),
    }
}

//! Walks over rows, the latest row first.
ghost use Rattle.std.specs.Prelude.{◌≡◌, ◌≤◌, ◌<◌, ◌∷◌, ◌^◌, take, drop, length, IfOk, pos, ◌≤ℤ◌, ◌+ℤ◌, ◌<ℤ◌};
ghost use Rattle.std.specs.List.{All};
ghost use Rattle.diff_certs.specs.Rows.{IsInside, IsCycle, left_at, right_at, row_at, total, node};
ghost use Rattle.diff_certs.specs.Code.Walks.{IsReached, IsPlace, AreRows, IsCut, IsLonger};

use crate::row::{DiffRow, node};
use std::alloc::{AllocError, Global};

/// A distance, and the walk whose bounds add up to it.
#[derive(Debug, Drop)]
pub(crate) struct Reached {
    pub(crate) distance: i64,
    pub(crate) walk: Vec<u32>,
}

/// What a longer walk comes to.
#[derive(Debug, Drop)]
pub(crate) enum Longer {
    Cycle(Vec<u32>),
    Walk(Reached),
}

pub(crate) fn row(rows: &[DiffRow], number: u32) -> DiffRow
    requires { number < length rows.now }
    ensures { result ≡ row_at rows.now number }
{
    rows[number as usize]
}

fn prepended(alloc: Global, number: u32, walk: &[u32]) -> Result<Vec<u32>, AllocError>
    ensures { IfOk result (λ longer. longer.items ≡ number ∷ walk.now) }
{
    let mut longer = Vec::new(alloc);
    longer.push(number)?;
    longer.extend_from_slice(walk)?;
    Ok(longer)
}

fn copy_of(alloc: Global, walk: &[u32]) -> Result<Vec<u32>, AllocError>
    ensures { IfOk result (λ copy. copy.items ≡ walk.now) }
{
    let mut copy = Vec::new(alloc);
    copy.extend_from_slice(walk)?;
    Ok(copy)
}

#[tactic(auto, using(crate::proofs::WalkLaws::places))]
fn position_of_side(rows: &[DiffRow], walk: &[u32], side: u32) -> Option<usize>
    requires { AreRows rows.now walk.now }
    ensures { IsPlace rows.now walk.now side result }
{
    let mut at = 0;
    while at < walk.len() {
        if node(row(rows, walk[at]).right) == side {
            return Some(at);
        }
        at += 1;
    }
    None
}

#[tactic(auto, using(crate::proofs::WalkLaws::totals))]
fn total_bound(rows: &[DiffRow], walk: &[u32]) -> i64
    requires rows_in { AreRows rows.now walk.now }
    requires inside { All IsInside rows.now }
    requires short { length walk.now ≤ 65 }
    ensures { result ≡ total rows.now walk.now }
{
    let mut sum = 0;
    let mut at = 0;
    while at < walk.len() {
        sum += row(rows, walk[at]).bound;
        at += 1;
    }
    sum
}

/// The walk by this row and then as from the row's right side.
pub(crate) fn extend(
    alloc: Global,
    rows: &[DiffRow],
    from: &Reached,
    number: u32,
) -> Result<Longer, AllocError>
    requires inside { All IsInside rows.now }
    requires number_in { number < length rows.now }
    requires small { length rows.now < 2 ^ 32 }
    requires known { IsReached rows.now (right_at rows.now number) from.now.distance from.now.walk.items }
    ensures { IfOk result (IsLonger rows.now number from.now.distance) }
{
    let edge = row(rows, number);
    let longer = prepended(alloc, number, &from.walk)?;
    match position_of_side(rows, &longer, node(edge.left)) {
        None => Ok(Longer::Walk(Reached {
            distance: from.distance + edge.bound,
            walk: longer,
        })),
        Some(at) => cut(alloc, rows, &longer, at),
    }
}

fn cut(alloc: Global, rows: &[DiffRow], longer: &[u32], at: usize) -> Result<Longer, AllocError>
    requires inside { All IsInside rows.now }
    requires rows_in { AreRows rows.now longer.now }
    requires short { length longer.now ≤ 65 }
    requires at_in { at < length longer.now }
    ensures { IfOk result (IsCut rows.now longer.now at) }
{
    let cycle = copy_of(alloc, &longer[..at + 1])?;
    if total_bound(rows, &cycle) < 0 {
        return Ok(Longer::Cycle(cycle));
    }
    let rest = copy_of(alloc, &longer[at + 1..])?;
    Ok(Longer::Walk(Reached {
        distance: total_bound(rows, &rest),
        walk: rest,
    }))
}

//! A walk for each side.
ghost use Rattle.std.specs.Prelude.{◌≡◌, ◌≤◌, ◌<◌, ◌^◌, true, false, length, IfOk, slice_set, pos, ◌≤ℤ◌, ◌+ℤ◌, ◌<ℤ◌};
ghost use Rattle.std.specs.List.{All};
ghost use Rattle.diff_certs.specs.Rows.{IsInside, left_at, right_at, row_at, node};
ghost use Rattle.diff_certs.specs.Code.Distances.{AreReached, IsStable, IsStep, IsPass, IsFirst, IsStart, distance_at};

use crate::row::{DiffRow, node};
use crate::walk::{Longer, Reached, extend, row};
use std::alloc::{AllocError, Global};

#[tactic(auto, using(crate::proofs::DistanceLaws::distances))]
pub(crate) fn distance(nodes: &[Reached], side: u32) -> i64
    requires { side < length nodes.now }
    ensures { result ≡ distance_at nodes.now side }
{
    nodes[side as usize].distance
}

#[tactic(auto, using(crate::proofs::DistanceLaws::distances))]
fn left_distance(rows: &[DiffRow], nodes: &[Reached], number: u32) -> i64
    requires inside { All IsInside rows.now }
    requires number_in { number < length rows.now }
    requires known { AreReached rows.now nodes.now }
    ensures { result ≡ distance_at nodes.now (left_at rows.now number) }
{
    distance(nodes, node(row(rows, number).left))
}

fn distance_by_row(rows: &[DiffRow], nodes: &[Reached], number: u32) -> i64
    requires inside { All IsInside rows.now }
    requires number_in { number < length rows.now }
    requires known { AreReached rows.now nodes.now }
    ensures { result ≡ distance_at nodes.now (right_at rows.now number) +ℤ (row_at rows.now number).bound }
{
    let edge = row(rows, number);
    let rest = distance(nodes, node(edge.right));
    rest + edge.bound
}

fn is_stable(rows: &[DiffRow], nodes: &[Reached], number: u32) -> bool
    requires inside { All IsInside rows.now }
    requires number_in { number < length rows.now }
    requires known { AreReached rows.now nodes.now }
    ensures yes { result ≡ true → IsStable rows.now nodes.now number }
    ensures no { result ≡ false → (distance_at nodes.now (right_at rows.now number) +ℤ (row_at rows.now number).bound) <ℤ distance_at nodes.now (left_at rows.now number) }
{
    let direct = left_distance(rows, nodes, number);
    let other = distance_by_row(rows, nodes, number);
    direct <= other
}

fn set_reached(nodes: &mut [Reached], side: u32, reached: Reached)
    requires { side < length nodes.old }
    ensures { nodes.new ≡ slice_set nodes.old side reached }
{
    nodes[side as usize] = reached;
}

fn relax(
    alloc: Global,
    rows: &[DiffRow],
    nodes: &mut [Reached],
    number: u32,
) -> Result<Option<Vec<u32>>, AllocError>
    requires inside { All IsInside rows.now }
    requires number_in { number < length rows.now }
    requires small { length rows.now < 2 ^ 32 }
    requires known { AreReached rows.now nodes.old }
    ensures known { AreReached rows.now nodes.new }
    ensures step { IfOk result (IsStep rows.now nodes.old number nodes.new) }
{
    if is_stable(rows, nodes, number) {
        return Ok(None);
    }
    let edge = row(rows, number);
    match extend(alloc, rows, &nodes[node(edge.right) as usize], number)? {
        Longer::Cycle(cycle) => Ok(Some(cycle)),
        Longer::Walk(reached) => {
            set_reached(nodes, node(edge.left), reached);
            Ok(None)
        }
    }
}

pub(crate) fn pass(
    alloc: Global,
    rows: &[DiffRow],
    nodes: &mut [Reached],
    first: u32,
) -> Result<Option<Vec<u32>>, AllocError>
    requires inside { All IsInside rows.now }
    requires small { length rows.now < 2 ^ 32 }
    requires known { AreReached rows.now nodes.old }
    requires first_in { first < length rows.now }
    requires unstable { IsStable rows.now nodes.old first → ⊥ }
    ensures known { AreReached rows.now nodes.new }
    ensures pass { IfOk result (IsPass rows.now nodes.old nodes.new) }
{
    if let Some(cycle) = relax(alloc, rows, nodes, first)? {
        return Ok(Some(cycle));
    }
    let mut number = first + 1;
    while (number as usize) < rows.len() {
        if let Some(cycle) = relax(alloc, rows, nodes, number)? {
            return Ok(Some(cycle));
        }
        number += 1;
    }
    Ok(None)
}

pub(crate) fn first_unstable(rows: &[DiffRow], nodes: &[Reached]) -> Option<u32>
    requires inside { All IsInside rows.now }
    requires small { length rows.now < 2 ^ 32 }
    requires known { AreReached rows.now nodes.now }
    ensures { IsFirst rows.now nodes.now result }
{
    let mut number: u32 = 0;
    while (number as usize) < rows.len() {
        if !is_stable(rows, nodes, number) {
            return Some(number);
        }
        number += 1;
    }
    None
}

#[tactic(auto, using(crate::proofs::DistanceLaws::starts))]
pub(crate) fn start(alloc: Global) -> Result<Vec<Reached>, AllocError>
    ensures { IfOk result (λ nodes. IsStart nodes.items) }
{
    let mut nodes = Vec::new(alloc);
    let mut count: usize = 0;
    while count < 65 {
        nodes.push(Reached {
            distance: 0,
            walk: Vec::new(alloc),
        })?;
        count += 1;
    }
    Ok(nodes)
}

ghost use Rattle.std.specs.Prelude.{◌≡◌, ◌≤◌, ◌<◌, ◌^◌, length, IfOk, ◌-ℤ◌, ℕ, List};
ghost use Rattle.std.specs.List.{All};
ghost use Rattle.diff_certs.specs.declared.row.DiffRow.{DiffRow};
ghost use Rattle.diff_certs.specs.Rows.{IsInside, IsCycle, AreRefuted};
ghost use Rattle.diff_certs.specs.Code.Distances.{AreReached, AreStable, distance_at};
ghost use Rattle.diff_certs.specs.Answer.{IsAnswer, IsShifted};

use crate::distances::{distance, first_unstable, pass, start};
use crate::row::DiffRow;
use crate::walk::Reached;
use std::alloc::{AllocError, Global};

/// What a list of rows comes to.
#[derive(Debug, Drop)]
pub enum DiffLeaf {
    /// No integers satisfy all rows. The numbers are those of at most 65 rows; the right side of each
    /// is the left side of the next, and the right side of the last is the left side of the first.
    /// Their bounds add up to less than 0.
    Found(Vec<u32>),
    /// Integers that satisfy every row, one for each of the 64 names.
    Point(Vec<i64>),
    /// Memory was wanting, or there are 2^32 rows or more.
    NoMemory,
}

#[tactic(auto, using(crate::proofs::DistanceLaws::distances))]
fn value_of_name(rows: &[DiffRow], nodes: &[Reached], side: u32) -> i64
    requires inside { All IsInside rows.now }
    requires known { AreReached rows.now nodes.now }
    requires side_in { side < 65 }
    ensures { result ≡ distance_at nodes.now side -ℤ distance_at nodes.now 64 }
{
    let zero = distance(nodes, 64);
    let raw = distance(nodes, side);
    raw - zero
}

fn point(alloc: Global, rows: &[DiffRow], nodes: &[Reached]) -> Result<Vec<i64>, AllocError>
    requires inside { All IsInside rows.now }
    requires known { AreReached rows.now nodes.now }
    ensures { IfOk result (λ values. IsShifted nodes.now values.items) }
{
    let mut values = Vec::new(alloc);
    let mut side: u32 = 0;
    while side < 64 {
        values.push(value_of_name(rows, nodes, side))?;
        side += 1;
    }
    Ok(values)
}

fn solve(alloc: Global, rows: &[DiffRow]) -> Result<DiffLeaf, AllocError>
    requires inside { All IsInside rows.now }
    requires small { length rows.now < 2 ^ 32 }
    ensures { IfOk result (IsAnswer rows.now) }
{
    let mut nodes = start(alloc)?;
    while let Some(first) = first_unstable(rows, &nodes) {
        if let Some(cycle) = pass(alloc, rows, &mut nodes, first)? {
            return Ok(DiffLeaf::Found(cycle));
        }
    }
    let values = point(alloc, rows, &nodes)?;
    Ok(DiffLeaf::Point(values))
}

/// Decides whether some integers satisfy all rows. Their names are numbers below 64, and their
/// bounds are at most 2^40 in size.
///
/// `Found` comes only where no integers satisfy all rows, and `Point` only where its integers do, so
/// each comes exactly where it is true, unless memory is wanting. 2^32 rows or more have row numbers
/// that no `u32` holds: their answer is `NoMemory`.
///
/// Found by shortest walks (the method of Bellman and Ford): every side keeps a walk of rows whose
/// bounds add up to its distance, and a row that would shorten the walk to its own left side closes
/// a cycle of negative sum.
pub fn refute_diff(alloc: Global, rows: &[DiffRow]) -> DiffLeaf
    requires { All IsInside rows.now }
    ensures { IsAnswer rows.now result }
{
    if rows.len() > u32::MAX as usize {
        return DiffLeaf::NoMemory;
    }
    match solve(alloc, rows) {
        Ok(leaf) => leaf,
        Err(_) => DiffLeaf::NoMemory,
    }
}

/// A cycle whose bounds add up to less than 0 refutes its rows.
pub fn cycle_refutes()
    ensures { (rows : List DiffRow) (cycle : List ℕ) → All IsInside rows → IsCycle rows cycle → AreRefuted rows }
{}

//! Which points may update.

ghost use Rattle.std.specs.Prelude.{◌≡◌, [], IfOk};
ghost use Rattle.std.specs.Option.{option_copied};
ghost use Rattle.c_lang.specs.declared.refusal.Fail.TheVariants as fail;
ghost use Rattle.c_lang.specs.Refusals.{refused_at};
ghost use Rattle.update_points.specs.Points as spec;

use crate::gathering::{PointAt, gather};
use crate::numbers::Numbers;
use c_lang::{Fail, Pos, Program, Refusal, Unit, refusal};
use std::alloc::{AllocError, Global};

/// The points that may update.
#[derive(Drop)]
pub struct Points {
    numbers: Numbers,
}

impl Points {
    /// Whether the point with this number may update. It takes no memory.
    pub fn permits(&self, k: u32) -> bool
        ensures { result ≡ spec.is_listed k self.now.numbers }
    {
        self.numbers.has(k)
    }
}

fn refused(number: u8, pos: Pos) -> Fail
    ensures { result ≡ fail.Refused (refused_at number pos) }
{
    Fail::Refused(Refusal::at(number, pos))
}

// The numbers of the points, or 16 at the first point whose number stands before it.
fn distinct(alloc: Global, points: &[PointAt]) -> Result<Numbers, Fail>
    ensures { spec.IsDistinct points.now result }
{
    let mut seen = Numbers::new(alloc);
    for point in points {
        if seen.has(point.k) {
            return Err(refused(refusal::POINT_TWICE, point.pos));
        }
        seen.add(point.k)?;
    }
    Ok(seen)
}

fn are_points(numbers: &Numbers, listed: &[u32]) -> bool
    ensures { result ≡ spec.are_points numbers.now listed.now }
{
    listed.iter().all(|k| numbers.has(*k))
}

fn set_of(alloc: Global, listed: &[u32]) -> Result<Numbers, AllocError>
    ensures { IfOk result (λ set. set ≡ spec.all_added [] listed.now) }
{
    let mut set = Numbers::new(alloc);
    for k in listed {
        set.add(*k)?;
    }
    Ok(set)
}

fn permitted(alloc: Global, numbers: Numbers, listed: Option<&[u32]>) -> Result<Numbers, Fail>
    ensures { spec.IsPermitted numbers (option_copied listed.entry) result }
{
    match listed {
        None => Ok(numbers),
        Some(listed) => {
            if !are_points(&numbers, listed) {
                return Err(refused(
                    refusal::NO_SUCH_POINT,
                    Pos {
                        unit: Unit::Old,
                        line: 1,
                    },
                ));
            }
            Ok(set_of(alloc, listed)?)
        }
    }
}

fn gathered(
    alloc: Global,
    first: &Program,
    client: Option<&Program>,
) -> Result<Vec<PointAt>, AllocError>
    ensures { IfOk result (λ points. points.items ≡ spec.all_points first.now (option_copied client.entry)) }
{
    let mut points = Vec::new(alloc);
    gather(&mut points, first.funcs.as_slice())?;
    if let Some(client) = client {
        gather(&mut points, client.funcs.as_slice())?;
    }
    Ok(points)
}

/// The points of the old program, and then of the client, that may update: those with a listed
/// number, or all where there is no list. A number twice in the list is no error.
///
/// Refusals: 16 at the second point of a number, in text order; then 17 at the old unit's first line
/// where a listed number is that of no point. The only other error is want of memory.
pub fn list_points(
    alloc: Global,
    first: &Program,
    client: Option<&Program>,
    listed: Option<&[u32]>,
) -> Result<Points, Fail>
    ensures { spec.IsListed (spec.all_points first.now (option_copied client.entry)) (option_copied listed.entry) result }
{
    let points = gathered(alloc, first, client)?;
    let numbers = distinct(alloc, &points)?;
    let numbers = permitted(alloc, numbers, listed)?;
    Ok(Points { numbers })
}

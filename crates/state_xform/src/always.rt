//! The names that every path through a body sets, found in one walk.

ghost use Rattle.std.specs.Prelude.{◌≡◌, IfOk, OnOk, map, true, false};
ghost use Rattle.c_lang.specs.Names.{Bytes};
ghost use Rattle.c_lang.specs.Trees.{statement_of, statements};
ghost use Rattle.state_xform.specs.Code.AllNames.{IsFound, sets_at};
ghost use Rattle.state_xform.specs.Code.NameSets.{has, IsUnion};
ghost use Rattle.state_xform.specs.Paths.{always_set};
ghost use Rattle.state_xform.specs.Code.Walk.{found, joined, either, is_set, walk, walk_all};

use crate::names::NameSet;
use c_lang::{Dest, Name, Stmt};
use std::alloc::{AllocError, Global};

// What the walk finds of a list of statements: the names that each path going on behind it sets, and
// the names that each path returning in it sets.
#[derive(Drop)]
struct PathNames<'p> {
    behind: NameSet<'p>,
    returned: NameSet<'p>,
}

// One branch or the other.
fn both<'p>(yes: PathNames<'p>, no: PathNames<'p>) -> PathNames<'p>
    ensures { IsFound result (λ x. either (sets_at yes.entry x) (sets_at no.entry x)) }
{
    PathNames {
        behind: yes.behind.common(no.behind),
        returned: yes.returned.common(no.returned),
    }
}

// Where nothing is set and every path goes on.
fn nothing_set<'p>(alloc: Global) -> PathNames<'p>
    ensures { IsFound result (λ x. found false true) }
{
    PathNames {
        behind: NameSet::empty(alloc),
        returned: NameSet::every(alloc),
    }
}

fn assigned<'p>(alloc: Global, dest: &'p Dest) -> Result<PathNames<'p>, AllocError>
    ensures { IfOk result (λ names. IsFound names (λ x. found (is_set dest.entry.now x) true)) }
{
    let mut names = nothing_set(alloc);
    if let Dest::Into(name) = dest {
        names.behind.add(name)?;
    }
    Ok(names)
}

// Adds names that are set before all these paths.
fn add_before<'p>(rest: &mut PathNames<'p>, names: &NameSet<'p>) -> Result<(), AllocError>
    ensures behind { OnOk result (IsUnion names.now rest.old.behind rest.new.behind) }
    ensures returned { OnOk result (IsUnion names.now rest.old.returned rest.new.returned) }
{
    rest.behind.add_all(names)?;
    rest.returned.add_all(names)
}

// One statement, and then the rest. Each operation goes over the names of the statement alone, so
// that its time doesn't grow with what stands behind it.
fn followed<'p>(first: PathNames<'p>, mut rest: PathNames<'p>) -> Result<PathNames<'p>, AllocError>
    ensures { IfOk result (λ names.
        IsFound names (λ x. joined (sets_at first.entry x) (sets_at rest.entry x))) }
{
    add_before(&mut rest, &first.behind)?;
    Ok(PathNames {
        behind: rest.behind,
        returned: first.returned.common(rest.returned),
    })
}

#[cycle(names)]
fn names_at<'p>(alloc: Global, stmt: &'p Stmt) -> Result<PathNames<'p>, AllocError>
    ensures { IfOk result (λ names. IsFound names (λ x. walk x (statement_of stmt.entry.now))) }
{
    match stmt {
        Stmt::Set { dest, .. } => assigned(alloc, dest),
        Stmt::If { yes, no, .. } => {
            let yes = names_in(alloc, yes.as_slice())?;
            let no = names_in(alloc, no.as_slice())?;
            Ok(both(yes, no))
        }
        Stmt::While { body, .. } => {
            let turn = names_in(alloc, body.as_slice())?;
            Ok(PathNames {
                behind: NameSet::empty(alloc),
                returned: turn.returned,
            })
        }
        Stmt::Return { .. } => Ok(PathNames {
            behind: NameSet::every(alloc),
            returned: NameSet::empty(alloc),
        }),
        Stmt::Break { .. } => Ok(PathNames {
            behind: NameSet::every(alloc),
            returned: NameSet::every(alloc),
        }),
        _ => Ok(nothing_set(alloc)),
    }
}

#[cycle(names)]
fn names_in<'p>(alloc: Global, stmts: &'p [Stmt]) -> Result<PathNames<'p>, AllocError>
    ensures { IfOk result (λ names.
        IsFound names (λ x. walk_all x (statements (map statement_of stmts.entry.now)))) }
{
    let mut names = nothing_set(alloc);
    for stmt in stmts.iter().rev() {
        let first = names_at(alloc, stmt)?;
        names = followed(first, names)?;
    }
    Ok(names)
}

/// The names that each path through the body sets, to its end or to a `return`. Of a loop's body only
/// what returns in its first turn counts, and beside it the path that skips the loop; calls set
/// nothing. Where no path comes to the end or to a `return`, these are all names. The only error is
/// want of memory. The time is linear in the body's size, times the depth of its nesting.
pub fn always_set_names<'p>(alloc: Global, body: &'p [Stmt]) -> Result<NameSet<'p>, AllocError>
    ensures { IfOk result (λ names. (x : Bytes) →
        has names x ≡ always_set x (statements (map statement_of body.entry.now))) }
{
    let names = names_in(alloc, body)?;
    Ok(names.behind.common(names.returned))
}

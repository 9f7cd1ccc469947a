ghost use Rattle.std.specs.Prelude.{◌≡◌, IfOk, IfErr};
ghost use Rattle.std.specs.List.{All};
ghost use Rattle.linear_rows.specs.Sums.{IsInForm};
ghost use Rattle.linear_certs.specs.Stages.{first_stage};
ghost use Rattle.linear_certs.specs.Answers.{IsLeaf};
ghost use Rattle.linear_certs.specs.Code.Building.{IsGood, IsEliminated};

use crate::entry::Entry;
use crate::leaf::Leaf;
use crate::pair::least_atom;
use crate::stage::next_stage;
use linear_rows::Row;
use sqlite_items::Items;
use std::alloc::Global;

/// A stage with its least atom.
#[derive(Debug, Drop)]
pub struct Stage {
    pub atom: u32,
    pub entries: Items<Entry>,
}

/// The stages that have atoms, and the last one, which has none.
#[derive(Debug, Drop)]
pub struct Elimination {
    pub stages: Items<Stage>,
    pub last: Items<Entry>,
}

/// All stages behind the first one, or the answer that comes on the way.
pub(crate) fn eliminate_all(
    alloc: Global,
    rows: &[Row],
    first: Vec<Entry>,
) -> Result<Elimination, Leaf>
    requires in_form { All IsInForm rows.now }
    requires is { first.items ≡ first_stage rows.now }
    requires good { All (IsGood rows.now) first.items }
    ensures ok { IfOk result (IsEliminated rows.now) }
    ensures err { IfErr result (IsLeaf rows.now) }
{
    let mut stages = Items::new(alloc);
    let mut entries = first;
    while let Some(atom) = least_atom(&entries) {
        let next = match next_stage(alloc, rows, atom, &entries) {
            Ok(next) => next,
            Err(leaf) => return Err(leaf),
        };
        let stage = Stage {
            atom,
            entries: Items::from_vec(entries),
        };
        if stages.push(stage).is_err() {
            return Err(Leaf::NoMemory);
        }
        entries = next;
    }
    Ok(Elimination {
        stages,
        last: Items::from_vec(entries),
    })
}

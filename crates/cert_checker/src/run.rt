ghost use Rattle.std.specs.Prelude.{◌≡◌, ◌≤◌, ◌<◌, true, reverse, length, ◌∷◌, [], OnOk};
ghost use Rattle.std.specs.List.{list_all};
ghost use Rattle.linear_rows.specs.Sums.{row_fits};
ghost use Rattle.cert_checker.specs.Code.Steps.{work, Goal, ComesTo, GoesOn, HasOperands, HasGoal, Makes, Grown};

use crate::open::open;
use crate::step::Step;
use crate::sum::apply;
use linear_rows::{Row, RowFail};
use std::alloc::Global;
use terms::Term;

fn take<'a>(
    alloc: Global,
    next: Step<'a>,
    steps: &mut Vec<Step<'a>>,
    rows: &mut Vec<Row>,
    atoms: &mut Vec<Term>,
) -> Result<(), RowFail>
    requires operands { HasOperands next rows.old.items }
    requires fit { list_all row_fits rows.old.items ≡ true }
    ensures goes_on { (goal : Goal) → ComesTo goal (next.entry ∷ reverse steps.old.items) (reverse rows.old.items) atoms.old.items →
        GoesOn goal result (reverse steps.new.items) (reverse rows.new.items) atoms.new.items }
    ensures grown { Grown atoms.old.items atoms.new.items }
    ensures smaller { OnOk result (work (reverse steps.new.items) < work (next.entry ∷ reverse steps.old.items)) }
{
    match next {
        Step::Term(term) => open(alloc, term, steps, rows, atoms),
        Step::Apply(operation) => apply(alloc, rows, operation),
    }
}

/// Takes all steps.
fn run<'a>(
    alloc: Global,
    steps: &mut Vec<Step<'a>>,
    rows: &mut Vec<Row>,
    atoms: &mut Vec<Term>,
) -> Result<(), RowFail>
    requires { HasGoal (reverse steps.old.items) (reverse rows.old.items) atoms.old.items }
    ensures goes_on { (goal : Goal) → ComesTo goal (reverse steps.old.items) (reverse rows.old.items) atoms.old.items →
        GoesOn goal result [] (reverse rows.new.items) atoms.new.items }
    ensures grown { Grown atoms.old.items atoms.new.items }
{
    while let Some(next) = steps.pop() {
        if let Err(fail) = take(alloc, next, steps, rows, atoms) {
            return Err(fail);
        }
    }
    Ok(())
}

/// The row that the steps make.
pub(crate) fn made<'a>(
    alloc: Global,
    mut steps: Vec<Step<'a>>,
    atoms: &mut Vec<Term>,
) -> Result<Row, RowFail>
    requires { HasGoal (reverse steps.items) [] atoms.old.items }
    ensures makes { (goal : Goal) → ComesTo goal (reverse steps.entry.items) [] atoms.old.items → Makes goal result atoms.new.items }
    ensures grown { Grown atoms.old.items atoms.new.items }
{
    let mut rows = Vec::new(alloc);
    if let Err(fail) = run(alloc, &mut steps, &mut rows, atoms) {
        return Err(fail);
    }
    let Some(row) = rows.pop() else {
        unreachable!()
    };
    Ok(row)
}

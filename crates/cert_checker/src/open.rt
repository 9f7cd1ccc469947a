ghost use Rattle.std.specs.Prelude.{◌≡◌, reverse, ◌∷◌, ◌++◌, [], IfOk, OnOk, IfErr};
ghost use Rattle.cert_checker.specs.declared.step.Step.TheVariants as step;
ghost use Rattle.cert_checker.specs.declared.step.Operation.TheVariants as operation;
ghost use Rattle.terms.specs.Trees.{times};
ghost use Rattle.linear_rows.specs.Sums.{row_fits};
ghost use Rattle.cert_checker.specs.Numbering.{atom_number, with_atom};
ghost use Rattle.cert_checker.specs.Code.Steps.{atom_row, literal_of, product_shape, shape_of, number_row, IsScaled, IsOpened, Grown};

use crate::atoms::number;
use crate::step::{Operation, Step};
use crate::sum::{literal, number_row, push_row};
use linear_rows::{Row, RowFail};
use sqlite_items::Items;
use std::alloc::Global;
use terms::{Term, TermRef, TermView};

fn push_step<'a>(steps: &mut Vec<Step<'a>>, next: Step<'a>) -> Result<(), RowFail>
    ensures pushed { OnOk result (reverse steps.new.items ≡ next.entry ∷ reverse steps.old.items) }
    ensures memory { IfErr result (λ fail. fail ≡ RowFail.NoMemory) }
{
    if steps.push(next).is_err() {
        return Err(RowFail::NoMemory);
    }
    Ok(())
}

/// Two terms, and an operation on their rows.
pub(crate) fn push_operands<'a>(
    steps: &mut Vec<Step<'a>>,
    left: TermRef<'a>,
    right: TermRef<'a>,
    operation: Operation,
) -> Result<(), RowFail>
    ensures pushed { OnOk result (reverse steps.new.items
        ≡ step.Term left.entry ∷ (step.Term right.entry ∷ (step.Apply operation ∷ reverse steps.old.items))) }
    ensures memory { IfErr result (λ fail. fail ≡ RowFail.NoMemory) }
{
    push_step(steps, Step::Apply(operation))?;
    push_step(steps, Step::Term(right))?;
    push_step(steps, Step::Term(left))
}

/// A term, and its row so many times.
fn push_scaled<'a>(steps: &mut Vec<Step<'a>>, term: TermRef<'a>, times: i128) -> Result<(), RowFail>
    ensures pushed { OnOk result (reverse steps.new.items
        ≡ step.Term term.entry ∷ (step.Apply (operation.Scale times) ∷ reverse steps.old.items)) }
    ensures memory { IfErr result (λ fail. fail ≡ RowFail.NoMemory) }
{
    push_step(steps, Step::Apply(Operation::Scale(times)))?;
    push_step(steps, Step::Term(term))
}

fn atom_row(alloc: Global, number: u32) -> Result<Row, RowFail>
    ensures row { IfOk result (λ row. row ≡ atom_row number) }
    ensures memory { IfErr result (λ fail. fail ≡ RowFail.NoMemory) }
{
    let mut parts = Vec::new(alloc);
    if parts.push((number, 1)).is_err() {
        return Err(RowFail::NoMemory);
    }
    Ok(Row {
        parts: Items::from_vec(parts),
        bound: 0,
        equal: true,
    })
}

/// The row of an atom, which gets a number.
fn push_atom(
    alloc: Global,
    rows: &mut Vec<Row>,
    atoms: &mut Vec<Term>,
    term: &TermRef<'_>,
) -> Result<(), RowFail>
    ensures row { OnOk result (reverse rows.new.items
        ≡ atom_row (atom_number (with_atom atoms.old.items term.now) term.now) ∷ reverse rows.old.items) }
    ensures atom { OnOk result (atoms.new.items ≡ with_atom atoms.old.items term.now) }
    ensures grown { Grown atoms.old.items atoms.new.items }
    ensures memory { IfErr result (λ fail. fail ≡ RowFail.NoMemory) }
{
    let Ok(number) = number(alloc, atoms, term) else {
        return Err(RowFail::NoMemory);
    };
    let row = atom_row(alloc, number)?;
    if rows.push(row).is_err() {
        return Err(RowFail::NoMemory);
    }
    Ok(())
}

/// A product of two terms: a multiple, where one of them is a number as written.
fn open_product<'a>(
    alloc: Global,
    term: &TermRef<'a>,
    left: TermRef<'a>,
    right: TermRef<'a>,
    steps: &mut Vec<Step<'a>>,
    rows: &mut Vec<Row>,
    atoms: &mut Vec<Term>,
) -> Result<(), RowFail>
    ensures opened { IsOpened (product_shape (literal_of left.entry) (literal_of right.entry) left.entry right.entry) term.now
        (reverse steps.old.items) (reverse rows.old.items) atoms.old.items result
        (reverse steps.new.items) (reverse rows.new.items) atoms.new.items }
    ensures grown { Grown atoms.old.items atoms.new.items }
{
    if let Some(times) = literal(&left) {
        return open_multiple(alloc, times, right, steps);
    }
    if let Some(times) = literal(&right) {
        return open_multiple(alloc, times, left, steps);
    }
    push_atom(alloc, rows, atoms, term)
}

/// A multiple of a term, if the number is small.
fn open_multiple<'a>(
    alloc: Global,
    times: i128,
    term: TermRef<'a>,
    steps: &mut Vec<Step<'a>>,
) -> Result<(), RowFail>
    ensures { IsScaled (row_fits (number_row times)) result
        (step.Term term.entry ∷ (step.Apply (operation.Scale times) ∷ reverse steps.old.items))
        (reverse steps.new.items) }
{
    if !number_row(alloc, times).fits() {
        return Err(RowFail::Wide);
    }
    push_scaled(steps, term, times)
}

/// The row of a term, or the steps that make it.
pub(crate) fn open<'a>(
    alloc: Global,
    term: TermRef<'a>,
    steps: &mut Vec<Step<'a>>,
    rows: &mut Vec<Row>,
    atoms: &mut Vec<Term>,
) -> Result<(), RowFail>
    ensures opened { IsOpened (shape_of term.entry) term.entry
        (reverse steps.old.items) (reverse rows.old.items) atoms.old.items result
        (reverse steps.new.items) (reverse rows.new.items) atoms.new.items }
    ensures grown { Grown atoms.old.items atoms.new.items }
{
    match term.view() {
        TermView::Num(number) => push_row(rows, number_row(alloc, number)),
        TermView::Of(_) => push_atom(alloc, rows, atoms, &term),
        TermView::Add(left, right) => push_operands(steps, left, right, Operation::Add),
        TermView::Sub(left, right) => push_operands(steps, left, right, Operation::Subtract),
        TermView::Mul(left, right) => {
            open_product(alloc, &term, left, right, steps, rows, atoms)
        }
        TermView::Div(_, _) => push_atom(alloc, rows, atoms, &term),
        TermView::Rem(_, _) => push_atom(alloc, rows, atoms, &term),
        TermView::Read(_, _) => push_atom(alloc, rows, atoms, &term),
        TermView::Truth(_) => push_atom(alloc, rows, atoms, &term),
    }
}

ghost use Rattle.std.specs.Prelude.{◌≡◌, true};
ghost use Rattle.linear_rows.specs.Sums.{row_fits};
ghost use Rattle.cert_checker.specs.Numbering.{IsRowOf};
ghost use Rattle.cert_checker.specs.Code.Comparisons.{comparison_of, denied_comparison, operation_of, is_equality, at_zero, IsCompared};
ghost use Rattle.cert_checker.specs.Code.Steps.{Grown, HasGoal};

use crate::open::push_operands;
use crate::run::made;
use crate::step::{Operation, Step};
use linear_rows::{Row, RowFail};
use std::alloc::Global;
use terms::{FormRef, FormView, Term, TermRef};

/// A form that has a row, by its two terms.
#[derive(Debug, Drop)]
struct Comparison<'a> {
    left: TermRef<'a>,
    right: TermRef<'a>,
    relation: Relation,
}

#[derive(Clone, Copy, Debug)]
enum Relation {
    AtMost,
    More,
    Equal,
}

/// That the form is false.
fn denied<'a>(form: FormRef<'a>) -> Option<Comparison<'a>>
    ensures { result ≡ denied_comparison form.entry }
{
    match form.view() {
        FormView::Le(left, right) => Some(Comparison {
            left,
            right,
            relation: Relation::More,
        }),
        FormView::True => None,
        FormView::False => None,
        FormView::Eq(_, _) => None,
        FormView::Not(_) => None,
        FormView::And(_, _) => None,
        FormView::Or(_, _) => None,
    }
}

fn compared_terms<'a>(form: FormRef<'a>) -> Option<Comparison<'a>>
    ensures { result ≡ comparison_of form.entry }
{
    match form.view() {
        FormView::Le(left, right) => Some(Comparison {
            left,
            right,
            relation: Relation::AtMost,
        }),
        FormView::Eq(left, right) => Some(Comparison {
            left,
            right,
            relation: Relation::Equal,
        }),
        FormView::Not(inner) => denied(inner),
        FormView::True => None,
        FormView::False => None,
        FormView::And(_, _) => None,
        FormView::Or(_, _) => None,
    }
}

impl Relation {
    fn operation(self) -> Operation
        ensures { result ≡ operation_of self }
    {
        match self {
            Relation::AtMost => Operation::Subtract,
            Relation::More => Operation::Turn,
            Relation::Equal => Operation::Subtract,
        }
    }

    fn is_equality(self) -> bool
        ensures { result ≡ is_equality self }
    {
        match self {
            Relation::AtMost => false,
            Relation::More => false,
            Relation::Equal => true,
        }
    }
}

/// The row that the sum is at most 0, or is 0.
fn at_zero(sum: Row, equal: bool) -> Row
    requires { row_fits sum ≡ true }
    ensures { result ≡ at_zero sum equal }
{
    Row {
        parts: sum.parts,
        bound: -sum.bound,
        equal,
    }
}

/// The row of a comparison, whose atoms get numbers.
fn compared<'a>(
    alloc: Global,
    comparison: Comparison<'a>,
    atoms: &mut Vec<Term>,
) -> Result<Row, RowFail>
    ensures row { IsCompared comparison.entry atoms.old.items result atoms.new.items }
    ensures grown { Grown atoms.old.items atoms.new.items }
{
    let relation = comparison.relation;
    let mut steps = Vec::new(alloc);
    push_operands(
        &mut steps,
        comparison.left,
        comparison.right,
        relation.operation(),
    )?;
    match made(alloc, steps, atoms) {
        Ok(sum) => Ok(at_zero(sum, relation.is_equality())),
        Err(fail) => Err(fail),
    }
}

/// The row of a form. After an error the atoms are as before.
pub(crate) fn form_row(
    alloc: Global,
    form: FormRef<'_>,
    atoms: &mut Vec<Term>,
) -> Result<Option<Row>, RowFail>
    ensures { IsRowOf form.entry atoms.old.items result atoms.new.items }
{
    let Some(terms) = compared_terms(form) else {
        return Ok(None);
    };
    let count = atoms.len();
    match compared(alloc, terms, atoms) {
        Ok(row) => Ok(Some(row)),
        Err(fail) => {
            atoms.truncate(count);
            Err(fail)
        }
    }
}

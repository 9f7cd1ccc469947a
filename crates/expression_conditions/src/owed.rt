//! The conditions that expressions owe, by the expressions that they speak of, so that a list of them takes
//! little memory however large their formulas are.

ghost use Rattle.std.specs.Prelude.{◌≡◌, ◌++◌, ◌∷◌, [], IfOk, OnOk, map, flat_map};
ghost use Rattle.c_lang.specs.Trees.{expression_of};
ghost use Rattle.terms.specs.Trees.{number, at_most, divided};
ghost use Rattle.expression_conditions.specs.Meanings as meaning;
ghost use Rattle.expression_conditions.specs.Numbers.{Numbers, numbers_in};
ghost use Rattle.expression_conditions.specs.Owed as spec;
ghost use Rattle.expression_conditions.specs.Code.Due as dues;
ghost use Rattle.expression_conditions.specs.Code.Seen.{seen_given, seen_goal, seen_owed, formulas};
ghost use Rattle.c_lang.specs.Trees.{Expression};

use crate::meaning::{form, val};
use c_lang::{Expr, Name, Op};
use name_tables::ProgramNames;
use sqlite_items::Items;
use std::alloc::{AllocError, Global};
use terms::{Form, Term, What};

const LEAST_INT: i128 = -2_147_483_648;

const GREATEST_INT: i128 = 2_147_483_647;

/// What is known where an operand is evaluated: that the left operand of an `&&` holds, or that the one of an
/// `||` doesn't.
#[derive(Clone, Copy, Debug)]
pub enum Given<'p> {
    Holds(&'p Expr),
    Fails(&'p Expr),
}

/// What has to hold: that a value is an `int`, or a quotient, that a divisor isn't 0, or that an index is one of
/// an array's.
#[derive(Clone, Copy, Debug)]
pub enum Goal<'p> {
    InRange(&'p Expr),
    QuotientInRange(&'p Expr, &'p Expr),
    NotZero(&'p Expr),
    Within(&'p Name, &'p Expr),
}

/// A condition that an expression owes: its goal, where what is given holds.
#[derive(Debug)]
pub struct Owed<'p> {
    pub given: Items<Given<'p>>,
    pub goal: Goal<'p>,
}

// By hand, so that a proof has one step for each condition that is dropped.
impl Drop for Owed<'_> {
    fn drop(self) {
        let Owed {
            given: _given,
            goal: _goal,
        } = self;
    }
}

impl Given<'_> {
    /// What is given, as a form. The only error is want of memory.
    pub fn form(&self, alloc: Global, names: &ProgramNames<'_>) -> Result<Form, AllocError>
        ensures { IfOk result (λ made. made ≡ dues.given_form (numbers_in names.now) (seen_given self.now)) }
    {
        match self {
            Given::Holds(expr) => form(alloc, names, expr),
            Given::Fails(expr) => {
                let held = form(alloc, names, expr)?;
                Form::denied(held)
            }
        }
    }
}

// That a term is worth an `int`.
fn fits(alloc: Global, term: Term) -> Result<Form, AllocError>
    ensures { IfOk result (λ made. made ≡ (spec.fits term).goal) }
{
    let low = at_least(alloc, LEAST_INT, term.copy(alloc)?)?;
    Form::both(low, up_to(alloc, term, GREATEST_INT)?)
}

fn at_least(alloc: Global, bound: i128, term: Term) -> Result<Form, AllocError>
    ensures { IfOk result (λ made. made ≡ at_most (number bound) term) }
{
    let bound = Term::number(alloc, bound)?;
    Form::at_most(bound, term)
}

fn up_to(alloc: Global, term: Term, bound: i128) -> Result<Form, AllocError>
    ensures { IfOk result (λ made. made ≡ at_most term (number bound)) }
{
    let bound = Term::number(alloc, bound)?;
    Form::at_most(term, bound)
}

fn is_divisor(alloc: Global, term: Term) -> Result<Form, AllocError>
    ensures { IfOk result (λ made. made ≡ (spec.is_divisor term).goal) }
{
    let zero = Term::number(alloc, 0)?;
    let null = Form::equal(term, zero)?;
    Form::denied(null)
}

fn is_index(
    alloc: Global,
    names: &ProgramNames<'_>,
    array: &Name,
    index: Term,
) -> Result<Form, AllocError>
    ensures { IfOk result (λ made. made ≡ (spec.is_index (numbers_in names.now) array.now index).goal) }
{
    let low = at_least(alloc, 0, index.copy(alloc)?)?;
    let last = names.length(array) as i128 - 1;
    Form::both(low, up_to(alloc, index, last)?)
}

fn quotient(
    alloc: Global,
    names: &ProgramNames<'_>,
    left: &Expr,
    right: &Expr,
) -> Result<Term, AllocError>
    ensures { IfOk result (λ made. made ≡ divided (meaning.val (numbers_in names.now) (expression_of left.now)) (meaning.val (numbers_in names.now) (expression_of right.now))) }
{
    let dividend = val(alloc, names, left)?;
    let divisor = val(alloc, names, right)?;
    Term::div(dividend, divisor)
}

impl Goal<'_> {
    /// What has to hold, as a form. The only error is want of memory.
    pub fn form(&self, alloc: Global, names: &ProgramNames<'_>) -> Result<Form, AllocError>
        ensures { IfOk result (λ made. made ≡ (dues.goal_owed (numbers_in names.now) (seen_goal self.now)).goal) }
    {
        match self {
            Goal::InRange(expr) => {
                let term = val(alloc, names, expr)?;
                fits(alloc, term)
            }
            Goal::QuotientInRange(left, right) => {
                let term = quotient(alloc, names, left, right)?;
                fits(alloc, term)
            }
            Goal::NotZero(expr) => {
                let term = val(alloc, names, expr)?;
                is_divisor(alloc, term)
            }
            Goal::Within(array, index) => {
                let term = val(alloc, names, index)?;
                is_index(alloc, names, array, term)
            }
        }
    }

    /// What a fault would be where it doesn't hold. It takes no memory.
    pub fn what(&self) -> What
        ensures { result ≡ dues.goal_what (seen_goal self.now) }
    {
        match self {
            Goal::InRange(_) => What::Overflow,
            Goal::QuotientInRange(_, _) => What::Overflow,
            Goal::NotZero(_) => What::Divide,
            Goal::Within(_, _) => What::Index,
        }
    }
}

fn push<'p>(
    alloc: Global,
    out: &mut Vec<Owed<'p>>,
    given: &[Given<'p>],
    goal: Goal<'p>,
) -> Result<(), AllocError>
    ensures { OnOk result (map seen_owed out.new.items ≡ map seen_owed out.old.items
        ++ ((record { given = map seen_given given.now; goal = seen_goal goal.entry }) ∷ [])) }
{
    out.push(Owed {
        given: Items::from_slice(alloc, given)?,
        goal,
    })?;
    Ok(())
}

// A divisor and its quotient.
fn push_quotient<'p>(
    alloc: Global,
    out: &mut Vec<Owed<'p>>,
    given: &[Given<'p>],
    left: &'p Expr,
    right: &'p Expr,
) -> Result<(), AllocError>
    ensures { OnOk result (map seen_owed out.new.items ≡ map seen_owed out.old.items
        ++ ((record { given = map seen_given given.now; goal = dues.not_zero (expression_of right.entry.now) })
        ∷ ((record { given = map seen_given given.now; goal = dues.quotient_in_range (expression_of left.entry.now) (expression_of right.entry.now) }) ∷ []))) }
{
    push(alloc, out, given, Goal::NotZero(right))?;
    push(alloc, out, given, Goal::QuotientInRange(left, right))
}

// What an operator owes, its operands aside, where `whole` is the expression with this operator.
fn push_operator<'p>(
    alloc: Global,
    out: &mut Vec<Owed<'p>>,
    given: &[Given<'p>],
    op: Op,
    whole: &'p Expr,
    left: &'p Expr,
    right: &'p Expr,
) -> Result<(), AllocError>
    ensures { OnOk result (map seen_owed out.new.items ≡ map seen_owed out.old.items
        ++ dues.operator_due (map seen_given given.now) op (expression_of whole.entry.now) (expression_of left.entry.now) (expression_of right.entry.now)) }
{
    match op {
        Op::Add => push(alloc, out, given, Goal::InRange(whole)),
        Op::Sub => push(alloc, out, given, Goal::InRange(whole)),
        Op::Mul => push(alloc, out, given, Goal::InRange(whole)),
        Op::Div => push_quotient(alloc, out, given, left, right),
        Op::Rem => push_quotient(alloc, out, given, left, right),
        Op::Lt => Ok(()),
        Op::Le => Ok(()),
        Op::Gt => Ok(()),
        Op::Ge => Ok(()),
        Op::Eq => Ok(()),
        Op::Ne => Ok(()),
        Op::And => Ok(()),
        Op::Or => Ok(()),
    }
}

fn with_given<'p>(mut given: Vec<Given<'p>>, more: Given<'p>) -> Result<Vec<Given<'p>>, AllocError>
    ensures { IfOk result (λ all. map seen_given all.items ≡ map seen_given given.entry.items ++ (seen_given more.entry ∷ [])) }
{
    given.push(more)?;
    Ok(given)
}

// What is given where an operator's right operand is evaluated.
fn given_right<'p>(
    alloc: Global,
    given: &[Given<'p>],
    op: Op,
    left: &'p Expr,
) -> Result<Vec<Given<'p>>, AllocError>
    ensures { IfOk result (λ all. map seen_given all.items ≡ dues.given_right (map seen_given given.now) op (expression_of left.entry.now)) }
{
    let all = Vec::from_slice(alloc, given)?;
    match op {
        Op::And => with_given(all, Given::Holds(left)),
        Op::Or => with_given(all, Given::Fails(left)),
        Op::Mul => Ok(all),
        Op::Div => Ok(all),
        Op::Rem => Ok(all),
        Op::Add => Ok(all),
        Op::Sub => Ok(all),
        Op::Lt => Ok(all),
        Op::Le => Ok(all),
        Op::Gt => Ok(all),
        Op::Ge => Ok(all),
        Op::Eq => Ok(all),
        Op::Ne => Ok(all),
    }
}

fn gather<'p>(
    alloc: Global,
    out: &mut Vec<Owed<'p>>,
    given: &[Given<'p>],
    expr: &'p Expr,
) -> Result<(), AllocError>
    ensures { OnOk result (map seen_owed out.new.items ≡ map seen_owed out.old.items
        ++ dues.due (map seen_given given.now) (expression_of expr.entry.now)) }
{
    match expr {
        Expr::Lit(_) => Ok(()),
        Expr::Var(_) => Ok(()),
        Expr::FunRef(_) => Ok(()),
        Expr::Null => Ok(()),
        Expr::Elem(array, index) => {
            gather(alloc, out, given, index.get())?;
            push(alloc, out, given, Goal::Within(array, index.get()))
        }
        Expr::Neg(operand) => {
            gather(alloc, out, given, operand.get())?;
            push(alloc, out, given, Goal::InRange(expr))
        }
        Expr::Not(operand) => gather(alloc, out, given, operand.get()),
        Expr::Bin(op, left, right) => {
            gather(alloc, out, given, left.get())?;
            let behind = given_right(alloc, given, *op, left.get())?;
            gather(alloc, out, &behind, right.get())?;
            push_operator(alloc, out, given, *op, expr, left.get(), right.get())
        }
    }
}

/// The conditions that an expression owes, in the order of evaluation. The only error is want of memory.
pub fn own<'p>(alloc: Global, expr: &'p Expr) -> Result<Vec<Owed<'p>>, AllocError>
    ensures { IfOk result (λ all. (n : Numbers) → formulas n all.items ≡ spec.own n (expression_of expr.entry.now)) }
{
    let mut all = Vec::new(alloc);
    gather(alloc, &mut all, &[], expr)?;
    Ok(all)
}

fn gather_all<'p>(alloc: Global, exprs: &'p [Expr]) -> Result<Vec<Owed<'p>>, AllocError>
    ensures { IfOk result (λ all. map seen_owed all.items ≡ flat_map (dues.due []) (map expression_of exprs.entry.now)) }
{
    let mut all = Vec::new(alloc);
    for expr in exprs {
        gather(alloc, &mut all, &[], expr)?;
    }
    Ok(all)
}

/// The conditions that expressions owe one after the other. The only error is want of memory.
pub fn own_all<'p>(alloc: Global, exprs: &'p [Expr]) -> Result<Vec<Owed<'p>>, AllocError>
    ensures { IfOk result (λ all. (n : Numbers) → formulas n all.items ≡ spec.own_all n (map expression_of exprs.entry.now)) }
{
    gather_all(alloc, exprs)
}

/// The conditions that an assignment to an array's element owes: the index's, the value's, and that the index
/// is one of the array's. The only error is want of memory.
pub fn own_element<'p>(
    alloc: Global,
    array: &'p Name,
    index: &'p Expr,
    value: &'p Expr,
) -> Result<Vec<Owed<'p>>, AllocError>
    ensures { IfOk result (λ all. (n : Numbers) → formulas n all.items
        ≡ spec.own_element n array.entry.now (expression_of index.entry.now) (expression_of value.entry.now)) }
{
    let mut all = Vec::new(alloc);
    gather(alloc, &mut all, &[], index)?;
    gather(alloc, &mut all, &[], value)?;
    push(alloc, &mut all, &[], Goal::Within(array, index))?;
    Ok(all)
}

//! Conditions of one kind, one after the other.

ghost use Rattle.std.specs.Prelude.{◌≡◌, ◌∷◌, [], IfOk, OnOk, map};
ghost use Rattle.terms.specs.declared.fact.Fact.TheVariants as fact;
ghost use Rattle.expression_conditions.specs.Numbers.{numbers_in};
ghost use Rattle.expression_conditions.specs.Code.Due.{given_form, due_owed};
ghost use Rattle.expression_conditions.specs.Code.Seen.{seen_given, seen_owed, formulas};
ghost use Rattle.loop_invariants.specs.Binding.{BindsBound};
ghost use Rattle.weakest_preconditions.specs.Wp.{owed_at, goal_of, goals};
ghost use Rattle.symbolic_state.specs.Steps.{finished};
ghost use Rattle.wp_conditions.specs.Code.Growing.{pushed, grown};

use crate::made::Made;
use c_lang::Pos;
use condition_sorts::Sorts;
use expression_conditions::{Given, Owed};
use loop_invariants::Facts;
use name_tables::ProgramNames;
use std::alloc::{AllocError, Global};
use symbolic_state::SymbolicState;
use terms::{Fact, Form, Label, What};

// What is given, as forms.
fn forms_of(
    alloc: Global,
    names: &ProgramNames<'_>,
    given: &[Given<'_>],
) -> Result<Vec<Form>, AllocError>
    ensures { IfOk result (λ forms. forms.items ≡ map (given_form (numbers_in names.now)) (map seen_given given.now)) }
{
    let mut forms = Vec::new(alloc);
    for form in given {
        forms.push(form.form(alloc, names)?)?;
    }
    Ok(forms)
}

// The condition that an expression owes at this position.
fn put_one(
    alloc: Global,
    sorts: &Sorts<'_>,
    state: &SymbolicState,
    made: &mut Made,
    pos: Pos,
    owed: &Owed<'_>,
) -> Result<(), AllocError>
    ensures { OnOk result (made.new ≡ pushed sorts.now.0 sorts.now.1 made.old
        (finished state.now (owed_at pos (due_owed (numbers_in sorts.now.0) (seen_owed owed.now))))) }
{
    let hyps = forms_of(alloc, sorts.names(), owed.given.as_slice())?;
    let goal = Fact::Plain(owed.goal.form(alloc, sorts.names())?);
    let what = owed.goal.what();
    made.add(alloc, sorts, state, &hyps, &goal, Label { pos, what })
}

/// The conditions that an expression owes at this position. The only error is want of memory.
pub(crate) fn put_owed(
    alloc: Global,
    sorts: &Sorts<'_>,
    state: &SymbolicState,
    made: &mut Made,
    pos: Pos,
    all: &[Owed<'_>],
) -> Result<(), AllocError>
    ensures { OnOk result (made.new ≡ grown sorts.now.0 sorts.now.1 made.old
        (map (finished state.now) (map (owed_at pos) (formulas (numbers_in sorts.now.0) all.now)))) }
{
    for owed in all {
        put_one(alloc, sorts, state, made, pos, owed)?;
    }
    Ok(())
}

/// That the form holds at this position. The only error is want of memory.
pub(crate) fn put_form(
    alloc: Global,
    sorts: &Sorts<'_>,
    state: &SymbolicState,
    made: &mut Made,
    label: Label,
    form: Form,
) -> Result<(), AllocError>
    ensures { OnOk result (made.new ≡ pushed sorts.now.0 sorts.now.1 made.old
        (finished state.now (goal_of label.pos label.what (fact.Plain form)))) }
{
    made.add(alloc, sorts, state, &[], &Fact::Plain(form), label)
}

/// That each of the facts holds at this position. The only error is want of memory.
pub(crate) fn put_goals(
    alloc: Global,
    sorts: &Sorts<'_>,
    state: &SymbolicState,
    made: &mut Made,
    label: Label,
    facts: &Facts<'_>,
) -> Result<(), AllocError>
    ensures { OnOk result (made.new ≡ grown sorts.now.0 sorts.now.1 made.old
        (map (finished state.now) (goals label.pos label.what facts.now))) }
{
    for goal in facts.as_slice() {
        made.add(alloc, sorts, state, &[], goal, label)?;
    }
    Ok(())
}

ghost use Rattle.std.specs.Prelude.{◌≡◌, ◌++◌, IfOk, OnOk, flat_map};
ghost use Rattle.c_lang.specs.Names.{Bytes};
ghost use Rattle.c_lang.specs.declared.program.GlobalVar.{GlobalVar};
ghost use Rattle.loop_invariants.specs.Binding.{BindsBound};
ghost use Rattle.weakest_preconditions.specs.Conditions.{known_elements, initial_condition};
ghost use Rattle.initial_conditions.specs.Code.Arrays.{has, mentions_array};
ghost use Rattle.symbolic_state.specs.Steps.{without_sorts};

use crate::arrays::mentioned_arrays;
use crate::elements::put_elements;
use crate::numbers::fact_at_start;
use c_lang::{GlobalVar, Pos, Shape};
use name_tables::{NameTable, ProgramNames};
use sqlite_items::Items;
use std::alloc::{AllocError, Global};
use terms::{Fact, Label, Sequent, What};

// Puts what is known of the global, if it is an array of which the fact speaks.
fn put_known(
    alloc: Global,
    out: &mut Vec<Fact>,
    mentioned: &NameTable<'_, bool>,
    global: &GlobalVar,
) -> Result<(), AllocError>
    ensures { OnOk result ((f : Fact) → ((x : Bytes) → has mentioned.now x ≡ mentions_array f x)
        → out.new.items ≡ out.old.items ++ known_elements f global.now.name global.now.shape) }
{
    match &global.shape {
        Shape::Int(_) => Ok(()),
        Shape::Arr(elements) => {
            if mentioned.get(&global.name).is_some() {
                put_elements(alloc, out, &global.name, elements.as_slice())
            } else {
                Ok(())
            }
        }
        Shape::Fp(_, _) => Ok(()),
    }
}

// What is known of the arrays of which the fact speaks.
fn known(alloc: Global, globals: &[GlobalVar], fact: &Fact) -> Result<Vec<Fact>, AllocError>
    ensures { IfOk result (λ made.
        made.items ≡ flat_map (λ (g : GlobalVar). known_elements fact.now g.name g.shape) globals.now) }
{
    let mentioned = mentioned_arrays(alloc, fact)?;
    let mut out = Vec::new(alloc);
    for global in globals {
        put_known(alloc, &mut out, &mentioned, global)?;
    }
    Ok(out)
}

/// The condition that the fact holds at the start of the program, as a sequent without sorts. The only error is want of
/// memory.
pub fn initial_condition(
    alloc: Global,
    names: &ProgramNames<'_>,
    pos: Pos,
    fact: &Fact,
) -> Result<Sequent, AllocError>
    requires { BindsBound fact.now }
    ensures { IfOk result (λ made. made ≡ without_sorts (initial_condition names.now pos fact.now)) }
{
    let hyps = known(alloc, names.program().globals.as_slice(), fact)?;
    let goal = fact_at_start(alloc, names, fact)?;
    Ok(Sequent {
        sorts: Items::new(alloc),
        hyps: Items::from_vec(hyps),
        goal,
        label: Label {
            pos,
            what: What::Initial,
        },
    })
}

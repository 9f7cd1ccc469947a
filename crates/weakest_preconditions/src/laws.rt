//! What the definitions of the list have in common. The functions do nothing: each contract is a law.
ghost use Rattle.std.specs.Prelude.{◌≡◌, List, length};
ghost use Rattle.c_lang.specs.Names.{Bytes};
ghost use Rattle.terms.specs.declared.changes.Changes.{Changes};
ghost use Rattle.terms.specs.declared.fact.Fact.{Fact};
ghost use Rattle.terms.specs.Replacing.{Change, replaced_fact};
ghost use Rattle.weakest_preconditions.specs.Annotated.{Body};
ghost use Rattle.loop_invariants.specs.Binding.{BindsBound, KeepsBound};
ghost use Rattle.weakest_preconditions.specs.Changing.{change, composed};
ghost use Rattle.loop_invariants.specs.Context.{Context};
ghost use Rattle.weakest_preconditions.specs.Counted.{counted_all};
ghost use Rattle.weakest_preconditions.specs.Wp.{Condition, wp_all};
ghost use Rattle.weakest_preconditions.specs.Code.Walk.{Maker, Makes, walk_all};

/// The list that is made from the front, where each condition is finished when it is made, is the list that is
/// defined from the end.
#[tactic(auto, using(crate::proofs::Walked::walked_all))]
pub fn made_from_the_front()
    ensures { (c : Context) (func : Bytes) (body : Body) (next brk : Maker) (after outside : List Condition) →
        Makes next after → Makes brk outside →
        Makes (walk_all c func body next brk) (wp_all c func body after outside) }
{}

/// Two changes of which neither touches the bound number, one around the other, are one change, on each fact that
/// binds no other number. Every change of the list is such a one.
#[tactic(auto, using(crate::proofs::Composed::fact_twice, crate::proofs::Composed::change_keeps))]
pub fn changes_are_composed()
    ensures twice { (outer inner : Change) (fact : Fact) → KeepsBound outer → KeepsBound inner → BindsBound fact →
        replaced_fact outer (replaced_fact inner fact) ≡ replaced_fact (composed outer inner) fact }
    ensures kept { (changes : Changes) → KeepsBound (change changes) }
{}

/// The count, which goes through a body once whatever the number of its paths, is the length of the list.
#[tactic(auto, using(crate::proofs::CountLaws::counted_all_is))]
pub fn count_is_length()
    ensures { (c : Context) (func : Bytes) (body : Body) (after outside : List Condition) →
        length (wp_all c func body after outside) ≡ counted_all c func body (length after) (length outside) }
{}

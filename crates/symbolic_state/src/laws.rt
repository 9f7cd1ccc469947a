//! What finished conditions are, all steps taken together. The functions do nothing: each contract is a law.
ghost use Rattle.std.specs.Prelude.{◌≡◌, ℕ, List, ◌∷◌, length, Some};
ghost use Rattle.c_lang.specs.Names.{Bytes};
ghost use Rattle.terms.specs.declared.sym.Sym.{Sym};
ghost use Rattle.terms.specs.declared.node.Node.{Node};
ghost use Rattle.terms.specs.declared.node.NodeKind.TheVariants as kind;
ghost use Rattle.terms.specs.Trees.{TermTree, ArrayTree};
ghost use Rattle.terms.specs.Nodes.{node, term_nodes, array_nodes};
ghost use Rattle.terms.specs.Replacing.{Change, replaced_term, replaced_array};
ghost use Rattle.loop_invariants.specs.Binding.{BindsBound};
ghost use Rattle.weakest_preconditions.specs.Wp.{Condition};
ghost use Rattle.symbolic_state.specs.declared.step.Step.{Step};
ghost use Rattle.symbolic_state.specs.declared.bindings.Binding.{Binding};
ghost use Rattle.symbolic_state.specs.Steps.{finished};
ghost use Rattle.symbolic_state.specs.Code.Bindings.{latest, bound, unbound};
ghost use Rattle.symbolic_state.specs.Code.Writing.{written};
ghost use Rattle.symbolic_state.specs.Code.Values.{as_numbers, as_arrays, number_in, array_in, Source, HasValues, IsFound};
ghost use Rattle.symbolic_state.specs.Code.Joined.{change_of, AllBindBound, GivesBound, joined};

/// All steps together are one change and the facts that they give, where each fact binds no number but `$`.
#[tactic(auto, using(crate::proofs::FinishedLaws::finished_is))]
pub fn finished_is_joined()
    ensures { (steps : List Step) (s : Condition) → GivesBound steps → AllBindBound s.hyps → BindsBound s.goal →
        finished steps s ≡ joined steps s }
{}

/// The latest value that a name got before a step is what the name stands for there, as a number and as an array.
#[tactic(auto, using(crate::proofs::KindLaws::latest_number, crate::proofs::KindLaws::latest_array))]
pub fn latest_value_counts()
    ensures numbers { (steps : List Step) (x : Bytes) (bs : List Binding) (t : ℕ) →
        HasValues as_numbers steps x bs → IsFound as_numbers steps x t (latest t bs) }
    ensures arrays { (steps : List Step) (x : Bytes) (bs : List Binding) (t : ℕ) →
        HasValues as_arrays steps x bs → IsFound as_arrays steps x t (latest t bs) }
{}

/// While a finished formula is written, the nodes of what a name stands for come next, in place of the name.
pub fn values_are_written_next()
    ensures numbers { (c d : Change) (out rest : List Node) (x : Sym) (n : ℕ) (frames : List (Change × List Node)) (t : TermTree) →
        c.number x ≡ replaced_term d t →
        written out ((c, node (kind.Of x) n ∷ rest) ∷ frames) ≡ written out ((d, term_nodes t) ∷ ((c, rest) ∷ frames)) }
    ensures arrays { (c d : Change) (out rest : List Node) (x : Sym) (n : ℕ) (frames : List (Change × List Node)) (a : ArrayTree) →
        c.array x ≡ replaced_array d a →
        written out ((c, node (kind.Base x) n ∷ rest) ∷ frames) ≡ written out ((d, array_nodes a) ∷ ((c, rest) ∷ frames)) }
{}

/// A step that is taken back takes its value of each name with it.
pub fn values_are_taken_back()
    ensures numbers { (s : Step) (steps : List Step) (x : Bytes) (bs : List Binding) →
        HasValues as_numbers (s ∷ steps) x bs → HasValues as_numbers steps x (unbound (length steps) bs) }
    ensures arrays { (s : Step) (steps : List Step) (x : Bytes) (bs : List Binding) →
        HasValues as_arrays (s ∷ steps) x bs → HasValues as_arrays steps x (unbound (length steps) bs) }
{}

/// The first value that a new step gives a name is the name's latest one.
pub fn values_are_added()
    ensures numbers { (s : Step) (steps : List Step) (x : Bytes) (bs : List Binding) (b : Binding) (t : TermTree) →
        number_in x s ≡ Some t → b.step ≡ length steps →
        Source as_numbers (s ∷ steps) b (as_numbers.at (change_of (s ∷ steps)) x) →
        HasValues as_numbers steps x bs → HasValues as_numbers (s ∷ steps) x (bound bs b) }
    ensures arrays { (s : Step) (steps : List Step) (x : Bytes) (bs : List Binding) (b : Binding) (a : ArrayTree) →
        array_in x s ≡ Some a → b.step ≡ length steps →
        Source as_arrays (s ∷ steps) b (as_arrays.at (change_of (s ∷ steps)) x) →
        HasValues as_arrays steps x bs → HasValues as_arrays (s ∷ steps) x (bound bs b) }
{}

ghost use Rattle.std.specs.Prelude.{◌≡◌, ◌<◌, ◌+◌, ◌++◌, List, [], ◌∷◌, map, length, drop, All, IfOk, OnOk};
ghost use Rattle.terms.specs.declared.fact.Fact.TheVariants.{Plain};
ghost use Rattle.terms.specs.Replacing.{change_in, replaced_fact};
ghost use Rattle.terms.specs.Sizes.{sequent_size};
ghost use Rattle.loop_invariants.specs.Binding.{BindsBound, KeepsBound};
ghost use Rattle.weakest_preconditions.specs.Changing.{change, setting, storing, renewing, passing, returning, entering};
ghost use Rattle.loop_invariants.specs.EntryNames.{result_base};
ghost use Rattle.symbolic_state.specs.declared.step.Step.TheVariants as step;
ghost use Rattle.symbolic_state.specs.Code.Values.{IsCurrent, IsBindingOf};
ghost use Rattle.symbolic_state.specs.Code.Joined.{given_of, given_first, GivesBound};
ghost use Rattle.symbolic_state.specs.Code.Room.{UpTo, IsPut};
ghost use Rattle.symbolic_state.specs.Code.Writing.{NumberAt, ArrayAt, change_at, finished_forms};
ghost use Rattle.symbolic_state.specs.Steps.{finished, assumed, outermost, owed, without_sorts, IsMadeWithin};

use crate::Step;
use crate::bindings::{Binding, Bindings};
use crate::gathered::Gathered;
use crate::pairs::{add_changes, add_value, array_at, current_value, forget, is_bound, number_at};
use crate::writing::{finished_fact, put_fact, put_forms};
use c_lang::{Func, Name, Program};
use name_changes::{changed_fact, entering, passing, renewing, returning, setting, storing};
use name_tables::ProgramNames;
use sqlite_items::Items;
use std::alloc::{AllocError, Global};
use std::marker::Model;
use terms::{Changes, Fact, Form, Label, Node, Sequent, Sym, Term};

/// What stands round a condition, which contracts see as steps, the innermost first. Every method that changes it
/// adds steps, but for `cut_back`. The only error is want of memory, and after it nothing is known of the steps.
pub struct SymbolicState {
    steps: Vec<Step>,
    numbers: Bindings,
    arrays: Bindings,
}

// By hand, so that a proof has one step for each that is dropped.
impl Drop for SymbolicState {
    fn drop(self) {
        let SymbolicState {
            steps: _steps,
            numbers: _numbers,
            arrays: _arrays,
        } = self;
    }
}

impl Model for SymbolicState {
    ghost use Rattle.std.specs.Prelude.{List, reverse};
    ghost use Rattle.std.specs.Coded.{coded_list, codes};
    ghost use Rattle.symbolic_state.specs.declared.step.Step.{Step};
    ghost use Rattle.symbolic_state.specs.contracts.step.Step as the_step;

    ghost Value = { List Step };

    ghost coded = { Prim.hlevel (codes, the_step.the_row.coded) };

    ghost use Rattle.symbolic_state.specs.Code.Bindings.{values_of};
    ghost use Rattle.symbolic_state.specs.Code.Values.{HasTables};

    ghost view = { λ s. reverse s.steps.items };

    ghost invariant = { λ s. HasTables (reverse s.steps.items) (values_of s.numbers) (values_of s.arrays) };
}

impl SymbolicState {
    /// Nothing stands round a condition. It takes no memory.
    pub fn new(alloc: Global) -> SymbolicState
        ensures { result ≡ [] }
    {
        SymbolicState {
            steps: Vec::new(alloc),
            numbers: Bindings::new(alloc),
            arrays: Bindings::new(alloc),
        }
    }

    // Adds a step in which names are replaced.
    fn replace(&mut self, alloc: Global, changes: Changes) -> Result<(), AllocError>
        requires { IsCurrent changes }
        ensures { OnOk result (self.new ≡ step.Replaces changes ∷ self.old) }
    {
        match add_changes(
            alloc,
            &mut self.steps,
            &mut self.numbers,
            &mut self.arrays,
            changes,
        ) {
            Ok(()) => Ok(()),
            Err(_) => {
                self.steps.clear();
                self.numbers = Bindings::new(alloc);
                self.arrays = Bindings::new(alloc);
                Err(AllocError)
            }
        }
    }

    // Adds a step in which a fact is given.
    fn given(&mut self, fact: Fact) -> Result<(), AllocError>
        requires { BindsBound fact }
        ensures { OnOk result (self.new ≡ step.Assumes fact ∷ self.old) }
    {
        self.steps.push(Step::Assumes(fact))?;
        Ok(())
    }

    // Where the value stands that a name gets next. Where it is another name that has got a value, it is the place of
    // that value, so that nothing goes from name to name to find it.
    fn next_binding(&self, value: &Term) -> Binding
        ensures { IsBindingOf self.now value.now result }
    {
        let step = self.steps.len();
        let own = Binding {
            step,
            source: step,
            pair: 0,
        };
        let Some(symbol) = current_value(value) else {
            return own;
        };
        match self.numbers.latest(&symbol.base, step) {
            Some(found) => Binding {
                step,
                source: found.source,
                pair: found.pair,
            },
            None => own,
        }
    }

    /// From here on the name's current value is the given one. The only error is want of memory.
    pub fn set(&mut self, alloc: Global, name: &Name, value: &Term) -> Result<(), AllocError>
        ensures { OnOk result (self.new ≡ step.Replaces (setting name.now value.now) ∷ self.old) }
    {
        let binding = self.next_binding(value);
        let changes = setting(alloc, name, value)?;
        match add_value(
            alloc,
            &mut self.steps,
            &mut self.numbers,
            name,
            binding,
            changes,
        ) {
            Ok(()) => Ok(()),
            Err(_) => {
                self.steps.clear();
                self.numbers = Bindings::new(alloc);
                self.arrays = Bindings::new(alloc);
                Err(AllocError)
            }
        }
    }

    /// From here on the result of a function has this value. The only error is want of memory.
    pub fn set_result(&mut self, alloc: Global, value: &Term) -> Result<(), AllocError>
        ensures { OnOk result (self.new ≡ step.Replaces (setting result_base value.now) ∷ self.old) }
    {
        let name = Name::new(alloc, b"$r")?;
        self.set(alloc, &name, value)
    }

    /// From here on the current array has the value at the index. The only error is want of memory.
    pub fn store(
        &mut self,
        alloc: Global,
        array: &Name,
        index: &Term,
        value: &Term,
    ) -> Result<(), AllocError>
        ensures { OnOk result (self.new ≡ step.Replaces (storing array.now index.now value.now) ∷ self.old) }
    {
        self.replace(alloc, storing(alloc, array, index, value)?)
    }

    /// From here on each of these names stands for the current value of its base. The only error is want of memory.
    pub fn renew(&mut self, alloc: Global, fresh: &[Sym]) -> Result<(), AllocError>
        ensures { OnOk result (self.new ≡ step.Replaces (renewing fresh.now) ∷ self.old) }
    {
        self.replace(alloc, renewing(alloc, fresh)?)
    }

    /// The function's body begins: each global and each parameter at entry is what it is now. The only error is want
    /// of memory.
    pub fn enter(&mut self, alloc: Global, program: &Program, func: &Func) -> Result<(), AllocError>
        ensures { OnOk result (self.new
            ≡ step.Replaces (entering (map (λ g. g.name) program.now.globals) (map (λ p. p.1) func.now.params)) ∷ self.old) }
    {
        self.replace(alloc, entering(alloc, program, func)?)
    }

    /// From here on the parameters at entry have these values. The only error is want of memory.
    pub fn pass(&mut self, alloc: Global, args: &[Term]) -> Result<(), AllocError>
        ensures { OnOk result (self.new ≡ step.Replaces (passing args.now) ∷ self.old) }
    {
        self.replace(alloc, passing(alloc, args)?)
    }

    /// The fact is given. The only error is want of memory.
    pub fn assume(&mut self, alloc: Global, fact: &Fact) -> Result<(), AllocError>
        requires { BindsBound fact.now }
        ensures { OnOk result (self.new ≡ step.Assumes fact.now ∷ self.old) }
    {
        self.given(fact.copy(alloc)?)
    }

    /// The facts are given, one after the other. The only error is want of memory.
    pub fn assume_all(&mut self, alloc: Global, facts: &[Fact]) -> Result<(), AllocError>
        requires { All BindsBound facts.now }
        ensures { OnOk result (self.new ≡ assumed facts.now self.old) }
    {
        for fact in facts {
            self.assume(alloc, fact)?;
        }
        Ok(())
    }

    /// The form is given. The only error is want of memory.
    pub fn assume_form(&mut self, form: Form) -> Result<(), AllocError>
        ensures { OnOk result (self.new ≡ step.Assumes (Plain form) ∷ self.old) }
    {
        self.given(Fact::Plain(form))
    }

    // The facts are given, one after the other, in which names are replaced.
    fn assume_changed(
        &mut self,
        alloc: Global,
        facts: &[Fact],
        by: &Changes,
    ) -> Result<(), AllocError>
        requires facts { All BindsBound facts.now }
        requires by { KeepsBound (change_in by.now) }
        ensures { OnOk result (self.new ≡ assumed (map (replaced_fact (change_in by.now)) facts.now) self.old) }
    {
        for fact in facts {
            self.given(changed_fact(alloc, fact, by)?)?;
        }
        Ok(())
    }

    /// A call has come to its end: what its function promises is given, one fact after the other, where its
    /// parameters at entry had these values, and its result and its cells have fresh names. The names of results and
    /// cells change by `renew`. The only error is want of memory.
    pub fn promise(
        &mut self,
        alloc: Global,
        program: &ProgramNames,
        args: &[Term],
        outcome: &[Sym],
        cells: &[Sym],
        promises: &[Fact],
    ) -> Result<(), AllocError>
        requires { All BindsBound promises.now }
        ensures { OnOk result (self.new ≡ assumed
            (map (replaced_fact (change (returning (map (λ g. g.name) program.now.globals) args.now outcome.now cells.now))) promises.now)
            self.old) }
    {
        if promises.is_empty() {
            return Ok(());
        }
        let by = returning(alloc, program.program(), args, outcome, cells)?;
        self.assume_changed(alloc, promises, &by)
    }

    /// How many steps there are. It takes no memory.
    pub fn mark(&self) -> usize
        ensures { result ≡ length self.now }
    {
        self.steps.len()
    }

    /// Takes back all steps but the first `mark` that were made. It takes no memory.
    pub fn cut_back(&mut self, mark: usize)
        ensures { self.new ≡ outermost mark self.old }
    {
        while self.mark() > mark {
            self.take_back();
        }
    }

    // Takes back the last step.
    fn take_back(&mut self)
        ensures { self.new ≡ drop 1 self.old }
    {
        if let Some(step) = self.steps.pop() {
            let number = self.steps.len();
            forget(&step, number, &mut self.numbers, &mut self.arrays);
        }
    }

    // Each fact that a step gives binds the one bound name.
    fn gives_bound(&self)
        ensures { GivesBound self.now }
    {
        let _steps = self.steps.as_slice();
    }

    // Adds what is given, and these forms, with what their names stand for, and answers whether there was room.
    fn put_hyps(
        &self,
        alloc: Global,
        gathered: &mut Gathered,
        hyps: &[Form],
    ) -> Result<bool, AllocError>
        ensures { IfOk result (λ done. IsPut gathered.old gathered.new
            (given_of self.now ++ finished_forms (change_at self.now (length self.now)) hyps.now) done) }
    {
        if !self.put_given(alloc, gathered)? {
            return Ok(false);
        }
        put_forms(self, alloc, gathered, hyps, self.mark())
    }

    // The condition with all that stands round it, or nothing where it is larger than the room.
    fn whole(
        &self,
        alloc: Global,
        hyps: &[Form],
        goal: &Fact,
        label: Label,
        room: u64,
    ) -> Result<Option<Sequent>, AllocError>
        requires { BindsBound goal.now }
        ensures { IfOk result (λ made. UpTo room (sequent_size (without_sorts (finished self.now (owed hyps.now goal.now label))))
            (without_sorts (finished self.now (owed hyps.now goal.now label))) made) }
    {
        self.gives_bound();
        let mut gathered = Gathered::new(alloc, room);
        if !self.put_hyps(alloc, &mut gathered, hyps)? {
            return Ok(None);
        }
        let Some(goal) = finished_fact(self, alloc, goal, self.mark(), gathered.left)? else {
            return Ok(None);
        };
        Ok(Some(Sequent {
            sorts: Items::new(alloc),
            hyps: Items::from_vec(gathered.into_facts()),
            goal,
            label,
        }))
    }

    /// The goal under these hypotheses, with all that stands round it, as a sequent without sorts; or nothing where
    /// it is larger than `room`. The only error is want of memory, which a sequent of 2^64 - 1 facts, forms, terms
    /// and arrays or more is, too.
    pub fn finish(
        &self,
        alloc: Global,
        hyps: &[Form],
        goal: &Fact,
        label: Label,
        room: u64,
    ) -> Result<Option<Sequent>, AllocError>
        requires { BindsBound goal.now }
        ensures { IfOk result (λ made. IsMadeWithin room (without_sorts (finished self.now (owed hyps.now goal.now label))) made) }
    {
        match self.whole(alloc, hyps, goal, label, room)? {
            Some(made) => within(made, room),
            None => Ok(None),
        }
    }

    // The nodes of what a name stands for as a number, and how many steps count for them.
    pub(crate) fn number_value(&self, symbol: &Sym, time: usize) -> Option<(&[Node], usize)>
        ensures { NumberAt self.now time symbol.now result }
    {
        let steps = self.steps.as_slice();
        if symbol.count != 0 {
            return None;
        }
        if is_bound(symbol) {
            return None;
        }
        let Some(binding) = self.numbers.latest(&symbol.base, time) else {
            return None;
        };
        let Some(value) = number_at(steps, binding.source, binding.pair) else {
            return None;
        };
        Some((value.nodes(), binding.source))
    }

    // The nodes of what a name stands for as an array, and how many steps count for them.
    pub(crate) fn array_value(&self, symbol: &Sym, time: usize) -> Option<(&[Node], usize)>
        ensures { ArrayAt self.now time symbol.now result }
    {
        let steps = self.steps.as_slice();
        if symbol.count != 0 {
            return None;
        }
        let Some(binding) = self.arrays.latest(&symbol.base, time) else {
            return None;
        };
        let Some(value) = array_at(steps, binding.source, binding.pair) else {
            return None;
        };
        Some((value.nodes(), binding.source))
    }

    // Adds the fact that the step with this number gives, with what its names stand for there, and answers whether
    // there was room.
    fn give(
        &self,
        alloc: Global,
        number: usize,
        gathered: &mut Gathered,
    ) -> Result<bool, AllocError>
        requires { number < length self.now }
        ensures { IfOk result (λ done. IsPut gathered.old gathered.new (given_first (outermost (number + 1) self.now)) done) }
    {
        match &self.steps[number] {
            Step::Replaces(_) => Ok(true),
            Step::Assumes(fact) => put_fact(self, alloc, gathered, fact, number),
        }
    }

    // Adds the facts that the steps give, with what their names stand for, and answers whether there was room.
    fn put_given(&self, alloc: Global, gathered: &mut Gathered) -> Result<bool, AllocError>
        ensures { IfOk result (λ done. IsPut gathered.old gathered.new (given_of self.now) done) }
    {
        let mut number = 0;
        while number < self.mark() {
            if !self.give(alloc, number, gathered)? {
                return Ok(false);
            }
            number += 1;
        }
        Ok(true)
    }
}

// The sequent, if it isn't larger than the room.
fn within(sequent: Sequent, room: u64) -> Result<Option<Sequent>, AllocError>
    ensures { IfOk result (λ made. IsMadeWithin room sequent made) }
{
    let size = sequent.size() as u64;
    if size == u64::MAX {
        return Err(AllocError);
    }
    if size <= room {
        Ok(Some(sequent))
    } else {
        Ok(None)
    }
}

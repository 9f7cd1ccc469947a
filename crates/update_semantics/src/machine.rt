//! The machine of updating runs.

ghost use Rattle.std.specs.Prelude.{◌≡◌, ◌≤◌, IfOk, OnErr, IsErrOf};
ghost use Rattle.c_lang.specs.Limits.{frame_limit};
ghost use Rattle.plain_run.specs.Runs.{frame_count, IsTooDeep, Makes};
ghost use Rattle.update_semantics.specs.Rules.{rules_of};
ghost use Rattle.update_semantics.specs.UpdatingRun.{start_updating};
ghost use Rattle.update_semantics.specs.Worlds.{world_of};

use crate::environment::UpdatedNames;
use crate::world::World;
use plain_run::{Answers, Run, RunError, Step};
use std::alloc::{AllocError, Global};

/// A run of a world's old program or of its client, which is updated to the new one once at most. Contracts see its
/// configuration as `config_of`, and the rules of its world as `rules_in`.
pub struct UpdMachine<'p> {
    run: Run<'p, UpdatedNames<'p>>,
}

impl Drop for UpdMachine<'_> {
    fn drop(self) {
        let UpdMachine { run } = self;
        let Run { environment, stack } = run;
        drop(environment);
        drop(stack);
    }
}

impl<'p> UpdMachine<'p> {
    ghost use Rattle.plain_run.specs.declared.step.RunError.TheVariants as RunError;
    ghost use Rattle.update_semantics.specs.Machines.{config_of, rules_in, move_of};

    /// The machine at the start of the world's run: the old version is current, its globals have their
    /// initial values, and its `main` is called, or the client's function, where there is a client. The
    /// only error is want of memory.
    pub fn new(alloc: Global, world: &'p World) -> Result<UpdMachine<'p>, AllocError>
        ensures config { IfOk result (λ machine. config_of machine ≡ start_updating (world_of world.entry.now)) }
        ensures rules { IfOk result (λ machine. rules_in machine ≡ rules_of (world_of world.entry.now)) }
    {
        let names = UpdatedNames::new(alloc, world)?;
        let entry = names.entry();
        let run = Run::new(alloc, names, entry)?;
        Ok(UpdMachine { run })
    }

    /// Makes the next step of the run.
    ///
    /// `Step::Waiting` comes exactly where the statement takes an answer and none is left,
    /// `Step::Stopped` exactly where the run is over; then nothing changes. `RunError::Deep` comes
    /// exactly where the step would make one frame more than 10,000, as at a point that is answered
    /// with an update. After an error the machine and the answers are as before.
    pub fn step(&mut self, alloc: Global, answers: &mut Answers) -> Result<Step, RunError>
        ensures made { IfOk result (λ shown. Makes (move_of self.old)
            (config_of self.old) answers.old shown (config_of self.new) answers.new) }
        ensures depth { frame_count (config_of self.new) ≤ frame_limit }
        ensures deep { IsErrOf result RunError.Deep → IsTooDeep (move_of self.old) answers.old }
        ensures config { OnErr result (config_of self.new ≡ config_of self.old) }
        ensures answers { OnErr result (answers.new ≡ answers.old) }
        ensures rules { rules_in self.new ≡ rules_in self.old }
    {
        self.run.step(alloc, answers)
    }
}

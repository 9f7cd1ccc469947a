//! The machine of plain runs.

ghost use Rattle.std.specs.Prelude.{◌≡◌, ◌≤◌, IfOk, OnErr, IsErrOf};
ghost use Rattle.c_lang.specs.Limits.{frame_limit};
ghost use Rattle.plain_run.specs.PlainEnvironments.{plain_rules};
ghost use Rattle.plain_run.specs.PlainRun.{start};
ghost use Rattle.plain_run.specs.Runs.{frame_count, IsTooDeep, Makes};

use crate::answers::Answers;
use crate::plain::Plain;
use crate::run::Run;
use crate::step::{RunError, Step};
use c_types::Typed;
use std::alloc::{AllocError, Global};

/// A run of a program that knows no update. Contracts see its configuration as `config_of`, and the
/// rules of its program as `rules_in`.
pub struct Machine<'p> {
    run: Run<'p, Plain<'p>>,
}

impl Drop for Machine<'_> {
    fn drop(self) {
        let Machine { run } = self;
        let Run { environment, stack } = run;
        drop(environment);
        drop(stack);
    }
}

impl<'p> Machine<'p> {
    ghost use Rattle.plain_run.specs.Machines.{config_of, rules_in, move_of};

    /// The machine at the start of the program's run: the globals have their initial values, and
    /// `main` is called. The only error is want of memory.
    pub fn new(alloc: Global, program: &'p Typed) -> Result<Machine<'p>, AllocError>
        ensures config { IfOk result (λ machine. config_of machine ≡ start program.entry.now.program) }
        ensures rules { IfOk result (λ machine. rules_in machine ≡ plain_rules program.entry.now.program) }
    {
        let run = Plain::start(alloc, program)?;
        Ok(Machine { run })
    }

    /// Makes the next step of the run.
    ///
    /// `Step::Waiting` comes exactly where the statement takes an answer and none is left,
    /// `Step::Stopped` exactly where the run is over; then nothing changes. `RunError::Deep` comes
    /// exactly where the step would make one frame more than 10,000. After an error the machine and
    /// the answers are as before.
    pub fn step(&mut self, alloc: Global, answers: &mut Answers) -> Result<Step, RunError>
        ensures made { IfOk result (λ shown. Makes (move_of self.old)
            (config_of self.old) answers.old shown (config_of self.new) answers.new) }
        ensures depth { frame_count (config_of self.new) ≤ frame_limit }
        ensures deep { IsErrOf result RunError.Deep → IsTooDeep (move_of self.old) answers.old }
        ensures config { OnErr result (config_of self.new ≡ config_of self.old) }
        ensures answers { OnErr result (answers.new ≡ answers.old) }
        ensures rules { rules_in self.new ≡ rules_in self.old }
    {
        self.run.step(alloc, answers)
    }
}

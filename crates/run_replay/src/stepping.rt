//! Machines that make the steps of a run.

ghost use Rattle.std.specs.Prelude.{◌≡◌, ◌≤◌, ⊤, IfOk, IsErrOf};
ghost use Rattle.c_lang.specs.Limits.{frame_limit};
ghost use Rattle.plain_run.specs.Moves.{Move};
ghost use Rattle.plain_run.specs.Runs.{IsTooDeep, Makes, frame_count};
ghost use Rattle.plain_run.specs.Steps.{Config};

use plain_run::{Answers, Machine, RunError, Step};
use std::alloc::Global;
use update_semantics::UpdMachine;

/// A machine that makes the steps of a run. Contracts see its configuration, and the function that gives
/// each configuration's move, which stays.
pub(crate) trait Stepping: Drop {
    ghost F: { Type 0 };

    ghost G: { Type 0 };

    ghost O: { Type 0 };

    ghost next: { Self → Config F G O → Move (Config F G O) };

    ghost config: { Self → Config F G O };

    /// Makes the next step.
    fn advance(&mut self, alloc: Global, answers: &mut Answers) -> Result<Step, RunError>
        ensures made { IfOk result (λ shown. Makes (next self.old (config self.old))
            (config self.old) answers.old shown (config self.new) answers.new) }
        ensures depth { frame_count (config self.new) ≤ frame_limit }
        ensures deep { IsErrOf result RunError.Deep → IsTooDeep (next self.old (config self.old)) answers.old }
        ensures next { next self.new ≡ next self.old };
}

impl Stepping for Machine<'_> {
    ghost use Rattle.c_lang.specs.Names.{Bytes};
    ghost use Rattle.plain_run.specs.Machines.{config_of, rules_in};
    ghost use Rattle.plain_run.specs.PlainRun as plain;
    ghost use Rattle.plain_run.specs.Steps.{step_with};

    ghost F = { Bytes };

    ghost G = { plain.Store };

    ghost O = { ⊤ };

    ghost next = { λ m. step_with (rules_in m).access (rules_in m).special };

    ghost config = { config_of };

    fn advance(&mut self, alloc: Global, answers: &mut Answers) -> Result<Step, RunError> {
        self.step(alloc, answers)
    }
}

impl Stepping for UpdMachine<'_> {
    ghost use Rattle.version_names.specs.Home.{Linked};
    ghost use Rattle.version_names.specs.Provenance.{Provenance};
    ghost use Rattle.plain_run.specs.Steps.{step_with};
    ghost use Rattle.update_semantics.specs.Machines.{config_of, rules_in};
    ghost use Rattle.update_semantics.specs.UpdatingRun as updating;

    ghost F = { Linked };

    ghost G = { updating.State };

    ghost O = { Provenance };

    ghost next = { λ m. step_with (rules_in m).access (rules_in m).special };

    ghost config = { config_of };

    fn advance(&mut self, alloc: Global, answers: &mut Answers) -> Result<Step, RunError> {
        self.step(alloc, answers)
    }
}

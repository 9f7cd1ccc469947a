//! Runs of a program that knows no update.

ghost use Rattle.std.specs.Prelude.{◌≡◌, IfOk, OnOk, IsErrOf};
ghost use Rattle.plain_run.specs.PlainRun.{events};
ghost use Rattle.run_replay.specs.Replays.{GetsDeep, IsPlainClose, StaysShallow};

use crate::replay::Replay;
use crate::steps::replay_run;
use c_types::Typed;
use plain_run::{Machine, RunError};
use std::alloc::Global;

/// Runs the program from its start with these answers, for this many steps.
///
/// `RunError::Deep` comes exactly where one of these steps makes one frame more than 10,000.
pub fn replay_plain(
    alloc: Global,
    program: &Typed,
    answers: &[i32],
    steps: u32,
) -> Result<Replay, RunError>
    ensures events { IfOk result (λ replay.
        replay.events.items ≡ events program.now.program answers.now steps) }
    ensures close { IfOk result (λ replay.
        IsPlainClose program.now.program answers.now steps replay.close) }
    ensures shallow { OnOk result (StaysShallow program.now.program answers.now steps) }
    ensures deep { IsErrOf result RunError.Deep → GetsDeep program.now.program answers.now steps }
{
    let mut machine = Machine::new(alloc, program)?;
    replay_run(alloc, &mut machine, answers, steps)
}

//! Runs of a program that is updated once at most.

ghost use Rattle.std.specs.Prelude.{◌≡◌, IfOk, OnOk, IsErrOf};
ghost use Rattle.update_semantics.specs.UpdatingRun.{events_updating};
ghost use Rattle.update_semantics.specs.Worlds.{world_of};
ghost use Rattle.run_replay.specs.Replays.{IsUpdatedClose, UpdatedGetsDeep, UpdatedStaysShallow};

use crate::replay::Replay;
use crate::steps::replay_run;
use plain_run::RunError;
use std::alloc::Global;
use update_semantics::{UpdMachine, World};

/// Makes this many steps of the world's updating run with these answers. It begins with the old version's
/// `main`, or with the client's function, and is updated once at most, at a permitted point that is answered
/// so, or at the client's force.
///
/// `RunError::Deep` comes exactly where one of these steps makes one frame more than 10,000.
pub fn replay_updated(
    alloc: Global,
    world: &World,
    answers: &[i32],
    steps: u32,
) -> Result<Replay, RunError>
    ensures events { IfOk result (λ replay.
        replay.events.items ≡ events_updating (world_of world.now) answers.now steps) }
    ensures close { IfOk result (λ replay.
        IsUpdatedClose (world_of world.now) answers.now steps replay.close) }
    ensures shallow { OnOk result (UpdatedStaysShallow (world_of world.now) answers.now steps) }
    ensures deep { IsErrOf result RunError.Deep → UpdatedGetsDeep (world_of world.now) answers.now steps }
{
    let mut machine = UpdMachine::new(alloc, world)?;
    replay_run(alloc, &mut machine, answers, steps)
}

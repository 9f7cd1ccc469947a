//! The command `replay`.

ghost use Rattle.std.specs.Prelude.{◌≡◌, IfOk, IsErrOf};
ghost use Rattle.front_end.specs.Worlds as worlds;
ghost use Rattle.update_semantics.specs.Worlds.{world_of};
ghost use Rattle.top_call.specs.Held.{HasReadCause};
ghost use Rattle.top_call.specs.Merge.{names_of};
ghost use Rattle.top_call.specs.Replay.{ReplayAllows, ReplayGoesDeep, Replays, ReplaysTooDeep};
ghost use Rattle.top_call.specs.Seen.{seen_replay, seen_reply, seen_texts};

use crate::replay_words::ReplayRequest;
use crate::reply::{Reply, refuse};
use crate::shown::replay_text;
use crate::status::Status;
use crate::stop::Stop;
use crate::texts::{Texts, read_texts};
use c_lang::Fail;
use front_end::accept;
use outside::Files;
use plain_run::RunError;
use run_replay::replay_updated;
use std::alloc::Global;
use update_semantics::World;

/// The reply of `replay` to the texts of the named files. Beside a failed read and want of memory the
/// error is `Stop::Deep`, exactly where a step makes one frame more than 10,000.
pub(crate) fn replay_reply<F: Files>(
    alloc: Global,
    replay: &ReplayRequest<'_>,
    files: &mut F,
) -> Result<Reply, Stop>
    ensures reply { IfOk result (λ reply. ReplayAllows (F.held files.old) (seen_replay replay.now) (seen_reply reply)) }
    ensures deep { IsErrOf result Stop.Deep → ReplayGoesDeep (F.held files.old) (seen_replay replay.now) }
    ensures cause { HasReadCause (names_of (seen_replay replay.now).files)
        (F.faults files.old) (F.faults files.new) (F.failed files.new) result }
{
    let texts = read_texts(alloc, &replay.files, files)?;
    Ok(reply_to_texts(alloc, replay, &texts)?)
}

fn reply_to_texts(
    alloc: Global,
    replay: &ReplayRequest<'_>,
    texts: &Texts<'_>,
) -> Result<Reply, RunError>
    ensures reply { IfOk result (λ reply. Replays (seen_replay replay.now) (seen_texts texts.now) (seen_reply reply)) }
    ensures deep { IsErrOf result RunError.Deep → ReplaysTooDeep (seen_replay replay.now) (seen_texts texts.now) }
{
    match accept(alloc, &texts.texts(), replay.listed()) {
        Ok(world) => reply_of_world(alloc, replay, world.get()),
        Err(Fail::Refused(refusal)) => Ok(refuse(alloc, &refusal)?),
        Err(Fail::NoMemory) => Err(RunError::NoMemory),
    }
}

fn reply_of_world(
    alloc: Global,
    replay: &ReplayRequest<'_>,
    world: &World,
) -> Result<Reply, RunError>
    ensures reply { (ts : worlds.Texts) → worlds.IsAccepted (seen_replay replay.now).points ts (world_of world.now) →
        IfOk result (λ reply. Replays (seen_replay replay.now) ts (seen_reply reply)) }
    ensures deep { (ts : worlds.Texts) → worlds.IsAccepted (seen_replay replay.now).points ts (world_of world.now) →
        IsErrOf result RunError.Deep → ReplaysTooDeep (seen_replay replay.now) ts }
{
    let shown = replay_updated(alloc, world, &replay.answers, replay.steps)?;
    Ok(Reply {
        status: Status::Done,
        text: replay_text(alloc, &shown)?,
    })
}

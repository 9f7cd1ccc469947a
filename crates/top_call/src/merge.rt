//! The command `merge`.

ghost use Rattle.std.specs.Prelude.{◌≡◌, IfOk, IsErrOf, List, ℕ, Option};
ghost use Rattle.front_end.specs.Worlds as worlds;
ghost use Rattle.update_semantics.specs.Worlds.{world_of};
ghost use Rattle.top_call.specs.Held.{HasReadCause};
ghost use Rattle.top_call.specs.Merge.{MergeAllows, Merges, names_of};
ghost use Rattle.top_call.specs.Seen.{seen_merge, seen_reply, seen_texts};

use crate::merge_words::MergeRequest;
use crate::reply::{Reply, refuse};
use crate::status::Status;
use crate::stop::Stop;
use crate::texts::{Texts, read_texts};
use c_lang::Fail;
use front_end::accept;
use merge_core::merge;
use merge_printer::print;
use outside::Files;
use std::alloc::{AllocError, Global};
use update_semantics::World;

/// The reply of `merge` to the texts of the named files.
pub(crate) fn merge_reply<F: Files>(
    alloc: Global,
    request: &MergeRequest<'_>,
    files: &mut F,
) -> Result<Reply, Stop>
    ensures reply { IfOk result (λ reply. MergeAllows (F.held files.old) (seen_merge request.now) (seen_reply reply)) }
    ensures shallow { IsErrOf result Stop.Deep → ⊥ }
    ensures cause { HasReadCause (names_of (seen_merge request.now).files)
        (F.faults files.old) (F.faults files.new) (F.failed files.new) result }
{
    let texts = read_texts(alloc, &request.files, files)?;
    Ok(reply_to_texts(alloc, request, &texts)?)
}

fn reply_to_texts(
    alloc: Global,
    request: &MergeRequest<'_>,
    texts: &Texts<'_>,
) -> Result<Reply, AllocError>
    ensures { IfOk result (λ reply. Merges (seen_merge request.now) (seen_texts texts.now) (seen_reply reply)) }
{
    match accept(alloc, &texts.texts(), request.listed()) {
        Ok(world) => reply_of_world(alloc, request, world.get()),
        Err(Fail::Refused(refusal)) => refuse(alloc, &refusal),
        Err(Fail::NoMemory) => Err(AllocError),
    }
}

fn reply_of_world(
    alloc: Global,
    request: &MergeRequest<'_>,
    world: &World,
) -> Result<Reply, AllocError>
    ensures { (ts : worlds.Texts) → worlds.IsAccepted (seen_merge request.now).points ts (world_of world.now) →
        IfOk result (λ reply. Merges (seen_merge request.now) ts (seen_reply reply)) }
{
    let merged = merge(alloc, world)?;
    Ok(Reply {
        status: Status::Done,
        text: print(alloc, &merged)?,
    })
}

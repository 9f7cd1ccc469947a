//! The command `run`.

ghost use Rattle.std.specs.Prelude.{◌≡◌, [], ◌∷◌, IfOk, IsErrOf};
ghost use Rattle.c_lang.specs.declared.unit.Unit.TheVariants.{Merge};
ghost use Rattle.top_call.specs.Held.{HasReadCause};
ghost use Rattle.top_call.specs.Words.{Text};
ghost use Rattle.top_call.specs.Run.{GoesTooDeep, RunAllows, RunGoesDeep, Runs};
ghost use Rattle.front_end.specs.TypedText.{HasProgram};
ghost use Rattle.top_call.specs.Seen.{seen_reply, seen_run};

use crate::reading::read_text;
use crate::reply::{Reply, refuse};
use crate::run_words::RunRequest;
use crate::shown::replay_text;
use crate::status::Status;
use crate::stop::Stop;
use c_lang::{Fail, Unit};
use c_types::Typed;
use front_end::typed_text;
use outside::Files;
use plain_run::RunError;
use run_replay::replay_plain;
use std::alloc::Global;

/// The reply of `run` to the text of the named file. Beside a failed read and want of memory the
/// error is `Stop::Deep`, exactly where a step makes one frame more than 10,000.
pub(crate) fn run_reply<F: Files>(
    alloc: Global,
    run: &RunRequest<'_>,
    files: &mut F,
) -> Result<Reply, Stop>
    ensures reply { IfOk result (λ reply. RunAllows (F.held files.old) (seen_run run.now) (seen_reply reply)) }
    ensures deep { IsErrOf result Stop.Deep → RunGoesDeep (F.held files.old) (seen_run run.now) }
    ensures cause { HasReadCause (run.now.file.now ∷ [])
        (F.faults files.old) (F.faults files.new) (F.failed files.new) result }
{
    let text = read_text(alloc, Unit::Merge, run.file, files)?;
    Ok(reply_to_text(alloc, run, &text)?)
}

fn reply_to_text(alloc: Global, run: &RunRequest<'_>, text: &[u8]) -> Result<Reply, RunError>
    ensures reply { IfOk result (λ reply. Runs (seen_run run.now) text.now (seen_reply reply)) }
    ensures deep { IsErrOf result RunError.Deep → GoesTooDeep (seen_run run.now) text.now }
{
    match typed_text(alloc, Unit::Merge, text) {
        Ok(typed) => reply_of_run(alloc, run, &typed),
        Err(Fail::Refused(refusal)) => Ok(refuse(alloc, &refusal)?),
        Err(Fail::NoMemory) => Err(RunError::NoMemory),
    }
}

fn reply_of_run(alloc: Global, run: &RunRequest<'_>, typed: &Typed) -> Result<Reply, RunError>
    ensures reply { (text : Text) → HasProgram Merge text typed.now.program →
        IfOk result (λ reply. Runs (seen_run run.now) text (seen_reply reply)) }
    ensures deep { (text : Text) → HasProgram Merge text typed.now.program →
        IsErrOf result RunError.Deep → GoesTooDeep (seen_run run.now) text }
{
    let replay = replay_plain(alloc, typed, &run.answers, run.steps)?;
    Ok(Reply {
        status: Status::Done,
        text: replay_text(alloc, &replay)?,
    })
}

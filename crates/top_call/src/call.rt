ghost use Rattle.std.specs.Prelude.{◌≡◌, ℕ, ◌⊎◌, List, [], ◌∷◌, Option, None, Some, IfOk, IsErrOf, map, string_bytes};
ghost use Rattle.top_call.specs.Words.{request_of};
ghost use Rattle.top_call.specs.Seen.{seen, seen_reply};
ghost use Rattle.top_call.specs.Held.{HasReadCause};
ghost use Rattle.top_call.specs.Around.{Puts, around};
ghost use Rattle.top_call.specs.Headline.{MergesWhatIsAccepted, ReplaysWhatIsAccepted, RunsWhatIsAccepted, WritesEvents, WritesMergedText, WritesUpdatedEvents};
ghost use Rattle.top_call.specs.Outcome.{Outcome, Allows, GoesDeep, named_files, PutsNothing};

use crate::merge::merge_reply;
use crate::replay::replay_reply;
use crate::reply::Reply;
use crate::run::run_reply;
use crate::status::Status;
use crate::stop::Stop;
use crate::words::{Request, read_request};
use outside::{Files, Sink};
use std::alloc::Global;

/// Runs the tool on the words after the program's name: reads the files that they name, and puts the
/// whole output to the sink at once. The stages are the words, the reads, and what the command then
/// checks; the first that fails ends the call, and its status says how:
///
/// - `Done`: the output was put whole.
/// - `Refused`: the line of the first refusal was put.
/// - `Usage`: exactly where the words ask for nothing; no file was read, and the usage line was put.
/// - `ReadFailed`: only where reading one of the named files failed; nothing was put.
/// - `WriteFailed`: only where the sink failed; a prefix of the output or of the line was put.
/// - `NoMemory`: memory was wanted; nothing was put.
/// - `Deep`: exactly where a run makes one frame more than 10,000; nothing was put.
///
/// What the merged text is, `specs/MergedText.antt` says; `specs/Headline.antt` says when it is
/// written.
pub fn dsu<F: Files, S: Sink>(alloc: Global, words: &[String], files: &mut F, out: &mut S) -> Status
    ensures outcome { Outcome (around F.held F.faults F.failed S.written S.faults files.old files.new out.old out.new)
        (request_of (map string_bytes words.now)) result }
    ensures no_read { request_of (map string_bytes words.now) ≡ None → files.new ≡ files.old }
    ensures no_put { PutsNothing result → out.new ≡ out.old }
    ensures writes { WritesMergedText (around F.held F.faults F.failed S.written S.faults files.old files.new out.old out.new)
        (request_of (map string_bytes words.now)) result }
    ensures merges { MergesWhatIsAccepted (around F.held F.faults F.failed S.written S.faults files.old files.new out.old out.new)
        (request_of (map string_bytes words.now)) result }
    ensures shows { WritesEvents (around F.held F.faults F.failed S.written S.faults files.old files.new out.old out.new)
        (request_of (map string_bytes words.now)) result }
    ensures runs { RunsWhatIsAccepted (around F.held F.faults F.failed S.written S.faults files.old files.new out.old out.new)
        (request_of (map string_bytes words.now)) result }
    ensures replays { WritesUpdatedEvents (around F.held F.faults F.failed S.written S.faults files.old files.new out.old out.new)
        (request_of (map string_bytes words.now)) result }
    ensures accepts { ReplaysWhatIsAccepted (around F.held F.faults F.failed S.written S.faults files.old files.new out.old out.new)
        (request_of (map string_bytes words.now)) result }
{
    answer_words(alloc, words, files, out)
}

fn answer_words<F: Files, S: Sink>(
    alloc: Global,
    words: &[String],
    files: &mut F,
    out: &mut S,
) -> Status
    ensures outcome { Outcome (around F.held F.faults F.failed S.written S.faults files.old files.new out.old out.new)
        (request_of (map string_bytes words.now)) result }
    ensures no_read { request_of (map string_bytes words.now) ≡ None → files.new ≡ files.old }
    ensures no_put { PutsNothing result → out.new ≡ out.old }
{
    match read_request(alloc, words) {
        Ok(Some(request)) => answer(alloc, &request, files, out),
        Ok(None) => put(out, b"usage: dsu COMMAND FILES OPTIONS\n", Status::Usage),
        Err(_) => Status::NoMemory,
    }
}

fn answer<F: Files, S: Sink>(
    alloc: Global,
    request: &Request<'_>,
    files: &mut F,
    out: &mut S,
) -> Status
    ensures outcome { Outcome (around F.held F.faults F.failed S.written S.faults files.old files.new out.old out.new)
        (Some (seen request.now)) result }
    ensures no_put { PutsNothing result → out.new ≡ out.old }
{
    match reply_to(alloc, request, files) {
        Ok(reply) => put(out, &reply.text, reply.status),
        Err(Stop::ReadFailed) => Status::ReadFailed,
        Err(Stop::NoMemory) => Status::NoMemory,
        Err(Stop::Deep) => Status::Deep,
    }
}

// A line for each command.
fn reply_to<F: Files>(alloc: Global, request: &Request<'_>, files: &mut F) -> Result<Reply, Stop>
    ensures reply { IfOk result (λ reply. Allows (F.held files.old) (seen request.now) (seen_reply reply)) }
    ensures deep { IsErrOf result Stop.Deep → GoesDeep (F.held files.old) (seen request.now) }
    ensures cause { HasReadCause (named_files (seen request.now))
        (F.faults files.old) (F.faults files.new) (F.failed files.new) result }
{
    match request {
        Request::Merge(merge) => merge_reply(alloc, merge, files),
        Request::Run(run) => run_reply(alloc, run, files),
        Request::Replay(replay) => replay_reply(alloc, replay, files),
    }
}

// Puts the text, and answers the status where it was put whole.
fn put<S: Sink>(out: &mut S, text: &[u8], status: Status) -> Status
    ensures { Puts (S.written out.old) (S.written out.new) (S.faults out.old) (S.faults out.new)
        text.now status result }
{
    match out.put(text) {
        Ok(()) => status,
        Err(_) => Status::WriteFailed,
    }
}

//! The words after the program's name.

ghost use Rattle.std.specs.Prelude.{◌≡◌, IfOk, map, option_map, string_bytes};
ghost use Rattle.top_call.specs.Words as spec;
ghost use Rattle.top_call.specs.Seen.{seen};

use crate::merge_words::{MergeRequest, read_merge};
use crate::replay_words::{ReplayRequest, read_replay};
use crate::run_words::{RunRequest, read_run};
use std::alloc::{AllocError, Global};

/// The name of a client's file, and that of the function with which a run begins.
#[derive(Clone, Copy, Debug)]
pub(crate) struct ClientFile<'a> {
    pub file: &'a str,
    pub spec: &'a str,
}

/// The names of the files of an update.
#[derive(Clone, Copy, Debug)]
pub(crate) struct UpdateFiles<'a> {
    pub old: &'a str,
    pub new: &'a str,
    pub xform: &'a str,
    pub client: Option<ClientFile<'a>>,
}

/// What the words ask for.
#[derive(Debug, Drop)]
pub(crate) enum Request<'a> {
    /// The merged text.
    Merge(MergeRequest<'a>),
    /// The events of a merged text's run.
    Run(RunRequest<'a>),
    /// The events of an updating run.
    Replay(ReplayRequest<'a>),
}

/// The request of the words, or `None` where they ask for nothing. The only error is want of
/// memory.
pub(crate) fn read_request<'a>(
    alloc: Global,
    words: &'a [String],
) -> Result<Option<Request<'a>>, AllocError>
    ensures { IfOk result (λ request. option_map seen request ≡ spec.request_of (map string_bytes words.entry.now)) }
{
    let [command, rest @ ..] = words else {
        return Ok(None);
    };
    match command.as_str() {
        "merge" => merge_request(alloc, rest),
        "run" => run_request(alloc, rest),
        "replay" => replay_request(alloc, rest),
        _ => Ok(None),
    }
}

fn merge_request<'a>(alloc: Global, words: &'a [String]) -> Result<Option<Request<'a>>, AllocError>
    ensures { IfOk result (λ request. option_map seen request ≡ option_map spec.Merge (spec.merge_of (map string_bytes words.entry.now))) }
{
    match read_merge(alloc, words)? {
        Some(merge) => Ok(Some(Request::Merge(merge))),
        None => Ok(None),
    }
}

fn run_request<'a>(alloc: Global, words: &'a [String]) -> Result<Option<Request<'a>>, AllocError>
    ensures { IfOk result (λ request. option_map seen request ≡ option_map spec.Run (spec.run_of (map string_bytes words.entry.now))) }
{
    match read_run(alloc, words)? {
        Some(run) => Ok(Some(Request::Run(run))),
        None => Ok(None),
    }
}

fn replay_request<'a>(alloc: Global, words: &'a [String]) -> Result<Option<Request<'a>>, AllocError>
    ensures { IfOk result (λ request. option_map seen request ≡ option_map spec.Replay (spec.replay_of (map string_bytes words.entry.now))) }
{
    match read_replay(alloc, words)? {
        Some(replay) => Ok(Some(Request::Replay(replay))),
        None => Ok(None),
    }
}

/// Whether the word begins with `-`.
pub(crate) fn is_option(word: &str) -> bool
    ensures { result ≡ spec.is_option word.now }
{
    word.as_bytes().starts_with(b"-")
}

//! The words of the command `replay`: the files of an update and options, in any order.

ghost use Rattle.std.specs.Prelude.{◌≡◌, IfOk, map, option_map, string_bytes};
ghost use Rattle.std.specs.List.{list_all};
ghost use Rattle.std.specs.Option.{option_copied};
ghost use Rattle.top_call.specs.Words as spec;
ghost use Rattle.top_call.specs.Seen.{seen_replay};

use crate::option_words::{
    answers_given, is_replay_word, listed_points, points_given, steps_given, update_files_in,
};
use crate::words::UpdateFiles;
use std::alloc::{AllocError, Global};

/// The files of an update, the points that may update where they are listed, the answers that its run gets,
/// and how many steps it makes.
#[derive(Debug, Drop)]
pub(crate) struct ReplayRequest<'a> {
    pub files: UpdateFiles<'a>,
    pub points: Option<Vec<u32>>,
    pub answers: Vec<i32>,
    pub steps: u32,
}

impl ReplayRequest<'_> {
    /// The points that may update, where they are listed.
    pub fn listed(&self) -> Option<&[u32]>
        ensures { option_copied result ≡ (seen_replay self.now).points }
    {
        listed_points(&self.points)
    }
}

fn are_replay_words(words: &[String]) -> bool
    ensures { result ≡ list_all (λ word. spec.is_replay_word (string_bytes word)) words.now }
{
    words.iter().all(|word| is_replay_word(word.as_str()))
}

/// What the words behind `replay` ask for: three files, a fourth exactly where `--spec=NAME` is given, and that,
/// `--points=LIST`, `--answers=LIST` and `--steps=N` at most once each, in any order. Any other words ask for nothing. The only error is want of
/// memory.
pub(crate) fn read_replay<'a>(
    alloc: Global,
    words: &'a [String],
) -> Result<Option<ReplayRequest<'a>>, AllocError>
    ensures { IfOk result (λ replay. option_map seen_replay replay ≡ spec.replay_of (map string_bytes words.entry.now)) }
{
    if !are_replay_words(words) {
        return Ok(None);
    }
    let Some(files) = update_files_in(alloc, words)? else {
        return Ok(None);
    };
    let Some(steps) = steps_given(words) else {
        return Ok(None);
    };
    let Some(points) = points_given(alloc, words)? else {
        return Ok(None);
    };
    match answers_given(alloc, words)? {
        Some(answers) => Ok(Some(ReplayRequest {
            files,
            points,
            answers,
            steps,
        })),
        None => Ok(None),
    }
}

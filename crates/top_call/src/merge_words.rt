//! The words of the command `merge`: the files of an update and the points, in any order.

ghost use Rattle.std.specs.Prelude.{◌≡◌, IfOk, map, option_map, string_bytes};
ghost use Rattle.std.specs.List.{list_all};
ghost use Rattle.std.specs.Option.{option_copied};
ghost use Rattle.top_call.specs.Words as spec;
ghost use Rattle.top_call.specs.Seen.{seen_merge};

use crate::option_words::{is_merge_word, listed_points, points_given, update_files_in};
use crate::words::UpdateFiles;
use std::alloc::{AllocError, Global};

/// The files of an update, and the points that may update where they are listed.
#[derive(Debug, Drop)]
pub(crate) struct MergeRequest<'a> {
    pub files: UpdateFiles<'a>,
    pub points: Option<Vec<u32>>,
}

impl MergeRequest<'_> {
    /// The points that may update, where they are listed.
    pub fn listed(&self) -> Option<&[u32]>
        ensures { option_copied result ≡ (seen_merge self.now).points }
    {
        listed_points(&self.points)
    }
}

fn are_merge_words(words: &[String]) -> bool
    ensures { result ≡ list_all (λ word. spec.is_merge_word (string_bytes word)) words.now }
{
    words.iter().all(|word| is_merge_word(word.as_str()))
}

/// What the words behind `merge` ask for: three files, a fourth exactly where `--spec=NAME` is given, and that
/// and `--points=LIST` at most once each, in any order. Any other words ask for nothing. The only error is want of memory.
pub(crate) fn read_merge<'a>(
    alloc: Global,
    words: &'a [String],
) -> Result<Option<MergeRequest<'a>>, AllocError>
    ensures { IfOk result (λ merge. option_map seen_merge merge ≡ spec.merge_of (map string_bytes words.entry.now)) }
{
    if !are_merge_words(words) {
        return Ok(None);
    }
    let Some(files) = update_files_in(alloc, words)? else {
        return Ok(None);
    };
    match points_given(alloc, words)? {
        Some(points) => Ok(Some(MergeRequest { files, points })),
        None => Ok(None),
    }
}

//! The words of the command `run`: a file and options, in any order.

ghost use Rattle.std.specs.Prelude.{◌≡◌, IfOk, map, option_map, string_bytes};
ghost use Rattle.std.specs.List.{list_all};
ghost use Rattle.top_call.specs.Words as spec;
ghost use Rattle.top_call.specs.Seen.{seen_run, seen_text};

use crate::option_words::{answers_given, files_in, is_run_word, steps_given};
use std::alloc::{AllocError, Global};

/// The file of a merged text, the answers that its run gets, and how many steps it makes.
#[derive(Debug, Drop)]
pub(crate) struct RunRequest<'a> {
    pub file: &'a str,
    pub answers: Vec<i32>,
    pub steps: u32,
}

fn are_run_words(words: &[String]) -> bool
    ensures { result ≡ list_all (λ word. spec.is_run_word (string_bytes word)) words.now }
{
    words.iter().all(|word| is_run_word(word.as_str()))
}

// The one file that the words name.
fn file_of<'a>(alloc: Global, words: &'a [String]) -> Result<Option<&'a str>, AllocError>
    ensures { IfOk result (λ file. option_map seen_text file ≡ spec.one_file (spec.chosen spec.file_in (map string_bytes words.entry.now))) }
{
    let files = files_in(alloc, words)?;
    match files.as_slice() {
        [file] => Ok(Some(file)),
        _ => Ok(None),
    }
}

/// What the words behind `run` ask for: one file, and `--answers=LIST` and `--steps=N` at most once
/// each, in any order. Any other words ask for nothing. The only error is want of memory.
pub(crate) fn read_run<'a>(
    alloc: Global,
    words: &'a [String],
) -> Result<Option<RunRequest<'a>>, AllocError>
    ensures { IfOk result (λ run. option_map seen_run run ≡ spec.run_of (map string_bytes words.entry.now)) }
{
    if !are_run_words(words) {
        return Ok(None);
    }
    let Some(file) = file_of(alloc, words)? else {
        return Ok(None);
    };
    let Some(steps) = steps_given(words) else {
        return Ok(None);
    };
    match answers_given(alloc, words)? {
        Some(answers) => Ok(Some(RunRequest {
            file,
            answers,
            steps,
        })),
        None => Ok(None),
    }
}

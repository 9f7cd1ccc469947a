//! Options in words, which stand in any order among the files.

ghost use Rattle.std.specs.Prelude.{◌≡◌, List, [], None, Some, IfOk, OnOk, map, option_map, string_bytes};
ghost use Rattle.std.specs.Option.{option_copied};
ghost use Rattle.c_lang.specs.Names.{behind};
ghost use Rattle.top_call.specs.Numbers as numbers;
ghost use Rattle.top_call.specs.Words as spec;
ghost use Rattle.top_call.specs.Seen.{IsChosen, seen_numbers, seen_points, seen_spec, seen_text, seen_update_files};

use crate::numbers::{answers_of, points_of, steps_of};
use crate::words::{ClientFile, UpdateFiles, is_option};
use std::alloc::{AllocError, Global};

const ANSWERS: &str = "--answers=";

const POINTS: &str = "--points=";

const STEPS: &str = "--steps=";

const SPEC: &str = "--spec=";

// The steps of a run whose words name no number.
const DEFAULT_STEPS: u32 = 1_000_000;

// What words say of an option: nothing, one value, or several.
#[derive(Clone, Copy, Debug)]
enum Chosen<'a> {
    Nothing,
    One(&'a str),
    Several,
}

impl<'a> Chosen<'a> {
    fn with(self, value: Option<&'a str>) -> Chosen<'a>
        ensures { (texts : List spec.Text) → IsChosen texts self.entry → IsChosen (spec.added texts (option_map seen_text value.entry)) result }
    {
        match (self, value) {
            (chosen, None) => chosen,
            (Chosen::Nothing, Some(text)) => Chosen::One(text),
            (Chosen::One(_), Some(_)) | (Chosen::Several, Some(_)) => Chosen::Several,
        }
    }
}

// What follows the option's name in the word, where the word begins with it.
fn value_in<'a>(word: &'a str, option: &str) -> Option<&'a str>
    ensures { option_map seen_text result ≡ behind option.now word.entry.now }
{
    word.strip_prefix(option)
}

// What follows the option's name in the words that begin with it.
fn values_of<'a>(words: &'a [String], option: &str) -> Chosen<'a>
    ensures { IsChosen (spec.chosen (behind option.now) (map string_bytes words.entry.now)) result }
{
    let mut values = Chosen::Nothing;
    for word in words {
        values = values.with(value_in(word.as_str(), option));
    }
    values
}

// Adds a word that is no option.
#[tactic(auto, using(crate::proofs::OptionWordLemmas::files))]
fn add_file<'a>(files: &mut Vec<&'a str>, word: &'a str) -> Result<(), AllocError>
    ensures { OnOk result (map seen_text files.new.items ≡
        spec.added (map seen_text files.old.items) (spec.file_in word.entry.now)) }
{
    if is_option(word) {
        return Ok(());
    }
    files.push(word)?;
    Ok(())
}

/// The words that are no options. The only error is want of memory.
pub(crate) fn files_in<'a>(alloc: Global, words: &'a [String]) -> Result<Vec<&'a str>, AllocError>
    ensures { IfOk result (λ files. map seen_text files.items ≡ spec.chosen spec.file_in (map string_bytes words.entry.now)) }
{
    let mut files = Vec::new(alloc);
    for word in words {
        add_file(&mut files, word.as_str())?;
    }
    Ok(files)
}

// The name of a client's function that the words give, if they do; `None` where they give several.
fn function_given<'a>(words: &'a [String]) -> Option<Option<&'a str>>
    ensures { option_map seen_spec result ≡ spec.option_value spec.named None (spec.chosen (behind spec.spec_name) (map string_bytes words.entry.now)) }
{
    match values_of(words, SPEC) {
        Chosen::Nothing => Some(None),
        Chosen::One(text) => Some(Some(text)),
        Chosen::Several => None,
    }
}

fn three_files<'a>(files: &[&'a str]) -> Option<UpdateFiles<'a>>
    ensures { option_map seen_update_files result ≡ spec.update_files (map seen_text files.now) None }
{
    match files {
        [old, new, xform] => Some(UpdateFiles {
            old,
            new,
            xform,
            client: None,
        }),
        _ => None,
    }
}

fn four_files<'a>(files: &[&'a str], function: &'a str) -> Option<UpdateFiles<'a>>
    ensures { option_map seen_update_files result ≡ spec.update_files (map seen_text files.now) (Some function.entry.now) }
{
    match files {
        [old, new, xform, file] => Some(UpdateFiles {
            old,
            new,
            xform,
            client: Some(ClientFile {
                file,
                spec: function,
            }),
        }),
        _ => None,
    }
}

// Three files, or four where the name of a client's function is given.
fn update_files<'a>(files: &[&'a str], function: Option<&'a str>) -> Option<UpdateFiles<'a>>
    ensures { option_map seen_update_files result ≡ spec.update_files (map seen_text files.now) (option_map seen_text function.entry) }
{
    match function {
        Some(function) => four_files(files, function),
        None => three_files(files),
    }
}

/// The files of an update: three, or four where the words name a client's function, too. The only error is
/// want of memory.
pub(crate) fn update_files_in<'a>(
    alloc: Global,
    words: &'a [String],
) -> Result<Option<UpdateFiles<'a>>, AllocError>
    ensures { IfOk result (λ files. option_map seen_update_files files ≡ spec.files_of (map string_bytes words.entry.now)) }
{
    let Some(function) = function_given(words) else {
        return Ok(None);
    };
    let files = files_in(alloc, words)?;
    Ok(update_files(files.as_slice(), function))
}

/// Whether the word is a file or an option of a merge.
pub(crate) fn is_merge_word(word: &str) -> bool
    ensures { result ≡ spec.is_merge_word word.now }
{
    !is_option(word) || value_in(word, POINTS).is_some() || value_in(word, SPEC).is_some()
}

/// Whether the word is a file or an option of a run.
pub(crate) fn is_run_word(word: &str) -> bool
    ensures { result ≡ spec.is_run_word word.now }
{
    !is_option(word) || value_in(word, ANSWERS).is_some() || value_in(word, STEPS).is_some()
}

/// Whether the word is a file or an option of a replay.
pub(crate) fn is_replay_word(word: &str) -> bool
    ensures { result ≡ spec.is_replay_word word.now }
{
    is_run_word(word) || value_in(word, POINTS).is_some() || value_in(word, SPEC).is_some()
}

/// The answers that the words list, none where they name no list, and `None` where they name no list that
/// can be read, or several.
pub(crate) fn answers_given(alloc: Global, words: &[String]) -> Result<Option<Vec<i32>>, AllocError>
    ensures { IfOk result (λ list. option_map seen_numbers list ≡ spec.option_value numbers.answers_of []
        (spec.chosen (behind spec.answers_name) (map string_bytes words.now))) }
{
    match values_of(words, ANSWERS) {
        Chosen::Nothing => Ok(Some(Vec::new(alloc))),
        Chosen::One(text) => answers_of(alloc, text),
        Chosen::Several => Ok(None),
    }
}

/// The steps that the words give, or 1,000,000 where they give none; `None` where they give no number of steps
/// that is allowed, or several.
pub(crate) fn steps_given(words: &[String]) -> Option<u32>
    ensures { result ≡ spec.option_value numbers.steps_of numbers.default_steps
        (spec.chosen (behind spec.steps_name) (map string_bytes words.now)) }
{
    match values_of(words, STEPS) {
        Chosen::Nothing => Some(DEFAULT_STEPS),
        Chosen::One(text) => steps_of(text),
        Chosen::Several => None,
    }
}

/// The points that the words list, if they do; `None` where they name a list that can't be read, or several.
pub(crate) fn points_given(
    alloc: Global,
    words: &[String],
) -> Result<Option<Option<Vec<u32>>>, AllocError>
    ensures { IfOk result (λ points. option_map seen_points points ≡ spec.option_value spec.listed None
        (spec.chosen (behind spec.points_name) (map string_bytes words.now))) }
{
    match values_of(words, POINTS) {
        Chosen::Nothing => Ok(Some(None)),
        Chosen::One(text) => listed(alloc, text),
        Chosen::Several => Ok(None),
    }
}

/// Points that are listed, if they are.
pub(crate) fn listed_points(points: &Option<Vec<u32>>) -> Option<&[u32]>
    ensures { option_copied result ≡ seen_points points.now }
{
    match points {
        Some(points) => Some(points.as_slice()),
        None => None,
    }
}

fn listed(alloc: Global, text: &str) -> Result<Option<Option<Vec<u32>>>, AllocError>
    ensures { IfOk result (λ points. option_map seen_points points ≡ spec.listed text.now) }
{
    match points_of(alloc, text)? {
        Some(points) => Ok(Some(Some(points))),
        None => Ok(None),
    }
}

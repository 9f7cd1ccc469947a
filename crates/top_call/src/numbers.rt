//! Numbers and lists of numbers in words.

ghost use Rattle.std.specs.Prelude.{◌≡◌, IfOk, option_map};
ghost use Rattle.top_call.specs.Numbers as spec;
ghost use Rattle.top_call.specs.Seen.{seen_naturals, seen_numbers};

use itoa::Buffer;
use std::alloc::{AllocError, Global};

// The most answers that a list may have.
const ANSWER_LIMIT: usize = 1_000_000;

/// The most steps of a run.
const STEP_LIMIT: i32 = 10_000_000;

/// The `int` that the text writes: `0`, or digits without a leading zero, and `-` in front of a
/// number below 0. Any other text is no number.
pub(crate) fn number_of(text: &str) -> Option<i32>
    ensures { result ≡ spec.number_of text.now }
{
    let Ok(number) = text.parse::<i32>() else {
        return None;
    };
    let mut buffer = Buffer::new();
    if buffer.format(number) == text {
        Some(number)
    } else {
        None
    }
}

// The numbers of a list in which commas stand between them.
fn numbers_of(alloc: Global, text: &str) -> Result<Option<Vec<i32>>, AllocError>
    ensures { IfOk result (λ list. option_map seen_numbers list ≡ spec.all_numbers (spec.pieces text.now)) }
{
    let mut numbers = Vec::new(alloc);
    let mut rest = text;
    while let Some((piece, later)) = rest.split_once(',') {
        let Some(number) = number_of(piece) else {
            return Ok(None);
        };
        numbers.push(number)?;
        rest = later;
    }
    let Some(number) = number_of(rest) else {
        return Ok(None);
    };
    numbers.push(number)?;
    Ok(Some(numbers))
}

/// The answers that the text lists: `none`, or at most 1,000,000 numbers with a comma between each
/// two. Any other text is no list. The only error is want of memory.
pub(crate) fn answers_of(alloc: Global, text: &str) -> Result<Option<Vec<i32>>, AllocError>
    ensures { IfOk result (λ list. option_map seen_numbers list ≡ spec.answers_of text.now) }
{
    if text == "none" {
        return Ok(Some(Vec::new(alloc)));
    }
    match numbers_of(alloc, text)? {
        Some(numbers) if numbers.len() <= ANSWER_LIMIT => Ok(Some(numbers)),
        _ => Ok(None),
    }
}

// The numbers, where none is below 0.
fn naturals(alloc: Global, numbers: &[i32]) -> Result<Option<Vec<u32>>, AllocError>
    ensures { IfOk result (λ list. option_map seen_naturals list ≡ spec.naturals numbers.now) }
{
    let mut naturals = Vec::new(alloc);
    for number in numbers {
        if *number < 0 {
            return Ok(None);
        }
        naturals.push(*number as u32)?;
    }
    Ok(Some(naturals))
}

/// The numbers of points that the text lists: `none`, or numbers that aren't below 0, with a comma between
/// each two. Any other text is no list. The only error is want of memory.
pub(crate) fn points_of(alloc: Global, text: &str) -> Result<Option<Vec<u32>>, AllocError>
    ensures { IfOk result (λ list. option_map seen_naturals list ≡ spec.points_of text.now) }
{
    if text == "none" {
        return Ok(Some(Vec::new(alloc)));
    }
    match numbers_of(alloc, text)? {
        Some(numbers) => naturals(alloc, &numbers),
        None => Ok(None),
    }
}

/// A number of steps, from 1 to 10,000,000.
pub(crate) fn steps_of(text: &str) -> Option<u32>
    ensures { result ≡ spec.steps_of text.now }
{
    match number_of(text) {
        Some(number) if 1 <= number && number <= STEP_LIMIT => Some(number as u32),
        _ => None,
    }
}

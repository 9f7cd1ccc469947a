//! Runs of merged texts.

use crate::programs::{shown, typed};
use anyhow::Result;
use c_lang::{Fail, Unit};
use c_types::Typed;
use plain_run::RunError;
use run_replay::{Close, Replay, replay_plain};
use std::alloc::{AllocError, Global};

fn close_word(close: Close) -> &'static str {
    match close {
        Close::Ended => "ended",
        Close::Faulted => "faulted",
        Close::Waiting => "waiting",
        Close::Running => "running",
    }
}

fn replay_text(alloc: Global, replay: &Replay) -> Result<String, AllocError> {
    let mut said = String::new(alloc);
    for event in &replay.events {
        write!(said, "{event}, ")?;
    }
    said.push_str(close_word(replay.close))?;
    Ok(said)
}

fn outcome(
    alloc: Global,
    program: &Typed,
    answers: &[i32],
    steps: u32,
) -> Result<String, AllocError> {
    match replay_plain(alloc, program, answers, steps) {
        Ok(replay) => replay_text(alloc, &replay),
        Err(RunError::Deep) => String::from_str(alloc, "deep"),
        Err(RunError::NoMemory) => Err(AllocError),
    }
}

fn run(alloc: Global, text: &[u8], answers: &[i32], steps: u32) -> Result<String, Fail> {
    let program = typed(alloc, Unit::Merge, text)?;
    Ok(outcome(alloc, &program, answers, steps)?)
}

/// The events of a run with these answers, `none` or numbers with commas between them, and how it
/// stands after the steps.
pub fn replayed(alloc: Global, text: &[u8], steps: u32, answers: &str) -> Result<String> {
    let mut list = Vec::new(alloc);
    if answers != "none" {
        for word in answers.split(',') {
            list.push(word.parse::<i32>()?)?;
        }
    }
    Ok(shown(alloc, run(alloc, text, &list, steps))?)
}

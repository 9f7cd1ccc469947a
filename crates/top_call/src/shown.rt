//! The lines of a run.

ghost use Rattle.std.specs.Prelude.{◌≡◌, ◌++◌, IfOk};
ghost use Rattle.top_call.specs.Shown.{close_line, run_lines};

use run_replay::{Close, Replay};
use std::alloc::{AllocError, Global};
use std::fmt::Write;

fn close_text(close: Close) -> &'static str
    ensures { result.now ≡ close_line close }
{
    match close {
        Close::Ended | Close::Faulted => "",
        Close::Waiting => "waiting\n",
        Close::Running => "running\n",
    }
}

/// A line for each event, and one for a run that waits or would go on.
pub(crate) fn replay_text(alloc: Global, replay: &Replay) -> Result<Vec<u8>, AllocError>
    ensures { IfOk result (λ text. text.items ≡ run_lines replay.now.events.items replay.now.close) }
{
    let mut text = String::new(alloc);
    for event in &replay.events {
        writeln!(text, "{event}")?;
    }
    text.push_str(close_text(replay.close))?;
    Ok(text.into_bytes())
}

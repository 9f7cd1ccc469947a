//! Cases of the front end: lexer, parser, printer and typing.
//!
//! Each line of `stdin` is a case, and the line of `stdout` with the same number is its answer. A case
//! is a command, a unit and a text, as in `check old int a;`, where the text is as `case_texts` has it.
//! An empty line and one that begins with `#` are printed as they stand.
#![tactic(auto)]

mod answers;

use anyhow::{Context, Result};
use c_lang::Unit;
use case_texts::text_of;
use std::alloc::Global;

fn unit_of(word: &str) -> Option<Unit> {
    match word {
        "old" => Some(Unit::Old),
        "new" => Some(Unit::New),
        "xform" => Some(Unit::Xform),
        "client" => Some(Unit::Client),
        "merge" => Some(Unit::Merge),
        _ => None,
    }
}

fn answer(alloc: Global, line: &str) -> Result<String> {
    if line.is_empty() || line.starts_with('#') {
        return Ok(String::from_str(alloc, line)?);
    }
    let (command, rest) = line.split_once(' ').context("a line has no unit")?;
    let (word, written) = rest.split_once(' ').unwrap_or((rest, ""));
    let unit = unit_of(word).context("no such unit")?;
    let text = text_of(alloc, written)?;
    answers::answer(alloc, command, unit, &text)
}

fn main(rt: HostRuntime) -> Result<()> {
    for line in rt.lines(rt.alloc()) {
        let answer = answer(rt.alloc(), line?.as_str())?;
        println!(rt; "{answer}")?;
    }
    Ok(())
}

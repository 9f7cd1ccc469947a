//! Cases of hints texts.
//!
//! Each line of `stdin` is a case, and the line of `stdout` with the same number is its answer. A case is a
//! command and texts as `case_texts` has them, with `@` between:
//!
//! - `hints TEXT`: the items of a hints text for the program of `PROGRAM`;
//! - `read PROGRAM @ HINTS`: the hints that a text says of a merged program;
//! - `add PROGRAM @ HINTS @ FUNC NUMBER FORM`: whether the form is added to the function's loop, and the hints then.
//!
//! An empty line and one that begins with `#` are printed as they stand.
#![tactic(auto)]

mod reading;
mod shown;

use anyhow::{Context, Result};
use c_lang::{Fail, Program, Unit};
use c_parser::parse_text;
use case_texts::text_of;
use hint_texts::read_items;
use name_tables::ProgramNames;
use std::alloc::Global;

/// The program whose functions have the numbers 1 to 3.
const PROGRAM: &[u8] =
    b"int f(int x) { return x; } int g(void) { return 0; } int main(void) { return 0; }";

fn refused(alloc: Global, fail: Fail) -> Result<String> {
    match fail {
        Fail::Refused(refusal) => Ok(format!(in alloc; "{refusal}")?),
        Fail::NoMemory => None.context("out of memory"),
    }
}

fn program(alloc: Global) -> Result<Program> {
    match parse_text(alloc, Unit::Old, PROGRAM) {
        Ok(program) => Ok(program),
        Err(_) => None.context("no program"),
    }
}

fn hints(alloc: Global, text: &[u8]) -> Result<String> {
    let program = program(alloc)?;
    let names = ProgramNames::new(alloc, &program)?;
    match read_items(alloc, &names, text) {
        Ok(items) => shown::items(alloc, items.as_slice()),
        Err(fail) => refused(alloc, fail),
    }
}

fn answer(alloc: Global, line: &str) -> Result<String> {
    if line.is_empty() || line.starts_with('#') {
        return Ok(String::from_str(alloc, line)?);
    }
    let (command, rest) = line.split_once(' ').unwrap_or((line, ""));
    match command {
        "hints" => hints(alloc, &text_of(alloc, rest)?),
        "read" => reading::read(alloc, rest),
        "add" => reading::add(alloc, rest),
        _ => None.context("no such command"),
    }
}

fn main(rt: HostRuntime) -> Result<()> {
    for line in rt.lines(rt.alloc()) {
        let answer = answer(rt.alloc(), line?.as_str())?;
        println!(rt; "{answer}")?;
    }
    Ok(())
}

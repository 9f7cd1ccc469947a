//! Cases of the texts of formulas, of certificates and of their checker.
//!
//! Each line of `stdin` is a case, and the line of `stdout` with the same number is its answer. A case is
//! a command and a text, which is as `case_texts` has it. An empty line and one that begins with `#` are
//! printed as they stand.
#![tactic(auto)]

mod certificates;
mod rows;
mod sequents;
mod texts;

use anyhow::{Context, Result};
use case_texts::text_of;
use std::alloc::Global;

fn answer(alloc: Global, line: &str) -> Result<String> {
    if line.is_empty() || line.starts_with('#') {
        return Ok(String::from_str(alloc, line)?);
    }
    let (command, rest) = line.split_once(' ').unwrap_or((line, ""));
    match command {
        "form" => texts::form_back(alloc, &text_of(alloc, rest)?),
        "term" => texts::term_back(alloc, &text_of(alloc, rest)?),
        "name" => texts::name_back(alloc, &text_of(alloc, rest)?),
        "certs" => certificates::certs_back(alloc, &text_of(alloc, rest)?),
        "row" => rows::row_shown(alloc, rest),
        "check" => certificates::checked(alloc, rest),
        "deep" => certificates::deep_checked(alloc, rest),
        _ => None.context("no such command"),
    }
}

fn main(rt: HostRuntime) -> Result<()> {
    for line in rt.lines(rt.alloc()) {
        let answer = answer(rt.alloc(), line?.as_str())?;
        println!(rt; "{answer}")?;
    }
    Ok(())
}

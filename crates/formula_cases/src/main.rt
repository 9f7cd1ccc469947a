//! Cases of formulas, of rows and of the decisions on rows.
//!
//! Each line of `stdin` is a case, and the line of `stdout` with the same number is its answer. A case
//! is a command and its parts, with ` : ` between the parts. An empty line and one that begins with
//! `#` are printed as they stand.
#![tactic(auto)]

mod case_error;
mod formulas;
mod notation;
mod reading;
mod rows;

use case_error::CaseError;
use std::alloc::Global;

// The two halves of what stands round the first ` : `.
pub fn halves(text: &str) -> (&str, &str) {
    text.split_once(" : ").unwrap_or((text, ""))
}

fn answer(alloc: Global, line: &str) -> Result<String, CaseError> {
    if line.is_empty() || line.starts_with('#') {
        return Ok(String::from_str(alloc, line)?);
    }
    let (command, parts) = line.split_once(' ').unwrap_or((line, ""));
    match command {
        "holds" => formulas::holds(alloc, parts),
        "number" => formulas::listed_number(alloc, parts),
        "array" => formulas::listed_array(alloc, parts),
        "free" => formulas::free_names(alloc, parts),
        "copy" => formulas::copied(alloc, parts),
        "subst" => formulas::number_replaced(alloc, parts),
        "subst_row" => formulas::array_replaced(alloc, parts),
        "subst_fact" => formulas::number_replaced_in_fact(alloc, parts),
        "subst_fact_row" => formulas::array_replaced_in_fact(alloc, parts),
        "add" => rows::added(alloc, parts),
        "refute" => rows::refuted(alloc, parts),
        "refute_diff" => rows::refuted_differences(alloc, parts),
        _ => Err(CaseError::Malformed),
    }
}

fn main(rt: HostRuntime) -> anyhow::Result<()> {
    for line in rt.lines(rt.alloc()) {
        let answer = answer(rt.alloc(), line?.as_str())?;
        println!(rt; "{answer}")?;
    }
    Ok(())
}

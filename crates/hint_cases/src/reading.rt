//! Hints that are read for a merged program, as lines of cases.

use crate::shown;
use anyhow::{Context, Result};
use c_lang::{Fail, Func, Name, Unit};
use c_parser::parse_text;
use c_types::{Typed, check};
use case_texts::text_of;
use formula_texts::read_form;
use hint_reading::read_hints;
use loop_invariants::{Contract, Hints};
use std::alloc::Global;
use terms::Fact;

/// The greatest number of a loop that is shown.
const LAST_LOOP: u32 = 9;

fn typed_of(alloc: Global, text: &[u8]) -> Result<Typed, Fail> {
    check(alloc, Unit::Merge, parse_text(alloc, Unit::Merge, text)?)
}

fn typed(alloc: Global, written: &str) -> Result<Typed> {
    match typed_of(alloc, &text_of(alloc, written)?) {
        Ok(typed) => Ok(typed),
        Err(_) => None.context("no program"),
    }
}

// Between two of what is shown.
fn put_space(out: &mut Vec<u8>) -> Result<()> {
    if !out.is_empty() {
        shown::put(out, b" ")?;
    }
    Ok(())
}

fn put_facts(alloc: Global, out: &mut Vec<u8>, word: &[u8], facts: &[Fact]) -> Result<()> {
    for fact in facts {
        shown::put(out, word)?;
        shown::put_fact(alloc, out, fact)?;
    }
    Ok(())
}

fn put_contract(alloc: Global, out: &mut Vec<u8>, name: &Name, contract: &Contract) -> Result<()> {
    put_space(out)?;
    shown::put(out, name.as_bytes())?;
    put_facts(alloc, out, b" requires ", contract.needs.as_slice())?;
    put_facts(alloc, out, b" ensures ", contract.promises.as_slice())?;
    if let Some(cells) = &contract.assigns {
        shown::put(out, b" ")?;
        shown::put_names(out, cells.as_slice())?;
    }
    shown::put(out, b";")
}

fn put_loop(
    alloc: Global,
    out: &mut Vec<u8>,
    name: &Name,
    number: u32,
    facts: &[Fact],
) -> Result<()> {
    put_space(out)?;
    shown::put(out, b"loop ")?;
    shown::put(out, name.as_bytes())?;
    shown::put(out, b" ")?;
    shown::put_number(alloc, out, number)?;
    put_facts(alloc, out, b" invariant ", facts)?;
    shown::put(out, b";")
}

fn put_func(alloc: Global, out: &mut Vec<u8>, hints: &Hints, func: &Func) -> Result<()> {
    if let Some(contract) = hints.contract(&func.name) {
        put_contract(alloc, out, &func.name, contract)?;
    }
    for number in 1..=LAST_LOOP {
        let facts = hints.invariants(&func.name, number);
        if !facts.is_empty() {
            put_loop(alloc, out, &func.name, number, facts)?;
        }
    }
    Ok(())
}

// The contracts of functions and the invariants of their loops, in the order of the program.
fn shown_hints(alloc: Global, typed: &Typed, hints: &Hints) -> Result<String> {
    let mut out = Vec::new(alloc);
    for func in typed.program().funcs.as_slice() {
        put_func(alloc, &mut out, hints, func)?;
    }
    if out.is_empty() {
        shown::put(&mut out, b"nothing")?;
    }
    Ok(String::from_utf8(out).ok().context("no UTF-8")?)
}

/// The hints that a text says of a program, or the refusal.
pub fn read(alloc: Global, rest: &str) -> Result<String> {
    let (program, text) = rest.split_once('@').context("no hints")?;
    let typed = typed(alloc, program)?;
    let text = text_of(alloc, text)?;
    match read_hints(alloc, &typed, &text) {
        Ok(hints) => shown_hints(alloc, &typed, &hints),
        Err(fail) => crate::refused(alloc, fail),
    }
}

fn form(alloc: Global, written: &str) -> Result<Fact> {
    match read_form(alloc, written.as_bytes())? {
        Some(form) => Ok(Fact::Plain(form)),
        None => None.context("no form"),
    }
}

fn add_to(alloc: Global, typed: &Typed, hints: &mut Hints, rest: &str) -> Result<bool> {
    let (func, rest) = rest.split_once(' ').context("no function")?;
    let (number, written) = rest.split_once(' ').context("no number")?;
    let func = Name::new(alloc, func.as_bytes())?;
    let number = number.parse::<u32>()?;
    let fact = form(alloc, written)?;
    Ok(hints.add(alloc, typed, &func, number, fact)?)
}

/// Whether a form is added to the hints that a text says of a program, and the hints then.
pub fn add(alloc: Global, rest: &str) -> Result<String> {
    let (program, rest) = rest.split_once('@').context("no hints")?;
    let (text, rest) = rest.split_once('@').context("no form")?;
    let typed = typed(alloc, program)?;
    let text = text_of(alloc, text)?;
    match read_hints(alloc, &typed, &text) {
        Ok(mut hints) => {
            let done = add_to(alloc, &typed, &mut hints, rest.trim_start())?;
            let shown = shown_hints(alloc, &typed, &hints)?;
            Ok(format!(in alloc; "{done} {shown}")?)
        }
        Err(fail) => crate::refused(alloc, fail),
    }
}

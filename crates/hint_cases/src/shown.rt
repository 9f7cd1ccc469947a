//! Items as lines of cases: each item and each clause with its line before it.

use anyhow::{Context, Result};
use c_lang::Name;
use formula_texts::{put_form, put_term};
use hint_texts::{Clause, ClauseKind, Head, Item, Quantified};
use std::alloc::Global;
use terms::Fact;

pub fn put(out: &mut Vec<u8>, text: &[u8]) -> Result<()> {
    out.extend_from_slice(text)?;
    Ok(())
}

pub fn put_number(alloc: Global, out: &mut Vec<u8>, number: u32) -> Result<()> {
    let text = format!(in alloc; "{number}")?;
    put(out, text.as_bytes())
}

fn put_line(alloc: Global, out: &mut Vec<u8>, line: u32) -> Result<()> {
    if !out.is_empty() {
        put(out, b" ")?;
    }
    put_number(alloc, out, line)?;
    put(out, b":")
}

fn put_named(out: &mut Vec<u8>, word: &[u8], name: &Name) -> Result<()> {
    put(out, word)?;
    put(out, b" ")?;
    put(out, name.as_bytes())
}

fn put_head(alloc: Global, out: &mut Vec<u8>, head: &Head) -> Result<()> {
    match head {
        Head::Both(name) => put_named(out, b"both", name),
        Head::At(name) => put_named(out, b"at", name),
        Head::Loop(name, number) => {
            put_named(out, b"loop", name)?;
            put(out, b" ")?;
            put_number(alloc, out, *number)
        }
    }
}

pub fn put_fact(alloc: Global, out: &mut Vec<u8>, fact: &Fact) -> Result<()> {
    match fact {
        Fact::Plain(form) => Ok(put_form(alloc, out, form)?),
        Fact::All { var, lo, hi, body } => {
            put(out, b"all ")?;
            put(out, var.base.as_bytes())?;
            put(out, b" in ")?;
            put_term(alloc, out, lo)?;
            put(out, b" .. ")?;
            put_term(alloc, out, hi)?;
            put(out, b" : ")?;
            put_form(alloc, out, body)?;
            Ok(())
        }
    }
}

fn put_quantified(
    alloc: Global,
    out: &mut Vec<u8>,
    word: &[u8],
    quantified: &Quantified,
) -> Result<()> {
    put(out, word)?;
    put(out, b" ")?;
    if let Some(name) = &quantified.name {
        put_named(out, b"forall", name)?;
        put(out, b" is ")?;
    }
    put_fact(alloc, out, &quantified.fact)
}

pub fn put_names(out: &mut Vec<u8>, names: &[Name]) -> Result<()> {
    put(out, b"assigns")?;
    for name in names {
        put(out, b" ")?;
        put(out, name.as_bytes())?;
    }
    Ok(())
}

fn put_clause(alloc: Global, out: &mut Vec<u8>, clause: &Clause) -> Result<()> {
    put_line(alloc, out, clause.line)?;
    match &clause.kind {
        ClauseKind::Requires(fact) => put_quantified(alloc, out, b"requires", fact),
        ClauseKind::Ensures(fact) => put_quantified(alloc, out, b"ensures", fact),
        ClauseKind::Invariant(fact) => put_quantified(alloc, out, b"invariant", fact),
        ClauseKind::Assigns(names) => put_names(out, names.as_slice()),
    }
}

fn put_item(alloc: Global, out: &mut Vec<u8>, item: &Item) -> Result<()> {
    put_line(alloc, out, item.line)?;
    put_head(alloc, out, &item.head)?;
    for clause in item.clauses.as_slice() {
        put_clause(alloc, out, clause)?;
    }
    Ok(())
}

/// The items, or `nothing` where there is none.
pub fn items(alloc: Global, items: &[Item]) -> Result<String> {
    if items.is_empty() {
        return Ok(String::from_str(alloc, "nothing")?);
    }
    let mut out = Vec::new(alloc);
    for item in items {
        put_item(alloc, &mut out, item)?;
    }
    Ok(String::from_utf8(out).ok().context("no UTF-8")?)
}

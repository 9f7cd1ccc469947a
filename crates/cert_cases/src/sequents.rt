//! Sequents as cases write them: `SORTS | HYPOTHESES | GOAL`. Sorts are `x:whole`, `p:code:3`,
//! `a:row:4`, with a space between two; hypotheses have ` ; ` between two; a list without entry is `-`. A
//! fact about a range is `all NAME : LOW : HIGH : FORM`.

use anyhow::{Context, Result};
use c_lang::{Pos, Unit};
use formula_texts::{read_form, read_name, read_term};
use sqlite_items::Items;
use std::alloc::Global;
use terms::{Fact, Form, Label, Sequent, Sort, Sym, Term, What};

pub fn form(alloc: Global, text: &str) -> Result<Form> {
    read_form(alloc, text.as_bytes())?.context("no form")
}

fn term(alloc: Global, text: &str) -> Result<Term> {
    read_term(alloc, text.as_bytes())?.context("no term")
}

fn name(alloc: Global, text: &str) -> Result<Sym> {
    read_name(alloc, text.as_bytes())?.context("no name")
}

fn range(alloc: Global, text: &str) -> Result<Fact> {
    let (bound, rest) = text.split_once(" : ").context("no low end")?;
    let (low, rest) = rest.split_once(" : ").context("no high end")?;
    let (high, body) = rest.split_once(" : ").context("no body")?;
    let lo = term(alloc, low)?;
    let hi = term(alloc, high)?;
    let body = form(alloc, body)?;
    Ok(Fact::All {
        var: name(alloc, bound)?,
        lo,
        hi,
        body,
    })
}

fn fact(alloc: Global, text: &str) -> Result<Fact> {
    match text.strip_prefix("all ") {
        Some(rest) => range(alloc, rest),
        None => Ok(Fact::Plain(form(alloc, text)?)),
    }
}

fn facts(alloc: Global, text: &str) -> Result<Items<Fact>> {
    let mut facts = Items::new(alloc);
    if text == "-" {
        return Ok(facts);
    }
    for piece in text.split(" ; ") {
        facts.push(fact(alloc, piece)?)?;
    }
    Ok(facts)
}

fn sort(text: &str) -> Result<Sort> {
    if text == "whole" {
        return Ok(Sort::Whole);
    }
    let (word, count) = text.split_once(':').context("no such sort")?;
    let count = count.parse::<u32>()?;
    match word {
        "code" => Ok(Sort::Code(count)),
        _ => Ok(Sort::Row(count)),
    }
}

fn sorts(alloc: Global, text: &str) -> Result<Items<(Sym, Sort)>> {
    let mut sorts = Items::new(alloc);
    if text == "-" {
        return Ok(sorts);
    }
    for piece in text.split(' ') {
        let (word, rest) = piece.split_once(':').context("no sort")?;
        let sort = sort(rest)?;
        sorts.push((name(alloc, word)?, sort))?;
    }
    Ok(sorts)
}

/// A sequent of these facts, at a position that doesn't matter.
pub fn sequent(sorts: Items<(Sym, Sort)>, hyps: Items<Fact>, goal: Fact) -> Sequent {
    let pos = Pos {
        unit: Unit::Old,
        line: 1,
    };
    Sequent {
        sorts,
        hyps,
        goal,
        label: Label {
            pos,
            what: What::Assert,
        },
    }
}

/// The sequent of a case, and what stands behind it.
pub fn read<'a>(alloc: Global, text: &'a str) -> Result<(Sequent, &'a str)> {
    let (listed, rest) = text.split_once(" | ").context("no hypotheses")?;
    let (given, rest) = rest.split_once(" | ").context("no goal")?;
    let (asked, rest) = rest.split_once(" | ").context("no rules")?;
    let sorts = sorts(alloc, listed)?;
    let hyps = facts(alloc, given)?;
    let goal = fact(alloc, asked)?;
    Ok((sequent(sorts, hyps, goal), rest))
}

//! What each rule adds.
ghost use Rattle.std.specs.Prelude.{◌≡◌, IfOk, option_map};
ghost use Rattle.cert_checker.specs.Rules.{close, on_plain, both_parts, each_case, exchange, split_truth, divide, children};
ghost use Rattle.cert_checker.specs.Code.Made.{seen, as_facts};

use crate::close::{closes, plain};
use crate::divide::divide;
use crate::exchange::{exchange, split_truth};
use crate::range::range;
use crate::round::rounded;
use crate::rules::{cases, cut, parts};
use cert_form::Rule;
use std::alloc::{AllocError, Global};
use terms::{Fact, Sort, Sym};

fn closed(
    alloc: Global,
    facts: &[Fact],
    pairs: &[(u32, i128)],
) -> Result<Option<Vec<Vec<Fact>>>, AllocError>
    ensures { IfOk result (λ made. option_map seen made ≡ as_facts (close facts.now pairs.now)) }
{
    if closes(alloc, facts, pairs)? {
        return Ok(Some(Vec::new(alloc)));
    }
    Ok(None)
}

fn both_at(alloc: Global, facts: &[Fact], fact: u32) -> Result<Option<Vec<Vec<Fact>>>, AllocError>
    ensures { IfOk result (λ made. option_map seen made ≡ as_facts (on_plain facts.now fact both_parts)) }
{
    match plain(facts, fact) {
        Some(form) => parts(alloc, form),
        None => Ok(None),
    }
}

fn case_at(alloc: Global, facts: &[Fact], fact: u32) -> Result<Option<Vec<Vec<Fact>>>, AllocError>
    ensures { IfOk result (λ made. option_map seen made ≡ as_facts (on_plain facts.now fact each_case)) }
{
    match plain(facts, fact) {
        Some(form) => cases(alloc, form),
        None => Ok(None),
    }
}

fn same_at(
    alloc: Global,
    facts: &[Fact],
    fact: u32,
    at: u32,
) -> Result<Option<Vec<Vec<Fact>>>, AllocError>
    ensures { IfOk result (λ made. option_map seen made
        ≡ as_facts (on_plain facts.now fact (λ e. on_plain facts.now at (exchange e)))) }
{
    let Some(equality) = plain(facts, fact) else {
        return Ok(None);
    };
    match plain(facts, at) {
        Some(form) => exchange(alloc, equality, form),
        None => Ok(None),
    }
}

fn truth_in(
    alloc: Global,
    facts: &[Fact],
    fact: u32,
    place: u32,
) -> Result<Option<Vec<Vec<Fact>>>, AllocError>
    ensures { IfOk result (λ made. option_map seen made ≡ as_facts (on_plain facts.now fact (split_truth place))) }
{
    match plain(facts, fact) {
        Some(form) => split_truth(alloc, place, form),
        None => Ok(None),
    }
}

fn divided_in(
    alloc: Global,
    facts: &[Fact],
    fact: u32,
    place: u32,
) -> Result<Option<Vec<Vec<Fact>>>, AllocError>
    ensures { IfOk result (λ made. option_map seen made ≡ as_facts (on_plain facts.now fact (divide place))) }
{
    match plain(facts, fact) {
        Some(form) => divide(alloc, place, form),
        None => Ok(None),
    }
}

/// The facts that a rule adds, for each child, or `None` where it doesn't apply. A rule that closes a
/// branch has no children.
pub fn children(
    alloc: Global,
    sorts: &[(Sym, Sort)],
    facts: &[Fact],
    rule: &Rule,
) -> Result<Option<Vec<Vec<Fact>>>, AllocError>
    ensures { IfOk result (λ made. option_map seen made ≡ children sorts.now facts.now rule.now) }
{
    match rule {
        Rule::Close { sum } => closed(alloc, facts, sum.as_slice()),
        Rule::Both { fact } => both_at(alloc, facts, *fact),
        Rule::Case { fact } => case_at(alloc, facts, *fact),
        Rule::Cut { form } => Ok(Some(cut(alloc, form)?)),
        Rule::Round { sum, by } => rounded(alloc, facts, sum.as_slice(), *by),
        Rule::RangeName { name } => range(alloc, sorts, name),
        Rule::RangeRead { .. } => Ok(None),
        Rule::Same { fact, at } => same_at(alloc, facts, *fact, *at),
        Rule::Read { .. } => Ok(None),
        Rule::Inst { .. } => Ok(None),
        Rule::Truth { fact, place } => truth_in(alloc, facts, *fact, *place),
        Rule::Divide { fact, place } => divided_in(alloc, facts, *fact, *place),
    }
}

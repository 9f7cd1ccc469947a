ghost use Rattle.std.specs.Prelude.{◌≡◌, [], ◌∷◌, IfOk, option_map};
ghost use Rattle.serde_json.specs.Data.{array, item, no_items};
ghost use Rattle.serde_json.specs.View.{view, items_view};
ghost use Rattle.cert_form.specs.Certificates.{IsPart, IsRule, form as form_part, term as term_part, name as name_part};
ghost use Rattle.cert_form.specs.Code.Reading.{Found, IsOf, Makes, only_whole, two_wholes, only_sum, sum_and_multiplier};
ghost use Rattle.cert_form.specs.declared.cert.Rule.TheVariants as rule;

use crate::Rule;
use crate::parts::{one, read_multiplier_of, read_sum, read_whole, two, word_and_args};
use crate::word::Word;
use formula_texts::{read_form, read_name, read_term};
use serde_json::Value;
use sqlite_items::Items;
use std::alloc::{AllocError, Global};
use terms::{Form, Sym, Term};

fn only_whole(args: &[Value]) -> Option<u32>
    ensures { result ≡ only_whole (items_view args.now) }
{
    read_whole(one(args)?)
}

fn two_wholes(args: &[Value]) -> Option<(u32, u32)>
    ensures { result ≡ two_wholes (items_view args.now) }
{
    let (first, second) = two(args)?;
    let first = read_whole(first)?;
    let second = read_whole(second)?;
    Some((first, second))
}

fn only_sum(alloc: Global, args: &[Value]) -> Result<Option<Items<(u32, i128)>>, AllocError>
    ensures { IfOk result (λ read. read ≡ only_sum (items_view args.now)) }
{
    match one(args) {
        Some(sum) => read_sum(alloc, sum),
        None => Ok(None),
    }
}

fn sum_and_multiplier(
    alloc: Global,
    args: &[Value],
) -> Result<Option<(Items<(u32, i128)>, i128)>, AllocError>
    ensures { IfOk result (λ read. read ≡ sum_and_multiplier (items_view args.now)) }
{
    let Some((sum, by)) = two(args) else {
        return Ok(None);
    };
    let Some(by) = read_multiplier_of(by) else {
        return Ok(None);
    };
    match read_sum(alloc, sum)? {
        Some(sum) => Ok(Some((sum, by))),
        None => Ok(None),
    }
}

fn form_of(alloc: Global, value: &Value) -> Result<Option<Form>, AllocError>
    ensures { IfOk result (Found (λ f. IsPart (form_part f) (view value.now))) }
{
    match value.as_str() {
        Some(text) => read_form(alloc, text.as_bytes()),
        None => Ok(None),
    }
}

fn term_of(alloc: Global, value: &Value) -> Result<Option<Term>, AllocError>
    ensures { IfOk result (Found (λ t. IsPart (term_part t) (view value.now))) }
{
    match value.as_str() {
        Some(text) => read_term(alloc, text.as_bytes()),
        None => Ok(None),
    }
}

fn name_of(alloc: Global, value: &Value) -> Result<Option<Sym>, AllocError>
    ensures { IfOk result (Found (λ x. IsPart (name_part x) (view value.now))) }
{
    match value.as_str() {
        Some(text) => read_name(alloc, text.as_bytes()),
        None => Ok(None),
    }
}

fn read_close(alloc: Global, args: &[Value]) -> Result<Option<Rule>, AllocError>
    ensures { IfOk result (λ read. read ≡ option_map rule.Close (only_sum (items_view args.now))) }
{
    match only_sum(alloc, args)? {
        Some(sum) => Ok(Some(Rule::Close { sum })),
        None => Ok(None),
    }
}

fn read_both(args: &[Value]) -> Option<Rule>
    ensures { result ≡ option_map rule.Both (only_whole (items_view args.now)) }
{
    let fact = only_whole(args)?;
    Some(Rule::Both { fact })
}

fn read_case(args: &[Value]) -> Option<Rule>
    ensures { result ≡ option_map rule.Case (only_whole (items_view args.now)) }
{
    let fact = only_whole(args)?;
    Some(Rule::Case { fact })
}

fn read_cut(alloc: Global, args: &[Value]) -> Result<Option<Rule>, AllocError>
    ensures { IfOk result (Found (IsOf Word.Cut (items_view args.now))) }
{
    let Some(form) = one(args) else {
        return Ok(None);
    };
    match form_of(alloc, form)? {
        Some(form) => Ok(Some(Rule::Cut { form })),
        None => Ok(None),
    }
}

fn read_round(alloc: Global, args: &[Value]) -> Result<Option<Rule>, AllocError>
    ensures { IfOk result (λ read. read ≡ option_map (λ p. rule.Round p.0 p.1) (sum_and_multiplier (items_view args.now))) }
{
    match sum_and_multiplier(alloc, args)? {
        Some((sum, by)) => Ok(Some(Rule::Round { sum, by })),
        None => Ok(None),
    }
}

fn read_range_name(alloc: Global, name: &Value) -> Result<Option<Rule>, AllocError>
    ensures { IfOk result (Found (Makes rule.RangeName (λ x. name_part x ∷ []) (item (view name.now) no_items))) }
{
    match name_of(alloc, name)? {
        Some(name) => Ok(Some(Rule::RangeName { name })),
        None => Ok(None),
    }
}

fn read_range_read(args: &[Value]) -> Option<Rule>
    ensures { result ≡ option_map (λ p. rule.RangeRead p.0 p.1) (two_wholes (items_view args.now)) }
{
    let (fact, place) = two_wholes(args)?;
    Some(Rule::RangeRead { fact, place })
}

// A name alone, or a fact and a place.
fn read_range(alloc: Global, args: &[Value]) -> Result<Option<Rule>, AllocError>
    ensures { IfOk result (Found (IsOf Word.Range (items_view args.now))) }
{
    match one(args) {
        Some(name) => read_range_name(alloc, name),
        None => Ok(read_range_read(args)),
    }
}

fn read_same(args: &[Value]) -> Option<Rule>
    ensures { result ≡ option_map (λ p. rule.Same p.0 p.1) (two_wholes (items_view args.now)) }
{
    let (fact, at) = two_wholes(args)?;
    Some(Rule::Same { fact, at })
}

fn read_read(args: &[Value]) -> Option<Rule>
    ensures { result ≡ option_map (λ p. rule.Read p.0 p.1) (two_wholes (items_view args.now)) }
{
    let (fact, place) = two_wholes(args)?;
    Some(Rule::Read { fact, place })
}

fn read_inst(alloc: Global, args: &[Value]) -> Result<Option<Rule>, AllocError>
    ensures { IfOk result (Found (IsOf Word.Inst (items_view args.now))) }
{
    let Some((fact, term)) = two(args) else {
        return Ok(None);
    };
    let Some(fact) = read_whole(fact) else {
        return Ok(None);
    };
    match term_of(alloc, term)? {
        Some(term) => Ok(Some(Rule::Inst { fact, term })),
        None => Ok(None),
    }
}

fn read_truth(args: &[Value]) -> Option<Rule>
    ensures { result ≡ option_map (λ p. rule.Truth p.0 p.1) (two_wholes (items_view args.now)) }
{
    let (fact, place) = two_wholes(args)?;
    Some(Rule::Truth { fact, place })
}

fn read_divide(args: &[Value]) -> Option<Rule>
    ensures { result ≡ option_map (λ p. rule.Divide p.0 p.1) (two_wholes (items_view args.now)) }
{
    let (fact, place) = two_wholes(args)?;
    Some(Rule::Divide { fact, place })
}

#[tactic(auto, using(crate::proofs::RuleLaws::found_rules))]
fn read_by(alloc: Global, word: Word, args: &[Value]) -> Result<Option<Rule>, AllocError>
    ensures { IfOk result (Found (IsOf word (items_view args.now))) }
{
    match word {
        Word::Close => read_close(alloc, args),
        Word::Both => Ok(read_both(args)),
        Word::Case => Ok(read_case(args)),
        Word::Cut => read_cut(alloc, args),
        Word::Round => read_round(alloc, args),
        Word::Range => read_range(alloc, args),
        Word::Same => Ok(read_same(args)),
        Word::Read => Ok(read_read(args)),
        Word::Inst => read_inst(alloc, args),
        Word::Truth => Ok(read_truth(args)),
        Word::Divide => Ok(read_divide(args)),
    }
}

fn read_parts(alloc: Global, parts: &[Value]) -> Result<Option<Rule>, AllocError>
    ensures { IfOk result (Found (λ r. IsRule r (array (items_view parts.now)))) }
{
    let Some((word, args)) = word_and_args(parts) else {
        return Ok(None);
    };
    match Word::of(word) {
        Some(word) => read_by(alloc, word, args),
        None => Ok(None),
    }
}

/// The rule that a value of JSON stands for.
pub(crate) fn read_rule(alloc: Global, value: &Value) -> Result<Option<Rule>, AllocError>
    ensures { IfOk result (Found (λ r. IsRule r (view value.now))) }
{
    match value.as_array() {
        Some(parts) => read_parts(alloc, parts),
        None => Ok(None),
    }
}

ghost use Rattle.std.specs.Prelude.{◌≡◌, [], ◌∷◌, All, IfOk};
ghost use Rattle.serde_json.specs.Data.{array, string};
ghost use Rattle.serde_json.specs.View.{view, items_of};
ghost use Rattle.cert_form.specs.Written.{list_data, rule_data, cert_data, whole_data, certs_text, IsWritable};
ghost use Rattle.cert_form.specs.Certificates.{AreCerts};
ghost use Rattle.cert_form.specs.declared.cert.Rule.TheVariants as rule;

use crate::values::{
    form_value, multiplier_value, name_value, sum_value, term_value, three_values, two_values,
    whole_value, word_value,
};
use crate::{Cert, Rule};
use serde_json::Value;
use std::alloc::{AllocError, Global};
use terms::{Form, Sym, Term};

fn with_whole(alloc: Global, word: &str, number: u32) -> Result<Value, AllocError>
    ensures { IfOk result (λ value. view value ≡ array (items_of (string word.now ∷ whole_data number ∷ []))) }
{
    let word = word_value(alloc, word)?;
    two_values(alloc, word, whole_value(number))
}

fn with_wholes(alloc: Global, word: &str, first: u32, second: u32) -> Result<Value, AllocError>
    ensures { IfOk result (λ value. view value ≡ array (items_of (string word.now ∷ whole_data first ∷ whole_data second ∷ []))) }
{
    let word = word_value(alloc, word)?;
    three_values(alloc, word, whole_value(first), whole_value(second))
}

fn close_value(alloc: Global, sum: &[(u32, i128)]) -> Result<Value, AllocError>
    ensures { IfOk result (λ value. view value ≡ rule_data (rule.Close sum.now)) }
{
    let word = word_value(alloc, "close")?;
    let sum = sum_value(alloc, sum)?;
    two_values(alloc, word, sum)
}

fn cut_value(alloc: Global, form: &Form) -> Result<Value, AllocError>
    ensures { IfOk result (λ value. view value ≡ rule_data (rule.Cut form.now)) }
{
    let word = word_value(alloc, "cut")?;
    let form = form_value(alloc, form)?;
    two_values(alloc, word, form)
}

fn round_value(alloc: Global, sum: &[(u32, i128)], by: i128) -> Result<Value, AllocError>
    ensures { IfOk result (λ value. view value ≡ rule_data (rule.Round sum.now by)) }
{
    let word = word_value(alloc, "round")?;
    let sum = sum_value(alloc, sum)?;
    let by = multiplier_value(alloc, by)?;
    three_values(alloc, word, sum, by)
}

fn range_value(alloc: Global, name: &Sym) -> Result<Value, AllocError>
    ensures { IfOk result (λ value. view value ≡ rule_data (rule.RangeName name.now)) }
{
    let word = word_value(alloc, "range")?;
    let name = name_value(alloc, name)?;
    two_values(alloc, word, name)
}

fn inst_value(alloc: Global, fact: u32, term: &Term) -> Result<Value, AllocError>
    ensures { IfOk result (λ value. view value ≡ rule_data (rule.Inst fact term.now)) }
{
    let word = word_value(alloc, "inst")?;
    let term = term_value(alloc, term)?;
    three_values(alloc, word, whole_value(fact), term)
}

fn rule_value(alloc: Global, rule: &Rule) -> Result<Value, AllocError>
    ensures { IfOk result (λ value. view value ≡ rule_data rule.now) }
{
    match rule {
        Rule::Close { sum } => close_value(alloc, sum.as_slice()),
        Rule::Both { fact } => with_whole(alloc, "both", *fact),
        Rule::Case { fact } => with_whole(alloc, "case", *fact),
        Rule::Cut { form } => cut_value(alloc, form),
        Rule::Round { sum, by } => round_value(alloc, sum.as_slice(), *by),
        Rule::RangeName { name } => range_value(alloc, name),
        Rule::RangeRead { fact, place } => with_wholes(alloc, "range", *fact, *place),
        Rule::Same { fact, at } => with_wholes(alloc, "same", *fact, *at),
        Rule::Read { fact, place } => with_wholes(alloc, "read", *fact, *place),
        Rule::Inst { fact, term } => inst_value(alloc, *fact, term),
        Rule::Truth { fact, place } => with_wholes(alloc, "truth", *fact, *place),
        Rule::Divide { fact, place } => with_wholes(alloc, "divide", *fact, *place),
    }
}

fn cert_value(alloc: Global, cert: &Option<Cert>) -> Result<Value, AllocError>
    ensures { IfOk result (λ value. view value ≡ cert_data cert.now) }
{
    let Some(cert) = cert else {
        return Ok(Value::Null);
    };
    let rules = cert.rules.as_slice();
    let mut values = Vec::with_capacity(alloc, rules.len())?;
    for rule in rules {
        values.push(rule_value(alloc, rule)?)?;
    }
    Ok(Value::Array(values))
}

fn certs_value(alloc: Global, certs: &[Option<Cert>]) -> Result<Value, AllocError>
    ensures { IfOk result (λ value. view value ≡ list_data cert_data certs.now) }
{
    let mut values = Vec::with_capacity(alloc, certs.len())?;
    for cert in certs {
        values.push(cert_value(alloc, cert)?)?;
    }
    Ok(Value::Array(values))
}

/// The text of certificates: compact JSON and one line feed. Where they are writable, the text is
/// theirs, so within the size limit of texts it is read back as them.
pub fn write_certs(alloc: Global, certs: &[Option<Cert>]) -> Result<Vec<u8>, AllocError>
    ensures text { IfOk result (λ text. text.items ≡ certs_text certs.now) }
    ensures reads_back { IfOk result (λ text. All IsWritable certs.now → AreCerts text.items certs.now) }
{
    let value = certs_value(alloc, certs)?;
    let mut text = value.to_vec(alloc)?;
    text.push(b'\n')?;
    Ok(text)
}

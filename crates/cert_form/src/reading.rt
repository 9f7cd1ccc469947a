ghost use Rattle.std.specs.Prelude.{◌≡◌, ◌≤◌, List, Option, IfOk, IsUtf8, MatchOption, MatchResult, None, Some, length};
ghost use Rattle.serde_json.specs.Read.{read as read_text};
ghost use Rattle.c_lang.specs.Limits.{size_limit};
ghost use Rattle.c_lang.specs.Refusals.{refused_at};
ghost use Rattle.c_lang.specs.declared.unit.Unit.TheVariants.{Certs};
ghost use Rattle.cert_form.specs.declared.cert.Cert.{Cert as CertData};
ghost use Rattle.serde_json.specs.View.{view, items_view};
ghost use Rattle.cert_form.specs.Certificates.{Each, AreCerts, IsAnswer, IsCert, IsRule, first_line};
ghost use Rattle.cert_form.specs.Code.Reading.{Found};

use crate::rules::read_rule;
use crate::{Cert, Rule};
use c_lang::refusal::{BAD_CERTIFICATES, PAST_LIMIT};
use c_lang::{Fail, Pos, Refusal, Unit, limit_of};
use serde_json::Value;
use sqlite_items::Items;
use std::alloc::{AllocError, Global};

#[tactic(auto, using(crate::proofs::RelationLoops::relation_loop))]
fn read_rules(alloc: Global, values: &[Value]) -> Result<Option<Items<Rule>>, AllocError>
    ensures { IfOk result (Found (λ rules. Each IsRule rules (items_view values.now))) }
{
    let mut rules = Items::new(alloc);
    for value in values {
        match read_rule(alloc, value)? {
            Some(rule) => rules.push(rule)?,
            None => return Ok(None),
        }
    }
    Ok(Some(rules))
}

fn read_cert(alloc: Global, value: &Value) -> Result<Option<Option<Cert>>, AllocError>
    ensures { IfOk result (Found (λ cert. IsCert cert (view value.now))) }
{
    if value.is_null() {
        return Ok(Some(None));
    }
    let Some(values) = value.as_array() else {
        return Ok(None);
    };
    match read_rules(alloc, values)? {
        Some(rules) => Ok(Some(Some(Cert { rules }))),
        None => Ok(None),
    }
}

#[tactic(auto, using(crate::proofs::RelationLoops::relation_loop))]
fn read_list(alloc: Global, values: &[Value]) -> Result<Option<Items<Option<Cert>>>, AllocError>
    ensures { IfOk result (Found (λ certs. Each IsCert certs (items_view values.now))) }
{
    let mut certs = Items::new(alloc);
    for value in values {
        match read_cert(alloc, value)? {
            Some(cert) => certs.push(cert)?,
            None => return Ok(None),
        }
    }
    Ok(Some(certs))
}

fn read_data(alloc: Global, bytes: &[u8]) -> Result<Option<Value>, AllocError>
    ensures { IfOk result (λ read. MatchOption read (IsUtf8 bytes.now → read_text bytes.now ≡ None) (λ value. IsUtf8 bytes.now × (read_text bytes.now ≡ Some (view value)))) }
{
    match Value::from_slice(alloc, bytes) {
        Ok(value) => Ok(Some(value)),
        Err(error) => {
            if error.is_memory() {
                return Err(AllocError);
            }
            Ok(None)
        }
    }
}

fn certs_of(alloc: Global, bytes: &[u8]) -> Result<Option<Items<Option<Cert>>>, AllocError>
    ensures { IfOk result (Found (AreCerts bytes.now)) }
{
    let Some(value) = read_data(alloc, bytes)? else {
        return Ok(None);
    };
    match value.as_array() {
        Some(values) => read_list(alloc, values),
        None => Ok(None),
    }
}

fn refused(number: u8) -> Fail
    ensures { result ≡ Fail.Refused (refused_at number first_line) }
{
    let start = Pos {
        unit: Unit::Certs,
        line: 1,
    };
    Fail::Refused(Refusal::at(number, start))
}

/// The certificates that a text holds, `None` for each condition without one. The text is refused
/// at its first line: with 27 where it is longer than `limit_of(Unit::Certs)`, and else with 25 where
/// it holds no certificates.
pub fn read_certs(alloc: Global, bytes: &[u8]) -> Result<Items<Option<Cert>>, Fail>
    ensures answer { IsAnswer bytes.now result }
    // Unless memory runs out, each text of certificates within the limit is read as these.
    ensures only { (certs : List (Option CertData)) → length bytes.now ≤ size_limit Certs → AreCerts bytes.now certs
        → MatchResult result (λ read. read ≡ certs) (λ fail. fail ≡ Fail.NoMemory) }
{
    if bytes.len() > limit_of(Unit::Certs) {
        return Err(refused(PAST_LIMIT));
    }
    match certs_of(alloc, bytes)? {
        Some(certs) => Ok(certs),
        None => Err(refused(BAD_CERTIFICATES)),
    }
}

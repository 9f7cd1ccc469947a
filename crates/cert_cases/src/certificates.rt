//! What the readers, the writer and the checker of certificates answer.

use crate::sequents;
use crate::texts::said;
use anyhow::{Context, Result};
use c_lang::Fail;
use cert_checker::check_cert;
use cert_form::{Cert, read_certs, write_certs};
use sqlite_items::Items;
use std::alloc::Global;
use terms::{Fact, Form, Sequent};

fn refused(alloc: Global, fail: Fail) -> Result<String> {
    match fail {
        Fail::Refused(refusal) => Ok(format!(in alloc; "{refusal}")?),
        Fail::NoMemory => None.context("out of memory"),
    }
}

/// A list of certificates that is read, written again, without the line feed at its end.
pub fn certs_back(alloc: Global, text: &[u8]) -> Result<String> {
    match read_certs(alloc, text) {
        Ok(certs) => {
            let mut text = write_certs(alloc, certs.as_slice())?;
            text.pop();
            said(alloc, Some(text))
        }
        Err(fail) => refused(alloc, fail),
    }
}

// The one certificate of a text of its rules.
fn cert(alloc: Global, rules: &str) -> Result<Items<Option<Cert>>> {
    let text = format!(in alloc; "[{rules}]")?;
    match read_certs(alloc, text.as_bytes()) {
        Ok(certs) => Ok(certs),
        Err(_) => None.context("no certificates"),
    }
}

fn verdict(alloc: Global, sequent: &Sequent, certs: &[Option<Cert>]) -> Result<String> {
    let cert = certs
        .first()
        .and_then(|cert| cert.as_ref())
        .context("no certificate")?;
    let yes = check_cert(alloc, sequent, cert)?;
    Ok(format!(in alloc; "{yes}")?)
}

/// `SORTS | HYPOTHESES | GOAL | RULES`, whether the certificate of these rules checks.
pub fn checked(alloc: Global, text: &str) -> Result<String> {
    let (sequent, rules) = sequents::read(alloc, text)?;
    let certs = cert(alloc, rules)?;
    verdict(alloc, &sequent, certs.as_slice())
}

// A comparison that is denied so many times.
fn denied(alloc: Global, times: u32) -> Result<Form> {
    let mut form = sequents::form(alloc, "x <= y")?;
    for _ in 0..times {
        form = Form::denied(form)?;
    }
    Ok(form)
}

/// Whether the certificate checks that closes a hypothesis of so many denials, and the same as goal.
pub fn deep_checked(alloc: Global, text: &str) -> Result<String> {
    let form = denied(alloc, text.parse::<u32>()?)?;
    let mut hyps = Items::new(alloc);
    hyps.push(Fact::Plain(form.copy(alloc)?))?;
    let sequent = sequents::sequent(Items::new(alloc), hyps, Fact::Plain(form));
    let certs = cert(alloc, r#"[["close",[[0,"1"],[1,"1"]]]]"#)?;
    verdict(alloc, &sequent, certs.as_slice())
}

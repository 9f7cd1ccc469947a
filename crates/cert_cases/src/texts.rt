//! What the readers and writers of formulas answer.

use anyhow::{Context, Result};
use formula_texts::{put_form, put_name, put_term, read_form, read_name, read_term};
use std::alloc::Global;
use terms::{Form, Sym, Term};

/// What was written, or `none`.
pub fn said(alloc: Global, text: Option<Vec<u8>>) -> Result<String> {
    match text {
        Some(text) => Ok(String::from_utf8(text).ok().context("no UTF-8")?),
        None => Ok(String::from_str(alloc, "none")?),
    }
}

fn form_written(alloc: Global, form: &Form) -> Result<Vec<u8>> {
    let mut text = Vec::new(alloc);
    put_form(alloc, &mut text, form)?;
    Ok(text)
}

fn term_written(alloc: Global, term: &Term) -> Result<Vec<u8>> {
    let mut text = Vec::new(alloc);
    put_term(alloc, &mut text, term)?;
    Ok(text)
}

fn name_written(alloc: Global, name: &Sym) -> Result<Vec<u8>> {
    let mut text = Vec::new(alloc);
    put_name(&mut text, name)?;
    Ok(text)
}

/// A form that is read, written again.
pub fn form_back(alloc: Global, text: &[u8]) -> Result<String> {
    match read_form(alloc, text)? {
        Some(form) => said(alloc, Some(form_written(alloc, &form)?)),
        None => said(alloc, None),
    }
}

/// A term that is read, written again.
pub fn term_back(alloc: Global, text: &[u8]) -> Result<String> {
    match read_term(alloc, text)? {
        Some(term) => said(alloc, Some(term_written(alloc, &term)?)),
        None => said(alloc, None),
    }
}

/// A name that is read, written again.
pub fn name_back(alloc: Global, text: &[u8]) -> Result<String> {
    match read_name(alloc, text)? {
        Some(name) => said(alloc, Some(name_written(alloc, &name)?)),
        None => said(alloc, None),
    }
}

//! Clients of two versions.

use crate::programs::{shown, typed};
use anyhow::Result;
use c_lang::{Fail, Name, Unit};
use c_parser::parse_text;
use c_types::Typed;
use client_specs::{Client, ClientKind, check_client};
use std::alloc::Global;
use version_names::link;

fn word(kind: ClientKind) -> &'static str {
    match kind {
        ClientKind::Backward => "backward",
        ClientKind::Post => "post",
        ClientKind::Conform => "conform",
    }
}

fn checked(
    alloc: Global,
    old: &Typed,
    new: &Typed,
    text: &[u8],
    spec: &Name,
) -> Result<Client, Fail> {
    let links = link(alloc, old, new)?;
    let program = parse_text(alloc, Unit::Client, text)?;
    check_client(alloc, old, new, &links, program, spec)
}

fn client(alloc: Global, old: &[u8], new: &[u8], text: &[u8], spec: &str) -> Result<String, Fail> {
    let old = typed(alloc, Unit::Old, old)?;
    let new = typed(alloc, Unit::New, new)?;
    let spec = Name::new(alloc, spec.as_bytes())?;
    let client = checked(alloc, &old, &new, text, &spec)?;
    Ok(format!(in alloc; "{} {}", word(client.kind()), client.program().funcs.len())?)
}

/// The kind of the client with this function, and how many functions it has.
pub fn kind(alloc: Global, old: &[u8], new: &[u8], text: &[u8], spec: &str) -> Result<String> {
    Ok(shown(alloc, client(alloc, old, new, text, spec))?)
}

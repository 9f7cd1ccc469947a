//! What joins two versions: links, merged names, update points and transformers.

use crate::programs::{shown, typed};
use anyhow::{Context, Result, bail};
use c_lang::{Fail, Name, Program, Unit};
use c_parser::parse_text;
use c_types::Typed;
use case_texts::text_of;
use state_xform::check_xform;
use std::alloc::{AllocError, Global};
use std::str;
use update_points::list_points;
use version_names::{Links, Origin, Part, Sort2, Version, link, merged_name};

fn part_word(part: Option<Part>) -> &'static str {
    match part {
        None => "-",
        Some(Part::Both) => "both",
        Some(Part::Old) => "old",
        Some(Part::New) => "new",
    }
}

fn links_text(alloc: Global, links: &Links, name: &Name) -> Result<String, AllocError> {
    let mut said = String::new(alloc);
    for (word, sort) in [("global", Sort2::Cell), (", function", Sort2::Code)] {
        said.push_str(word)?;
        for version in [Version::Old, Version::New] {
            write!(said, " {}", part_word(links.of(version, sort, name)))?;
        }
    }
    if let Some(changed) = links.changed(0) {
        write!(
            said,
            ", changed {}",
            str::from_utf8(changed.as_bytes()).unwrap_or("?")
        )?;
    }
    Ok(said)
}

fn links_of(alloc: Global, old: &[u8], new: &[u8], word: &str) -> Result<String, Fail> {
    let old = typed(alloc, Unit::Old, old)?;
    let new = typed(alloc, Unit::New, new)?;
    let links = link(alloc, &old, &new)?;
    let name = Name::new(alloc, word.as_bytes())?;
    Ok(links_text(alloc, &links, &name)?)
}

/// Where a name stands as a global of the old and of the new version, then as a function of both, and
/// the first global that changed.
pub fn links(alloc: Global, old: &[u8], new: &[u8], name: &str) -> Result<String> {
    Ok(shown(alloc, links_of(alloc, old, new, name))?)
}

/// `ORIGIN NAME`, the name in a merged program.
pub fn merged(alloc: Global, words: &str) -> Result<String> {
    let (origin, name) = words.split_once(' ').context("a name has an origin")?;
    let origin = match origin {
        "both" => Origin::Both,
        "any" => Origin::Any,
        "old" => Origin::Old,
        "new" => Origin::New,
        "xform" => Origin::Xform,
        "client" => Origin::Client,
        _ => bail!("no such origin: {origin}"),
    };
    let name = merged_name(alloc, origin, &Name::new(alloc, name.as_bytes())?)?;
    Ok(String::from_str(alloc, str::from_utf8(name.as_bytes()).unwrap_or("?"))?)
}

fn permitted(
    alloc: Global,
    old: &Program,
    client: Option<&Program>,
    listed: Option<&[u32]>,
) -> Result<String, Fail> {
    let points = list_points(alloc, old, client, listed)?;
    let mut said = String::from_str(alloc, "permits")?;
    for number in 1..5 {
        if points.permits(number) {
            write!(said, " {number}")?;
        }
    }
    Ok(said)
}

fn points_of(
    alloc: Global,
    old: &[u8],
    client: &[u8],
    listed: Option<&[u32]>,
) -> Result<String, Fail> {
    let old = parse_text(alloc, Unit::Old, old)?;
    if client.is_empty() {
        return permitted(alloc, &old, None, listed);
    }
    let client = parse_text(alloc, Unit::Client, client)?;
    permitted(alloc, &old, Some(&client), listed)
}

/// Which of the points 1 to 4 may update, of the old version and of the client, where there is one.
/// The list is `all`, `none` or numbers with commas between them.
pub fn points(alloc: Global, old: &[u8], client: &[u8], list: &str) -> Result<String> {
    if list == "all" {
        return Ok(shown(alloc, points_of(alloc, old, client, None))?);
    }
    let mut numbers = Vec::new(alloc);
    if list != "none" {
        for word in list.split(',') {
            numbers.push(word.parse::<u32>()?)?;
        }
    }
    Ok(shown(alloc, points_of(alloc, old, client, Some(&numbers)))?)
}

fn checked(alloc: Global, old: &Typed, new: &Typed, text: &[u8]) -> Result<String, Fail> {
    let links = link(alloc, old, new)?;
    let program = parse_text(alloc, Unit::Xform, text)?;
    let xform = check_xform(alloc, old, new, &links, program)?;
    Ok(format!(in alloc; "transformer {}", xform.program().funcs.len())?)
}

fn transformer(alloc: Global, old: &[u8], new: &[u8], text: &[u8]) -> Result<String, Fail> {
    let old = typed(alloc, Unit::Old, old)?;
    let new = typed(alloc, Unit::New, new)?;
    checked(alloc, &old, &new, text)
}

/// How many functions a transformer of the two versions has.
pub fn transformed(alloc: Global, old: &[u8], new: &[u8], written: &str) -> Result<String> {
    let text = text_of(alloc, written)?;
    Ok(shown(alloc, transformer(alloc, old, new, &text))?)
}

//! What `row_of` answers.

use crate::sequents;
use anyhow::{Context, Result};
use cert_checker::{Atoms, row_of};
use linear_rows::{Row, RowFail};
use std::alloc::Global;

// The multiples by the numbers of their atoms, and the bound.
fn shown(alloc: Global, row: &Row) -> Result<String> {
    let mut text = String::new(alloc);
    for part in row.parts.as_slice() {
        write!(text, "{}*{} ", part.1, part.0)?;
    }
    let sign = if row.equal { "=" } else { "<=" };
    write!(text, "{sign} {}", row.bound)?;
    Ok(text)
}

/// The row of a form, `none`, or `wide`.
pub fn row_shown(alloc: Global, text: &str) -> Result<String> {
    let form = sequents::form(alloc, text)?;
    let mut atoms = Atoms::new(alloc)?;
    match row_of(alloc, &form, &mut atoms) {
        Ok(Some(row)) => shown(alloc, &row),
        Ok(None) => Ok(String::from_str(alloc, "none")?),
        Err(RowFail::Wide) => Ok(String::from_str(alloc, "wide")?),
        Err(RowFail::NoMemory) => None.context("out of memory"),
    }
}

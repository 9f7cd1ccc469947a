//! Texts as cases write them on a line: `\n` stands for the end of a line, `\xHH` for the byte with this
//! hexadecimal number, and `\62<(>` for 62 times what stands between `<` and `>`.
#![tactic(auto)]

use anyhow::{Context, Result};
use std::alloc::Global;

/// The text that a case writes so. Its errors: a `\` that begins nothing, and want of memory.
pub fn text_of(alloc: Global, written: &str) -> Result<Vec<u8>> {
    let mut text = Vec::new(alloc);
    let mut pieces = written.split('\\');
    text.extend_from_slice(pieces.next().unwrap_or("").as_bytes())?;
    for piece in pieces {
        add_piece(&mut text, piece)?;
    }
    Ok(text)
}

// What stands behind a `\`, up to the next one.
fn add_piece(text: &mut Vec<u8>, piece: &str) -> Result<()> {
    let rest = if let Some(rest) = piece.strip_prefix('n') {
        text.push(b'\n')?;
        rest
    } else if let Some(rest) = piece.strip_prefix('x') {
        add_byte(text, rest)?
    } else {
        add_repeated(text, piece)?
    };
    text.extend_from_slice(rest.as_bytes())?;
    Ok(())
}

// A byte by its two digits. The answer is what follows them.
fn add_byte<'a>(text: &mut Vec<u8>, piece: &'a str) -> Result<&'a str> {
    let (digits, rest) = piece.split_at_checked(2).context("a byte has two digits")?;
    text.push(u8::from_str_radix(digits, 16)?)?;
    Ok(rest)
}

// A piece so many times. The answer is what follows it.
fn add_repeated<'a>(text: &mut Vec<u8>, piece: &'a str) -> Result<&'a str> {
    let (times, rest) = piece.split_once('<').context("no piece to repeat")?;
    let (repeated, rest) = rest.split_once('>').context("a repeated piece has no end")?;
    for _ in 0..times.parse::<u32>()? {
        text.extend_from_slice(repeated.as_bytes())?;
    }
    Ok(rest)
}

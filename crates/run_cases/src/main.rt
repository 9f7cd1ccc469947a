//! Cases of the plain machine, of links, of update points, of transformers and of clients.
//!
//! Each line of `stdin` has a line of `stdout` with the same number. A line `old TEXT`, `new TEXT`,
//! `client TEXT` or `merged TEXT` sets a text for the cases below it; a text is as `case_texts` has it.
//! Such a line, an empty line and one that begins with `#` are printed as they stand. Every other
//! line is a case, and its answer is printed.
#![tactic(auto)]

mod clients;
mod programs;
mod runs;
mod updates;

use anyhow::{Context, Result, bail};
use case_texts::text_of;
use std::alloc::Global;

/// The texts that the cases speak of.
#[derive(Drop)]
pub struct Texts {
    old: Vec<u8>,
    new: Vec<u8>,
    client: Vec<u8>,
    merged: Vec<u8>,
}

impl Texts {
    fn new(alloc: Global) -> Texts {
        Texts {
            old: Vec::new(alloc),
            new: Vec::new(alloc),
            client: Vec::new(alloc),
            merged: Vec::new(alloc),
        }
    }

    fn set(&mut self, alloc: Global, word: &str, written: &str) -> Result<()> {
        let text = text_of(alloc, written)?;
        match word {
            "old" => self.old = text,
            "new" => self.new = text,
            "client" => self.client = text,
            _ => self.merged = text,
        }
        Ok(())
    }
}

fn answer(alloc: Global, texts: &Texts, command: &str, words: &str) -> Result<String> {
    match command {
        "run" => {
            let (steps, answers) = words
                .split_once(' ')
                .context("a run has steps and answers")?;
            runs::replayed(alloc, &texts.merged, steps.parse::<u32>()?, answers)
        }
        "points" => { updates::points(alloc, &texts.old, &texts.client, words) }
        "links" => updates::links(alloc, &texts.old, &texts.new, words),
        "transform" => { updates::transformed(alloc, &texts.old, &texts.new, words) }
        "serve" => clients::kind(alloc, &texts.old, &texts.new, &texts.client, words),
        "name" => updates::merged(alloc, words),
        _ => bail!("no such command: {command}"),
    }
}

fn main(rt: HostRuntime) -> Result<()> {
    let mut texts = Texts::new(rt.alloc());
    for line in rt.lines(rt.alloc()) {
        let line = line?;
        let (word, rest) = line.as_str().split_once(' ').unwrap_or((line.as_str(), ""));
        match word {
            "old" | "new" | "client" | "merged" => {
                texts.set(rt.alloc(), word, rest)?;
                println!(rt; "{line}")?;
            }
            "" | "#" => println!(rt; "{line}")?,
            _ => {
                let said = answer(rt.alloc(), &texts, word, rest)?;
                println!(rt; "{said}")?;
            }
        }
    }
    Ok(())
}
